// Target bytes: whom an SPI is offered to.
#![tactic(auto)]

ghost use Rattle.std.specs.Prelude.{◌≡◌, ◌^◌, ◌<◌};
ghost use Rattle.state.specs.Layout.{Limits, Room};
ghost use Rattle.targets.specs.Targets.{own_byte, read_target, existing_bits, write_target};

use interrupt::{GicVcpuId, IntId};
use state::Shape;
use state::words::{put_record, record};
use word::mask_byte;

// The bit that names a vCPU, in a target byte and in a source set.
pub fn vcpu_bit(vcpu: GicVcpuId) -> u8
    requires { vcpu.0 < 8 }
    ensures { result ≡ 2 ^ vcpu.0 }
{
    1 << vcpu.0
}

pub fn own_byte(vcpu: GicVcpuId) -> u8
    ensures { result ≡ own_byte vcpu.0 }
{
    if vcpu.0 < 8 { vcpu_bit(vcpu) } else { 0 }
}

#[tactic(auto, unfolding(crate::specs::Targets::read_target))]
pub fn read_target(words: &[u32], shape: Shape, vcpu: GicVcpuId, intid: IntId) -> u8
    requires { Room shape words.now }
    ensures { result ≡ read_target shape vcpu.0 words.now intid.0 }
{
    if intid.is_private() {
        return own_byte(vcpu);
    }
    if shape.limit <= intid.0 {
        return 0;
    }
    let mask = record(words, shape, vcpu, intid).cpu_target_mask;
    mask_byte(mask)
}

// Of fewer than 8 vCPUs the upper bits name nobody.
fn existing_bits(shape: Shape, byte: u8) -> u8
    requires { Limits shape }
    ensures { result ≡ existing_bits shape byte }
{
    (byte as u32 % (1u32 << shape.count)) as u8
}

#[tactic(auto, unfolding(crate::specs::Targets::write_target))]
pub fn write_target(words: &mut [u32], shape: Shape, vcpu: GicVcpuId, intid: IntId, byte: u8)
    requires { Room shape words.old }
    ensures { words.new ≡ write_target shape vcpu.0 intid.0 byte words.old }
{
    if intid.is_private() {
        return;
    }
    if shape.limit <= intid.0 {
        return;
    }
    let mask = existing_bits(shape, byte);
    let changed = record(words, shape, vcpu, intid).set_cpu_target_mask(mask);
    put_record(words, shape, vcpu, intid, changed);
}
