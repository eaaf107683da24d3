// The C face of the public calls, over numbers and slices: `rt lib` makes libvgic.a of it. include/vgic.h declares it.
#![tactic(auto)]

ghost use Rattle.std.specs.Prelude.{◌≡◌, List, ℕ};
ghost use Rattle.answer.specs.Answer.{outcome};
ghost use Rattle.vgic.specs.Packed.{packed_answer, state_words, VgicSetup, VgicReadDistributor, VgicWriteDistributor, VgicReadCpuInterface, VgicWriteCpuInterface, VgicSetLevel, VgicPulse, VgicReadV2m, VgicWriteV2m, VgicIrqLevel, VgicInterrupt, VgicSave, VgicLoad, VgicImageShape, image_room};

use answer::{refusal_in, retired_in, value_in, wake_in};
use controller::Answer;
use interrupt::GicVcpuId;
use register::{AccessWidth, Refusal};
use save::image_bytes;
use state::lent::validate_limits;

// What the lowest bit of each field above the value counts.
const RETIRED: u64 = 0x1_0000_0000;

const WAKE: u64 = 0x1_0000_0000_0000;

const REFUSAL: u64 = 0x100_0000_0000_0000;

// An answer as one number. No shift and no sum leaves its 64 bits.
#[tactic(auto, unfolding(crate::specs::Packed::packed_answer))]
fn packed(answer: Answer) -> u64
    ensures { (s : List ℕ) → result ≡ packed_answer (outcome answer s) }
{
    let value = u64::from(value_in(answer));
    let retired = u64::from(retired_in(answer)) % 0x1_0000;
    let wake = u64::from(wake_in(answer));
    let refusal = u64::from(refusal_in(answer));
    value + RETIRED * retired + WAKE * wake + REFUSAL * refusal
}

#[unsafe(no_mangle)]
pub extern "C" fn vgic_state_words(count: u64, limit: u64) -> u64
    ensures { result ≡ state_words count limit }
{
    match validate_limits(count, limit) {
        Some(shape) => shape.size() as u64,
        None => 0,
    }
}

#[unsafe(no_mangle)]
pub extern "C" fn vgic_setup(words: &mut [u32], count: u64, limit: u64) -> u64
    ensures { VgicSetup count limit words.old result words.new }
{
    packed(controller::setup(words, count, limit))
}

#[unsafe(no_mangle)]
pub extern "C" fn vgic_read_v2_distributor(words: &[u32], vcpu: u64, offset: u64, width: u64) -> u64
    ensures { VgicReadDistributor vcpu offset width words.now result words.now }
{
    let Some(access) = AccessWidth::new(width) else {
        return packed(Err(Refusal::Width));
    };
    packed(controller::read_v2_distributor(words, GicVcpuId(vcpu as usize), offset, access))
}

#[unsafe(no_mangle)]
pub extern "C" fn vgic_write_v2_distributor(
    words: &mut [u32],
    vcpu: u64,
    offset: u64,
    width: u64,
    value: u64,
) -> u64
    ensures { VgicWriteDistributor vcpu offset width value words.old result words.new }
{
    let Some(access) = AccessWidth::new(width) else {
        return packed(Err(Refusal::Width));
    };
    packed(controller::write_v2_distributor(words, GicVcpuId(vcpu as usize), offset, access, value))
}

#[unsafe(no_mangle)]
pub extern "C" fn vgic_read_v2_cpu_interface(
    words: &mut [u32],
    vcpu: u64,
    offset: u64,
    width: u64,
) -> u64
    ensures { VgicReadCpuInterface vcpu offset width words.old result words.new }
{
    let Some(access) = AccessWidth::new(width) else {
        return packed(Err(Refusal::Width));
    };
    packed(controller::read_v2_cpu_interface(words, GicVcpuId(vcpu as usize), offset, access))
}

#[unsafe(no_mangle)]
pub extern "C" fn vgic_write_v2_cpu_interface(
    words: &mut [u32],
    vcpu: u64,
    offset: u64,
    width: u64,
    value: u64,
) -> u64
    ensures { VgicWriteCpuInterface vcpu offset width value words.old result words.new }
{
    let Some(access) = AccessWidth::new(width) else {
        return packed(Err(Refusal::Width));
    };
    packed(controller::write_v2_cpu_interface(
        words,
        GicVcpuId(vcpu as usize),
        offset,
        access,
        value,
    ))
}

#[unsafe(no_mangle)]
pub extern "C" fn vgic_set_level(words: &mut [u32], vcpu: u64, number: u64, asserted: bool) -> u64
    ensures { VgicSetLevel vcpu number asserted words.old result words.new }
{
    packed(controller::set_level(words, GicVcpuId(vcpu as usize), number, asserted))
}

#[unsafe(no_mangle)]
pub extern "C" fn vgic_pulse(words: &mut [u32], vcpu: u64, number: u64) -> u64
    ensures { VgicPulse vcpu number words.old result words.new }
{
    packed(controller::pulse(words, GicVcpuId(vcpu as usize), number))
}

#[unsafe(no_mangle)]
pub extern "C" fn vgic_read_v2m(
    words: &[u32],
    first: u64,
    count: u64,
    offset: u64,
    width: u64,
) -> u64
    ensures { VgicReadV2m first count offset width words.now result words.now }
{
    let Some(access) = AccessWidth::new(width) else {
        return packed(Err(Refusal::Width));
    };
    packed(controller::read_v2m(words, first, count, offset, access))
}

#[unsafe(no_mangle)]
pub extern "C" fn vgic_write_v2m(
    words: &mut [u32],
    first: u64,
    count: u64,
    offset: u64,
    width: u64,
    value: u64,
) -> u64
    ensures { VgicWriteV2m first count offset width value words.old result words.new }
{
    let Some(access) = AccessWidth::new(width) else {
        return packed(Err(Refusal::Width));
    };
    packed(controller::write_v2m(words, first, count, offset, access, value))
}

#[unsafe(no_mangle)]
pub extern "C" fn vgic_irq_level(words: &[u32], vcpu: u64) -> u64
    ensures { VgicIrqLevel vcpu words.now result words.now }
{
    packed(controller::irq_level(words, GicVcpuId(vcpu as usize)))
}

#[unsafe(no_mangle)]
pub extern "C" fn vgic_interrupt(words: &[u32], vcpu: u64, number: u64) -> u64
    ensures { VgicInterrupt vcpu number words.now result words.now }
{
    packed(controller::interrupt_word(words, GicVcpuId(vcpu as usize), number))
}

#[unsafe(no_mangle)]
pub extern "C" fn vgic_image_bytes(count: u64, limit: u64) -> u64
    ensures { result ≡ image_room count limit }
{
    match validate_limits(count, limit) {
        Some(shape) => image_bytes(shape) as u64,
        None => 0,
    }
}

#[unsafe(no_mangle)]
pub extern "C" fn vgic_save(words: &[u32], image: &mut [u8]) -> u64
    ensures { VgicSave words.now image.old result words.now image.new }
{
    packed(controller::save(words, image))
}

#[unsafe(no_mangle)]
pub extern "C" fn vgic_image_shape(image: &[u8]) -> u64
    ensures { VgicImageShape image.now result image.now }
{
    packed(controller::image_shape(image))
}

#[unsafe(no_mangle)]
pub extern "C" fn vgic_load(words: &mut [u32], image: &[u8]) -> u64
    ensures { VgicLoad image.now words.old result words.new }
{
    packed(controller::load(words, image))
}
