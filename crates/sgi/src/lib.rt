// The sources of SGIs: who has sent one, and sending it.
#![tactic(auto)]

ghost use Rattle.std.specs.Prelude.{◌≡◌, ◌<◌};
ghost use Rattle.state.specs.Layout.{Room, Sources};
ghost use Rattle.interrupt.specs.Record.{set_pending};
ghost use Rattle.state.specs.Words.{HoldsSlot, changed};
ghost use Rattle.sgi.specs.Sgi.{sourced, merged_sources, write_sources, pend_sgi, sgi_target, includes, sent_to, send_sgi, write_sgir};

use interrupt::{GicVcpuId, IntId};
use state::Shape;
use state::words::{put_record, put_sgi_sources, record, sgi_sources};
use targets::vcpu_bit;

// What the lowest bit of a field of SGIR counts: the target list in bits 23:16, the filter in 25:24.
const TARGETS: u32 = 0x1_0000;

const FILTER: u32 = 0x100_0000;

// Whom a write to SGIR names.
#[derive(Clone, Copy)]
pub enum SgiTarget {
    Mask(u8),
    AllExceptSelf,
    SelfOnly,
    Nobody,
}

pub fn set_pending(words: &mut [u32], shape: Shape, vcpu: GicVcpuId, sgi: IntId, pending: bool)
    requires { HoldsSlot shape (Sources vcpu.0 sgi.0) words.old }
    ensures { words.new ≡ changed shape vcpu.0 sgi.0 (λ q. set_pending q pending) words.old }
{
    let changed = record(words, shape, vcpu, sgi).set_pending(pending);
    put_record(words, shape, vcpu, sgi, changed);
}

fn put_sources(words: &mut [u32], shape: Shape, vcpu: GicVcpuId, sgi: IntId, sources: u8)
    requires { HoldsSlot shape (Sources vcpu.0 sgi.0) words.old }
    ensures { words.new ≡ sourced shape vcpu.0 sgi.0 sources words.old }
{
    put_sgi_sources(words, shape, vcpu, sgi, sources);
    set_pending(words, shape, vcpu, sgi, sources != 0);
}

fn merged_sources(sources: u8, mask: u8, set: bool) -> u8
    ensures { result ≡ merged_sources «set» sources mask }
{
    if set { sources | mask } else { sources & !mask }
}

// A byte of SPENDSGIR, where `set`, or of CPENDSGIR.
#[tactic(auto, unfolding(crate::specs::Sgi::write_sources))]
pub fn write_sgi_sources(
    words: &mut [u32],
    shape: Shape,
    vcpu: GicVcpuId,
    sgi: IntId,
    mask: u8,
    set: bool,
)
    requires { HoldsSlot shape (Sources vcpu.0 sgi.0) words.old }
    ensures { words.new ≡ write_sources shape vcpu.0 sgi.0 «set» mask words.old }
{
    if mask == 0 {
        return;
    }
    let sources = merged_sources(sgi_sources(words, shape, vcpu, sgi), mask, set);
    put_sources(words, shape, vcpu, sgi, sources);
}

#[tactic(auto, unfolding(crate::specs::Sgi::pend_sgi))]
pub fn pend_sgi(words: &mut [u32], shape: Shape, vcpu: GicVcpuId, source: GicVcpuId, sgi: IntId)
    requires { (HoldsSlot shape (Sources vcpu.0 sgi.0) words.old) × (source.0 < 8) }
    ensures { words.new ≡ pend_sgi shape vcpu.0 source.0 sgi.0 words.old }
{
    let sources = sgi_sources(words, shape, vcpu, sgi) | vcpu_bit(source);
    put_sgi_sources(words, shape, vcpu, sgi, sources);
    set_pending(words, shape, vcpu, sgi, true);
}

#[tactic(auto, unfolding(crate::specs::Sgi::sgi_target))]
pub fn sgi_target(value: u32) -> SgiTarget
    ensures { result ≡ sgi_target value }
{
    match value / FILTER % 4 {
        0 => SgiTarget::Mask((value / TARGETS % 256) as u8),
        1 => SgiTarget::AllExceptSelf,
        2 => SgiTarget::SelfOnly,
        _ => SgiTarget::Nobody,
    }
}

impl SgiTarget {
    fn includes(self, source: GicVcpuId, vcpu: GicVcpuId) -> bool
        requires { vcpu.0 < 8 }
        ensures { result ≡ includes self source.0 vcpu.0 }
    {
        match self {
            SgiTarget::Mask(byte) => (byte >> vcpu.0) % 2 == 1,
            SgiTarget::AllExceptSelf => vcpu.0 != source.0,
            SgiTarget::SelfOnly => vcpu.0 == source.0,
            SgiTarget::Nobody => false,
        }
    }
}

fn send_to(
    words: &mut [u32],
    shape: Shape,
    target: SgiTarget,
    source: GicVcpuId,
    sgi: IntId,
    vcpu: GicVcpuId,
)
    requires { (HoldsSlot shape (Sources vcpu.0 sgi.0) words.old) × (source.0 < 8) }
    ensures { words.new ≡ sent_to shape target source.0 sgi.0 vcpu.0 words.old }
{
    if target.includes(source, vcpu) {
        pend_sgi(words, shape, vcpu, source, sgi);
    }
}

#[tactic(auto, unfolding(state::specs::Loop::up_to, crate::specs::Sgi::send_sgi))]
pub fn send_sgi(words: &mut [u32], shape: Shape, source: GicVcpuId, sgi: IntId, target: SgiTarget)
    requires { HoldsSlot shape (Sources source.0 sgi.0) words.old }
    ensures { words.new ≡ send_sgi shape source.0 sgi.0 target words.old }
{
    for v in 0..shape.count {
        send_to(words, shape, target, source, sgi, GicVcpuId(v));
    }
}

// The number is in the low four bits.
#[tactic(auto, unfolding(crate::specs::Sgi::write_sgir))]
pub fn write_sgir(words: &mut [u32], shape: Shape, source: GicVcpuId, value: u32)
    requires { (Room shape words.old) × (source.0 < shape.count) }
    ensures { words.new ≡ write_sgir shape source.0 value words.old }
{
    send_sgi(words, shape, source, IntId(value % 16), sgi_target(value));
}
