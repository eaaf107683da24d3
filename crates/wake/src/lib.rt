// Wake sets: bit v for a vCPU that an IAR read would give nothing before a call, and an interrupt after it.
#![tactic(auto)]

ghost use Rattle.std.specs.Prelude.{◌≡◌, ◌*◌, ◌^◌, ◌<◌};
ghost use Rattle.word.specs.Word.{bit_of};
ghost use Rattle.service.specs.Service.{Served, Sound};
ghost use Rattle.wake.specs.Halves.{answers_so, among_answers, answering_among, quiet_among, quiet_set, wake_from, ready};

use acknowledge::preemption_bound;
use interrupt::GicVcpuId;
use select::{both_enabled, some_below};
use service::depth;
use state::Shape;
use state::layout::STACK_CAPACITY;
use targets::vcpu_bit;

// What an IAR read would answer; one that 7 would refuse answers neither.
#[derive(Clone, Copy)]
pub enum IarAnswer {
    Spurious,
    Number,
}

// All eight bits.
const EVERYBODY: u8 = 255;

// An IAR read by `vcpu` would not give 1023.
fn ready(words: &[u32], shape: Shape, vcpu: GicVcpuId) -> bool
    requires { Served shape vcpu.0 words.now }
    ensures { result ≡ ready shape vcpu.0 words.now }
{
    // Some candidate is enough, which need not be the best.
    both_enabled(words, shape, vcpu)
        && some_below(words, shape, vcpu, preemption_bound(words, shape, vcpu))
}

pub fn answers_so(words: &[u32], shape: Shape, vcpu: GicVcpuId, answer: IarAnswer) -> bool
    requires { Served shape vcpu.0 words.now }
    ensures { result ≡ answers_so answer shape words.now vcpu.0 }
{
    let some = ready(words, shape, vcpu);
    match answer {
        IarAnswer::Spurious => !some,
        IarAnswer::Number => some & (depth(words, shape, vcpu) < STACK_CAPACITY),
    }
}

fn among_answers(words: &[u32], shape: Shape, vcpu: GicVcpuId, among: u8, answer: IarAnswer) -> bool
    requires { Served shape vcpu.0 words.now }
    ensures { result ≡ among_answers answer among shape words.now vcpu.0 }
{
    (among >> vcpu.0) % 2 == 1 && answers_so(words, shape, vcpu, answer)
}

fn bit_at(vcpu: GicVcpuId, set: bool) -> u8
    requires { vcpu.0 < 8 }
    ensures { result ≡ bit_of «set» * 2 ^ (1 * vcpu.0) }
{
    if set { vcpu_bit(vcpu) } else { 0 }
}

#[tactic(auto, unfolding(word::specs::Fields::gathered, crate::specs::Halves::answering_among))]
fn answering_among(words: &[u32], shape: Shape, among: u8, answer: IarAnswer) -> u8
    requires { Sound shape words.now }
    ensures { result ≡ answering_among answer among shape words.now }
{
    let mut bits: u8 = 0;
    for v in 0..shape.count {
        let vcpu = GicVcpuId(v);
        bits += bit_at(vcpu, among_answers(words, shape, vcpu, among, answer));
    }
    bits
}

// Before a call: those of these vCPUs that an IAR read would give 1023.
pub fn quiet_among(words: &[u32], shape: Shape, among: u8) -> u8
    requires { Sound shape words.now }
    ensures { result ≡ quiet_among among shape words.now }
{
    answering_among(words, shape, among, IarAnswer::Spurious)
}

pub fn quiet_vcpus(words: &[u32], shape: Shape) -> u8
    requires { Sound shape words.now }
    ensures { result ≡ quiet_set shape words.now }
{
    quiet_among(words, shape, EVERYBODY)
}

// After the call: those of them that it would give a number.
pub fn wake_set(words: &[u32], shape: Shape, quiet: u8) -> u8
    requires { Sound shape words.now }
    ensures { result ≡ wake_from quiet shape words.now }
{
    answering_among(words, shape, quiet, IarAnswer::Number)
}
