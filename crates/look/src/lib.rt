// What a host may look at beside the registers: a vCPU's interrupt line, and an interrupt's record. Neither call changes anything.
#![tactic(auto)]

ghost use Rattle.look.specs.Look.{IrqLevelPromise, InterruptWordPromise};

use answer::{Answer, absent, gave};
use interrupt::{GicVcpuId, IntId};
use register::Refusal;
use state::lent::validate_state;
use state::words::record;
use wake::{IarAnswer, answers_so};
use word::{bit, encode};

// The level of the line that a hypervisor drives into the vCPU; wake sets are its rises.
#[tactic(auto, unfolding(crate::specs::Look::irq_level))]
pub fn irq_level(words: &[u32], vcpu: GicVcpuId) -> Answer
    ensures { IrqLevelPromise vcpu.0 words.now result words.now }
{
    let shape = validate_state(words).ok_or(Refusal::BrokenState)?;
    if absent(shape, vcpu, true) {
        return Err(Refusal::Vcpu);
    }
    gave(bit(answers_so(words, shape, vcpu, IarAnswer::Number)))
}

// An interrupt's record as its word; bits that count for nothing are 0, whatever is stored.
#[tactic(auto, unfolding(crate::specs::Look::interrupt_word))]
pub fn interrupt_word(words: &[u32], vcpu: GicVcpuId, number: u64) -> Answer
    ensures { InterruptWordPromise vcpu.0 number words.now result words.now }
{
    let shape = validate_state(words).ok_or(Refusal::BrokenState)?;
    if shape.limit as u64 <= number {
        return gave(0);
    }
    let intid = IntId(number as u32);
    if absent(shape, vcpu, intid.is_private()) {
        return Err(Refusal::Vcpu);
    }
    gave(encode(record(words, shape, vcpu, intid)))
}
