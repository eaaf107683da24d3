// What a call answers, and what the calls have in common.
#![tactic(auto)]

ghost use Rattle.std.specs.Prelude.{◌≡◌, List, ℕ};
ghost use Rattle.service.specs.Service.{Sound};
ghost use Rattle.wake.specs.Halves.{wake_from};
ghost use Rattle.answer.specs.Answer.{refusal_in, value_in, wake_in, retired_in, outcome, gave, done, absent};

use interrupt::{GicVcpuId, IntId};
use register::Refusal;
use state::Shape;
use wake::wake_set;

// What a call that is not refused answers. `retired` is `IntId::SPURIOUS` for none: document 01 has the number 1023 there, and no Option.
#[derive(Clone, Copy)]
pub struct Reply {
    pub value: u32,
    pub wake: u8,
    pub retired: IntId,
}

// What a call answers, or why it is refused.
pub type Answer = Result<Reply, Refusal>;

// The refusal's number, 0 for none.
pub fn refusal_in(answer: Answer) -> u8
    ensures { result ≡ refusal_in answer }
{
    match answer {
        Ok(_) => 0,
        Err(refusal) => refusal.number(),
    }
}

pub fn value_in(answer: Answer) -> u32
    ensures { result ≡ value_in answer }
{
    answer.map_or(0, |reply| reply.value)
}

// Bit v for each vCPU v that the call wakes.
pub fn wake_in(answer: Answer) -> u8
    ensures { result ≡ wake_in answer }
{
    answer.map_or(0, |reply| reply.wake)
}

pub fn retired_in(answer: Answer) -> u32
    ensures { result ≡ retired_in answer }
{
    answer.map_or(IntId::SPURIOUS.0, |reply| reply.retired.0)
}

// Reads and setup wake nobody and retire nothing.
pub fn gave(value: u32) -> Answer
    ensures { (s : List ℕ) → outcome result s ≡ gave value s }
{
    Ok(Reply {
        value,
        wake: 0,
        retired: IntId::SPURIOUS,
    })
}

// After a write or an input; `quiet` are the vCPUs that an IAR read gave 1023 before it.
pub fn done(words: &[u32], shape: Shape, quiet: u8, retired: IntId) -> Answer
    requires { Sound shape words.now }
    ensures { outcome result words.now ≡ done (wake_from quiet shape words.now) retired.0 words.now }
{
    Ok(Reply {
        value: 0,
        wake: wake_set(words, shape, quiet),
        retired,
    })
}

// The call looks up its vCPU, and there is none of this number.
pub fn absent(shape: Shape, vcpu: GicVcpuId, looks_up: bool) -> bool
    ensures { result ≡ absent looks_up shape vcpu.0 }
{
    looks_up & (shape.count <= vcpu.0)
}
