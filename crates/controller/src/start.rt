// Setup: a fresh controller in lent words.
ghost use Rattle.controller.specs.Start.{SetupPromise};

use answer::{Answer, gave};
use register::Refusal;
use state::fresh::fill;
use state::lent::validate_limits;

#[tactic(auto, unfolding(crate::specs::Start::setup))]
pub fn setup(words: &mut [u32], count: u64, limit: u64) -> Answer
    ensures { SetupPromise count limit words.old result words.new }
{
    let shape = validate_limits(count, limit).ok_or(Refusal::Limits)?;
    if words.len() < shape.size() {
        return Err(Refusal::ShortState);
    }
    fill(words, shape);
    gave(0)
}
