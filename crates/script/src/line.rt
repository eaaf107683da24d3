// A line, read once from the left.
ghost use Rattle.std.specs.Prelude.{◌≡◌, ◌≤◌, length, drop};
ghost use Rattle.script.specs.declared.request.Numbers.TheVariants.{Zero};
ghost use Rattle.script.specs.Line.{numbers_after, request_of};
ghost use Rattle.script.specs.Reading.{fields_after};

use crate::number::number_at;
use crate::request::{Numbers, Request, request_for};

const LONGEST: usize = 80;

// A space stands at `from`, or the line ends there.
fn numbers(line: &[u8], from: usize) -> Numbers
    requires { from ≤ length line.now }
    ensures { result ≡ numbers_after Zero (fields_after (drop from line.now)) }
{
    let mut so_far = Numbers::Zero;
    let mut at = from;
    // No `for`: a turn goes on from where its field ends.
    while at < line.len() {
        let Some(field) = number_at(line, at + 1) else {
            return Numbers::Other;
        };
        so_far = so_far.with(field.value);
        at = field.next;
    }
    so_far
}

#[tactic(auto, using(crate::proofs::Fields::short, crate::proofs::Fields::spaced, crate::proofs::Fields::run_on), unfolding(crate::specs::Line::request_of))]
pub fn parse_line(line: &[u8]) -> Option<Request>
    ensures { result ≡ request_of line.now }
{
    if LONGEST < line.len() {
        return None;
    }
    let [letter, b' ', ..] = line else {
        return None;
    };
    request_for(*letter, numbers(line, 1))
}
