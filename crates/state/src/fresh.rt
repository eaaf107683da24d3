// Setup's fill: what a state starts as.
ghost use Rattle.std.specs.Prelude.{◌≡◌, ℕ, ◌<◌};
ghost use Rattle.state.specs.declared.layout.Shape.{Shape};
ghost use Rattle.interrupt.specs.Record.{starting_record};
ghost use Rattle.word.specs.Word.{word_of};
ghost use Rattle.state.specs.Layout.{Limits, Room, vcpu_words, size, header_slot, vcpu_slot};
ghost use Rattle.state.specs.Words.{start_of, start_at};
ghost use Rattle.state.specs.Fresh.{fresh};

use crate::layout::{COUNT, FIRST_SPI, HEADER_WORDS, LIMIT, PRIVATE_START, Shape, VCPU_WORDS};
use interrupt::{IntId, InterruptRecord};
use word::encode;

fn starting_word(intid: IntId) -> u32
    ensures { result ≡ word_of (starting_record intid) }
{
    encode(InterruptRecord::starting(intid))
}

#[tactic(auto, unfolding(crate::specs::Layout::header_slot))]
fn header_word(shape: Shape, at: usize) -> u32
    requires { Limits shape }
    ensures { result ≡ start_of shape (header_slot at) }
{
    if at == COUNT {
        shape.count as u32
    } else if at == LIMIT {
        shape.limit
    } else {
        0
    }
}

// `at` counts from the vCPU's first word: interface values and sources start at 0.
#[tactic(auto, unfolding(crate::specs::Layout::vcpu_slot))]
fn vcpu_word(at: usize) -> u32
    requires { at < vcpu_words }
    ensures { (shape : Shape) (v : ℕ) → result ≡ start_of shape (vcpu_slot v at) }
{
    if at < PRIVATE_START {
        0
    } else {
        starting_word(IntId((at - PRIVATE_START) as u32))
    }
}

#[tactic(auto, using(crate::proofs::Places::tail_starts), unfolding(crate::specs::Layout::slot_at))]
fn word_at(shape: Shape, at: usize) -> u32
    requires { (Limits shape) × (at < size shape) }
    ensures { result ≡ start_at shape at }
{
    if at < HEADER_WORDS {
        return header_word(shape, at);
    }
    let spis = shape.spi_start();
    if at < spis {
        return vcpu_word((at - HEADER_WORDS) % VCPU_WORDS);
    }
    if at < shape.spi_end() {
        starting_word(IntId((at - spis + FIRST_SPI as usize) as u32))
    } else {
        0
    }
}

#[tactic(auto, unfolding(crate::specs::Loop::up_to, crate::specs::Fresh::fresh))]
pub fn fill(words: &mut [u32], shape: Shape)
    requires { Room shape words.old }
    ensures { words.new ≡ fresh shape words.old }
{
    let size = shape.size();
    for i in 0..size {
        words[i] = word_at(shape, i);
    }
}
