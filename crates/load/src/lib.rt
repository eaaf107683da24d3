// Loading: a controller from its image, into lent words.
#![tactic(auto)]

ghost use Rattle.load.specs.Load.{LoadPromise, ImageShapePromise, stored};
ghost use Rattle.std.specs.Prelude.{◌≡◌};
ghost use Rattle.state.specs.Layout.{Room};

use crate::opening::{open, shape_at_start};
use crate::walking::take_parts;
use answer::{Answer, gave};
use register::Refusal;
use state::Shape;
use state::lent::put_shape;
use state::words::{clear_summary, put_distributor_control};

// What the lowest bit of a stated limit counts.
const LIMIT: u32 = 0x1_0000;

pub mod opening;
pub mod reading;
pub mod walking;

fn store(words: &mut [u32], image: &[u8], shape: Shape, control: u32, start: usize)
    requires { Room shape words.old }
    ensures { words.new ≡ stored shape control image.now start words.old }
{
    put_shape(words, shape);
    clear_summary(words, shape);
    put_distributor_control(words, shape, control);
    take_parts(image, start, words, shape, true);
}

#[tactic(auto, using(crate::proofs::Openings::opened_limits), unfolding(crate::specs::Load::load))]
pub fn load(words: &mut [u32], image: &[u8]) -> Answer
    ensures { LoadPromise image.now words.old result words.new }
{
    let (shape, control, start) = open(image).ok_or(Refusal::Unlawful)?;
    let end = take_parts(image, start, words, shape, false).ok_or(Refusal::Unlawful)?;
    if end < image.len() {
        return Err(Refusal::Unlawful);
    }
    if words.len() < shape.size() {
        return Err(Refusal::ShortState);
    }
    store(words, image, shape, control, start);
    gave(0)
}

// The count and limit that an image states: the count in the low half of the value, the limit above it.
#[tactic(auto, using(crate::proofs::Openings::found_limits), unfolding(crate::specs::Load::shape_stated))]
pub fn image_shape(image: &[u8]) -> Answer
    ensures { ImageShapePromise image.now result image.now }
{
    let (shape, _next) = shape_at_start(image).ok_or(Refusal::Unlawful)?;
    gave(shape.count as u32 + LIMIT * shape.limit)
}
