// Saving: the image of a controller, into a lent buffer.
#![tactic(auto)]

ghost use Rattle.std.specs.Prelude.{◌≡◌, leb, length};
ghost use Rattle.state.specs.Layout.{Limits};
ghost use Rattle.lawful.specs.Lawful.{Lawful};
ghost use Rattle.image.specs.Image.{image};
ghost use Rattle.save.specs.Save.{image_bytes, SavePromise};

use crate::walking::put_image;
use answer::{Answer, gave};
use lawful_test::is_lawful;
use register::Refusal;
use state::Shape;
use state::layout::FIRST_SPI;
use state::lent::validate_state;

pub mod walking;

// Room for the image of any lawful state of this shape.
pub fn image_bytes(shape: Shape) -> usize
    requires { Limits shape }
    ensures { result ≡ image_bytes shape }
{
    4 + 647 * shape.count + 6 * ((shape.limit - FIRST_SPI) as usize)
}

// Measured only where a lawful state of this shape might not fit.
fn has_room(buffer: &mut [u8], words: &[u32], shape: Shape) -> bool
    requires { Lawful shape words.now }
    ensures { (result ≡ leb (length (image shape words.now)) (length buffer.old)) × (buffer.new ≡ buffer.old) }
{
    if image_bytes(shape) <= buffer.len() {
        return true;
    }
    let length = put_image(buffer, words, shape, false);
    length <= buffer.len()
}

#[tactic(auto, unfolding(crate::specs::Save::save))]
pub fn save(words: &[u32], buffer: &mut [u8]) -> Answer
    ensures { SavePromise words.now buffer.old result words.now buffer.new }
{
    let shape = validate_state(words).ok_or(Refusal::BrokenState)?;
    let unlawful = !is_lawful(words, shape);
    if unlawful {
        return Err(Refusal::Unlawful);
    }
    if !has_room(buffer, words, shape) {
        return Err(Refusal::NoRoom);
    }
    let length = put_image(buffer, words, shape, true);
    gave(length as u32)
}
