// An image's first numbers: count, limit, Distributor CTLR.
ghost use Rattle.std.specs.Prelude.{◌≡◌};
ghost use Rattle.load.specs.Load.{shape_found, opened_as};

use crate::reading::{number, number_up_to};
use state::Shape;
use state::lent::validate_limits;

// The count and limit, and the place after them.
#[tactic(auto, unfolding(crate::specs::Load::shape_found))]
pub fn shape_at_start(image: &[u8]) -> Option<(Shape, usize)>
    ensures { result ≡ shape_found image.now }
{
    let (count, a) = number(image, 0)?;
    let (limit, next) = number(image, a)?;
    let shape = validate_limits(u64::from(count), u64::from(limit))?;
    Some((shape, next))
}

// .. and the Distributor's CTLR, with the place where the first part begins.
#[tactic(auto, unfolding(crate::specs::Load::opened_as))]
pub fn open(image: &[u8]) -> Option<(Shape, u32, usize)>
    ensures { result ≡ opened_as image.now }
{
    let (shape, a) = shape_at_start(image)?;
    let (control, next) = number_up_to(image, a, 1)?;
    Some((shape, control, next))
}
