// Whether lent words are a state: the test behind refusal 6, and the limits behind refusal 4.
ghost use Rattle.std.specs.Prelude.{◌≡◌};
ghost use Rattle.state.specs.Layout.{Room};
ghost use Rattle.state.specs.Lent.{limited, with_shape, stored_shape, depth_fits, validated};
ghost use Rattle.state.specs.Loop.{every_below};

use crate::layout::{COUNT, InterfaceValue, LIMIT, STACK_CAPACITY, Shape};
use crate::words::interface_value;
use interrupt::GicVcpuId;

// A count and a limit, where they are in the limits.
#[tactic(auto, unfolding(crate::specs::Lent::limited))]
pub fn validate_limits(count: u64, limit: u64) -> Option<Shape>
    ensures { result ≡ limited count limit }
{
    if !(1..=8).contains(&count) || !(32..=1020).contains(&limit) {
        return None;
    }
    Some(Shape {
        count: count as usize,
        limit: limit as u32,
    })
}

pub fn put_shape(words: &mut [u32], shape: Shape)
    requires { Room shape words.old }
    ensures { words.new ≡ with_shape shape words.old }
{
    words[COUNT] = shape.count as u32;
    words[LIMIT] = shape.limit;
}

#[tactic(auto, unfolding(crate::specs::Loop::every_below))]
fn depths_fit(words: &[u32], shape: Shape) -> bool
    requires { Room shape words.now }
    ensures { result ≡ every_below (depth_fits shape words.now) shape.count }
{
    for v in 0..shape.count {
        if interface_value(words, shape, GicVcpuId(v), InterfaceValue::Depth) > STACK_CAPACITY {
            return false;
        }
    }
    true
}

fn stored_shape(words: &[u32]) -> Option<Shape>
    ensures { result ≡ stored_shape words.now }
{
    let [count, limit, ..] = words else {
        return None;
    };
    validate_limits(u64::from(*count), u64::from(*limit))
}

// The shape of words that are a state.
pub fn validate_state(words: &[u32]) -> Option<Shape>
    ensures { result ≡ validated words.now }
{
    let shape = stored_shape(words)?;
    if words.len() < shape.size() {
        return None;
    }
    depths_fit(words, shape).then_some(shape)
}
