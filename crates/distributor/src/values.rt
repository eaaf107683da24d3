// The registers of one word: CTLR, TYPER and IIDR.
ghost use Rattle.std.specs.Prelude.{◌≡◌};
ghost use Rattle.state.specs.Layout.{Limits, Room};
ghost use Rattle.distributor.specs.Values.{read_control, write_control, typer, iidr};

use state::Shape;
use state::words::{distributor_control, put_distributor_control};

pub fn read_control(words: &[u32], shape: Shape) -> u32
    requires { Room shape words.now }
    ensures { result ≡ read_control shape words.now }
{
    distributor_control(words, shape)
}

pub fn write_control(words: &mut [u32], shape: Shape, value: u32)
    requires { Room shape words.old }
    ensures { words.new ≡ write_control shape value words.old }
{
    put_distributor_control(words, shape, value);
}

pub fn typer(shape: Shape) -> u32
    requires { Limits shape }
    ensures { result ≡ typer shape }
{
    (shape.limit + 31) / 32 - 1 + 32 * (shape.count as u32 - 1)
}

pub fn iidr() -> u32
    ensures { result ≡ iidr }
{
    0x0002_043B
}
