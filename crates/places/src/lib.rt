// What an accepted access to the Distributor reads, what a write to it does, and where it looks up its vCPU. Mirrors the two tables at the
// top of v2.rs.
#![tactic(auto)]

ghost use Rattle.std.specs.Prelude.{◌≡◌};
ghost use Rattle.places.specs.Places.{byte_looks_up, sends, read_place_looks_up, write_place_looks_up, ringed, read_place, write_place, Ringing, PlaceRead, PlaceWritten};

use bits::{read_bits, write_bits};
use distributor::bytes::{read_bytes, write_bytes};
use distributor::values::{iidr, read_control, typer, write_control};
use interrupt::GicVcpuId;
use register::{AccessWidth, ByteRegister, Class, Place};
use sgi::{SgiTarget, sgi_target, write_sgir};
use state::Shape;

fn byte_looks_up(register: ByteRegister, private: bool) -> bool
    ensures { result ≡ byte_looks_up register «private» }
{
    match register {
        ByteRegister::Ipriorityr => private,
        ByteRegister::Itargetsr => false,
        ByteRegister::Cpendsgir | ByteRegister::Spendsgir => true,
    }
}

// A write to SGIR that names somebody, whether there is such a vCPU or not.
fn sends(value: u32) -> bool
    ensures { result ≡ sends value }
{
    !matches!(sgi_target(value), SgiTarget::Nobody)
}

pub fn read_looks_up(place: Place) -> bool
    ensures { result ≡ read_place_looks_up place.class place.«private» }
{
    match place.class {
        Class::Bits(_) => place.private,
        Class::Bytes(register) => byte_looks_up(register, place.private),
        Class::Ctlr | Class::Typer | Class::Iidr | Class::Sgir | Class::Other => false,
    }
}

pub fn write_looks_up(place: Place, value: u32) -> bool
    ensures { result ≡ write_place_looks_up place.class place.«private» value }
{
    match place.class {
        Class::Sgir => sends(value),
        Class::Bits(_) => place.private,
        Class::Bytes(register) => byte_looks_up(register, place.private),
        Class::Ctlr | Class::Typer | Class::Iidr | Class::Other => false,
    }
}

pub fn read_place(
    words: &[u32],
    shape: Shape,
    vcpu: GicVcpuId,
    place: Place,
    width: AccessWidth,
) -> u32
    requires { PlaceRead shape vcpu.0 «place» width words.now }
    ensures { result ≡ read_place shape vcpu.0 «place» width words.now }
{
    match place.class {
        Class::Ctlr => read_control(words, shape),
        Class::Typer => typer(shape),
        Class::Iidr => iidr(),
        Class::Sgir | Class::Other => 0,
        Class::Bits(register) => read_bits(words, shape, vcpu, register, place.first),
        Class::Bytes(register) => {
            read_bytes(
                words,
                shape,
                vcpu,
                register,
                place.first,
                width.size() as u32,
            )
        }
    }
}

fn ring(words: &mut [u32], shape: Shape, source: GicVcpuId, value: u32)
    requires { Ringing shape source.0 value words.old }
    ensures { words.new ≡ ringed shape source.0 value words.old }
{
    if sends(value) {
        write_sgir(words, shape, source, value);
    }
}

pub fn write_place(
    words: &mut [u32],
    shape: Shape,
    vcpu: GicVcpuId,
    place: Place,
    width: AccessWidth,
    value: u32,
)
    requires { PlaceWritten shape vcpu.0 «place» width value words.old }
    ensures { words.new ≡ write_place shape vcpu.0 «place» width value words.old }
{
    match place.class {
        Class::Ctlr => write_control(words, shape, value),
        Class::Sgir => ring(words, shape, vcpu, value),
        Class::Bits(register) => write_bits(words, shape, vcpu, register, place.first, value),
        Class::Bytes(register) => {
            write_bytes(
                words,
                shape,
                vcpu,
                register,
                place.first,
                width.size() as u32,
                value,
            );
        }
        Class::Typer | Class::Iidr | Class::Other => {}
    }
}
