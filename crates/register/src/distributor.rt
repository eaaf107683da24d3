// Where an access to the Distributor falls.
ghost use Rattle.std.specs.Prelude.{◌≡◌, ◌-◌};
ghost use Rattle.register.specs.Distributor.{bit_numbers_per_byte, place_at, plain, unfit, single, bit_word, byte_array, locate_in_frame, locate_distributor};
ghost use Rattle.register.specs.Finding.{Found, is_priority};
ghost use Rattle.register.specs.Ranges.{range_at};
ghost use Rattle.register.specs.declared.ranges.Class.TheVariants.{Bits, Bytes};

use crate::dispatch::class_at;
use crate::frame::{AccessWidth, Refusal, validate_frame_access};
use crate::ranges::{BitRegister, ByteRegister, Class};
use interrupt::IntId;

pub const DISTRIBUTOR_SIZE: u64 = 0x1000;

// What an accepted access meets. `first` is the number of the first interrupt that it reaches, 0 where the class has no numbers.
#[derive(Clone, Copy)]
pub struct Place {
    pub class: Class,
    pub first: IntId,
    pub private: bool,
}

// No Result: which refusal the second case is, is told only where the vCPU is looked up.
#[derive(Clone, Copy)]
pub enum DistributorAccess {
    Refused(Refusal),
    // A private register at a width that it does not take: refused by 3 where there is no such vCPU, else by 2.
    PrivateWidth,
    At(Place),
}

impl Place {
    // A place without numbers.
    fn plain(class: Class) -> Self
        ensures { result ≡ plain class }
    {
        Self {
            class,
            first: IntId(0),
            private: false,
        }
    }
}

impl BitRegister {
    fn numbers_per_byte(self) -> u32
        ensures { result ≡ bit_numbers_per_byte self }
    {
        match self {
            BitRegister::Icfgr => 4,
            _ => 8,
        }
    }
}

impl ByteRegister {
    fn is_priority(self) -> bool
        ensures { result ≡ is_priority self }
    {
        matches!(self, ByteRegister::Ipriorityr)
    }
}

// How far an offset lies behind the first byte of its class.
fn distance(class: Class, offset: u64) -> u32
    requires { Found class offset }
    ensures { result ≡ offset - (range_at offset).first }
{
    let base = class.range().first;
    (offset - base) as u32
}

fn bit_place(register: BitRegister, offset: u64) -> Place
    requires { Found (Bits register) offset }
    ensures { result ≡ place_at offset }
{
    let class = Class::Bits(register);
    let first = IntId(distance(class, offset) * register.numbers_per_byte());
    Place {
        class,
        first,
        private: first.is_private(),
    }
}

fn byte_place(register: ByteRegister, offset: u64) -> Place
    requires { Found (Bytes register) offset }
    ensures { result ≡ place_at offset }
{
    let class = Class::Bytes(register);
    let first = IntId(distance(class, offset));
    Place {
        class,
        first,
        private: register.is_priority() & first.is_private(),
    }
}

// At a width that the register does not take.
#[tactic(auto, unfolding(crate::specs::Distributor::unfit))]
fn unfit(place: Place) -> DistributorAccess
    ensures { result ≡ unfit place }
{
    if place.private {
        DistributorAccess::PrivateWidth
    } else {
        DistributorAccess::Refused(Refusal::Width)
    }
}

// Past its first byte a single register is no register.
#[tactic(auto, unfolding(crate::specs::Distributor::single))]
fn single(class: Class, offset: u64, width: AccessWidth) -> DistributorAccess
    ensures { result ≡ single class offset width }
{
    if offset % 4 != 0 {
        return DistributorAccess::At(Place::plain(Class::Other));
    }
    if width.is_dword() {
        DistributorAccess::At(Place::plain(class))
    } else {
        DistributorAccess::Refused(Refusal::Width)
    }
}

// A start past the first byte of a word is refused before anybody is looked up.
#[tactic(auto, unfolding(crate::specs::Distributor::bit_word))]
fn bit_word(place: Place, offset: u64, width: AccessWidth) -> DistributorAccess
    ensures { result ≡ bit_word place offset width }
{
    if offset % 4 != 0 {
        return DistributorAccess::Refused(Refusal::Width);
    }
    if width.is_dword() {
        DistributorAccess::At(place)
    } else {
        unfit(place)
    }
}

#[tactic(auto, unfolding(crate::specs::Distributor::byte_array))]
fn byte_array(place: Place, width: AccessWidth) -> DistributorAccess
    ensures { result ≡ byte_array place width }
{
    if width.is_qword() {
        unfit(place)
    } else {
        DistributorAccess::At(place)
    }
}

#[tactic(auto, unfolding(crate::specs::Distributor::locate_in_frame))]
fn locate_in_frame(class: Class, offset: u64, width: AccessWidth) -> DistributorAccess
    requires { Found class offset }
    ensures { result ≡ locate_in_frame offset width }
{
    match class {
        Class::Ctlr | Class::Typer | Class::Iidr | Class::Sgir => single(class, offset, width),
        Class::Bits(register) => bit_word(bit_place(register, offset), offset, width),
        Class::Bytes(register) => byte_array(byte_place(register, offset), width),
        Class::Other => DistributorAccess::At(Place::plain(Class::Other)),
    }
}

// Decides by offset and width alone, and looks nobody up.
#[tactic(auto, using(crate::proofs::Access::in_frame_below), unfolding(crate::specs::Distributor::locate_distributor))]
pub fn locate_distributor(offset: u64, width: AccessWidth) -> DistributorAccess
    ensures { result ≡ locate_distributor offset width }
{
    if validate_frame_access(DISTRIBUTOR_SIZE, offset, width) {
        locate_in_frame(class_at(offset), offset, width)
    } else {
        DistributorAccess::Refused(Refusal::Access)
    }
}
