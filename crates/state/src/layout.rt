// Where each word of the state stands. Every place is linear in the vCPU's and the interrupt's number.
ghost use Rattle.std.specs.Prelude.{◌≡◌, ◌<◌};
ghost use Rattle.state.specs.Layout.{interface_number, sources_start, vcpu_start, spi_start, spi_end, summary_words, summary_place, stack_start, size, Limits, Inside, Placed, Interface, Sources, Private, Spi, Stack};
ghost use Rattle.state.specs.Words.{record_slot, RecordThere};

use interrupt::{GicVcpuId, IntId};

// The words that stand first.
pub const COUNT: usize = 0;

pub const LIMIT: usize = 1;

pub const DISTRIBUTOR_CONTROL: usize = 2;

pub const HEADER_WORDS: usize = 3;

// A vCPU's words: its interface values, then its source sets, then its private records.
const SOURCES_START: usize = 4;

pub const PRIVATE_START: usize = SOURCES_START + 16;

pub const VCPU_WORDS: usize = PRIVATE_START + 32;

pub const FIRST_SPI: u32 = 32;

// How many entries a stack has room for.
pub const STACK_CAPACITY: u32 = 128;

// The words of the largest state, of 8 vCPUs and limit 1020.
pub const LARGEST_SIZE: usize = HEADER_WORDS
    + VCPU_WORDS * 8
    + (1020 - FIRST_SPI) as usize
    + (1020 - 1) / 32
    + STACK_CAPACITY as usize * 8;

// How many vCPUs, and the first number that is no interrupt.
#[derive(Clone, Copy)]
pub struct Shape {
    pub count: usize,
    pub limit: u32,
}

// The words that a CPU interface has beside its stack. `Depth` is how many entries the stack holds.
#[derive(Clone, Copy)]
pub enum InterfaceValue {
    Control = 0,
    PriorityMask = 1,
    BinaryPoint = 2,
    Depth = 3,
}

impl InterfaceValue {
    fn number(self) -> usize
        ensures { (result ≡ interface_number self) × (result < sources_start) }
    {
        self as usize
    }
}

impl Shape {
    pub fn spi_start(self) -> usize
        requires { Limits self }
        ensures { result ≡ spi_start self }
    {
        HEADER_WORDS + VCPU_WORDS * self.count
    }

    pub fn spi_end(self) -> usize
        requires { Limits self }
        ensures { result ≡ spi_end self }
    {
        self.spi_start() + (self.limit - FIRST_SPI) as usize
    }

    // How many words the summary of the ready has: one for every 32 SPIs.
    pub fn summary_words(self) -> usize
        requires { Limits self }
        ensures { result ≡ summary_words self }
    {
        (self.limit as usize - 1) / 32
    }

    fn stack_start(self) -> usize
        requires { Limits self }
        ensures { result ≡ stack_start self }
    {
        self.spi_end() + self.summary_words()
    }

    // How many words a state takes.
    pub fn size(self) -> usize
        requires { Limits self }
        ensures { result ≡ size self }
    {
        self.stack_start() + STACK_CAPACITY as usize * self.count
    }
}

fn vcpu_start(vcpu: GicVcpuId) -> usize
    requires { vcpu.0 < 8 }
    ensures { result ≡ vcpu_start vcpu.0 }
{
    HEADER_WORDS + VCPU_WORDS * vcpu.0
}

pub fn interface_place(shape: Shape, vcpu: GicVcpuId, value: InterfaceValue) -> usize
    requires { Inside shape (Interface vcpu.0 value) }
    ensures { Placed shape (Interface vcpu.0 value) result }
{
    vcpu_start(vcpu) + value.number()
}

pub fn sources_place(shape: Shape, vcpu: GicVcpuId, sgi: IntId) -> usize
    requires { Inside shape (Sources vcpu.0 sgi.0) }
    ensures { Placed shape (Sources vcpu.0 sgi.0) result }
{
    vcpu_start(vcpu) + (SOURCES_START + sgi.0 as usize)
}

fn private_place(shape: Shape, vcpu: GicVcpuId, intid: IntId) -> usize
    requires { Inside shape (Private vcpu.0 intid.0) }
    ensures { Placed shape (Private vcpu.0 intid.0) result }
{
    vcpu_start(vcpu) + (PRIVATE_START + intid.0 as usize)
}

fn spi_place(shape: Shape, intid: IntId) -> usize
    requires { Inside shape (Spi intid.0) }
    ensures { Placed shape (Spi intid.0) result }
{
    shape.spi_start() + (intid.0 - FIRST_SPI) as usize
}

// A private number has a record for each vCPU, an SPI one for all.
#[tactic(auto, unfolding(crate::specs::Words::record_slot))]
pub fn record_place(shape: Shape, vcpu: GicVcpuId, intid: IntId) -> usize
    requires { (Limits shape) × (RecordThere shape vcpu.0 intid.0) }
    ensures { Placed shape (record_slot vcpu.0 intid.0) result }
{
    if intid.is_private() {
        private_place(shape, vcpu, intid)
    } else {
        spi_place(shape, intid)
    }
}

// The word that has an SPI's bit.
pub fn summary_place(shape: Shape, intid: IntId) -> usize
    requires { Inside shape (Spi intid.0) }
    ensures { (result ≡ summary_place shape intid.0) × (result < size shape) }
{
    shape.spi_end() + ((intid.0 - FIRST_SPI) / 32) as usize
}

pub fn stack_place(shape: Shape, vcpu: GicVcpuId, index: usize) -> usize
    requires { Inside shape (Stack vcpu.0 index) }
    ensures { Placed shape (Stack vcpu.0 index) result }
{
    shape.stack_start() + (STACK_CAPACITY as usize * vcpu.0 + index)
}
