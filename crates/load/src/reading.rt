// The parts of an image as they are read: each number in its range, each part lawful by itself.
ghost use Rattle.std.specs.Prelude.{◌≡◌, ℕ, ◌≤◌, ◌<◌};
ghost use Rattle.groups.specs.Groups.{found_at};
ghost use Rattle.state.specs.Layout.{Limits};
ghost use Rattle.load.specs.Reading.{number_up_to, register_found, registers_at, entry_found, own_owner, mask_from, sgi_rest, rest_at, record_from, lawful_number, record_if_lawful, flight_lawful, spi_lawful, record_found};

use interrupt::{GicVcpuId, IntId, InterruptRecord, Priority};
use lawful_test::{entry_lawful, record_lawful, sources_lawful};
use reader::read;
use state::{Entry, InterfaceValue, Shape};
use word::{decode, owner_of};

// No number of an image needs more.
const GROUPS: u32 = 2;

// In a mask's place: no mask is set.
const UNSET: u32 = 256;

#[derive(Clone, Copy)]
pub struct InterfaceRegisters {
    pub control: u32,
    pub mask: u32,
    pub point: u32,
}

// What follows a private record's flags and priority.
#[derive(Clone, Copy)]
pub struct RecordRest {
    pub owner: Option<GicVcpuId>,
    pub mask: Option<u8>,
    pub sources: u8,
}

// The sources are of an SGI alone.
#[derive(Clone, Copy)]
pub struct RecordAndSources {
    pub record: InterruptRecord,
    pub sources: u8,
}

// What is read from a place on comes with the place after it.
pub fn number(image: &[u8], at: usize) -> Option<(u32, usize)>
    ensures { result ≡ found_at 2 image.now at }
{
    read(image, at, GROUPS)
}

pub fn number_up_to(image: &[u8], at: usize, most: u32) -> Option<(u32, usize)>
    ensures { result ≡ number_up_to most image.now at }
{
    let (value, next) = number(image, at)?;
    (value <= most).then_some((value, next))
}

fn register_at(image: &[u8], at: usize, register: InterfaceValue) -> Option<(u32, usize)>
    ensures { result ≡ register_found register image.now at }
{
    let (value, next) = number(image, at)?;
    (register.kept(value) == value).then_some((value, next))
}

#[tactic(auto, unfolding(crate::specs::Reading::registers_at))]
pub fn registers_at(image: &[u8], at: usize) -> Option<(InterfaceRegisters, usize)>
    ensures { result ≡ registers_at image.now at }
{
    let (control, a) = register_at(image, at, InterfaceValue::Control)?;
    let (mask, b) = register_at(image, a, InterfaceValue::PriorityMask)?;
    let (point, next) = register_at(image, b, InterfaceValue::BinaryPoint)?;
    let registers = InterfaceRegisters {
        control,
        mask,
        point,
    };
    Some((registers, next))
}

// Each entry lies below the one before it.
#[tactic(auto, unfolding(crate::specs::Reading::entry_found))]
pub fn entry_at(image: &[u8], at: usize, shape: Shape, above: Priority) -> Option<(Entry, usize)>
    ensures { result ≡ entry_found shape above.0 image.now at }
{
    let (number, a) = number(image, at)?;
    let (priority, next) = number_up_to(image, a, 255)?;
    let entry = Entry {
        intid: IntId(number),
        priority: Priority::new(priority as u8),
    };
    entry_lawful(shape, above, entry).then_some((entry, next))
}

// What has one group is below 128.
fn flags_at(image: &[u8], at: usize) -> Option<(u32, usize)>
    ensures { result ≡ number_up_to 127 image.now at }
{
    read(image, at, 1)
}

// A private record in flight is its own vCPU's.
fn own_owner(vcpu: GicVcpuId, inflight: bool) -> Option<GicVcpuId>
    ensures { result ≡ own_owner vcpu.0 inflight }
{
    inflight.then_some(vcpu)
}

fn mask_from(number: u32) -> Option<u8>
    requires { number ≤ 256 }
    ensures { result ≡ mask_from number }
{
    u8::try_from(number).ok()
}

#[tactic(auto, unfolding(crate::specs::Reading::sgi_rest))]
fn sgi_rest(image: &[u8], at: usize, owner: Option<GicVcpuId>) -> Option<(RecordRest, usize)>
    ensures { result ≡ sgi_rest owner image.now at }
{
    let (value, next) = number_up_to(image, at, 255)?;
    let rest = RecordRest {
        owner,
        mask: None,
        sources: value as u8,
    };
    Some((rest, next))
}

#[tactic(auto, unfolding(crate::specs::Reading::rest_at))]
fn rest_at(
    image: &[u8],
    at: usize,
    vcpu: GicVcpuId,
    intid: IntId,
    inflight: bool,
) -> Option<(RecordRest, usize)>
    requires { intid.0 < 32 }
    ensures { result ≡ rest_at vcpu.0 intid.0 inflight image.now at }
{
    let owner = own_owner(vcpu, inflight);
    if intid.is_sgi() {
        return sgi_rest(image, at, owner);
    }
    let rest = RecordRest {
        owner,
        mask: None,
        sources: 0,
    };
    Some((rest, at))
}

#[tactic(auto, unfolding(word::specs::Word::record_of))]
fn record_from(
    flags: u32,
    priority: u8,
    owner: Option<GicVcpuId>,
    mask: Option<u8>,
) -> InterruptRecord
    ensures { result ≡ record_from flags priority owner mask }
{
    InterruptRecord {
        priority: Priority::new(priority),
        cpu_target_mask: mask,
        owner,
        ..decode(flags)
    }
}

fn number_lawful(
    shape: Shape,
    vcpu: GicVcpuId,
    intid: IntId,
    record: InterruptRecord,
    sources: u8,
) -> bool
    requires { Limits shape }
    ensures { result ≡ lawful_number shape vcpu.0 intid.0 «record» sources }
{
    record_lawful(shape, vcpu, intid, record)
        & (!intid.is_sgi() | sources_lawful(sources, record.pending))
}

fn lawful_record(
    shape: Shape,
    vcpu: GicVcpuId,
    intid: IntId,
    record: InterruptRecord,
    sources: u8,
    next: usize,
) -> Option<(RecordAndSources, usize)>
    requires { Limits shape }
    ensures { result ≡ record_if_lawful shape vcpu.0 intid.0 «record» sources next }
{
    number_lawful(shape, vcpu, intid, record, sources).then_some((
        RecordAndSources { record, sources },
        next,
    ))
}

#[tactic(auto, unfolding(crate::specs::Reading::record_found))]
pub fn private_at(
    image: &[u8],
    at: usize,
    shape: Shape,
    vcpu: GicVcpuId,
    intid: IntId,
) -> Option<(RecordAndSources, usize)>
    requires { (Limits shape) × (intid.0 < 32) }
    ensures { result ≡ record_found shape vcpu.0 intid.0 image.now at }
{
    let (flags, a) = flags_at(image, at)?;
    let (priority, b) = number_up_to(image, a, 255)?;
    let (rest, next) = rest_at(image, b, vcpu, intid, flags / 8 % 2 == 1)?;
    let record = record_from(flags, priority as u8, rest.owner, rest.mask);
    lawful_record(shape, vcpu, intid, record, rest.sources, next)
}

// Of an SPI: nobody's if it is not in flight, with no redelivery noted; else active, and an existing vCPU's.
fn flight_lawful(flags: u32, owner: u32, count: u32) -> bool
    ensures { result ≡ flight_lawful flags owner count }
{
    let active = flags / 4 % 2 == 1;
    let inflight = flags / 8 % 2 == 1;
    let noted = flags / 16 % 2 == 1;
    if owner == 0 {
        !inflight & !noted
    } else {
        inflight & active & (owner <= count)
    }
}

// A mask that was never set passes as 0.
fn spi_lawful(shape: Shape, flags: u32, owner: u32, mask: u32) -> bool
    requires { Limits shape }
    ensures { result ≡ spi_lawful shape flags owner mask }
{
    flight_lawful(flags, owner, shape.count as u32) & (mask % UNSET < (1u32 << shape.count))
}

// Every SPI's record is read the same way. An owner above 8 is told by the count.
#[tactic(auto, unfolding(crate::specs::Reading::record_found))]
pub fn spi_at(image: &[u8], at: usize, shape: Shape) -> Option<(RecordAndSources, usize)>
    requires { Limits shape }
    ensures { (n : ℕ) → 32 ≤ n → result ≡ record_found shape 0 n image.now at }
{
    let (flags, a) = flags_at(image, at)?;
    let (priority, b) = number_up_to(image, a, 255)?;
    let (owner, c) = read(image, b, 1)?;
    let (mask, next) = number_up_to(image, c, UNSET)?;
    if !spi_lawful(shape, flags, owner, mask) {
        return None;
    }
    let server = owner_of(owner as usize);
    let record = record_from(flags, priority as u8, server, mask_from(mask));
    Some((RecordAndSources { record, sources: 0 }, next))
}
