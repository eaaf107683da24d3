// The walk through an image, part by part: taken twice, first to look and then to store.
ghost use Rattle.std.specs.Prelude.{ℕ, ◌≡◌, true, cond, ◌+◌, ◌-◌, ◌*◌, ◌≤◌, ◌<◌};
ghost use Rattle.state.specs.Layout.{Limits, Room, stack_capacity};
ghost use Rattle.state.specs.Words.{RecordThere, with_entry};
ghost use Rattle.image.specs.Parts.{part_count};
ghost use Rattle.load.specs.Reading.{registers_at, record_found};
ghost use Rattle.load.specs.Walking.{with_registers, registers_end, registers_stored, with_depth, with_interrupt, entry_spot, spot_end, entries_stored, cleared_past, cleared_from, service_end, service_stored, record_end, record_stored, walked, parts_stored, Section, TakesEach};

use crate::reading::{
    InterfaceRegisters, entry_at, number_up_to, private_at, registers_at, spi_at,
};
use interrupt::{GicVcpuId, IntId, InterruptRecord, Priority};
use state::layout::{FIRST_SPI, STACK_CAPACITY};
use state::words::{
    clear_stack_entry, put_interface_value, put_record, put_sgi_sources, put_stack_entry,
};
use state::{Entry, InterfaceValue, Shape};

fn put_registers(words: &mut [u32], shape: Shape, vcpu: GicVcpuId, registers: InterfaceRegisters)
    requires { (Room shape words.old) × (vcpu.0 < shape.count) }
    ensures { words.new ≡ with_registers shape vcpu.0 registers.control registers.mask registers.point words.old }
{
    put_interface_value(
        words,
        shape,
        vcpu,
        InterfaceValue::Control,
        registers.control,
    );
    put_interface_value(
        words,
        shape,
        vcpu,
        InterfaceValue::PriorityMask,
        registers.mask,
    );
    put_interface_value(
        words,
        shape,
        vcpu,
        InterfaceValue::BinaryPoint,
        registers.point,
    );
}

// The clause `section` is what `take_each` asks of it.
#[tactic(auto, using(crate::proofs::Sections::section_registers))]
fn take_registers(
    image: &[u8],
    at: usize,
    words: &mut [u32],
    shape: Shape,
    vcpu: GicVcpuId,
    stores: bool,
) -> Option<usize>
    requires { (stores ≡ true → Room shape words.old) × (vcpu.0 < shape.count) }
    ensures taken { (result ≡ registers_end (registers_at image.now at)) × (words.new ≡ cond stores (registers_stored shape vcpu.0 (registers_at image.now at) words.old) words.old) }
    ensures section { Section shape image.now (0 + 1 * vcpu.0) (1) stores at words.old result words.new }
{
    let (registers, next) = registers_at(image, at)?;
    if stores {
        put_registers(words, shape, vcpu, registers);
    }
    Some(next)
}

fn clear_past(words: &mut [u32], shape: Shape, vcpu: GicVcpuId, depth: u32, i: u32)
    requires { (Room shape words.old) × ((vcpu.0 < shape.count) × (i < stack_capacity)) }
    ensures { words.new ≡ cleared_past shape vcpu.0 depth i words.old }
{
    if depth <= i {
        clear_stack_entry(words, shape, vcpu, i as usize);
    }
}

// What lies past the newest entry is cleared. The test in the loop keeps the compiler from making it a call of memset, which not every
// host has.
#[tactic(auto, using(crate::proofs::Walks::cleared_by_test), unfolding(crate::specs::Walking::cleared_from))]
fn clear_from(words: &mut [u32], shape: Shape, vcpu: GicVcpuId, depth: u32)
    requires { (Room shape words.old) × ((vcpu.0 < shape.count) × (depth ≤ stack_capacity)) }
    ensures { words.new ≡ cleared_from shape vcpu.0 depth words.old }
{
    for i in 0..STACK_CAPACITY {
        clear_past(words, shape, vcpu, depth, i);
    }
}

fn store_entry(
    words: &mut [u32],
    shape: Shape,
    vcpu: GicVcpuId,
    index: u32,
    entry: Entry,
    stores: bool,
)
    requires { (stores ≡ true → Room shape words.old) × ((vcpu.0 < shape.count) × (index < stack_capacity)) }
    ensures { words.new ≡ cond stores (with_entry shape vcpu.0 index «entry» words.old) words.old }
{
    if stores {
        put_stack_entry(words, shape, vcpu, index as usize, entry);
    }
}

fn take_entries(
    image: &[u8],
    start: usize,
    words: &mut [u32],
    shape: Shape,
    vcpu: GicVcpuId,
    depth: u32,
    stores: bool,
) -> Option<usize>
    requires { (stores ≡ true → Room shape words.old) × ((vcpu.0 < shape.count) × (depth ≤ stack_capacity)) }
    ensures { (result ≡ spot_end (entry_spot shape image.now start depth)) × (words.new ≡ cond stores (entries_stored shape image.now vcpu.0 start depth words.old) words.old) }
{
    let mut at = start;
    let mut above = Priority::IDLE;
    for i in 0..depth {
        let (entry, next) = entry_at(image, at, shape, above)?;
        store_entry(words, shape, vcpu, i, entry, stores);
        at = next;
        above = entry.priority;
    }
    Some(at)
}

fn begin_service(words: &mut [u32], shape: Shape, vcpu: GicVcpuId, depth: u32, stores: bool)
    requires { (stores ≡ true → Room shape words.old) × ((vcpu.0 < shape.count) × (depth ≤ stack_capacity)) }
    ensures { words.new ≡ cond stores (with_depth shape vcpu.0 depth words.old) words.old }
{
    if stores {
        put_interface_value(words, shape, vcpu, InterfaceValue::Depth, depth);
        clear_from(words, shape, vcpu, depth);
    }
}

#[tactic(auto, using(crate::proofs::Sections::section_service), unfolding(crate::specs::Walking::service_end, crate::specs::Walking::service_stored))]
fn take_service(
    image: &[u8],
    at: usize,
    words: &mut [u32],
    shape: Shape,
    vcpu: GicVcpuId,
    stores: bool,
) -> Option<usize>
    requires { (stores ≡ true → Room shape words.old) × (vcpu.0 < shape.count) }
    ensures taken { (result ≡ service_end shape image.now at) × (words.new ≡ cond stores (service_stored shape image.now vcpu.0 at words.old) words.old) }
    ensures section { Section shape image.now (shape.count + 1 * vcpu.0) (1) stores at words.old result words.new }
{
    let (depth, next) = number_up_to(image, at, STACK_CAPACITY)?;
    begin_service(words, shape, vcpu, depth, stores);
    take_entries(image, next, words, shape, vcpu, depth, stores)
}

fn store_record(
    words: &mut [u32],
    shape: Shape,
    vcpu: GicVcpuId,
    intid: IntId,
    record: InterruptRecord,
    sources: u8,
)
    requires { (Room shape words.old) × (RecordThere shape vcpu.0 intid.0) }
    ensures { words.new ≡ with_interrupt shape vcpu.0 intid.0 «record» sources words.old }
{
    put_record(words, shape, vcpu, intid, record);
    if intid.is_sgi() {
        put_sgi_sources(words, shape, vcpu, intid, sources);
    }
}

fn take_private(
    image: &[u8],
    at: usize,
    words: &mut [u32],
    shape: Shape,
    vcpu: GicVcpuId,
    intid: IntId,
    stores: bool,
) -> Option<usize>
    requires { (Limits shape) × ((stores ≡ true → Room shape words.old) × ((vcpu.0 < shape.count) × (intid.0 < 32))) }
    ensures { (result ≡ record_end (record_found shape vcpu.0 intid.0 image.now at)) × (words.new ≡ cond stores (record_stored shape vcpu.0 intid.0 (record_found shape vcpu.0 intid.0 image.now at) words.old) words.old) }
{
    let (found, next) = private_at(image, at, shape, vcpu, intid)?;
    if stores {
        store_record(words, shape, vcpu, intid, found.record, found.sources);
    }
    Some(next)
}

// The SPIs' records are met as the first vCPU's.
fn take_spi(
    image: &[u8],
    at: usize,
    words: &mut [u32],
    shape: Shape,
    intid: IntId,
    stores: bool,
) -> Option<usize>
    requires { (Limits shape) × ((stores ≡ true → Room shape words.old) × ((32 ≤ intid.0) × (intid.0 < shape.limit))) }
    ensures { (result ≡ record_end (record_found shape 0 intid.0 image.now at)) × (words.new ≡ cond stores (record_stored shape 0 intid.0 (record_found shape 0 intid.0 image.now at) words.old) words.old) }
{
    let (found, next) = spi_at(image, at, shape)?;
    if stores {
        put_record(words, shape, GicVcpuId(0), intid, found.record);
    }
    Some(next)
}

// What `take` takes of each vCPU, one after another.
fn take_each<F: Fn(&[u8], usize, &mut [u32], Shape, GicVcpuId, bool) -> Option<usize>>(
    image: &[u8],
    start: usize,
    words: &mut [u32],
    shape: Shape,
    stores: bool,
    take: F,
) -> Option<usize>
    ghost section: { ℕ × ℕ }
    requires { (TakesEach F.Fn take stores shape image.now section) × (stores ≡ true → Room shape words.old) }
    ensures { Section shape image.now section.0 (section.1 * shape.count) stores start words.old result words.new }
{
    let mut at = start;
    for v in 0..shape.count {
        at = take(image, at, words, shape, GicVcpuId(v), stores)?;
    }
    Some(at)
}

// Each vCPU's registers.
fn take_interfaces(
    image: &[u8],
    start: usize,
    words: &mut [u32],
    shape: Shape,
    stores: bool,
) -> Option<usize>
    requires { (Limits shape) × (stores ≡ true → Room shape words.old) }
    ensures { Section shape image.now (0) shape.count stores start words.old result words.new }
{
    take_each(image, start, words, shape, stores, take_registers)
}

// Each vCPU's stack.
fn take_stacks(
    image: &[u8],
    start: usize,
    words: &mut [u32],
    shape: Shape,
    stores: bool,
) -> Option<usize>
    requires { (Limits shape) × (stores ≡ true → Room shape words.old) }
    ensures { Section shape image.now shape.count shape.count stores start words.old result words.new }
{
    take_each(image, start, words, shape, stores, take_service)
}

// A vCPU's private records. This loop and that over the SPIs are not `take_each`'s: what they call is told an INTID, and a closure that
// holds the vCPU for it got no proof.
fn take_own(
    image: &[u8],
    start: usize,
    words: &mut [u32],
    shape: Shape,
    vcpu: GicVcpuId,
    stores: bool,
) -> Option<usize>
    requires { (Limits shape) × ((stores ≡ true → Room shape words.old) × (vcpu.0 < shape.count)) }
    ensures { Section shape image.now (2 * shape.count + 32 * vcpu.0) (32) stores start words.old result words.new }
{
    let mut at = start;
    for n in 0..FIRST_SPI {
        at = take_private(image, at, words, shape, vcpu, IntId(n), stores)?;
    }
    Some(at)
}

fn take_privates(
    image: &[u8],
    start: usize,
    words: &mut [u32],
    shape: Shape,
    stores: bool,
) -> Option<usize>
    requires { (Limits shape) × (stores ≡ true → Room shape words.old) }
    ensures { Section shape image.now (2 * shape.count) (32 * shape.count) stores start words.old result words.new }
{
    take_each(image, start, words, shape, stores, take_own)
}

fn take_spis(
    image: &[u8],
    start: usize,
    words: &mut [u32],
    shape: Shape,
    stores: bool,
) -> Option<usize>
    requires { (Limits shape) × (stores ≡ true → Room shape words.old) }
    ensures { Section shape image.now (34 * shape.count) (shape.limit - 32) stores start words.old result words.new }
{
    let mut at = start;
    for k in 0..shape.limit - FIRST_SPI {
        at = take_spi(image, at, words, shape, IntId(FIRST_SPI + k), stores)?;
    }
    Some(at)
}

// Without `stores` the words stay: the whole image is looked at before the first word is stored.
pub fn take_parts(
    image: &[u8],
    start: usize,
    words: &mut [u32],
    shape: Shape,
    stores: bool,
) -> Option<usize>
    requires { (Limits shape) × (stores ≡ true → Room shape words.old) }
    ensures { (result ≡ walked shape image.now start (part_count shape)) × (words.new ≡ cond stores (parts_stored shape image.now start words.old) words.old) }
{
    let a = take_interfaces(image, start, words, shape, stores)?;
    let b = take_stacks(image, a, words, shape, stores)?;
    let c = take_privates(image, b, words, shape, stores)?;
    take_spis(image, c, words, shape, stores)
}
