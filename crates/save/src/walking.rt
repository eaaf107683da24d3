// The walk through a state, section by section: taken to measure its image, and then to write it.
ghost use Rattle.std.specs.Prelude.{List, ℕ, [], ◌∷◌, ◌≡◌, ◌-◌, ◌≤◌, ◌<◌};
ghost use Rattle.groups.specs.Groups.{spelled, Wrote, WroteBy};
ghost use Rattle.state.specs.Layout.{stack_capacity};
ghost use Rattle.state.specs.Words.{Reached, record_at};
ghost use Rattle.word.specs.Word.{owner_in_range};
ghost use Rattle.service.specs.Service.{Served, Sound};
ghost use Rattle.image.specs.Image.{each, flags_number, owner_number, mask_number, interface_numbers, service_numbers, private_numbers_at, spi_numbers, spi_numbers_at, body_numbers, numbers, image};
ghost use Rattle.save.specs.Fitting.{Fitting, FitsIn, PutsEach, entries_numbers};

use groups::Writer;
use interrupt::{GicVcpuId, IntId, InterruptRecord};
use service::depth;
use state::layout::FIRST_SPI;
use state::words::{distributor_control, interface_value, record, sgi_sources, stack_entry};
use state::{InterfaceValue, Shape};
use word::flags;

// In a mask's place: no mask is set.
const UNSET: u32 = 256;

fn flags_number(record: InterruptRecord) -> u32
    ensures { (result ≡ flags_number «record») × (result < 128) }
{
    flags(record) % 128
}

fn owner_number(owner: Option<GicVcpuId>) -> u32
    requires { owner_in_range owner }
    ensures { (result ≡ owner_number owner) × (result < 256) }
{
    match owner {
        None => 0,
        Some(vcpu) => vcpu.0 as u32 + 1,
    }
}

fn mask_number(mask: Option<u8>) -> u32
    ensures { (result ≡ mask_number mask) × (result ≤ 256) }
{
    match mask {
        None => UNSET,
        Some(byte) => byte as u32,
    }
}

fn put_two(writer: &mut Writer<'_>, a: u32, b: u32, writes: bool)
    requires { (a < 16384) × (b < 16384) × (FitsIn writes (a ∷ b ∷ []) writer.old) }
    ensures { WroteBy writes (spelled (a ∷ b ∷ [])) writer.old writer.new }
{
    writer.put_number(a, writes);
    writer.put_number(b, writes);
}

fn put_three(writer: &mut Writer<'_>, a: u32, b: u32, c: u32, writes: bool)
    requires { (a < 16384) × (b < 16384) × (c < 16384) × (FitsIn writes (a ∷ b ∷ c ∷ []) writer.old) }
    ensures { WroteBy writes (spelled (a ∷ b ∷ c ∷ [])) writer.old writer.new }
{
    put_two(writer, a, b, writes);
    writer.put_number(c, writes);
}

fn put_registers(
    writer: &mut Writer<'_>,
    words: &[u32],
    shape: Shape,
    vcpu: GicVcpuId,
    writes: bool,
)
    requires { (Served shape vcpu.0 words.now) × (FitsIn writes (interface_numbers shape words.now vcpu.0) writer.old) }
    ensures { WroteBy writes (spelled (interface_numbers shape words.now vcpu.0)) writer.old writer.new }
{
    let control = interface_value(words, shape, vcpu, InterfaceValue::Control);
    let mask = interface_value(words, shape, vcpu, InterfaceValue::PriorityMask);
    let point = interface_value(words, shape, vcpu, InterfaceValue::BinaryPoint);
    put_three(writer, control, mask, point, writes);
}

// From the oldest.
fn put_entries(
    writer: &mut Writer<'_>,
    words: &[u32],
    shape: Shape,
    vcpu: GicVcpuId,
    held: usize,
    writes: bool,
)
    requires { (Served shape vcpu.0 words.now) × (held ≤ stack_capacity) × (FitsIn writes (entries_numbers shape words.now vcpu.0 held) writer.old) }
    ensures { WroteBy writes (spelled (entries_numbers shape words.now vcpu.0 held)) writer.old writer.new }
{
    for i in 0..held {
        let entry = stack_entry(words, shape, vcpu, i);
        put_two(writer, entry.intid.0, entry.priority.0 as u32, writes);
    }
}

fn put_service(writer: &mut Writer<'_>, words: &[u32], shape: Shape, vcpu: GicVcpuId, writes: bool)
    requires { (Served shape vcpu.0 words.now) × (FitsIn writes (service_numbers shape words.now vcpu.0) writer.old) }
    ensures { WroteBy writes (spelled (service_numbers shape words.now vcpu.0)) writer.old writer.new }
{
    let held = depth(words, shape, vcpu);
    writer.put_number(held, writes);
    put_entries(writer, words, shape, vcpu, held as usize, writes);
}

fn put_private(
    writer: &mut Writer<'_>,
    words: &[u32],
    shape: Shape,
    vcpu: GicVcpuId,
    intid: IntId,
    writes: bool,
)
    requires { (Reached shape vcpu.0 intid.0 words.now) × (FitsIn writes (private_numbers_at shape words.now vcpu.0 intid.0) writer.old) }
    ensures { WroteBy writes (spelled (private_numbers_at shape words.now vcpu.0 intid.0)) writer.old writer.new }
{
    let found = record(words, shape, vcpu, intid);
    let flags = flags_number(found);
    put_two(writer, flags, found.priority.0 as u32, writes);
    if intid.is_sgi() {
        let sources = sgi_sources(words, shape, vcpu, intid);
        writer.put_number(sources as u32, writes);
    }
}

// The record of an SPI is every vCPU's.
fn put_spi(writer: &mut Writer<'_>, words: &[u32], shape: Shape, spi: IntId, writes: bool)
    requires { (Reached shape 0 spi.0 words.now) × (FitsIn writes (spi_numbers (record_at shape 0 spi.0 words.now)) writer.old) }
    ensures { WroteBy writes (spelled (spi_numbers (record_at shape 0 spi.0 words.now))) writer.old writer.new }
{
    let found = record(words, shape, GicVcpuId(0), spi);
    let owner = found.owner;
    let mask = found.cpu_target_mask;
    let flags = flags_number(found);
    put_two(writer, flags, found.priority.0 as u32, writes);
    put_two(writer, owner_number(owner), mask_number(mask), writes);
}

// A vCPU's private records. This loop and that over the SPIs are not `put_each`'s: what they call is told an INTID, and a closure that holds
// the vCPU for it got no proof.
fn put_own(writer: &mut Writer<'_>, words: &[u32], shape: Shape, vcpu: GicVcpuId, writes: bool)
    requires { (Served shape vcpu.0 words.now) × (FitsIn writes (each (private_numbers_at shape words.now vcpu.0) 32) writer.old) }
    ensures { WroteBy writes (spelled (each (private_numbers_at shape words.now vcpu.0) 32)) writer.old writer.new }
{
    for n in 0..FIRST_SPI {
        put_private(writer, words, shape, vcpu, IntId(n), writes);
    }
}

// What `put` writes of each vCPU, one after another.
fn put_each<F: Fn(&mut Writer<'_>, &[u32], Shape, GicVcpuId, bool)>(
    writer: &mut Writer<'_>,
    words: &[u32],
    shape: Shape,
    writes: bool,
    put: F,
)
    ghost numbers: { ℕ → List ℕ }
    requires { (PutsEach F.Fn put writes shape words.now numbers) × (FitsIn writes (each numbers shape.count) writer.old) }
    ensures { WroteBy writes (spelled (each numbers shape.count)) writer.old writer.new }
{
    for v in 0..shape.count {
        put(writer, words, shape, GicVcpuId(v), writes);
    }
}

// The four sections of an image, three by `put_each` and the last with a loop of its own: what is told once of a section is not asked of each number in it.
fn put_interfaces(writer: &mut Writer<'_>, words: &[u32], shape: Shape, writes: bool)
    requires { (Sound shape words.now) × (FitsIn writes (each (interface_numbers shape words.now) shape.count) writer.old) }
    ensures { WroteBy writes (spelled (each (interface_numbers shape words.now) shape.count)) writer.old writer.new }
{
    put_each(writer, words, shape, writes, put_registers);
}

fn put_stacks(writer: &mut Writer<'_>, words: &[u32], shape: Shape, writes: bool)
    requires { (Sound shape words.now) × (FitsIn writes (each (service_numbers shape words.now) shape.count) writer.old) }
    ensures { WroteBy writes (spelled (each (service_numbers shape words.now) shape.count)) writer.old writer.new }
{
    put_each(writer, words, shape, writes, put_service);
}

fn put_privates(writer: &mut Writer<'_>, words: &[u32], shape: Shape, writes: bool)
    requires { (Sound shape words.now) × (FitsIn writes (each (λ v. each (private_numbers_at shape words.now v) 32) shape.count) writer.old) }
    ensures { WroteBy writes (spelled (each (λ v. each (private_numbers_at shape words.now v) 32) shape.count)) writer.old writer.new }
{
    put_each(writer, words, shape, writes, put_own);
}

fn put_spis(writer: &mut Writer<'_>, words: &[u32], shape: Shape, writes: bool)
    requires { (Sound shape words.now) × (FitsIn writes (each (spi_numbers_at shape words.now) (shape.limit - 32)) writer.old) }
    ensures { WroteBy writes (spelled (each (spi_numbers_at shape words.now) (shape.limit - 32))) writer.old writer.new }
{
    for i in 0..shape.limit - FIRST_SPI {
        put_spi(writer, words, shape, IntId(FIRST_SPI + i), writes);
    }
}

fn put_body(writer: &mut Writer<'_>, words: &[u32], shape: Shape, writes: bool)
    requires { (Sound shape words.now) × (FitsIn writes (body_numbers shape words.now) writer.old) }
    ensures { WroteBy writes (spelled (body_numbers shape words.now)) writer.old writer.new }
{
    put_interfaces(writer, words, shape, writes);
    put_stacks(writer, words, shape, writes);
    put_privates(writer, words, shape, writes);
    put_spis(writer, words, shape, writes);
}

// Without `writes` the buffer stays: what is answered is the length.
pub fn put_image(out: &mut [u8], words: &[u32], shape: Shape, writes: bool) -> usize
    requires { (Sound shape words.now) × (Fitting writes (numbers shape words.now) 0 out.old) }
    ensures { Wrote writes (image shape words.now) 0 out.old out.new result }
{
    let control = distributor_control(words, shape);
    let mut writer = Writer { out, at: 0 };
    put_three(
        &mut writer,
        shape.count as u32,
        shape.limit,
        control,
        writes,
    );
    put_body(&mut writer, words, shape, writes);
    writer.at
}
