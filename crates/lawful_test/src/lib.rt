// Whether the words of a state are lawful: one pass, in which each record and each entry under service is read once.
// What lawful means is in crates/lawful; that the test says just this, in proofs/Passing.antt.
#![tactic(auto)]

ghost use Rattle.std.specs.Prelude.{◌≡◌, ◌-◌, ◌≤◌};
ghost use Rattle.state.specs.Layout.{Limits, Sources};
ghost use Rattle.state.specs.Loop.{every_below};
ghost use Rattle.state.specs.Words.{Reached, HoldsSlot};
ghost use Rattle.service.specs.Service.{Served, Sound};
ghost use Rattle.lawful_test.specs.LawfulTest.{may_serve, owner_lawful, mask_lawful, sgi_lawful, record_lawful, sources_lawful, number_lawful, numbers_lawful, entry_lawful, stack_lawful, vcpu_lawful, spi_passes, spis_pass, is_lawful};
ghost use Rattle.lawful_test.specs.Quiet.{quiet};

use interrupt::{GicVcpuId, IntId, InterruptRecord, Priority};
use service::depth;
use state::layout::{FIRST_SPI, record_place};
use state::words::{ready_bit, ready_word, sgi_sources, stack_entry};
use state::{Entry, Shape};
use word::decode;

const SGIS: u32 = 16;

const PPIS: u32 = 16;

// Of a record's word, what the lowest bit of a part counts: in flight, the line, the mask's being set, the mask.
const INFLIGHT: u32 = 8;

const LINE: u32 = 32;

const MASK_SET: u32 = 128;

const TARGET_MASK: u32 = 0x1_0000;

// A private record is its own vCPU's, an SPI's any existing one's.
fn may_serve(shape: Shape, vcpu: GicVcpuId, intid: IntId, server: GicVcpuId) -> bool
    ensures { result ≡ may_serve shape vcpu.0 intid.0 server.0 }
{
    if intid.is_private() {
        server.0 == vcpu.0
    } else {
        server.0 < shape.count
    }
}

fn owner_lawful(
    shape: Shape,
    vcpu: GicVcpuId,
    intid: IntId,
    inflight: bool,
    owner: Option<GicVcpuId>,
) -> bool
    ensures { result ≡ owner_lawful shape vcpu.0 intid.0 inflight owner }
{
    owner.map_or(
        !inflight,
        |server| inflight & may_serve(shape, vcpu, intid, server),
    )
}

fn mask_lawful(shape: Shape, intid: IntId, mask: Option<u8>) -> bool
    requires { Limits shape }
    ensures { result ≡ mask_lawful shape intid.0 mask }
{
    match mask {
        None => true,
        Some(byte) => !intid.is_private() & ((byte as u32) < (1u32 << shape.count)),
    }
}

fn edge_lawful(intid: IntId, record: InterruptRecord) -> bool
    ensures { result ≡ sgi_lawful intid.0 «record» }
{
    !intid.is_sgi()
        | (!record.trigger.is_level() & !record.line_asserted & !record.redelivery_pending)
}

pub fn record_lawful(shape: Shape, vcpu: GicVcpuId, intid: IntId, record: InterruptRecord) -> bool
    requires { Limits shape }
    ensures { result ≡ record_lawful shape vcpu.0 intid.0 «record» }
{
    (!record.inflight | record.active)
        & (!record.redelivery_pending | record.inflight)
        & owner_lawful(shape, vcpu, intid, record.inflight, record.owner)
        & mask_lawful(shape, intid, record.cpu_target_mask)
        & edge_lawful(intid, record)
}

// An SGI is pending exactly when a source is set.
pub fn sources_lawful(sources: u8, pending: bool) -> bool
    ensures { result ≡ sources_lawful sources pending }
{
    if pending { sources != 0 } else { sources == 0 }
}

// Most records are quiet, and pass by few instructions: not in flight, none noted, and nothing from `bound` up above the priority.
fn is_quiet(word: u32, bound: u32) -> bool
    ensures { result ≡ quiet bound word }
{
    (word / INFLIGHT % 4 == 0) & (word / TARGET_MASK < bound)
}

fn sgi_lawful(words: &[u32], shape: Shape, vcpu: GicVcpuId, sgi: IntId) -> bool
    requires { HoldsSlot shape (Sources vcpu.0 sgi.0) words.now }
    ensures { result ≡ number_lawful shape vcpu.0 words.now sgi.0 }
{
    let at = record_place(shape, vcpu, sgi);
    let word = words[at];
    let found = decode(word);
    let sourced = sources_lawful(sgi_sources(words, shape, vcpu, sgi), found.pending);
    // Edge, with its line low and no mask.
    if is_quiet(word, 1) & (word / LINE % 8 == 2) {
        return sourced;
    }
    record_lawful(shape, vcpu, sgi, found) & sourced
}

fn sgis_lawful(words: &[u32], shape: Shape, vcpu: GicVcpuId) -> bool
    requires { Served shape vcpu.0 words.now }
    ensures { result ≡ every_below (number_lawful shape vcpu.0 words.now) 16 }
{
    (0..SGIS).all(|i| sgi_lawful(words, shape, vcpu, IntId(i)))
}

fn ppi_lawful(words: &[u32], shape: Shape, vcpu: GicVcpuId, ppi: IntId) -> bool
    requires { (Reached shape vcpu.0 ppi.0 words.now) × (16 ≤ ppi.0) }
    ensures { result ≡ number_lawful shape vcpu.0 words.now ppi.0 }
{
    let at = record_place(shape, vcpu, ppi);
    let word = words[at];
    if is_quiet(word, 1) & (word / MASK_SET % 2 == 0) {
        return true;
    }
    record_lawful(shape, vcpu, ppi, decode(word))
}

fn ppis_lawful(words: &[u32], shape: Shape, vcpu: GicVcpuId) -> bool
    requires { Served shape vcpu.0 words.now }
    ensures { result ≡ numbers_lawful shape vcpu.0 words.now 16 16 }
{
    (SGIS..SGIS + PPIS).all(|i| ppi_lawful(words, shape, vcpu, IntId(i)))
}

// The records of SPIs are met as vCPU 0 meets them.
fn spi_lawful(words: &[u32], shape: Shape, spi: IntId) -> bool
    requires { (Reached shape 0 spi.0 words.now) × (32 ≤ spi.0) }
    ensures { result ≡ spi_passes shape words.now spi.0 }
{
    let at = record_place(shape, GicVcpuId(0), spi);
    let word = words[at];
    let exact = ready_bit(words, shape, spi) == ready_word(word);
    if is_quiet(word, 1u32 << shape.count) {
        return exact;
    }
    record_lawful(shape, GicVcpuId(0), spi, decode(word)) & exact
}

fn spis_lawful(words: &[u32], shape: Shape) -> bool
    requires { Sound shape words.now }
    ensures { result ≡ spis_pass shape words.now (shape.limit - 32) }
{
    (FIRST_SPI..shape.limit).all(|i| spi_lawful(words, shape, IntId(i)))
}

pub fn entry_lawful(shape: Shape, above: Priority, entry: Entry) -> bool
    ensures { result ≡ entry_lawful shape above.0 «entry» }
{
    (entry.priority.0 < above.0) & (entry.priority.0 % 2 == 0) & (entry.intid.0 < shape.limit)
}

// From the oldest: each is even and lies below the one before it, and the oldest below what runs when nothing does.
fn stack_lawful(words: &[u32], shape: Shape, vcpu: GicVcpuId) -> bool
    requires { Served shape vcpu.0 words.now }
    ensures { result ≡ stack_lawful shape vcpu.0 words.now }
{
    let held = depth(words, shape, vcpu) as usize;
    let mut above = Priority::IDLE;
    for i in 0..held {
        let entry = stack_entry(words, shape, vcpu, i);
        if !entry_lawful(shape, above, entry) {
            return false;
        }
        above = entry.priority;
    }
    true
}

fn vcpu_lawful(words: &[u32], shape: Shape, vcpu: GicVcpuId) -> bool
    requires { Served shape vcpu.0 words.now }
    ensures { result ≡ vcpu_lawful shape words.now vcpu.0 }
{
    if !stack_lawful(words, shape, vcpu) {
        return false;
    }
    sgis_lawful(words, shape, vcpu) && ppis_lawful(words, shape, vcpu)
}

fn vcpus_lawful(words: &[u32], shape: Shape) -> bool
    requires { Sound shape words.now }
    ensures { result ≡ every_below (vcpu_lawful shape words.now) shape.count }
{
    (0..shape.count).all(|v| vcpu_lawful(words, shape, GicVcpuId(v)))
}

// Of words that refusal 6 lets pass.
pub fn is_lawful(words: &[u32], shape: Shape) -> bool
    requires { Sound shape words.now }
    ensures { result ≡ is_lawful shape words.now }
{
    vcpus_lawful(words, shape) && spis_lawful(words, shape)
}
