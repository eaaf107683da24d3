// What the words of a state mean, and what is written for it: two functions for each kind of slot.
ghost use Rattle.std.specs.Prelude.{◌≡◌, ◌<◌, length, set};
ghost use Rattle.interrupt.specs.Record.{is_ready};
ghost use Rattle.word.specs.Word.{record_of};
ghost use Rattle.state.specs.Layout.{Interface, Sources, Spi, Stack, Room, Placed};
ghost use Rattle.state.specs.Words.{with_bit, ready_bit, without_summary, put, Reached, HoldsSlot, record_slot, record_at, with_record, sources_at, with_sources, kept, interface_at, with_interface, kept_distributor_control, distributor_control_at, with_distributor_control, enabled_at, entry_of, entry_word, entry_at, with_entry, without_entry};

use crate::layout::{
    DISTRIBUTOR_CONTROL, InterfaceValue, Shape, interface_place, record_place, sources_place,
    stack_place, summary_place,
};
use interrupt::{GicVcpuId, IntId, InterruptRecord, Priority};
use word::{decode, encode};

// What a vCPU has under service: an acknowledged interrupt and its priority.
#[derive(Clone, Copy)]
pub struct Entry {
    pub intid: IntId,
    pub priority: Priority,
}

pub fn record(words: &[u32], shape: Shape, vcpu: GicVcpuId, intid: IntId) -> InterruptRecord
    requires { Reached shape vcpu.0 intid.0 words.now }
    ensures { result ≡ record_at shape vcpu.0 intid.0 words.now }
{
    let at = record_place(shape, vcpu, intid);
    decode(words[at])
}

fn with_bit(word: u32, bit: u32, on: bool) -> u32
    requires { bit < 32 }
    ensures { result ≡ with_bit bit on word }
{
    let one = 1 << bit;
    let rest = word - (word & one);
    if on { rest + one } else { rest }
}

// Of a record's word the lowest three bits: enabled and pending, and not active.
const READY: u32 = 3;

// Whether the record of this word is ready.
#[tactic(auto, using(crate::proofs::WordBits::ready_word_lem))]
pub fn ready_word(word: u32) -> bool
    ensures { result ≡ is_ready (record_of word) }
{
    word % 8 == READY
}

// What the summary says of an SPI.
#[tactic(auto, unfolding(crate::specs::Words::ready_bit))]
pub fn ready_bit(words: &[u32], shape: Shape, spi: IntId) -> bool
    requires { HoldsSlot shape (Spi spi.0) words.now }
    ensures { result ≡ ready_bit shape spi.0 words.now }
{
    let summary = summary_place(shape, spi);
    (words[summary] >> (spi.0 % 32)) % 2 == 1
}

// An SPI's record and its bit of the summary are written together, here alone.
fn put_spi_word(words: &mut [u32], shape: Shape, spi: IntId, at: usize, word: u32)
    requires { (HoldsSlot shape (Spi spi.0) words.old) × (Placed shape (Spi spi.0) at) }
    ensures { words.new ≡ put shape (Spi spi.0) word words.old }
{
    words[at] = word;
    let summary = summary_place(shape, spi);
    words[summary] = with_bit(words[summary], spi.0 % 32, ready_word(word));
}

// The one function that stores a record, for whoever has its place already; setup's fill stores every word once.
pub fn put_record_at(
    words: &mut [u32],
    shape: Shape,
    vcpu: GicVcpuId,
    intid: IntId,
    at: usize,
    record: InterruptRecord,
)
    requires { (Reached shape vcpu.0 intid.0 words.old) × (Placed shape (record_slot vcpu.0 intid.0) at) }
    ensures { words.new ≡ with_record shape vcpu.0 intid.0 «record» words.old }
{
    let word = encode(record);
    if intid.is_private() {
        words[at] = word;
    } else {
        put_spi_word(words, shape, intid, at, word);
    }
}

// With a test, for a loop that only clears is made a call of memset, which nobody provides.
fn clear_word(words: &mut [u32], at: usize)
    requires { at < length words.old }
    ensures { words.new ≡ set words.old at 0 }
{
    if words[at] != 0 {
        words[at] = 0;
    }
}

#[tactic(auto, unfolding(crate::specs::Loop::up_to, crate::specs::Words::without_summary))]
pub fn clear_summary(words: &mut [u32], shape: Shape)
    requires { Room shape words.old }
    ensures { words.new ≡ without_summary shape words.old }
{
    let summary = shape.spi_end();
    let many = shape.summary_words();
    for g in 0..many {
        clear_word(words, summary + g);
    }
}

pub fn put_record(
    words: &mut [u32],
    shape: Shape,
    vcpu: GicVcpuId,
    intid: IntId,
    record: InterruptRecord,
)
    requires { Reached shape vcpu.0 intid.0 words.old }
    ensures { words.new ≡ with_record shape vcpu.0 intid.0 «record» words.old }
{
    let at = record_place(shape, vcpu, intid);
    put_record_at(words, shape, vcpu, intid, at, record);
}

pub fn sgi_sources(words: &[u32], shape: Shape, vcpu: GicVcpuId, sgi: IntId) -> u8
    requires { HoldsSlot shape (Sources vcpu.0 sgi.0) words.now }
    ensures { result ≡ sources_at shape vcpu.0 sgi.0 words.now }
{
    let at = sources_place(shape, vcpu, sgi);
    (words[at] % 256) as u8
}

pub fn put_sgi_sources(words: &mut [u32], shape: Shape, vcpu: GicVcpuId, sgi: IntId, sources: u8)
    requires { HoldsSlot shape (Sources vcpu.0 sgi.0) words.old }
    ensures { words.new ≡ with_sources shape vcpu.0 sgi.0 sources words.old }
{
    let at = sources_place(shape, vcpu, sgi);
    words[at] = sources as u32;
}

impl InterfaceValue {
    // The bits of a word that this value has.
    pub fn kept(self, word: u32) -> u32
        ensures { result ≡ kept self word }
    {
        match self {
            InterfaceValue::Control => word % 2 + 512 * (word / 512 % 2),
            InterfaceValue::PriorityMask => word % 256,
            InterfaceValue::BinaryPoint => word % 8,
            InterfaceValue::Depth => word,
        }
    }
}

pub fn interface_value(words: &[u32], shape: Shape, vcpu: GicVcpuId, value: InterfaceValue) -> u32
    requires { HoldsSlot shape (Interface vcpu.0 value) words.now }
    ensures { result ≡ interface_at shape vcpu.0 value words.now }
{
    let at = interface_place(shape, vcpu, value);
    value.kept(words[at])
}

pub fn put_interface_value(
    words: &mut [u32],
    shape: Shape,
    vcpu: GicVcpuId,
    value: InterfaceValue,
    bits: u32,
)
    requires { HoldsSlot shape (Interface vcpu.0 value) words.old }
    ensures { words.new ≡ with_interface shape vcpu.0 value bits words.old }
{
    let at = interface_place(shape, vcpu, value);
    words[at] = value.kept(bits);
}

// The bits of a word that the Distributor's CTLR has.
fn kept_distributor_control(word: u32) -> u32
    ensures { result ≡ kept_distributor_control word }
{
    word % 2
}

pub fn distributor_control(words: &[u32], shape: Shape) -> u32
    requires { Room shape words.now }
    ensures { result ≡ distributor_control_at shape words.now }
{
    kept_distributor_control(words[DISTRIBUTOR_CONTROL])
}

pub fn put_distributor_control(words: &mut [u32], shape: Shape, bits: u32)
    requires { Room shape words.old }
    ensures { words.new ≡ with_distributor_control shape bits words.old }
{
    words[DISTRIBUTOR_CONTROL] = kept_distributor_control(bits);
}

pub fn distributor_enabled(words: &[u32], shape: Shape) -> bool
    requires { Room shape words.now }
    ensures { result ≡ enabled_at shape words.now }
{
    distributor_control(words, shape) % 2 == 1
}

// No From: most words are no entry.
fn entry_of(word: u32) -> Entry
    ensures { result ≡ entry_of word }
{
    Entry {
        intid: IntId(word % 1024),
        priority: Priority::new((word / 1024 % 256) as u8),
    }
}

fn entry_word(entry: Entry) -> u32
    ensures { result ≡ entry_word entry }
{
    entry.intid.0 % 1024 + 1024 * (entry.priority.0 as u32)
}

pub fn stack_entry(words: &[u32], shape: Shape, vcpu: GicVcpuId, index: usize) -> Entry
    requires { HoldsSlot shape (Stack vcpu.0 index) words.now }
    ensures { result ≡ entry_at shape vcpu.0 index words.now }
{
    let at = stack_place(shape, vcpu, index);
    entry_of(words[at])
}

pub fn put_stack_entry(words: &mut [u32], shape: Shape, vcpu: GicVcpuId, index: usize, entry: Entry)
    requires { HoldsSlot shape (Stack vcpu.0 index) words.old }
    ensures { words.new ≡ with_entry shape vcpu.0 index entry words.old }
{
    let at = stack_place(shape, vcpu, index);
    words[at] = entry_word(entry);
}

pub fn clear_stack_entry(words: &mut [u32], shape: Shape, vcpu: GicVcpuId, index: usize)
    requires { HoldsSlot shape (Stack vcpu.0 index) words.old }
    ensures { words.new ≡ without_entry shape vcpu.0 index words.old }
{
    let at = stack_place(shape, vcpu, index);
    words[at] = 0;
}
