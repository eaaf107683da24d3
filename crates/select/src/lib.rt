// Selection: which interrupt a vCPU is offered. The private records are visited one by one, of the SPIs those whose bit is set.
#![tactic(auto)]

ghost use Rattle.std.specs.Prelude.{◌≡◌, ◌<◌, ◌-◌, ◌*◌};
ghost use Rattle.state.specs.Layout.{spi_start, Room};
ghost use Rattle.state.specs.declared.layout.InterfaceValue.TheVariants.{PriorityMask};
ghost use Rattle.state.specs.Words.{interface_at};
ghost use Rattle.select.specs.Select.{best, both_on, selected_number, highest_pending, Looked};
ghost use Rattle.select.specs.Keys.{private_bits, spi_bits, test_of, ready_word, selected_by, with_word, least_key, every_number, bit_is_set, with_spi, with_summary_word, key_of, LowEnough, urgent, Sought, NumbersAt, KeyRun};

use interrupt::{GicVcpuId, IntId, Priority};
use state::layout::record_place;
use state::words::{distributor_enabled, interface_value};
use state::{InterfaceValue, Shape};

// An interrupt that a vCPU may be given, with its priority.
#[derive(Clone, Copy)]
pub struct Candidate {
    pub intid: IntId,
    pub priority: Priority,
}

// Bits of a record's word, which the loop tests as it stands: several flags by one comparison.
const ENABLED: u32 = 1;

const PENDING: u32 = 2;

const ACTIVE: u32 = 4;

const MASK_SET: u32 = 128;

const FIRST_TARGET: u32 = 0x1_0000;

// The bits that a test cares for, and how they are wanted.
#[derive(Clone, Copy)]
struct WordTest {
    care: u32,
    wanted: u32,
}

fn private_test() -> WordTest
    ensures { result ≡ test_of private_bits }
{
    let wanted = ENABLED + PENDING;
    let care = wanted + ACTIVE;
    WordTest { care, wanted }
}

fn spi_test(vcpu: GicVcpuId) -> WordTest
    requires { vcpu.0 < 8 }
    ensures { result ≡ test_of (spi_bits vcpu.0) }
{
    let wanted = MASK_SET + (FIRST_TARGET << vcpu.0);
    WordTest {
        care: wanted,
        wanted,
    }
}

fn is_ready(word: u32, test: WordTest) -> bool
    ensures { result ≡ ready_word test word }
{
    (word & test.care) == test.wanted
}

// A key is the priority with the number below it: the least is the smallest priority's, then the smallest number's.
fn with_record(word: u32, intid: IntId, test: WordTest, so_far: u32) -> u32
    requires { intid.0 < 1020 }
    ensures { result ≡ with_word test intid.0 word so_far }
{
    if is_ready(word, test) {
        so_far.min(1024 * (word / 256 % 256) + intid.0)
    } else {
        so_far
    }
}

// Of the numbers from `first` to below `end`, and `start`; the record of the number n is at `offset + n`.
#[tactic(auto, unfolding(crate::specs::Keys::least_key))]
fn least_key(words: &[u32], offset: usize, first: u32, end: u32, test: WordTest, start: u32) -> u32
    requires { KeyRun offset first end words.now }
    ensures { result ≡ least_key every_number test offset first words.now start (end - first) }
{
    let mut key = start;
    for n in first..end {
        key = with_record(words[offset + n as usize], IntId(n), test, key);
    }
    key
}

// The same where the walk comes by: both keys are made, so that no branch hangs on the word.
fn with_spi(word: u32, intid: IntId, test: WordTest, so_far: u32) -> u32
    requires { intid.0 < 1020 }
    ensures { result ≡ with_word test intid.0 word so_far }
{
    let key = 1024 * (word / 256 % 256) + intid.0;
    let offered = if is_ready(word, test) { key } else { so_far };
    offered.min(so_far)
}

// A bit of the summary may be of no number.
fn with_number(
    words: &[u32],
    offset: usize,
    limit: u32,
    intid: IntId,
    test: WordTest,
    so_far: u32,
) -> u32
    requires { NumbersAt offset limit words.now }
    ensures { result ≡ with_spi test offset limit words.now intid.0 so_far }
{
    if intid.0 < limit {
        with_spi(words[offset + intid.0 as usize], intid, test, so_far)
    } else {
        so_far
    }
}

// The set bits of a word of the summary, the lowest first; `first` is the number of its bit 0.
#[tactic(auto, using(crate::proofs::Walk::cleared, crate::proofs::Walk::walk_turn, crate::proofs::Walk::walk_end))]
fn with_summary_word(
    words: &[u32],
    offset: usize,
    limit: u32,
    first: u32,
    bits: u32,
    test: WordTest,
    start: u32,
) -> u32
    requires { (first < 1020) × NumbersAt offset limit words.now }
    ensures { result ≡ with_summary_word test offset limit words.now first bits start }
{
    let mut key = start;
    let mut left = bits;
    // No index runs here: each turn takes off the lowest set bit.
    while left != 0 {
        let intid = IntId(first + u32::trailing_zeros(left));
        key = with_number(words, offset, limit, intid, test, key);
        left = left & (left - 1);
    }
    key
}

// Of the SPIs whose bit is set, and `start`; a key below `enough` ends the search.
fn least_ready(words: &[u32], shape: Shape, test: WordTest, start: u32, enough: u32) -> u32
    requires { Room shape words.now }
    ensures { LowEnough enough (least_key (bit_is_set shape words.now) test (spi_start shape - 32) 32 words.now start (shape.limit - 32)) result }
{
    let offset = shape.spi_start() - 32;
    let summary = shape.spi_end();
    let mut key = start;
    for g in 0..shape.summary_words() {
        if key < enough {
            return key;
        }
        let bits = words[summary + g];
        let first = 32 + 32 * g as u32;
        key = with_summary_word(words, offset, shape.limit, first, bits, test, key);
    }
    key
}

// `none` is the start of the run: where no key is below it, there is no candidate.
fn of_key(key: u32, none: u32) -> Option<Candidate>
    requires { none < 1024 * 256 }
    ensures { result ≡ selected_by none key }
{
    if key < none {
        Some(Candidate {
            intid: IntId(key % 1024),
            priority: Priority::new((key / 1024) as u8),
        })
    } else {
        None
    }
}

fn v2_priority_mask(words: &[u32], shape: Shape, vcpu: GicVcpuId) -> Priority
    requires { Looked shape vcpu.0 words.now }
    ensures { result.0 ≡ interface_at shape vcpu.0 PriorityMask words.now }
{
    let bits = interface_value(words, shape, vcpu, InterfaceValue::PriorityMask);
    Priority::new(bits as u8)
}

// The key of the best, or one below `enough`; a key is below `none` exactly if its priority is below the mask.
fn best_key(words: &[u32], shape: Shape, vcpu: GicVcpuId, none: u32, enough: u32) -> u32
    requires { Sought shape vcpu.0 none words.now }
    ensures { LowEnough enough (key_of none (best shape vcpu.0 words.now)) result }
{
    let own = record_place(shape, vcpu, IntId(0));
    let private = least_key(words, own, 0, 32, private_test(), none);
    least_ready(words, shape, spi_test(vcpu), private, enough)
}

pub fn highest_pending(words: &[u32], shape: Shape, vcpu: GicVcpuId) -> Option<Candidate>
    requires { Looked shape vcpu.0 words.now }
    ensures { result ≡ best shape vcpu.0 words.now }
{
    let mask = v2_priority_mask(words, shape, vcpu);
    let none = 1024 * mask.0 as u32;
    of_key(best_key(words, shape, vcpu, none, 0), none)
}

// Whether the best has a priority below `bound`: the first word of the summary with such a one ends the walk.
pub fn some_below(words: &[u32], shape: Shape, vcpu: GicVcpuId, bound: u32) -> bool
    requires { (Looked shape vcpu.0 words.now) × (bound < 1024) }
    ensures { result ≡ urgent bound (best shape vcpu.0 words.now) }
{
    let mask = v2_priority_mask(words, shape, vcpu);
    let none = 1024 * mask.0 as u32;
    let enough = none.min(1024 * bound);
    best_key(words, shape, vcpu, none, enough) < enough
}

pub fn both_enabled(words: &[u32], shape: Shape, vcpu: GicVcpuId) -> bool
    requires { Looked shape vcpu.0 words.now }
    ensures { result ≡ both_on shape vcpu.0 words.now }
{
    let interface = interface_value(words, shape, vcpu, InterfaceValue::Control) % 2 == 1;
    distributor_enabled(words, shape) & interface
}

fn selected_number(selected: Option<Candidate>) -> IntId
    ensures { result.0 ≡ selected_number selected }
{
    selected.map_or(IntId::SPURIOUS, |candidate| candidate.intid)
}

// HPPIR.
pub fn highest_pending_v2(words: &[u32], shape: Shape, vcpu: GicVcpuId) -> IntId
    requires { Looked shape vcpu.0 words.now }
    ensures { result.0 ≡ highest_pending shape vcpu.0 words.now }
{
    if both_enabled(words, shape, vcpu) {
        selected_number(highest_pending(words, shape, vcpu))
    } else {
        IntId::SPURIOUS
    }
}
