// A record as one word of the lent state: eight flags, then three bytes.
#![tactic(auto)]

ghost use Rattle.std.specs.Prelude.{◌≡◌, ◌<◌, [], not};
ghost use Rattle.word.specs.Word.{bit_of, trigger_of, mask_of, owner_of, record_of, is_set, mask_byte, owner_byte, flags_then, word_of};
ghost use Rattle.word.specs.Fields.{packed};
ghost use Rattle.interrupt.specs.Types.{is_level};

use interrupt::{GicVcpuId, InterruptRecord, Priority, TriggerMode};

// What the lowest bit of each byte above the flags counts.
const PRIORITY: u32 = 0x100;

const TARGET_MASK: u32 = 0x1_0000;

const OWNER: u32 = 0x100_0000;

// How many vCPUs a byte tells apart beside nobody.
const OWNERS: usize = 255;

// No From: of a bool it would not be said what true means.
pub fn trigger_of(edge: bool) -> TriggerMode
    ensures { result ≡ trigger_of edge }
{
    if edge {
        TriggerMode::Edge
    } else {
        TriggerMode::Level
    }
}

fn mask_of(set: bool, byte: u8) -> Option<u8>
    ensures { result ≡ mask_of set byte }
{
    set.then_some(byte)
}

pub fn owner_of(byte: usize) -> Option<GicVcpuId>
    ensures { result ≡ owner_of byte }
{
    byte.checked_sub(1).map(GicVcpuId)
}

pub fn bit(b: bool) -> u32
    ensures { (result ≡ bit_of b) × (result < 2) }
{
    u32::from(b)
}

fn edge_bit(trigger: TriggerMode) -> u32
    ensures { (result ≡ bit_of (not (is_level trigger))) × (result < 2) }
{
    bit(!trigger.is_level())
}

fn set_bit(mask: Option<u8>) -> u32
    ensures { (result ≡ bit_of (is_set mask)) × (result < 2) }
{
    bit(mask.is_some())
}

// Of no mask first: by `unwrap_or`, whose test is of the other case, every call that stores a record takes a word more of the stack on x86-64.
pub fn mask_byte(mask: Option<u8>) -> u8
    ensures { result ≡ mask_byte mask }
{
    match mask {
        None => 0,
        Some(byte) => byte,
    }
}

// The remainder is the number itself below `OWNERS`, and lets any owner be encoded.
fn owner_byte(owner: Option<GicVcpuId>) -> u8
    ensures { result ≡ owner_byte owner }
{
    match owner {
        None => 0,
        Some(vcpu) => (vcpu.0 % OWNERS + 1) as u8,
    }
}

// Every word is exactly one record. (No From: both types are declared elsewhere.)
#[tactic(auto, unfolding(crate::specs::Word::record_of))]
pub fn decode(w: u32) -> InterruptRecord
    ensures { result ≡ record_of w }
{
    InterruptRecord {
        enabled: w % 2 == 1,
        pending: w / 2 % 2 == 1,
        active: w / 4 % 2 == 1,
        inflight: w / 8 % 2 == 1,
        redelivery_pending: w / 16 % 2 == 1,
        line_asserted: w / 32 % 2 == 1,
        priority: Priority::new((w / PRIORITY % 256) as u8),
        trigger: trigger_of(w / 64 % 2 == 1),
        cpu_target_mask: mask_of(w / 128 % 2 == 1, (w / TARGET_MASK % 256) as u8),
        owner: owner_of((w / OWNER % 256) as usize),
    }
}

// The low byte of the word.
#[tactic(auto, unfolding(crate::specs::Fields::packed))]
pub fn flags(r: InterruptRecord) -> u32
    ensures { (result ≡ packed (flags_then r [])) × (result < 256) }
{
    bit(r.enabled)
        + 2 * bit(r.pending)
        + 4 * bit(r.active)
        + 8 * bit(r.inflight)
        + 16 * bit(r.redelivery_pending)
        + 32 * bit(r.line_asserted)
        + 64 * edge_bit(r.trigger)
        + 128 * set_bit(r.cpu_target_mask)
}

#[tactic(auto, unfolding(crate::specs::Fields::packed, crate::specs::Word::word_of))]
pub fn encode(r: InterruptRecord) -> u32
    ensures { result ≡ word_of r }
{
    flags(r)
        + PRIORITY * (r.priority.0 as u32)
        + TARGET_MASK * (mask_byte(r.cpu_target_mask) as u32)
        + OWNER * (owner_byte(r.owner) as u32)
}
