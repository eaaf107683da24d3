// The bit registers: one loop reads a word of any of them, one writes it.
#![tactic(auto)]

ghost use Rattle.std.specs.Prelude.{◌≡◌, ◌+◌, ◌*◌, ◌^◌, ◌<◌};
ghost use Rattle.state.specs.Layout.{Placed};
ghost use Rattle.state.specs.Words.{record_slot, Reached};
ghost use Rattle.word.specs.Fields.{field_at, gathered};
ghost use Rattle.bits.specs.Bits.{is_config, field_bits, per_word, read_bits, acts, clear_active, act, write_number, write_bits, BitWordAt};
ghost use Rattle.bits.specs.Run.{Existing, FieldShift, RunAt, flag_place, flag_weight, shown, field_in};

use interrupt::{GicVcpuId, IntId, InterruptRecord};
use register::BitRegister;
use state::Shape;
use state::layout::record_place;
use state::words::put_record_at;
use word::{decode, trigger_of};

// ICFGR has two bits for each number, the others one.
fn is_config(register: BitRegister) -> bool
    ensures { result ≡ is_config register }
{
    matches!(register, BitRegister::Icfgr)
}

pub fn per_word(register: BitRegister) -> u32
    ensures { (result ≡ per_word register) × (result < 33) }
{
    if is_config(register) { 16 } else { 32 }
}

fn field_shift(register: BitRegister, i: u32) -> u32
    requires { i < per_word register }
    ensures { FieldShift register i result }
{
    if is_config(register) { 2 * i } else { i }
}

fn field_of(register: BitRegister, value: u32, i: u32) -> u32
    requires { i < per_word register }
    ensures { result ≡ field_at (field_bits register) i value }
{
    let shift = field_shift(register, i);
    if is_config(register) {
        (value >> shift) % 4
    } else {
        (value >> shift) % 2
    }
}

fn field_placed(register: BitRegister, field: u32, i: u32) -> u32
    requires { (i < per_word register) × (field < 2 ^ field_bits register) }
    ensures { result ≡ field * 2 ^ (field_bits register * i) }
{
    field << field_shift(register, i)
}

// A bit register shows one flag of each record: where that flag stands in the record's word ..
fn flag_place(register: BitRegister) -> u32
    ensures { (result ≡ flag_place register) × (result < 32) }
{
    match register {
        BitRegister::Igroupr => 0,
        BitRegister::Isenabler | BitRegister::Icenabler => 0,
        BitRegister::Ispendr | BitRegister::Icpendr => 1,
        BitRegister::Isactiver | BitRegister::Icactiver => 2,
        BitRegister::Icfgr => 6,
    }
}

// .. and what it counts in the register's field. The loop over the words has then nothing to decide.
fn flag_weight(register: BitRegister) -> u32
    ensures { (result ≡ flag_weight register) × (result < 3) }
{
    match register {
        BitRegister::Igroupr => 0,
        BitRegister::Icfgr => 2,
        _ => 1,
    }
}

fn read_field(place: u32, weight: u32, word: u32) -> u32
    requires { (place < 32) × (weight < 3) }
    ensures { result ≡ shown place weight word }
{
    weight * ((word >> place) % 2)
}

// How many of the numbers from `first` up are below the limit.
fn existing(shape: Shape, first: IntId, numbers: u32) -> u32
    requires { first.0 < shape.limit }
    ensures { Existing shape.limit first.0 numbers result }
{
    let left = shape.limit - first.0;
    if left < numbers { left } else { numbers }
}

// The fields of `there` records from the place `base` up.
#[tactic(auto, using(crate::proofs::BitLaws::shown_field, crate::proofs::Runs::run_fits), unfolding(word::specs::Fields::gathered))]
fn read_run(words: &[u32], base: usize, register: BitRegister, there: u32) -> u32
    requires { RunAt register base there words.now }
    ensures { result ≡ gathered (field_bits register) (field_in register base words.now) there }
{
    let place = flag_place(register);
    let weight = flag_weight(register);
    let mut value: u32 = 0;
    for i in 0..there {
        let field = read_field(place, weight, words[base + i as usize]);
        value += field_placed(register, field, i);
    }
    value
}

pub fn read_bits(
    words: &[u32],
    shape: Shape,
    vcpu: GicVcpuId,
    register: BitRegister,
    first: IntId,
) -> u32
    requires { BitWordAt shape register vcpu.0 first.0 words.now }
    ensures { result ≡ read_bits shape register vcpu.0 first.0 words.now }
{
    if shape.limit <= first.0 {
        return 0;
    }
    let there = existing(shape, first, per_word(register));
    let base = record_place(shape, vcpu, first);
    read_run(words, base, register, there)
}

fn acts(register: BitRegister, intid: IntId, field: u32) -> bool
    ensures { result ≡ acts register intid.0 field }
{
    let one = field == 1;
    let free = !intid.is_sgi();
    match register {
        BitRegister::Igroupr => false,
        BitRegister::Isenabler | BitRegister::Icenabler => one,
        BitRegister::Ispendr | BitRegister::Icpendr => one & free,
        BitRegister::Isactiver | BitRegister::Icactiver => one,
        BitRegister::Icfgr => free,
    }
}

// What was in flight is no longer, and nobody serves it.
fn clear_active(record: InterruptRecord) -> InterruptRecord
    ensures { result ≡ clear_active «record» }
{
    let cleared = record.set_active(false);
    if record.inflight {
        cleared.cancel_inflight().set_owner(None)
    } else {
        cleared
    }
}

fn act(register: BitRegister, field: u32, record: InterruptRecord) -> InterruptRecord
    ensures { result ≡ act register field «record» }
{
    match register {
        BitRegister::Igroupr => record,
        BitRegister::Isenabler => record.set_enabled(true),
        BitRegister::Icenabler => record.set_enabled(false),
        BitRegister::Ispendr => record.set_pending(true),
        BitRegister::Icpendr => record.set_pending(false),
        BitRegister::Isactiver => record.set_active(true),
        BitRegister::Icactiver => clear_active(record),
        BitRegister::Icfgr => record.set_trigger(trigger_of(field / 2 == 1)),
    }
}

// The field of one number, whose record stands at `at`.
fn write_number(
    words: &mut [u32],
    shape: Shape,
    vcpu: GicVcpuId,
    register: BitRegister,
    intid: IntId,
    at: usize,
    field: u32,
)
    requires { (Reached shape vcpu.0 intid.0 words.old) × (Placed shape (record_slot vcpu.0 intid.0) at) }
    ensures { words.new ≡ write_number shape register vcpu.0 intid.0 field words.old }
{
    if acts(register, intid, field) {
        let written = act(register, field, decode(words[at]));
        put_record_at(words, shape, vcpu, intid, at, written);
    }
}

// The records of a word stand side by side: the place of the first gives the others.
#[tactic(auto, using(crate::proofs::Runs::none_writes), unfolding(state::specs::Loop::up_to))]
pub fn write_bits(
    words: &mut [u32],
    shape: Shape,
    vcpu: GicVcpuId,
    register: BitRegister,
    first: IntId,
    value: u32,
)
    requires { BitWordAt shape register vcpu.0 first.0 words.old }
    ensures { words.new ≡ write_bits shape register vcpu.0 first.0 value words.old }
{
    if shape.limit <= first.0 {
        return;
    }
    let there = existing(shape, first, per_word(register));
    let base = record_place(shape, vcpu, first);
    for i in 0..there {
        let field = field_of(register, value, i);
        let intid = IntId(first.0 + i);
        write_number(
            words,
            shape,
            vcpu,
            register,
            intid,
            base + i as usize,
            field,
        );
    }
}
