// Device inputs: a line that is set, and a pulse.
#![tactic(auto)]

ghost use Rattle.std.specs.Prelude.{◌≡◌};
ghost use Rattle.state.specs.Words.{Reached, changed};
ghost use Rattle.service.specs.Service.{Sound};
ghost use Rattle.answer.specs.Answer.{outcome};
ghost use Rattle.input.specs.Input.{signalled, signal_went, Signalling, input_of, input_at, device_input, SetLevelPromise, PulsePromise};

use answer::{Answer, absent, done};
use interrupt::record::{after_level, after_pulse};
use interrupt::{GicVcpuId, IntId, InterruptRecord};
use register::Refusal;
use state::Shape;
use state::lent::validate_state;
use state::words::{put_record, record};
use targets::read_target;
use wake::quiet_among;

// What a device does to its interrupt.
#[derive(Clone, Copy)]
pub enum Signal {
    Level(bool),
    Edge,
}

fn signalled(record: InterruptRecord, signal: Signal) -> InterruptRecord
    ensures { result ≡ signalled signal «record» }
{
    match signal {
        Signal::Level(asserted) => after_level(record, asserted),
        Signal::Edge => after_pulse(record),
    }
}

// A number that a device has: SGIs are no device's.
#[tactic(auto, unfolding(crate::specs::Input::input_of))]
fn input_number(shape: Shape, number: u64) -> Option<IntId>
    ensures { result ≡ input_of shape number }
{
    if shape.limit as u64 <= number {
        return None;
    }
    let intid = IntId(number as u32);
    (!intid.is_sgi()).then_some(intid)
}

fn signal_record(words: &mut [u32], shape: Shape, vcpu: GicVcpuId, intid: IntId, signal: Signal)
    requires { Reached shape vcpu.0 intid.0 words.old }
    ensures { words.new ≡ changed shape vcpu.0 intid.0 (signalled signal) words.old }
{
    let changed = signalled(record(words, shape, vcpu, intid), signal);
    put_record(words, shape, vcpu, intid, changed);
}

// A signal at an interrupt that is there, and whom it wakes.
pub fn signal_interrupt(
    words: &mut [u32],
    shape: Shape,
    vcpu: GicVcpuId,
    intid: IntId,
    signal: Signal,
) -> Answer
    requires { Signalling shape vcpu.0 intid.0 words.old }
    ensures { outcome result words.new ≡ signal_went shape vcpu.0 intid.0 signal words.old }
{
    // Nobody else can be woken by this record.
    let quiet = quiet_among(words, shape, read_target(words, shape, vcpu, intid));
    signal_record(words, shape, vcpu, intid, signal);
    done(words, shape, quiet, IntId::SPURIOUS)
}

fn input_at(words: &mut [u32], shape: Shape, vcpu: GicVcpuId, number: u64, signal: Signal) -> Answer
    requires { Sound shape words.old }
    ensures { outcome result words.new ≡ input_at shape vcpu.0 signal (input_of shape number) words.old }
{
    let intid = input_number(shape, number).ok_or(Refusal::Input)?;
    if absent(shape, vcpu, intid.is_private()) {
        return Err(Refusal::Vcpu);
    }
    signal_interrupt(words, shape, vcpu, intid, signal)
}

#[tactic(auto, unfolding(crate::specs::Input::device_input))]
fn device_input(words: &mut [u32], vcpu: GicVcpuId, number: u64, signal: Signal) -> Answer
    ensures { outcome result words.new ≡ device_input signal vcpu.0 number words.old }
{
    let shape = validate_state(words).ok_or(Refusal::BrokenState)?;
    input_at(words, shape, vcpu, number, signal)
}

pub fn set_level(words: &mut [u32], vcpu: GicVcpuId, number: u64, asserted: bool) -> Answer
    ensures { SetLevelPromise vcpu.0 number asserted words.old result words.new }
{
    device_input(words, vcpu, number, Signal::Level(asserted))
}

pub fn pulse(words: &mut [u32], vcpu: GicVcpuId, number: u64) -> Answer
    ensures { PulsePromise vcpu.0 number words.old result words.new }
{
    device_input(words, vcpu, number, Signal::Edge)
}
