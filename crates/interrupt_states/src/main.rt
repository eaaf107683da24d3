// Prints what every transition of a record gives on every record state, for the comparison with interrupt.rs (tests/rust).
// A record is shown after a trip through its word, as EPAIRLt:pp:mm:o: a letter for each flag that is set (enabled, pending, active,
// in flight, redelivery noted, line asserted), l or e for the trigger, priority and target mask in hexadecimal (.. is unset), the owner.
#![tactic(auto)]

ghost use Rattle.std.specs.Prelude.{◌<◌, ◌^◌};

use interrupt::record::{after_level, after_pulse};
use interrupt::{GicVcpuId, IntId, InterruptRecord, InterruptState, Priority, TriggerMode};
use std::io::Stdout;
use std::{fmt, io};

// Each type here says how a value of another crate's type is shown.
#[derive(Clone, Copy)]
struct Record(InterruptRecord);

#[derive(Clone, Copy)]
struct Mask(Option<u8>);

#[derive(Clone, Copy)]
struct OwnedBy(Option<GicVcpuId>);

fn flag(set: bool, letter: char) -> char {
    if set { letter } else { '-' }
}

impl fmt::Display for Mask {
    fn fmt<W: fmt::Write>(&self, f: &mut fmt::Formatter<W>) -> fmt::Result {
        match self.0 {
            None => write!(f, ".."),
            Some(byte) => write!(f, "{byte:02x}"),
        }
    }
}

impl fmt::Display for OwnedBy {
    fn fmt<W: fmt::Write>(&self, f: &mut fmt::Formatter<W>) -> fmt::Result {
        match self.0 {
            None => write!(f, "."),
            Some(vcpu) => write!(f, "{:x}", vcpu.0),
        }
    }
}

impl fmt::Display for Record {
    fn fmt<W: fmt::Write>(&self, f: &mut fmt::Formatter<W>) -> fmt::Result {
        let r = word::decode(word::encode(self.0));
        let trigger = match r.trigger {
            TriggerMode::Level => 'l',
            TriggerMode::Edge => 'e',
        };
        write!(
            f,
            "{}{}{}{}{}{}{trigger}:{:02x}:{}:{}",
            flag(r.enabled, 'E'),
            flag(r.pending, 'P'),
            flag(r.active, 'A'),
            flag(r.inflight, 'I'),
            flag(r.redelivery_pending, 'R'),
            flag(r.line_asserted, 'L'),
            r.priority.0,
            Mask(r.cpu_target_mask),
            OwnedBy(r.owner),
        )
    }
}

fn yes_or_no(b: bool) -> &'static str {
    if b { "yes" } else { "no" }
}

fn state_name(state: InterruptState) -> &'static str {
    match state {
        InterruptState::Inactive => "Inactive",
        InterruptState::Pending => "Pending",
        InterruptState::Active => "Active",
        InterruptState::ActivePending => "ActivePending",
    }
}

// A record, and what is asked of it. Each `print!` is a write of its own, so neighbours are printed at once, here and below.
fn accessors(out: Stdout, r: InterruptRecord) -> io::Result<()> {
    print!(out;
        " {} {} {} {}",
        Record(r),
        state_name(r.state()),
        yes_or_no(r.has_delivery_state()),
        yes_or_no(r.deliverable()),
    )
}

fn bits(out: Stdout, r: InterruptRecord) -> io::Result<()> {
    print!(out;
        " {} {} {} {} {} {} {} {} {} {}",
        Record(r.set_enabled(false)),
        Record(r.set_enabled(true)),
        Record(r.set_pending(false)),
        Record(r.set_pending(true)),
        Record(r.set_active(false)),
        Record(r.set_active(true)),
        Record(r.set_state(InterruptState::Inactive)),
        Record(r.set_state(InterruptState::Pending)),
        Record(r.set_state(InterruptState::Active)),
        Record(r.set_state(InterruptState::ActivePending)),
    )
}

fn synchronized(out: Stdout, r: InterruptRecord, state: InterruptState) -> io::Result<()> {
    let got = r.synchronize_inflight(state);
    print!(out; " {} {}", Record(got.after), state_name(got.merged))
}

fn delivery(out: Stdout, r: InterruptRecord) -> io::Result<()> {
    print!(out;
        " {} {}",
        Record(r.clear_delivery_state()),
        Record(r.mark_inflight()),
    )?;
    synchronized(out, r, InterruptState::Inactive)?;
    synchronized(out, r, InterruptState::Pending)?;
    synchronized(out, r, InterruptState::Active)?;
    synchronized(out, r, InterruptState::ActivePending)?;
    print!(out;
        " {} {} {} {} {}",
        Record(r.cancel_inflight()),
        Record(r.finish_inflight()),
        Record(r.deactivate_inflight(false)),
        Record(r.deactivate_inflight(true)),
        Record(r.complete()),
    )
}

fn inputs(out: Stdout, r: InterruptRecord) -> io::Result<()> {
    print!(out;
        " {} {} {}",
        Record(after_level(r, false)),
        Record(after_level(r, true)),
        Record(after_pulse(r)),
    )
}

fn settings(out: Stdout, r: InterruptRecord) -> io::Result<()> {
    print!(out;
        " {} {} {} {} {} {} {} {}",
        Record(r.set_priority(Priority::new(0))),
        Record(r.set_priority(Priority::new(128))),
        Record(r.set_priority(Priority::new(255))),
        Record(r.set_trigger(TriggerMode::Level)),
        Record(r.set_trigger(TriggerMode::Edge)),
        Record(r.set_cpu_target_mask(0)),
        Record(r.set_cpu_target_mask(165)),
        Record(r.set_cpu_target_mask(255)),
    )
}

// The new record of a number at both triggers.
fn new_row(out: Stdout, raw: u32) -> io::Result<()> {
    let Some(intid) = IntId::new(raw) else {
        return println!(out; "{raw} none");
    };
    println!(out;
        "{raw} {} {}",
        Record(InterruptRecord::new(intid, TriggerMode::Level)),
        Record(InterruptRecord::new(intid, TriggerMode::Edge)),
    )
}

fn state_row(out: Stdout, w: u32) -> io::Result<()> {
    let r = word::decode(w);
    accessors(out, r)?;
    bits(out, r)?;
    delivery(out, r)?;
    inputs(out, r)?;
    settings(out, r)?;
    println!(out; "")
}

// Every combination of the six flags and the trigger, above them priority, mask and owner.
fn states(out: Stdout, above: u32) -> io::Result<()>
    requires { above < 2 ^ 31 }
{
    for low in 0..128 {
        state_row(out, low + above)?;
    }
    Ok(())
}

fn main(rt: HostRuntime) -> io::Result<()> {
    let out = rt.stdout();
    for raw in 0..1024 {
        new_row(out, raw)?;
    }
    states(out, 0)?;
    states(out, 0x0300_8080)?;
    states(out, 0x08a5_ff80)
}
