// IAR: the best candidate goes to a vCPU, if it may interrupt what runs there.
#![tactic(auto)]

ghost use Rattle.std.specs.Prelude.{◌≡◌, ◌+◌, ◌*◌, ◌<◌, Some};
ghost use Rattle.state.specs.Layout.{Sources};
ghost use Rattle.state.specs.Words.{Reached, HoldsSlot, changed, with_sources};
ghost use Rattle.service.specs.Service.{pushed, Served};
ghost use Rattle.acknowledge.specs.Bound.{rounded_up, preemption_bound};
ghost use Rattle.acknowledge.specs.Acknowledge.{group_priority, group_of, preempts, preempting, offer, lowest_source, source_of, pend_if_left, source_taken, given_record, pushed_for, given, answered, taken, acknowledge, acknowledged, MayAcknowledge, Givable};

use interrupt::{GicVcpuId, IntId, InterruptRecord, InterruptState, Priority};
use select::{Candidate, both_enabled, highest_pending};
use service::{depth, push_v2_active, running_priority};
use sgi::set_pending;
use state::layout::STACK_CAPACITY;
use state::words::{
    distributor_enabled, interface_value, put_record, put_sgi_sources, record, sgi_sources,
};
use state::{Entry, InterfaceValue, Shape};
use targets::vcpu_bit;

// `point` bits and one more are cleared: of all eight, 7 leaves none.
#[tactic(auto, using(crate::proofs::Grouping::group_at_most, crate::proofs::Grouping::group_shifted))]
fn group_priority(priority: Priority, point: u32) -> Priority
    requires { point < 8 }
    ensures { result.0 ≡ group_priority point priority.0 }
{
    let bits = point + 1;
    let high = priority.0 as u32 >> bits;
    Priority::new((high << bits) as u8)
}

fn group_of(words: &[u32], shape: Shape, vcpu: GicVcpuId, candidate: Candidate) -> Priority
    requires { Served shape vcpu.0 words.now }
    ensures { result.0 ≡ group_of shape vcpu.0 words.now candidate }
{
    let point = interface_value(words, shape, vcpu, InterfaceValue::BinaryPoint);
    group_priority(candidate.priority, point)
}

fn preempts(words: &[u32], shape: Shape, vcpu: GicVcpuId, candidate: Candidate) -> bool
    requires { Served shape vcpu.0 words.now }
    ensures { result ≡ preempts shape vcpu.0 words.now candidate }
{
    group_of(words, shape, vcpu, candidate).0 < running_priority(words, shape, vcpu).0
}

// Up to a whole group.
#[tactic(auto, using(crate::proofs::Grouping::some_group, crate::proofs::Grouping::rest_small, crate::proofs::Grouping::rounded_shifted))]
fn rounded_up(priority: Priority, point: u32) -> u32
    requires { point < 8 }
    ensures { result ≡ rounded_up point priority.0 }
{
    let bits = point + 1;
    let ones = (1 << bits) - 1;
    let groups = (priority.0 as u32 + ones) >> bits;
    groups << bits
}

// A priority below it preempts what runs.
#[tactic(auto, using(crate::proofs::Grouping::bound_small))]
pub fn preemption_bound(words: &[u32], shape: Shape, vcpu: GicVcpuId) -> u32
    requires { Served shape vcpu.0 words.now }
    ensures { (result ≡ preemption_bound shape vcpu.0 words.now) × (result < 1024) }
{
    let point = interface_value(words, shape, vcpu, InterfaceValue::BinaryPoint);
    rounded_up(running_priority(words, shape, vcpu), point)
}

fn preempting(
    words: &[u32],
    shape: Shape,
    vcpu: GicVcpuId,
    selected: Option<Candidate>,
) -> Option<Candidate>
    requires { Served shape vcpu.0 words.now }
    ensures { result ≡ preempting shape vcpu.0 words.now selected }
{
    let candidate = selected?;
    preempts(words, shape, vcpu, candidate).then_some(candidate)
}

// What an IAR read would hand out now.
#[tactic(auto, unfolding(crate::specs::Acknowledge::offer))]
pub fn offer(words: &[u32], shape: Shape, vcpu: GicVcpuId) -> Option<Candidate>
    requires { Served shape vcpu.0 words.now }
    ensures { result ≡ offer shape vcpu.0 words.now }
{
    if both_enabled(words, shape, vcpu) {
        preempting(words, shape, vcpu, highest_pending(words, shape, vcpu))
    } else {
        None
    }
}

#[tactic(auto, using(crate::proofs::Lowest::lowest_counted), unfolding(crate::specs::Acknowledge::lowest_from))]
fn lowest_source(sources: u8) -> GicVcpuId
    ensures { (result.0 ≡ lowest_source sources) × (result.0 < 8) }
{
    if sources == 0 {
        return GicVcpuId(0);
    }
    GicVcpuId(sources.trailing_zeros() as usize)
}

fn sgi_source(words: &[u32], shape: Shape, vcpu: GicVcpuId, intid: IntId) -> GicVcpuId
    requires { Reached shape vcpu.0 intid.0 words.now }
    ensures { (result.0 ≡ source_of shape vcpu.0 intid.0 words.now) × (result.0 < 8) }
{
    if intid.is_sgi() {
        lowest_source(sgi_sources(words, shape, vcpu, intid))
    } else {
        GicVcpuId(0)
    }
}

#[tactic(auto, using(state::proofs::Accessors::sources_same), unfolding(crate::specs::Acknowledge::pend_if_left))]
fn leave_sources(words: &mut [u32], shape: Shape, vcpu: GicVcpuId, sgi: IntId, sources: u8)
    requires { HoldsSlot shape (Sources vcpu.0 sgi.0) words.old }
    ensures { words.new ≡ pend_if_left shape vcpu.0 sgi.0 (with_sources shape vcpu.0 sgi.0 sources words.old) }
{
    put_sgi_sources(words, shape, vcpu, sgi, sources);
    if sources != 0 {
        set_pending(words, shape, vcpu, sgi, true);
    }
}

#[tactic(auto, unfolding(crate::specs::Acknowledge::source_taken))]
fn take_sgi_source(
    words: &mut [u32],
    shape: Shape,
    vcpu: GicVcpuId,
    intid: IntId,
    source: GicVcpuId,
)
    requires { (Reached shape vcpu.0 intid.0 words.old) × (source.0 < 8) }
    ensures { words.new ≡ source_taken shape vcpu.0 intid.0 source.0 words.old }
{
    if intid.is_sgi() {
        let left = sgi_sources(words, shape, vcpu, intid) & !vcpu_bit(source);
        leave_sources(words, shape, vcpu, intid, left);
    }
}

#[tactic(auto, unfolding(crate::specs::Acknowledge::given_record))]
fn given_record(record: InterruptRecord, vcpu: GicVcpuId) -> InterruptRecord
    ensures { result ≡ given_record vcpu.0 «record» }
{
    let marked = record.mark_inflight().set_owner(Some(vcpu));
    marked.synchronize_inflight(InterruptState::Active).after
}

fn mark_inflight(words: &mut [u32], shape: Shape, vcpu: GicVcpuId, intid: IntId)
    requires { Reached shape vcpu.0 intid.0 words.old }
    ensures { words.new ≡ changed shape vcpu.0 intid.0 (given_record vcpu.0) words.old }
{
    let given = given_record(record(words, shape, vcpu, intid), vcpu);
    put_record(words, shape, vcpu, intid, given);
}

// What is pushed for a candidate.
fn pushed_for(words: &[u32], shape: Shape, vcpu: GicVcpuId, candidate: Candidate) -> Entry
    requires { Served shape vcpu.0 words.now }
    ensures { result ≡ pushed_for shape vcpu.0 words.now candidate }
{
    let intid = candidate.intid;
    let priority = group_of(words, shape, vcpu, candidate);
    Entry { intid, priority }
}

fn serve(words: &mut [u32], shape: Shape, vcpu: GicVcpuId, candidate: Candidate)
    requires { Givable shape vcpu.0 candidate words.old }
    ensures { words.new ≡ changed shape vcpu.0 candidate.intid.0 (given_record vcpu.0) (pushed shape vcpu.0 (pushed_for shape vcpu.0 words.old candidate) words.old) }
{
    let entry = pushed_for(words, shape, vcpu, candidate);
    push_v2_active(words, shape, vcpu, entry);
    mark_inflight(words, shape, vcpu, candidate.intid);
}

// The source is taken last: it may pend the record again, which is marked before.
fn give(words: &mut [u32], shape: Shape, vcpu: GicVcpuId, candidate: Candidate) -> u32
    requires { Givable shape vcpu.0 candidate words.old }
    ensures { (result ≡ candidate.intid.0 + 1024 * source_of shape vcpu.0 candidate.intid.0 words.old) × (words.new ≡ given shape vcpu.0 candidate words.old) }
{
    let intid = candidate.intid;
    let source = sgi_source(words, shape, vcpu, intid);
    serve(words, shape, vcpu, candidate);
    take_sgi_source(words, shape, vcpu, intid, source);
    intid.0 + 1024 * (source.0 as u32)
}

// None: refused by 7, no room is left.
fn accept(words: &mut [u32], shape: Shape, vcpu: GicVcpuId, candidate: Candidate) -> Option<u32>
    requires { (Served shape vcpu.0 words.old) × (candidate.intid.0 < shape.limit) }
    ensures { (result ≡ answered shape vcpu.0 words.old (Some candidate)) × (words.new ≡ taken shape vcpu.0 words.old (Some candidate)) }
{
    if depth(words, shape, vcpu) < STACK_CAPACITY {
        Some(give(words, shape, vcpu, candidate))
    } else {
        None
    }
}

fn take_pending_delivery(words: &mut [u32], shape: Shape, vcpu: GicVcpuId) -> Option<u32>
    requires { Served shape vcpu.0 words.old }
    ensures { (result ≡ acknowledge shape vcpu.0 words.old) × (words.new ≡ acknowledged shape vcpu.0 words.old) }
{
    match offer(words, shape, vcpu) {
        Some(candidate) => accept(words, shape, vcpu, candidate),
        None => Some(IntId::SPURIOUS.0),
    }
}

// None: refused by 7. While the Distributor is off, the vCPU need not exist.
pub fn acknowledge_v2(words: &mut [u32], shape: Shape, vcpu: GicVcpuId) -> Option<u32>
    requires { MayAcknowledge shape vcpu.0 words.old }
    ensures { (result ≡ acknowledge shape vcpu.0 words.old) × (words.new ≡ acknowledged shape vcpu.0 words.old) }
{
    if distributor_enabled(words, shape) {
        take_pending_delivery(words, shape, vcpu)
    } else {
        Some(IntId::SPURIOUS.0)
    }
}
