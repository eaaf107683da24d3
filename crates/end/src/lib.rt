// EOIR and DIR: what is under service ends, and is deactivated.
#![tactic(auto)]

ghost use Rattle.std.specs.Prelude.{◌≡◌, ◌<◌};
ghost use Rattle.state.specs.Layout.{Room};
ghost use Rattle.service.specs.Service.{Served};
ghost use Rattle.end.specs.End.{owned_by, served_here, retire, deactivated, retired, dir_state, dir_retired, eoi_mode, ended, end_retired, eoi_state, eoi_retired, decoded_eoi, Ending};

use interrupt::{GicVcpuId, IntId, InterruptRecord};
use service::drop_v2_priority;
use state::words::{interface_value, put_record, record};
use state::{InterfaceValue, Shape};

pub fn decode_eoi_intid(value: u32) -> Option<IntId>
    ensures { result ≡ decoded_eoi value }
{
    IntId::new(value % 1024)
}

fn owned_by(owner: Option<GicVcpuId>, vcpu: GicVcpuId) -> bool
    ensures { result ≡ owned_by vcpu.0 owner }
{
    owner == Some(vcpu)
}

fn served_here(record: InterruptRecord, vcpu: GicVcpuId) -> bool
    ensures { result ≡ served_here vcpu.0 «record» }
{
    record.inflight & owned_by(record.owner, vcpu)
}

#[tactic(auto, unfolding(crate::specs::End::retire))]
fn retire(mut record: InterruptRecord) -> InterruptRecord
    ensures { result ≡ retire «record» }
{
    record = record.deactivate_inflight(record.pending);
    record.set_owner(None)
}

// The number that is retired, if one is.
#[tactic(auto, unfolding(crate::specs::End::deactivated, crate::specs::End::retired))]
fn deactivate_interrupt(words: &mut [u32], shape: Shape, vcpu: GicVcpuId, intid: IntId) -> IntId
    requires { (Room shape words.old) × (vcpu.0 < shape.count) }
    ensures { (result.0 ≡ retired shape vcpu.0 intid.0 words.old) × (words.new ≡ deactivated shape vcpu.0 intid.0 words.old) }
{
    if shape.limit <= intid.0 {
        return IntId::SPURIOUS;
    }
    let mut found = record(words, shape, vcpu, intid);
    if served_here(found, vcpu) {
        found = retire(found);
        put_record(words, shape, vcpu, intid, found);
        return intid;
    }
    if found.active & !found.inflight {
        found = found.complete();
        put_record(words, shape, vcpu, intid, found);
    }
    IntId::SPURIOUS
}

// Taken apart by let else, here and in `eoi_v2`, as document 01 asks.
pub fn dir_v2(words: &mut [u32], shape: Shape, vcpu: GicVcpuId, value: u32) -> IntId
    requires { Ending shape vcpu.0 (decoded_eoi value) words.old }
    ensures { (result.0 ≡ dir_retired shape vcpu.0 (decoded_eoi value) words.old) × (words.new ≡ dir_state shape vcpu.0 (decoded_eoi value) words.old) }
{
    let Some(intid) = decode_eoi_intid(value) else {
        return IntId::SPURIOUS;
    };
    deactivate_interrupt(words, shape, vcpu, intid)
}

fn v2_eoi_mode(words: &[u32], shape: Shape, vcpu: GicVcpuId) -> bool
    requires { (Room shape words.now) × (vcpu.0 < shape.count) }
    ensures { result ≡ eoi_mode shape vcpu.0 words.now }
{
    interface_value(words, shape, vcpu, InterfaceValue::Control) / 512 % 2 == 1
}

#[tactic(auto, unfolding(crate::specs::End::ended, crate::specs::End::end_retired))]
fn end_interrupt(words: &mut [u32], shape: Shape, vcpu: GicVcpuId, intid: IntId) -> IntId
    requires { Served shape vcpu.0 words.old }
    ensures { (result.0 ≡ end_retired shape vcpu.0 intid.0 words.old) × (words.new ≡ ended shape vcpu.0 intid.0 words.old) }
{
    let eoi_mode = v2_eoi_mode(words, shape, vcpu);
    let priority_dropped = drop_v2_priority(words, shape, vcpu, intid);
    if priority_dropped & !eoi_mode {
        deactivate_interrupt(words, shape, vcpu, intid)
    } else {
        IntId::SPURIOUS
    }
}

pub fn eoi_v2(words: &mut [u32], shape: Shape, vcpu: GicVcpuId, value: u32) -> IntId
    requires { Ending shape vcpu.0 (decoded_eoi value) words.old }
    ensures { (result.0 ≡ eoi_retired shape vcpu.0 (decoded_eoi value) words.old) × (words.new ≡ eoi_state shape vcpu.0 (decoded_eoi value) words.old) }
{
    let Some(intid) = decode_eoi_intid(value) else {
        return IntId::SPURIOUS;
    };
    end_interrupt(words, shape, vcpu, intid)
}
