// The Distributor's frame.
#![tactic(auto)]

ghost use Rattle.std.specs.Prelude.{◌≡◌, List, ℕ};
ghost use Rattle.service.specs.Service.{Sound};
ghost use Rattle.places.specs.Places.{Located};
ghost use Rattle.answer.specs.Answer.{outcome};
ghost use Rattle.distributor_frame.specs.DistributorFrame.{private_width, read_distributor_at, write_distributor_at, ReadDistributorPromise, WriteDistributorPromise};

use answer::{Answer, absent, done, gave};
use interrupt::{GicVcpuId, IntId};
use places::{read_looks_up, read_place, write_looks_up, write_place};
use register::{
    AccessWidth, DistributorAccess, Place, Refusal, locate_distributor, register_value,
};
use state::Shape;
use state::lent::validate_state;
use wake::quiet_vcpus;

// A private register at a width that it does not take: 3 comes before 2.
fn private_width(shape: Shape, vcpu: GicVcpuId) -> Answer
    ensures { (s : List ℕ) → outcome result s ≡ private_width shape vcpu.0 s }
{
    if absent(shape, vcpu, true) {
        Err(Refusal::Vcpu)
    } else {
        Err(Refusal::Width)
    }
}

fn read_at(words: &[u32], shape: Shape, vcpu: GicVcpuId, place: Place, width: AccessWidth) -> Answer
    requires { (Sound shape words.now) × (Located «place» width) }
    ensures { outcome result words.now ≡ read_distributor_at shape vcpu.0 «place» width words.now }
{
    if absent(shape, vcpu, read_looks_up(place)) {
        return Err(Refusal::Vcpu);
    }
    gave(read_place(words, shape, vcpu, place, width))
}

#[tactic(auto, unfolding(crate::specs::DistributorFrame::read_v2_distributor))]
pub fn read_v2_distributor(
    words: &[u32],
    vcpu: GicVcpuId,
    offset: u64,
    width: AccessWidth,
) -> Answer
    ensures { ReadDistributorPromise vcpu.0 offset width words.now result words.now }
{
    let shape = validate_state(words).ok_or(Refusal::BrokenState)?;
    match locate_distributor(offset, width) {
        DistributorAccess::Refused(refusal) => Err(refusal),
        DistributorAccess::PrivateWidth => private_width(shape, vcpu),
        DistributorAccess::At(place) => read_at(words, shape, vcpu, place, width),
    }
}

fn write_at(
    words: &mut [u32],
    shape: Shape,
    vcpu: GicVcpuId,
    place: Place,
    width: AccessWidth,
    value: u32,
) -> Answer
    requires { (Sound shape words.old) × (Located «place» width) }
    ensures { outcome result words.new ≡ write_distributor_at shape vcpu.0 «place» width value words.old }
{
    if absent(shape, vcpu, write_looks_up(place, value)) {
        return Err(Refusal::Vcpu);
    }
    let quiet = quiet_vcpus(words, shape);
    write_place(words, shape, vcpu, place, width, value);
    done(words, shape, quiet, IntId::SPURIOUS)
}

#[tactic(auto, unfolding(crate::specs::DistributorFrame::write_v2_distributor))]
pub fn write_v2_distributor(
    words: &mut [u32],
    vcpu: GicVcpuId,
    offset: u64,
    width: AccessWidth,
    value: u64,
) -> Answer
    ensures { WriteDistributorPromise vcpu.0 offset width value words.old result words.new }
{
    let shape = validate_state(words).ok_or(Refusal::BrokenState)?;
    match locate_distributor(offset, width) {
        DistributorAccess::Refused(refusal) => Err(refusal),
        DistributorAccess::PrivateWidth => private_width(shape, vcpu),
        DistributorAccess::At(place) => {
            write_at(words, shape, vcpu, place, width, register_value(value))
        }
    }
}
