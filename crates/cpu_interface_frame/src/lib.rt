// The frame of a vCPU's CPU interface.
#![tactic(auto)]

ghost use Rattle.std.specs.Prelude.{◌≡◌};
ghost use Rattle.state.specs.Layout.{Room};
ghost use Rattle.service.specs.Service.{Sound};
ghost use Rattle.answer.specs.Answer.{outcome};
ghost use Rattle.cpu_interface_frame.specs.Seers.{write_seers};
ghost use Rattle.cpu_interface_frame.specs.CpuInterfaceFrame.{read_interface_at, write_interface_at, ReadCpuInterfacePromise, WriteCpuInterfacePromise};

use answer::{Answer, absent, done, gave};
use cpu_interface::{read_looks_up, read_register, write_looks_up, write_register};
use interrupt::{GicVcpuId, IntId};
use register::{AccessWidth, CpuInterfaceRegister, Refusal, locate_cpu_interface, register_value};
use state::Shape;
use state::lent::validate_state;
use state::words::distributor_enabled;
use targets::{own_byte, read_target};
use wake::quiet_among;

fn read_at(
    words: &mut [u32],
    shape: Shape,
    vcpu: GicVcpuId,
    register: CpuInterfaceRegister,
) -> Answer
    requires { Sound shape words.old }
    ensures { outcome result words.new ≡ read_interface_at shape vcpu.0 register words.old }
{
    let enabled = distributor_enabled(words, shape);
    if absent(shape, vcpu, read_looks_up(register, enabled)) {
        return Err(Refusal::Vcpu);
    }
    let value = read_register(words, shape, vcpu, register).ok_or(Refusal::FullStack)?;
    gave(value)
}

#[tactic(auto, unfolding(crate::specs::CpuInterfaceFrame::read_v2_cpu_interface))]
pub fn read_v2_cpu_interface(
    words: &mut [u32],
    vcpu: GicVcpuId,
    offset: u64,
    width: AccessWidth,
) -> Answer
    ensures { ReadCpuInterfacePromise vcpu.0 offset width words.old result words.new }
{
    let shape = validate_state(words).ok_or(Refusal::BrokenState)?;
    let register = locate_cpu_interface(offset, width)?;
    read_at(words, shape, vcpu, register)
}

// Whom a write can wake: its vCPU, and whom the record is for that it may deactivate.
fn write_seers(words: &[u32], shape: Shape, vcpu: GicVcpuId, value: u32) -> u8
    requires { Room shape words.now }
    ensures { result ≡ write_seers shape vcpu.0 value words.now }
{
    own_byte(vcpu) | read_target(words, shape, vcpu, IntId(value % 1024))
}

fn write_at(
    words: &mut [u32],
    shape: Shape,
    vcpu: GicVcpuId,
    register: CpuInterfaceRegister,
    value: u32,
) -> Answer
    requires { Sound shape words.old }
    ensures { outcome result words.new ≡ write_interface_at shape vcpu.0 register value words.old }
{
    if absent(shape, vcpu, write_looks_up(register, value)) {
        return Err(Refusal::Vcpu);
    }
    let quiet = quiet_among(words, shape, write_seers(words, shape, vcpu, value));
    let retired = write_register(words, shape, vcpu, register, value);
    done(words, shape, quiet, retired)
}

#[tactic(auto, unfolding(crate::specs::CpuInterfaceFrame::write_v2_cpu_interface))]
pub fn write_v2_cpu_interface(
    words: &mut [u32],
    vcpu: GicVcpuId,
    offset: u64,
    width: AccessWidth,
    value: u64,
) -> Answer
    ensures { WriteCpuInterfacePromise vcpu.0 offset width value words.old result words.new }
{
    let shape = validate_state(words).ok_or(Refusal::BrokenState)?;
    let register = locate_cpu_interface(offset, width)?;
    let bits = register_value(value);
    write_at(words, shape, vcpu, register, bits)
}
