// The registers of a CPU interface: what each reads, and what a write to it does. Mirrors the two tables at the top of v2.rs.
#![tactic(auto)]

ghost use Rattle.std.specs.Prelude.{◌≡◌};
ghost use Rattle.cpu_interface.specs.CpuInterface.{read_register, after_read, write_register, write_retired, read_register_looks_up, write_register_looks_up, decodes, Reading, Writing};

use acknowledge::acknowledge_v2;
use distributor::values::iidr;
use end::{decode_eoi_intid, dir_v2, eoi_v2};
use interrupt::{GicVcpuId, IntId};
use register::CpuInterfaceRegister;
use select::highest_pending_v2;
use service::running_priority;
use state::words::{interface_value, put_interface_value};
use state::{InterfaceValue, Shape};

// Whether a read looks up its vCPU; `enabled` is the Distributor's.
pub fn read_looks_up(register: CpuInterfaceRegister, enabled: bool) -> bool
    ensures { result ≡ read_register_looks_up register enabled }
{
    match register {
        CpuInterfaceRegister::Ctlr | CpuInterfaceRegister::Pmr => true,
        CpuInterfaceRegister::Bpr | CpuInterfaceRegister::Abpr => true,
        CpuInterfaceRegister::Rpr => true,
        CpuInterfaceRegister::Hppir | CpuInterfaceRegister::Ahppir => true,
        CpuInterfaceRegister::Iar | CpuInterfaceRegister::Aiar => enabled,
        CpuInterfaceRegister::Eoir | CpuInterfaceRegister::Aeoir => false,
        CpuInterfaceRegister::Dir => false,
        CpuInterfaceRegister::Apr | CpuInterfaceRegister::Iidr => false,
        CpuInterfaceRegister::Other => false,
    }
}

fn decodes(value: u32) -> bool
    ensures { result ≡ decodes value }
{
    decode_eoi_intid(value).is_some()
}

pub fn write_looks_up(register: CpuInterfaceRegister, value: u32) -> bool
    ensures { result ≡ write_register_looks_up register value }
{
    match register {
        CpuInterfaceRegister::Ctlr | CpuInterfaceRegister::Pmr => true,
        CpuInterfaceRegister::Bpr | CpuInterfaceRegister::Abpr => true,
        CpuInterfaceRegister::Eoir | CpuInterfaceRegister::Aeoir => decodes(value),
        CpuInterfaceRegister::Dir => decodes(value),
        CpuInterfaceRegister::Iar | CpuInterfaceRegister::Aiar => false,
        CpuInterfaceRegister::Rpr => false,
        CpuInterfaceRegister::Hppir | CpuInterfaceRegister::Ahppir => false,
        CpuInterfaceRegister::Apr | CpuInterfaceRegister::Iidr => false,
        CpuInterfaceRegister::Other => false,
    }
}

// None: refused by 7.
pub fn read_register(
    words: &mut [u32],
    shape: Shape,
    vcpu: GicVcpuId,
    register: CpuInterfaceRegister,
) -> Option<u32>
    requires { Reading shape vcpu.0 register words.old }
    ensures { (result ≡ read_register shape vcpu.0 register words.old) × (words.new ≡ after_read shape vcpu.0 register words.old) }
{
    let value = match register {
        CpuInterfaceRegister::Ctlr => interface_value(words, shape, vcpu, InterfaceValue::Control),
        CpuInterfaceRegister::Pmr => {
            interface_value(words, shape, vcpu, InterfaceValue::PriorityMask)
        }
        CpuInterfaceRegister::Bpr | CpuInterfaceRegister::Abpr => {
            interface_value(words, shape, vcpu, InterfaceValue::BinaryPoint)
        }
        CpuInterfaceRegister::Iar | CpuInterfaceRegister::Aiar => {
            return acknowledge_v2(words, shape, vcpu);
        }
        CpuInterfaceRegister::Rpr => u32::from(running_priority(words, shape, vcpu).0),
        CpuInterfaceRegister::Hppir | CpuInterfaceRegister::Ahppir => {
            highest_pending_v2(words, shape, vcpu).0
        }
        CpuInterfaceRegister::Iidr => iidr(),
        CpuInterfaceRegister::Eoir | CpuInterfaceRegister::Aeoir => 0,
        CpuInterfaceRegister::Apr | CpuInterfaceRegister::Dir | CpuInterfaceRegister::Other => 0,
    };
    Some(value)
}

// What an ended interrupt retires, or `IntId::SPURIOUS`.
pub fn write_register(
    words: &mut [u32],
    shape: Shape,
    vcpu: GicVcpuId,
    register: CpuInterfaceRegister,
    value: u32,
) -> IntId
    requires { Writing shape vcpu.0 register value words.old }
    ensures { (result.0 ≡ write_retired shape vcpu.0 register value words.old) × (words.new ≡ write_register shape vcpu.0 register value words.old) }
{
    match register {
        CpuInterfaceRegister::Ctlr => {
            put_interface_value(words, shape, vcpu, InterfaceValue::Control, value);
        }
        CpuInterfaceRegister::Pmr => {
            put_interface_value(words, shape, vcpu, InterfaceValue::PriorityMask, value);
        }
        CpuInterfaceRegister::Bpr | CpuInterfaceRegister::Abpr => {
            put_interface_value(words, shape, vcpu, InterfaceValue::BinaryPoint, value);
        }
        CpuInterfaceRegister::Eoir | CpuInterfaceRegister::Aeoir => {
            return eoi_v2(words, shape, vcpu, value);
        }
        CpuInterfaceRegister::Dir => return dir_v2(words, shape, vcpu, value),
        CpuInterfaceRegister::Iar | CpuInterfaceRegister::Aiar => {}
        CpuInterfaceRegister::Hppir | CpuInterfaceRegister::Ahppir => {}
        CpuInterfaceRegister::Rpr | CpuInterfaceRegister::Apr => {}
        CpuInterfaceRegister::Iidr | CpuInterfaceRegister::Other => {}
    }
    IntId::SPURIOUS
}
