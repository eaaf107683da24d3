// Where an access to a CPU interface falls.
ghost use Rattle.std.specs.Prelude.{◌≡◌};
ghost use Rattle.register.specs.CpuInterface.{register_at, locate_cpu_interface};

use crate::frame::{AccessWidth, Refusal, validate_frame_access};

pub const CPU_INTERFACE_SIZE: u64 = 0x2000;

#[derive(Clone, Copy)]
pub enum CpuInterfaceRegister {
    Ctlr,
    Pmr,
    Bpr,
    Iar,
    Eoir,
    Rpr,
    Hppir,
    Abpr,
    Aiar,
    Aeoir,
    Ahppir,
    Apr,
    Iidr,
    Dir,
    Other,
}

impl CpuInterfaceRegister {
    #[tactic(auto, unfolding(crate::specs::CpuInterface::register_at, crate::specs::CpuInterface::register_in, crate::specs::CpuInterface::registers))]
    fn at(offset: u64) -> Self
        ensures { result ≡ register_at offset }
    {
        match offset {
            0x00 => CpuInterfaceRegister::Ctlr,
            0x04 => CpuInterfaceRegister::Pmr,
            0x08 => CpuInterfaceRegister::Bpr,
            0x0c => CpuInterfaceRegister::Iar,
            0x10 => CpuInterfaceRegister::Eoir,
            0x14 => CpuInterfaceRegister::Rpr,
            0x18 => CpuInterfaceRegister::Hppir,
            0x1c => CpuInterfaceRegister::Abpr,
            0x20 => CpuInterfaceRegister::Aiar,
            0x24 => CpuInterfaceRegister::Aeoir,
            0x28 => CpuInterfaceRegister::Ahppir,
            0xd0 => CpuInterfaceRegister::Apr,
            0xfc => CpuInterfaceRegister::Iidr,
            0x1000 => CpuInterfaceRegister::Dir,
            _ => CpuInterfaceRegister::Other,
        }
    }
}

// Every access is 4 bytes, unnamed places too.
#[tactic(auto, unfolding(crate::specs::CpuInterface::locate_cpu_interface))]
pub fn locate_cpu_interface(
    offset: u64,
    width: AccessWidth,
) -> Result<CpuInterfaceRegister, Refusal>
    ensures { result ≡ locate_cpu_interface offset width }
{
    if !validate_frame_access(CPU_INTERFACE_SIZE, offset, width) {
        return Err(Refusal::Access);
    }
    if width.is_dword() {
        Ok(CpuInterfaceRegister::at(offset))
    } else {
        Err(Refusal::Width)
    }
}
