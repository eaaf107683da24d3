// Prints where every access to both frames falls, and some accesses beyond them, for the comparison with v2.rs (tests/rust/register).
// A line is a 32-bit place: d for the Distributor or c for a CPU interface, the offset, and an answer for each start in the place, 0 to
// 3 bytes on, at each width, 1, 2, 4 and 8. An answer is a refusal's number or a register with the first number that the access reaches,
// - for another place; own: stands before it where the register is private, and own:2 is refused by 2 after the vCPU was looked up.
#![tactic(auto)]

ghost use Rattle.std.specs.Prelude.{◌+◌, ◌*◌, ◌≤◌, ◌^◌};

use register::{
    AccessWidth, BitRegister, ByteRegister, Class, CpuInterfaceRegister, DistributorAccess, Place,
    Refusal,
};
use std::io;
use std::io::Stdout;

#[derive(Clone, Copy)]
enum Frame {
    Distributor,
    CpuInterface,
}

fn show_refusal(out: Stdout, refusal: Refusal) -> io::Result<()> {
    print!(out; " {}", refusal.number())
}

fn bit_name(register: BitRegister) -> &'static str {
    match register {
        BitRegister::Igroupr => "igroupr",
        BitRegister::Isenabler => "isenabler",
        BitRegister::Icenabler => "icenabler",
        BitRegister::Ispendr => "ispendr",
        BitRegister::Icpendr => "icpendr",
        BitRegister::Isactiver => "isactiver",
        BitRegister::Icactiver => "icactiver",
        BitRegister::Icfgr => "icfgr",
    }
}

fn byte_name(register: ByteRegister) -> &'static str {
    match register {
        ByteRegister::Ipriorityr => "ipriorityr",
        ByteRegister::Itargetsr => "itargetsr",
        ByteRegister::Cpendsgir => "cpendsgir",
        ByteRegister::Spendsgir => "spendsgir",
    }
}

fn show_place(out: Stdout, place: Place) -> io::Result<()> {
    print!(out; " {}", if place.private { "own:" } else { "" })?;
    let first = place.first.0;
    match place.class {
        Class::Ctlr => print!(out; "ctlr"),
        Class::Typer => print!(out; "typer"),
        Class::Iidr => print!(out; "iidr"),
        Class::Sgir => print!(out; "sgir"),
        Class::Bits(register) => print!(out; "{}{first}", bit_name(register)),
        Class::Bytes(register) => print!(out; "{}{first}", byte_name(register)),
        Class::Other => print!(out; "-"),
    }
}

fn show_distributor(out: Stdout, offset: u64, width: AccessWidth) -> io::Result<()> {
    match register::locate_distributor(offset, width) {
        DistributorAccess::Refused(refusal) => show_refusal(out, refusal),
        DistributorAccess::PrivateWidth => print!(out; " own:2"),
        DistributorAccess::At(place) => show_place(out, place),
    }
}

// The aliases act as what they are aliases of, and APR as an unnamed place.
fn register_name(register: CpuInterfaceRegister) -> &'static str {
    match register {
        CpuInterfaceRegister::Ctlr => "ctlr",
        CpuInterfaceRegister::Pmr => "pmr",
        CpuInterfaceRegister::Bpr | CpuInterfaceRegister::Abpr => "bpr",
        CpuInterfaceRegister::Iar | CpuInterfaceRegister::Aiar => "iar",
        CpuInterfaceRegister::Eoir | CpuInterfaceRegister::Aeoir => "eoir",
        CpuInterfaceRegister::Rpr => "rpr",
        CpuInterfaceRegister::Hppir | CpuInterfaceRegister::Ahppir => "hppir",
        CpuInterfaceRegister::Iidr => "iidr",
        CpuInterfaceRegister::Dir => "dir",
        CpuInterfaceRegister::Apr | CpuInterfaceRegister::Other => "-",
    }
}

fn show_cpu_interface(out: Stdout, offset: u64, width: AccessWidth) -> io::Result<()> {
    match register::locate_cpu_interface(offset, width) {
        Err(refusal) => show_refusal(out, refusal),
        Ok(register) => print!(out; " {}", register_name(register)),
    }
}

fn show_access(out: Stdout, frame: Frame, offset: u64, width: AccessWidth) -> io::Result<()> {
    match frame {
        Frame::Distributor => show_distributor(out, offset, width),
        Frame::CpuInterface => show_cpu_interface(out, offset, width),
    }
}

fn start(out: Stdout, frame: Frame, offset: u64) -> io::Result<()> {
    for width in [
        AccessWidth::Byte,
        AccessWidth::Word,
        AccessWidth::Dword,
        AccessWidth::Qword,
    ] {
        show_access(out, frame, offset, width)?;
    }
    Ok(())
}

fn letter(frame: Frame) -> char {
    match frame {
        Frame::Distributor => 'd',
        Frame::CpuInterface => 'c',
    }
}

fn place(out: Stdout, frame: Frame, offset: u64) -> io::Result<()>
    requires { offset + 4 ≤ 2 ^ 64 }
{
    print!(out; "{} {offset}", letter(frame))?;
    for byte in 0..4 {
        start(out, frame, offset + byte)?;
    }
    println!(out; "")
}

fn places(out: Stdout, frame: Frame, first: u64, count: u64) -> io::Result<()>
    requires { first + 4 * count ≤ 2 ^ 64 }
{
    for i in 0..count {
        place(out, frame, first + 4 * i)?;
    }
    Ok(())
}

// The frame and 16 places more, and places around 2^32 and below 2^64.
fn runs(out: Stdout, frame: Frame, size: u64) -> io::Result<()>
    requires { size ≤ 2 ^ 32 }
{
    places(out, frame, 0, size / 4 + 16)?;
    places(out, frame, 0xffff_fff0, 20)?;
    places(out, frame, 0xffff_ffff_ffff_ffc0, 16)
}

fn main(rt: HostRuntime) -> io::Result<()> {
    let out = rt.stdout();
    runs(out, Frame::Distributor, 0x1000)?;
    runs(out, Frame::CpuInterface, 0x2000)
}
