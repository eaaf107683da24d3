// A GICv2m frame, by which a device rings an SPI with a memory write. Which SPIs is told by a window that the caller gives with each call.
#![tactic(auto)]

ghost use Rattle.std.specs.Prelude.{◌≡◌};
ghost use Rattle.service.specs.Service.{Sound};
ghost use Rattle.answer.specs.Answer.{outcome};
ghost use Rattle.message_frame.specs.MessageFrame.{decoded_window, in_window, typer_of, message_register_at, takes_width, locate_v2m, read_message, wrote_message, ReadV2mPromise, WriteV2mPromise};
ghost use Rattle.message_frame.specs.declared.MessageRegister.TheVariants.{Setspi};
ghost use Rattle.message_frame.specs.Framing.{FitsTyper, Framed};

use answer::{Answer, gave};
use input::{Signal, signal_interrupt};
use interrupt::{GicVcpuId, IntId};
use register::{AccessWidth, Refusal, register_value, validate_frame_access};
use state::Shape;
use state::lent::validate_state;

const V2M_SIZE: u64 = 0x1000;

// The SPIs that a frame rings: the first number, and how many.
#[derive(Clone, Copy)]
pub struct Window {
    pub first: IntId,
    pub count: u32,
}

#[derive(Clone, Copy)]
pub enum MessageRegister {
    Typer,
    Setspi,
    Other,
}

impl Window {
    // A caller's two numbers, where they are a window. The end is compared as the room left, so that numbers near 2^64 wrap nothing.
    #[tactic(auto, unfolding(crate::specs::MessageFrame::decoded_window))]
    pub fn new(shape: Shape, first: u64, count: u64) -> Option<Window>
        ensures { result ≡ decoded_window shape first count }
    {
        let limit = u64::from(shape.limit);
        if first < 32 || count < 1 || limit < first || limit - first < count {
            return None;
        }
        Some(Window {
            first: IntId(first as u32),
            count: count as u32,
        })
    }

    fn contains(self, number: u32) -> bool
        ensures { result ≡ in_window self number }
    {
        self.first.0 <= number && number - self.first.0 < self.count
    }

    fn typer(self) -> u32
        requires { FitsTyper self }
        ensures { result ≡ typer_of self }
    {
        self.first.0 * 0x1_0000 + self.count
    }
}

impl MessageRegister {
    fn at(offset: u64) -> Self
        ensures { result ≡ message_register_at offset }
    {
        match offset {
            0x008 => MessageRegister::Typer,
            0x040 => MessageRegister::Setspi,
            _ => MessageRegister::Other,
        }
    }

    fn takes_width(self, width: AccessWidth) -> bool
        ensures { result ≡ takes_width self width }
    {
        match self {
            MessageRegister::Typer | MessageRegister::Setspi => width.is_dword(),
            MessageRegister::Other => true,
        }
    }
}

#[tactic(auto, unfolding(crate::specs::MessageFrame::locate_v2m))]
fn locate_v2m(offset: u64, width: AccessWidth) -> Result<MessageRegister, Refusal>
    ensures { result ≡ locate_v2m offset width }
{
    if !validate_frame_access(V2M_SIZE, offset, width) {
        return Err(Refusal::Access);
    }
    let register = MessageRegister::at(offset);
    if register.takes_width(width) {
        Ok(register)
    } else {
        Err(Refusal::Width)
    }
}

fn read_register(window: Window, register: MessageRegister) -> u32
    requires { FitsTyper window }
    ensures { result ≡ read_message window register }
{
    match register {
        MessageRegister::Typer => window.typer(),
        MessageRegister::Setspi | MessageRegister::Other => 0,
    }
}

#[tactic(auto, unfolding(crate::specs::MessageFrame::read_v2m))]
pub fn read_v2m(words: &[u32], first: u64, count: u64, offset: u64, width: AccessWidth) -> Answer
    ensures { ReadV2mPromise first count offset width words.now result words.now }
{
    let shape = validate_state(words).ok_or(Refusal::BrokenState)?;
    let window = Window::new(shape, first, count).ok_or(Refusal::Window)?;
    let register = locate_v2m(offset, width)?;
    gave(read_register(window, register))
}

// An SPI is no vCPU's own, so that any number would do for the vCPU.
fn ring(words: &mut [u32], shape: Shape, window: Window, number: u32) -> Answer
    requires { Framed shape window words.old }
    ensures { outcome result words.new ≡ wrote_message shape window Setspi number words.old }
{
    if window.contains(number) {
        return signal_interrupt(words, shape, GicVcpuId(0), IntId(number), Signal::Edge);
    }
    // What changes nothing wakes nobody.
    gave(0)
}

fn write_register(
    words: &mut [u32],
    shape: Shape,
    window: Window,
    register: MessageRegister,
    value: u32,
) -> Answer
    requires { Framed shape window words.old }
    ensures { outcome result words.new ≡ wrote_message shape window register value words.old }
{
    match register {
        MessageRegister::Setspi => ring(words, shape, window, value),
        MessageRegister::Typer | MessageRegister::Other => gave(0),
    }
}

#[tactic(auto, unfolding(crate::specs::MessageFrame::write_v2m))]
pub fn write_v2m(
    words: &mut [u32],
    first: u64,
    count: u64,
    offset: u64,
    width: AccessWidth,
    value: u64,
) -> Answer
    ensures { WriteV2mPromise first count offset width value words.old result words.new }
{
    let shape = validate_state(words).ok_or(Refusal::BrokenState)?;
    let window = Window::new(shape, first, count).ok_or(Refusal::Window)?;
    let register = locate_v2m(offset, width)?;
    let bits = register_value(value);
    write_register(words, shape, window, register, bits)
}
