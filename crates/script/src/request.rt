// What a line asks for, by its letter and the numbers after it.
ghost use Rattle.std.specs.Prelude.{◌≡◌};
ghost use Rattle.script.specs.Request.{with_number, access_of, store_of, setup_for, level_of, pulse_of, request_for};

use interrupt::GicVcpuId;
use register::AccessWidth;

// `n count limit`.
#[derive(Clone, Copy)]
pub struct Size {
    pub count: u64,
    pub limit: u64,
}

// `d vcpu offset width` and `c vcpu offset width`.
#[derive(Clone, Copy)]
pub struct Access {
    pub vcpu: GicVcpuId,
    pub offset: u64,
    pub width: AccessWidth,
}

// `D vcpu offset width value` and `C vcpu offset width value`.
#[derive(Clone, Copy)]
pub struct Store {
    pub vcpu: GicVcpuId,
    pub offset: u64,
    pub width: AccessWidth,
    pub value: u64,
}

// `l vcpu id 0|1`.
#[derive(Clone, Copy)]
pub struct LineLevel {
    pub vcpu: GicVcpuId,
    pub number: u64,
    pub asserted: bool,
}

// `p vcpu id`.
#[derive(Clone, Copy)]
pub struct Input {
    pub vcpu: GicVcpuId,
    pub number: u64,
}

#[derive(Clone, Copy)]
pub enum Request {
    Setup(Size),
    ReadDistributor(Access),
    WriteDistributor(Store),
    ReadCpuInterface(Access),
    WriteCpuInterface(Store),
    SetLevel(LineLevel),
    Pulse(Input),
}

// The numbers of a line. An enum and no list, since a pattern then tells a form by their count; and no `Option`, since `Other` is one more
// count that no form has: more than four, or a field that is no number.
#[derive(Clone, Copy)]
pub enum Numbers {
    Zero,
    One(u64),
    Two(u64, u64),
    Three(u64, u64, u64),
    Four(u64, u64, u64, u64),
    Other,
}

impl Numbers {
    pub fn with(self, value: u64) -> Numbers
        ensures { result ≡ with_number self value }
    {
        match self {
            Numbers::Zero => Numbers::One(value),
            Numbers::One(a) => Numbers::Two(a, value),
            Numbers::Two(a, b) => Numbers::Three(a, b, value),
            Numbers::Three(a, b, c) => Numbers::Four(a, b, c, value),
            Numbers::Four(..) | Numbers::Other => Numbers::Other,
        }
    }
}

fn read_fields(numbers: Numbers) -> Option<Access>
    ensures { result ≡ access_of numbers }
{
    let Numbers::Three(vcpu, offset, bytes) = numbers else {
        return None;
    };
    let width = AccessWidth::new(bytes)?;
    Some(Access {
        vcpu: GicVcpuId(vcpu as usize),
        offset,
        width,
    })
}

fn write_fields(numbers: Numbers) -> Option<Store>
    ensures { result ≡ store_of numbers }
{
    let Numbers::Four(vcpu, offset, bytes, value) = numbers else {
        return None;
    };
    let width = AccessWidth::new(bytes)?;
    Some(Store {
        vcpu: GicVcpuId(vcpu as usize),
        offset,
        width,
        value,
    })
}

fn setup(numbers: Numbers) -> Option<Request>
    ensures { result ≡ setup_for numbers }
{
    let Numbers::Two(count, limit) = numbers else {
        return None;
    };
    Some(Request::Setup(Size { count, limit }))
}

fn set_level(numbers: Numbers) -> Option<Request>
    ensures { result ≡ level_of numbers }
{
    let Numbers::Three(vcpu, number, level) = numbers else {
        return None;
    };
    if 1 < level {
        return None;
    }
    Some(Request::SetLevel(LineLevel {
        vcpu: GicVcpuId(vcpu as usize),
        number,
        asserted: level == 1,
    }))
}

fn pulse(numbers: Numbers) -> Option<Request>
    ensures { result ≡ pulse_of numbers }
{
    let Numbers::Two(vcpu, number) = numbers else {
        return None;
    };
    Some(Request::Pulse(Input {
        vcpu: GicVcpuId(vcpu as usize),
        number,
    }))
}

#[tactic(auto, unfolding(crate::specs::Request::request_for))]
pub fn request_for(letter: u8, numbers: Numbers) -> Option<Request>
    ensures { result ≡ request_for letter numbers }
{
    match letter {
        b'n' => setup(numbers),
        b'd' => read_fields(numbers).map(Request::ReadDistributor),
        b'D' => write_fields(numbers).map(Request::WriteDistributor),
        b'c' => read_fields(numbers).map(Request::ReadCpuInterface),
        b'C' => write_fields(numbers).map(Request::WriteCpuInterface),
        b'l' => set_level(numbers),
        b'p' => pulse(numbers),
        _ => None,
    }
}
