// What every frame has in common: the widths of an access, the refusals, and the test that an access lies in its frame.
ghost use Rattle.std.specs.Prelude.{◌≡◌, ◌%◌, ◌^◌};
ghost use Rattle.register.specs.Frame.{decoded_width, bytes, is_dword, is_qword, refusal_number, aligned, in_frame};

// The four widths of an access, in bytes: no other can be given.
#[derive(Clone, Copy)]
pub enum AccessWidth {
    Byte = 1,
    Word = 2,
    Dword = 4,
    Qword = 8,
}

// Why a call is refused, with the refusals' numbers.
#[derive(Clone, Copy)]
pub enum Refusal {
    // Unaligned, or the end overflows or passes the frame.
    Access = 1,
    // The register does not take this width.
    Width = 2,
    // There is no such vCPU.
    Vcpu = 3,
    // Setup: count or limit out of range.
    Limits = 4,
    // Setup: the lent state is too short.
    ShortState = 5,
    // The lent state is no controller's.
    BrokenState = 6,
    // No room for an acknowledged interrupt.
    FullStack = 7,
    // Device input: no number for a device.
    Input = 8,
    // Saving: the state is not lawful. Loading: the bytes are no image of a lawful state.
    Unlawful = 9,
    // Saving: the buffer is too short.
    NoRoom = 10,
    // Message frame: the window is none of this controller's.
    Window = 11,
}

impl AccessWidth {
    // No TryFrom: no error is to be told of a number that is no width.
    #[tactic(auto, unfolding(crate::specs::Frame::decoded_width))]
    pub fn new(bytes: u64) -> Option<AccessWidth>
        ensures { result ≡ decoded_width bytes }
    {
        match bytes {
            1 => Some(AccessWidth::Byte),
            2 => Some(AccessWidth::Word),
            4 => Some(AccessWidth::Dword),
            8 => Some(AccessWidth::Qword),
            _ => None,
        }
    }

    pub fn size(self) -> usize
        ensures { result ≡ bytes self }
    {
        self as usize
    }

    // A register that is no byte array takes 4 bytes only.
    pub fn is_dword(self) -> bool
        ensures { result ≡ is_dword self }
    {
        matches!(self, AccessWidth::Dword)
    }

    // No byte array takes 8 bytes.
    pub fn is_qword(self) -> bool
        ensures { result ≡ is_qword self }
    {
        matches!(self, AccessWidth::Qword)
    }

    // By cases, so that each division is by a constant.
    fn aligned(self, offset: u64) -> bool
        ensures { result ≡ aligned offset self }
    {
        match self {
            AccessWidth::Byte => offset % 1 == 0,
            AccessWidth::Word => offset % 2 == 0,
            AccessWidth::Dword => offset % 4 == 0,
            AccessWidth::Qword => offset % 8 == 0,
        }
    }
}

impl Refusal {
    pub fn number(self) -> u8
        ensures { result ≡ refusal_number self }
    {
        self as u8
    }
}

// The end is compared as the room left, so that an offset near 2^64 wraps nothing.
pub fn validate_frame_access(size: u64, offset: u64, width: AccessWidth) -> bool
    ensures { result ≡ in_frame size offset width }
{
    if offset > size {
        return false;
    }
    (width.size() as u64 <= size - offset) & width.aligned(offset)
}

// What a register takes of a value that is written: it has 32 bits at most.
pub fn register_value(value: u64) -> u32
    ensures { result ≡ value % 2 ^ 32 }
{
    (value % 0x1_0000_0000) as u32
}
