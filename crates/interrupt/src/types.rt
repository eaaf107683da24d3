// The numbers that stay apart, and the two small enums of a record.
ghost use Rattle.std.specs.Prelude.{◌≡◌};
ghost use Rattle.interrupt.specs.Types.{decoded, is_sgi, is_private_id, priority_of, is_level, starting_trigger, pending_in, active_in};

// An interrupt number: SGIs 0 to 15, PPIs 16 to 31, SPIs from 32.
#[derive(Clone, Copy, PartialEq, Eq)]
pub struct IntId(pub u32);

// A vCPU number: any number can be given in a call, and the calls look it up.
#[derive(Clone, Copy, PartialEq, Eq)]
pub struct GicVcpuId(pub usize);

// A priority: the smaller number is the more urgent.
#[derive(Clone, Copy, PartialEq, Eq, PartialOrd, Ord)]
pub struct Priority(pub u8);

#[derive(Clone, Copy)]
pub enum TriggerMode {
    Level,
    Edge,
}

#[derive(Clone, Copy)]
pub enum InterruptState {
    Inactive,
    Pending,
    Active,
    ActivePending,
}

impl IntId {
    // What an acknowledge answers when it hands out nothing.
    pub const SPURIOUS: Self = Self(1023);

    // A number that is an interrupt's: 1020 to 1023 are none's.
    #[tactic(auto, unfolding(crate::specs::Types::decoded))]
    pub fn new(raw: u32) -> Option<IntId>
        ensures { result ≡ decoded raw }
    {
        if raw < 1020 { Some(IntId(raw)) } else { None }
    }

    pub fn is_sgi(self) -> bool
        ensures { result ≡ is_sgi self }
    {
        self.0 < 16
    }

    // An SGI or a PPI: each vCPU has its own.
    pub fn is_private(self) -> bool
        ensures { result ≡ is_private_id self }
    {
        self.0 < 32
    }
}

impl Priority {
    pub const DEFAULT: Self = Self(0);
    // The running priority of a vCPU that serves nothing: no interrupt's priority is above it.
    pub const IDLE: Self = Self(255);

    pub fn new(raw: u8) -> Self
        ensures { result ≡ priority_of raw }
    {
        Self(raw)
    }
}

impl TriggerMode {
    #[tactic(auto, unfolding(crate::specs::Types::starting_trigger))]
    pub fn starting(intid: IntId) -> Self
        ensures { result ≡ starting_trigger intid }
    {
        if intid.is_sgi() {
            TriggerMode::Edge
        } else {
            TriggerMode::Level
        }
    }

    pub fn is_level(self) -> bool
        ensures { result ≡ is_level self }
    {
        matches!(self, TriggerMode::Level)
    }
}

impl InterruptState {
    pub fn pending(self) -> bool
        ensures { result ≡ pending_in self }
    {
        matches!(
            self,
            InterruptState::Pending | InterruptState::ActivePending
        )
    }

    pub fn active(self) -> bool
        ensures { result ≡ active_in self }
    {
        matches!(self, InterruptState::Active | InterruptState::ActivePending)
    }
}
