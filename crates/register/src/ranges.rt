// The Distributor's registers and where each lies (IHI 0048, Table 4-1, "Distributor register map").
ghost use Rattle.std.specs.Prelude.{◌≡◌};
ghost use Rattle.register.specs.Ranges.{bit_number, byte_number, class_number, range_numbered, class_of, range_of};

// Registers with one bit for each interrupt, or two.
#[derive(Clone, Copy)]
pub enum BitRegister {
    Igroupr,
    Isenabler,
    Icenabler,
    Ispendr,
    Icpendr,
    Isactiver,
    Icactiver,
    Icfgr,
}

// Registers with a byte for each interrupt.
#[derive(Clone, Copy)]
pub enum ByteRegister {
    Ipriorityr,
    Itargetsr,
    Cpendsgir,
    Spendsgir,
}

// Which register, or array of registers, a place of the Distributor belongs to.
#[derive(Clone, Copy)]
pub enum Class {
    Ctlr,
    Typer,
    Iidr,
    Sgir,
    Bits(BitRegister),
    Bytes(ByteRegister),
    Other,
}

// From `first`, `length` bytes.
#[derive(Clone, Copy)]
pub struct RegisterRange {
    pub first: u64,
    pub length: u64,
    pub class: Class,
}

// A row for each class, at its number.
static RANGES: [RegisterRange; 16] = [
    RegisterRange {
        first: 0x000,
        length: 4,
        class: Class::Ctlr,
    },
    RegisterRange {
        first: 0x004,
        length: 4,
        class: Class::Typer,
    },
    RegisterRange {
        first: 0x008,
        length: 4,
        class: Class::Iidr,
    },
    RegisterRange {
        first: 0x080,
        length: 0x80,
        class: Class::Bits(BitRegister::Igroupr),
    },
    RegisterRange {
        first: 0x100,
        length: 0x80,
        class: Class::Bits(BitRegister::Isenabler),
    },
    RegisterRange {
        first: 0x180,
        length: 0x80,
        class: Class::Bits(BitRegister::Icenabler),
    },
    RegisterRange {
        first: 0x200,
        length: 0x80,
        class: Class::Bits(BitRegister::Ispendr),
    },
    RegisterRange {
        first: 0x280,
        length: 0x80,
        class: Class::Bits(BitRegister::Icpendr),
    },
    RegisterRange {
        first: 0x300,
        length: 0x80,
        class: Class::Bits(BitRegister::Isactiver),
    },
    RegisterRange {
        first: 0x380,
        length: 0x80,
        class: Class::Bits(BitRegister::Icactiver),
    },
    RegisterRange {
        first: 0x400,
        length: 1020,
        class: Class::Bytes(ByteRegister::Ipriorityr),
    },
    RegisterRange {
        first: 0x800,
        length: 1020,
        class: Class::Bytes(ByteRegister::Itargetsr),
    },
    RegisterRange {
        first: 0xc00,
        length: 0x100,
        class: Class::Bits(BitRegister::Icfgr),
    },
    RegisterRange {
        first: 0xf00,
        length: 4,
        class: Class::Sgir,
    },
    RegisterRange {
        first: 0xf10,
        length: 16,
        class: Class::Bytes(ByteRegister::Cpendsgir),
    },
    RegisterRange {
        first: 0xf20,
        length: 16,
        class: Class::Bytes(ByteRegister::Spendsgir),
    },
];

// The numbers are those of the dispatch table, which document 01 asks for.
impl BitRegister {
    fn number(self) -> u8
        ensures { result ≡ bit_number self }
    {
        match self {
            BitRegister::Igroupr => 3,
            BitRegister::Isenabler => 4,
            BitRegister::Icenabler => 5,
            BitRegister::Ispendr => 6,
            BitRegister::Icpendr => 7,
            BitRegister::Isactiver => 8,
            BitRegister::Icactiver => 9,
            BitRegister::Icfgr => 12,
        }
    }
}

impl ByteRegister {
    fn number(self) -> u8
        ensures { result ≡ byte_number self }
    {
        match self {
            ByteRegister::Ipriorityr => 10,
            ByteRegister::Itargetsr => 11,
            ByteRegister::Cpendsgir => 14,
            ByteRegister::Spendsgir => 15,
        }
    }
}

impl Class {
    pub fn number(self) -> u8
        ensures { result ≡ class_number self }
    {
        match self {
            Class::Ctlr => 0,
            Class::Typer => 1,
            Class::Iidr => 2,
            Class::Sgir => 13,
            Class::Bits(register) => register.number(),
            Class::Bytes(register) => register.number(),
            Class::Other => 16,
        }
    }

    #[tactic(auto, unfolding(crate::specs::Ranges::class_of))]
    pub fn of_number(number: u8) -> Self
        ensures { result ≡ class_of number }
    {
        row(number).class
    }

    // Where the class lies; the other places are in no row.
    #[tactic(auto, unfolding(crate::specs::Ranges::range_of))]
    pub fn range(self) -> RegisterRange
        ensures { result ≡ range_of self }
    {
        row(self.number())
    }
}

// Numbers from 16 up have no row, and no place is there.
#[tactic(auto, using(crate::proofs::Map::numbered_past), unfolding(crate::specs::Ranges::range_numbered, crate::specs::Ranges::ranges))]
fn row(number: u8) -> RegisterRange
    ensures { result ≡ range_numbered number }
{
    match RANGES.get(number as usize) {
        Some(row) => *row,
        None => RegisterRange {
            first: 0,
            length: 0,
            class: Class::Other,
        },
    }
}
