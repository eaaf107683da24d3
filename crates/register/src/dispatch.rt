// The dispatch table: the class number of each 32-bit place of the Distributor.
ghost use Rattle.std.specs.Prelude.{◌≡◌, ℕ, ◌+◌, ◌*◌, ◌<◌, get_or};
ghost use Rattle.register.specs.Ranges.{class_at, class_number};

use crate::ranges::Class;

// The class number of each 32-bit place, 16 where no range is. A row has the 32 places of 0x80 bytes, as many as most bit registers have;
// `class_number` has it proved at each entry.
static CLASS_NUMBERS: [[u8; 32]; 32] = [
    // 0x000 GICD_CTLR, GICD_TYPER, GICD_IIDR
    [
        0, 1, 2, 16, 16, 16, 16, 16, 16, 16, 16, 16, 16, 16, 16, 16, 16, 16, 16, 16, 16, 16, 16,
        16, 16, 16, 16, 16, 16, 16, 16, 16,
    ],
    // 0x080 GICD_IGROUPR
    [3; 32],
    // 0x100 GICD_ISENABLER
    [4; 32],
    // 0x180 GICD_ICENABLER
    [5; 32],
    // 0x200 GICD_ISPENDR
    [6; 32],
    // 0x280 GICD_ICPENDR
    [7; 32],
    // 0x300 GICD_ISACTIVER
    [8; 32],
    // 0x380 GICD_ICACTIVER
    [9; 32],
    // 0x400 GICD_IPRIORITYR
    [10; 32],
    [10; 32],
    [10; 32],
    [10; 32],
    [10; 32],
    [10; 32],
    [10; 32],
    [
        10, 10, 10, 10, 10, 10, 10, 10, 10, 10, 10, 10, 10, 10, 10, 10, 10, 10, 10, 10, 10, 10, 10,
        10, 10, 10, 10, 10, 10, 10, 10, 16,
    ],
    // 0x800 GICD_ITARGETSR
    [11; 32],
    [11; 32],
    [11; 32],
    [11; 32],
    [11; 32],
    [11; 32],
    [11; 32],
    [
        11, 11, 11, 11, 11, 11, 11, 11, 11, 11, 11, 11, 11, 11, 11, 11, 11, 11, 11, 11, 11, 11, 11,
        11, 11, 11, 11, 11, 11, 11, 11, 16,
    ],
    // 0xc00 GICD_ICFGR
    [12; 32],
    [12; 32],
    // 0xd00
    [16; 32],
    [16; 32],
    [16; 32],
    [16; 32],
    // 0xf00 GICD_SGIR, GICD_CPENDSGIR, GICD_SPENDSGIR
    [
        13, 16, 16, 16, 14, 14, 14, 14, 15, 15, 15, 15, 16, 16, 16, 16, 16, 16, 16, 16, 16, 16, 16,
        16, 16, 16, 16, 16, 16, 16, 16, 16,
    ],
    // 0xf80
    [16; 32],
];

// The number at a 32-bit place.
fn class_number(place: usize) -> u8
    requires { place < 1024 }
    ensures { result ≡ class_number (class_at (4 * place)) }
{
    CLASS_NUMBERS[place / 32][place % 32]
}

// SGIR, on which guests ring, is told without the table.
pub fn class_at(offset: u64) -> Class
    ensures { result ≡ class_at offset }
{
    if offset == 0xf00 {
        return Class::Sgir;
    }
    if offset < 0x1000 {
        Class::of_number(class_number((offset / 4) as usize))
    } else {
        Class::Other
    }
}
