// The colours of a scanline.
ghost use Rattle.std.specs.Prelude.{◌≡◌};
ghost use Rattle.colour.specs.Cell.{palette_of};

use crate::palette;
use nick::{Block, Registers};

// What the dots of a scanline take their colours from: the registers, the block in force, and the palette of both. With the
// palette last, painting takes up to 5 % more instructions.
#[derive(Clone, Copy, PartialEq, Eq)]
pub struct LineColours {
    pub registers: Registers,
    pub palette: [u8; 16],
    pub block: Block,
    ghost of_both: { palette ≡ palette_of registers block },
}

impl LineColours {
    // The colours of a scanline in which the block is in force.
    pub fn new(registers: Registers, block: Block) -> Self
        ensures { (result.registers ≡ registers) × (result.block ≡ block) }
    {
        LineColours {
            registers,
            block,
            palette: palette(registers, block),
        }
    }
}
