// The NICK video chip: its state, register writes, the fresh state and the levels of a colour.
// specs/ holds the rules of the chip as definitions; every contract of the repository cites them.
#![tactic(auto)]

mod refusal;

ghost use Rattle.std.specs.Prelude.{◌≡◌};
ghost use Rattle.nick.specs.Registers.{fresh_state, write_refusal, written};
ghost use Rattle.nick.specs.Levels.{levels_of};
ghost use Rattle.nick.specs.Numbers.{up};
ghost use Rattle.nick.specs.Refusals.{refusal_in};

pub use refusal::{Refusal, UnknownRefusal};

// How many bytes video RAM has.
pub const RAM_BYTES: usize = 65536;

// The whole video RAM.
pub type Ram = [u8; RAM_BYTES];

// How many bytes the record of a scanline has.
pub const RECORD_BYTES: usize = 7;

// The four registers that a program can write.
#[derive(Clone, Copy, PartialEq, Eq, Default)]
pub struct Registers {
    pub fixbias: u8,
    pub border: u8,
    pub lpl: u8,
    pub lph: u8,
}

// The two video data pointers.
#[derive(Clone, Copy, PartialEq, Eq, Default)]
pub struct Pointers {
    pub ld1: u16,
    pub ld2: u16,
}

impl Pointers {
    // LD1 gone up by `ld1` and LD2 by `ld2`; after 65,535 comes 0.
    #[inline(always)]
    pub fn up(self, ld1: u16, ld2: u16) -> Self
        ensures { result ≡ record { ld1 = up ld1 self.ld1; ld2 = up ld2 self.ld2 } }
    {
        Pointers {
            ld1: self.ld1.wrapping_add(ld1),
            ld2: self.ld2.wrapping_add(ld2),
        }
    }
}

// A line parameter block; `start` is where its pointers start.
#[derive(Clone, Copy, PartialEq, Eq, Default)]
pub struct Block {
    pub sc: u8,
    pub mb: u8,
    pub lm: u8,
    pub rm: u8,
    pub start: Pointers,
    pub col: [u8; 8],
}

// Where the chip stands in the line parameter table: reload pending, the stored block and its number, LD1 and LD2 now, and
// the scanlines left in the mode line. Users hand in any, so that it is well-formed is a clause and no type (docs/DECISIONS.md 66).
#[derive(Clone, Copy, PartialEq, Eq, Default)]
pub struct Scan {
    pub pending: bool,
    pub block: Block,
    pub number: u16,
    pub at: Pointers,
    pub left: u16,
}

// All that carries over from one scanline to the next; `virq` says that VIRQ is low, `sync` that sync is on.
#[derive(Clone, Copy, PartialEq, Eq, Default)]
pub struct State {
    pub registers: Registers,
    pub scan: Scan,
    pub virq: bool,
    pub sync: bool,
}

// A pixel: a palette number 0 to 15, or in 256 colours the colour itself.
#[derive(Clone, Copy, PartialEq, Eq)]
pub enum Pixel {
    Palette(u8),
    Direct(u8),
}

// The levels of a colour: red and green of 7, blue of 3.
#[derive(Clone, Copy, PartialEq, Eq)]
pub struct Levels {
    pub red: u8,
    pub green: u8,
    pub blue: u8,
}

// The RAM addresses that a dot came from, in order. No Option: there may be two.
#[derive(Clone, Copy, PartialEq, Eq)]
pub enum Sources {
    Nothing,
    One(u16),
    Two(u16, u16),
}

// What the direct answer says of a dot: its colour, and where it came from.
#[derive(Clone, Copy, PartialEq, Eq)]
pub struct Answer {
    pub colour: u8,
    pub sources: Sources,
}

// The state before any write: all zero, but LPH, and a reload is pending.
pub fn fresh() -> State
    ensures { result ≡ fresh_state }
{
    State {
        registers: Registers {
            lph: 192,
            ..Registers::default()
        },
        scan: Scan {
            pending: true,
            ..Scan::default()
        },
        ..State::default()
    }
}

// Writes one register. Ports 132 to 143 are reserved, and no others are the chip's; a match by number, as docs/DECISIONS.md 20 says.
#[tactic(auto, unfolding(crate::specs::Registers::written, crate::specs::Registers::written_registers, crate::specs::Registers::written_scan))]
pub fn write(state: &mut State, port: u32, value: u8) -> Result<(), Refusal>
    ensures refusal { refusal_in result ≡ write_refusal port }
    ensures state { state.new ≡ written state.old port value }
{
    match port {
        128 => state.registers.fixbias = value,
        129 => state.registers.border = value,
        130 => state.registers.lpl = value,
        131 => {
            state.registers.lph = value;
            state.scan.pending = state.scan.pending || value / 128 % 2 == 0;
        }
        132..=143 => return Err(Refusal::ReservedPort),
        _ => return Err(Refusal::ForeignPort),
    }
    Ok(())
}

// The levels of a colour byte: a function and no From, since it is a call of its own, as `nick_levels` is.
#[tactic(auto, unfolding(crate::specs::Levels::levels_of))]
pub fn levels_of(colour: u8) -> Levels
    ensures { result ≡ levels_of colour }
{
    Levels {
        red: 4 * (colour % 2) + 2 * (colour / 8 % 2) + colour / 64 % 2,
        green: 4 * (colour / 2 % 2) + 2 * (colour / 16 % 2) + colour / 128 % 2,
        blue: 2 * (colour / 4 % 2) + colour / 32 % 2,
    }
}
