// What a slot fetches: the cells that it shows, the pointers after it, how many bytes; and what each of its dots comes from.
#![tactic(auto)]

mod dot;
mod font;

ghost use Rattle.std.specs.Prelude.{◌≡◌, [], true, false, MatchOption, if◌then◌else◌};
ghost use Rattle.nick.specs.Numbers.{byte_at};
ghost use Rattle.nick.specs.Slots.{PIXEL as pixel_mode, ATTR as attribute_mode, CH, LPIXEL, mode_of, slot_pointers, dot_addresses};
ghost use Rattle.nick.specs.Direct.{addresses_of};
ghost use Rattle.nick.specs.Scanline.{active_at};
ghost use Rattle.nick.specs.Sync.{syncs};
ghost use Rattle.blocks.specs.Modes.{bits_in, mode_named};
ghost use Rattle.colour.specs.Cell.{attribute_cell};
ghost use Rattle.fetch.specs.Fetches.{one_cell, fetched_in, fetched_at};

use blocks::{CodeWidth, VideoMode, video_mode};
use colour::Cell;
pub use dot::SlotDot;
use nick::{Block, Pointers, Ram, Registers, Sources};

// The cells that a slot shows: one over all sixteen dots, or two of eight dots each. No Option: there may be two.
#[derive(Clone, Copy, PartialEq, Eq)]
pub enum Cells {
    Nothing,
    Whole(Cell),
    Halves(Cell, Cell),
}

// What a slot fetched: its cells, the pointers after it, and how many bytes.
#[derive(Clone, Copy, PartialEq, Eq)]
pub struct Fetched {
    pub cells: Cells,
    pub at: Pointers,
    pub count: u8,
}

// PIXEL: two bytes of eight dots.
fn pixel(ram: &Ram, block: Block, at: Pointers) -> Fetched
    ensures { result ≡ fetched_in pixel_mode ram.now block at }
{
    let a = at.ld1;
    let b = a.wrapping_add(1);
    let first = colour::graphics_cell(block, ram[a as usize]);
    let second = colour::graphics_cell(block, ram[b as usize]);
    Fetched {
        cells: Cells::Halves(first, second),
        at: at.up(2, 0),
        count: 2,
    }
}

// ATTR: an attribute and a byte of sixteen dots.
fn attribute(ram: &Ram, at: Pointers) -> Fetched
    ensures { result ≡ one_cell (attribute_cell (byte_at ram.now at.ld1) (byte_at ram.now at.ld2)) (slot_pointers attribute_mode at) 2 }
{
    let cell = colour::attribute_cell(ram[at.ld1 as usize], ram[at.ld2 as usize]);
    Fetched {
        cells: Cells::Whole(cell),
        at: at.up(1, 1),
        count: 2,
    }
}

// A character mode: a code, and a byte of sixteen dots from the font.
fn character(ram: &Ram, block: Block, width: CodeWidth, at: Pointers) -> Fetched
    ensures { result ≡ fetched_in (CH (bits_in width)) ram.now block at }
{
    let code = ram[at.ld1 as usize];
    let display = font::font_address(width, at.ld2, code);
    let cell = colour::character_cell(block, code, ram[display as usize]);
    Fetched {
        cells: Cells::Whole(cell),
        at: at.up(1, 0),
        count: 2,
    }
}

// LPIXEL: one byte of sixteen dots.
fn lpixel(ram: &Ram, block: Block, at: Pointers) -> Fetched
    ensures { result ≡ fetched_in LPIXEL ram.now block at }
{
    let cell = colour::graphics_cell(block, ram[at.ld1 as usize]);
    Fetched {
        cells: Cells::Whole(cell),
        at: at.up(1, 0),
        count: 1,
    }
}

// The video mode in which a dot slot fetches: none outside the margins.
fn active_mode(block: Block, slot: u8) -> Option<VideoMode>
    ensures { MatchOption result (active_at block slot ≡ false) (λ mode. (active_at block slot ≡ true) × (mode_named mode ≡ mode_of block)) }
{
    blocks::is_active(block, slot).then(|| video_mode(block))
}

// What a dot slot fetches, active or not.
pub fn fetch_slot(ram: &Ram, block: Block, slot: u8, at: Pointers) -> Fetched
    ensures { result ≡ fetched_at (active_at block slot) (mode_of block) ram.now block at }
{
    match active_mode(block, slot) {
        None | Some(VideoMode::Vsync | VideoMode::Unused) => Fetched {
            cells: Cells::Nothing,
            at,
            count: 0,
        },
        Some(VideoMode::Pixel) => pixel(ram, block, at),
        Some(VideoMode::Attr) => attribute(ram, at),
        Some(VideoMode::Character(width)) => character(ram, block, width, at),
        Some(VideoMode::Lpixel) => lpixel(ram, block, at),
    }
}

// The colour of a dot for which nothing is fetched: BORDER, but blank in VSYNC.
pub fn unfetched(registers: Registers, block: Block) -> u8
    ensures { result ≡ (if syncs (mode_of block) then 0 else registers.border) }
{
    match video_mode(block) {
        VideoMode::Vsync => 0,
        _ => registers.border,
    }
}

// The addresses that a dot comes from, its slot active or not. `Fetched` does not hold them: painting hands it on at each slot, and
// needs none.
pub fn sources_at(ram: &Ram, block: Block, at: Pointers, dot: SlotDot) -> Sources
    ensures { addresses_of result ≡ (if active_at block dot.slot then dot_addresses (mode_of block) ram.now at dot.place else []) }
{
    match active_mode(block, dot.slot) {
        None | Some(VideoMode::Vsync | VideoMode::Unused) => Sources::Nothing,
        Some(VideoMode::Pixel) if dot.place < 8 => Sources::One(at.ld1),
        Some(VideoMode::Pixel) => Sources::One(at.ld1.wrapping_add(1)),
        Some(VideoMode::Attr) => Sources::Two(at.ld1, at.ld2),
        Some(VideoMode::Character(width)) => {
            let code = ram[at.ld1 as usize];
            Sources::Two(at.ld1, font::font_address(width, at.ld2, code))
        }
        Some(VideoMode::Lpixel) => Sources::One(at.ld1),
    }
}
