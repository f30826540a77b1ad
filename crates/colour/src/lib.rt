// From display byte to colour: pixels, alternate colours, the palette, external colour.
#![tactic(auto)]

mod line;

ghost use Rattle.std.specs.Prelude.{◌≡◌, ◌&&◌, ◌/◌, ◌%◌, ◌<◌, ◌≤◌};
ghost use Rattle.lists.specs.Number.{number};
ghost use Rattle.nick.specs.Numbers.{bit, is_set};
ghost use Rattle.nick.specs.Colour.{four_index, sixteen_index, palette_colour};
ghost use Rattle.nick.specs.External.{high_index, priority_gives, external_wins, mixed_colour};
ghost use Rattle.colour.specs.Cell.{
  raised,
  graphics_cell,
  character_cell,
  attribute_cell,
  cell_pixel,
  palette_number,
  palette_of,
};

use blocks::{ColourMode, colour_mode};
pub use line::LineColours;
use nick::{Block, Pixel, Registers};

// One display byte ready to be shown: the colour mode, the byte, and in two colours the palette numbers of a clear and of a
// set bit.
#[derive(Clone, Copy, PartialEq, Eq)]
pub struct Cell {
    pub colours: ColourMode,
    pub byte: u8,
    pub low: u8,
    pub high: u8,
}

// Bit k of a byte, as 0 or 1: a number, since weights multiply it. A bit of a fixed place that is only asked about is tested where it
// is read.
pub fn bit_of(byte: u8, k: u8) -> u8
    requires { k < 8 }
    ensures { result ≡ bit k byte }
{
    (byte >> k) % 2
}

// The palette number of pixel k in four colours.
#[tactic(auto, unfolding(nick::specs::Colour::four_index))]
pub fn four_index(byte: u8, k: u8) -> u8
    requires { k < 4 }
    ensures { result ≡ four_index byte k }
{
    let upper = bit_of(byte, 7 - k);
    let lower = bit_of(byte, 3 - k);
    upper + 2 * lower
}

// The palette number of pixel k in sixteen colours.
#[tactic(auto, unfolding(nick::specs::Colour::sixteen_index))]
pub fn sixteen_index(byte: u8, k: u8) -> u8
    requires { k < 2 }
    ensures { result ≡ sixteen_index byte k }
{
    let first = bit_of(byte, 7 - k);
    let second = bit_of(byte, 3 - k);
    let third = bit_of(byte, 5 - k);
    let fourth = bit_of(byte, 1 - k);
    first + 2 * second + 4 * third + 8 * fourth
}

// The pixel at an eighth of the display byte, counted from the left: below 8 by a clause, since a type would be made of it at each dot.
#[tactic(auto, unfolding(crate::specs::Cell::cell_pixel))]
pub fn pixel_at(cell: Cell, at: u8) -> Pixel
    requires { at < 8 }
    ensures { result ≡ cell_pixel cell at }
{
    match cell.colours {
        ColourMode::Two if bit_of(cell.byte, 7 - at) == 0 => Pixel::Palette(cell.low % 16),
        ColourMode::Two => Pixel::Palette(cell.high % 16),
        ColourMode::Four => Pixel::Palette(four_index(cell.byte, at / 2)),
        ColourMode::Sixteen => Pixel::Palette(sixteen_index(cell.byte, at / 4)),
        ColourMode::All => Pixel::Direct(cell.byte),
    }
}

// 1 where bit k of a margin byte and bit j of another byte are set, else 0: a number, since it is weighed.
fn both_set(margin: u8, k: u8, byte: u8, j: u8) -> u8
    requires k_bound { k < 8 }
    requires j_bound { j < 8 }
    ensures { (result ≡ number (is_set k margin && is_set j byte)) × (result ≤ bit j byte) }
{
    bit_of(margin, k) * bit_of(byte, j)
}

// A display byte whose two-colour indices are raised by `added`.
fn raised(colours: ColourMode, byte: u8, added: u8) -> Cell
    requires { added < 255 }
    ensures { result ≡ raised colours byte added }
{
    Cell {
        colours,
        byte,
        low: added,
        high: added + 1,
    }
}

// A display byte of PIXEL and LPIXEL, with the alternate bits of LM.
#[tactic(auto, unfolding(crate::specs::Cell::graphics_cell, nick::specs::Colour::graphics_added, nick::specs::Colour::graphics_byte))]
pub fn graphics_cell(block: Block, byte: u8) -> Cell
    ensures { result ≡ graphics_cell block byte }
{
    match colour_mode(block) {
        ColourMode::Two => {
            let msb = both_set(block.lm, 7, byte, 7);
            let lsb = both_set(block.lm, 6, byte, 0);
            let added = 2 * msb + 4 * lsb;
            let rest = byte - 128 * msb - lsb;
            raised(ColourMode::Two, rest, added)
        }
        colours => raised(colours, byte, 0),
    }
}

// A display byte of the character modes, with the alternate bits of RM.
#[tactic(auto, unfolding(crate::specs::Cell::character_cell, nick::specs::Colour::character_added))]
pub fn character_cell(block: Block, code: u8, byte: u8) -> Cell
    ensures { result ≡ character_cell block code byte }
{
    let added = 2 * both_set(block.rm, 7, code, 7) + 4 * both_set(block.rm, 6, code, 6);
    raised(colour_mode(block), byte, added)
}

// A display byte of ATTR, always in two colours: a clear bit takes the attribute's high four bits, a set one the low four.
#[tactic(auto, unfolding(crate::specs::Cell::attribute_cell))]
pub fn attribute_cell(attribute: u8, byte: u8) -> Cell
    ensures { result ≡ attribute_cell attribute byte }
{
    Cell {
        colours: ColourMode::Two,
        byte,
        low: attribute / 16,
        high: attribute % 16,
    }
}

// The colour that palette number n stands for.
#[tactic(auto, unfolding(nick::specs::Colour::palette_colour))]
pub fn palette_colour(registers: Registers, block: Block, n: u8) -> u8
    requires { n < 16 }
    ensures { result ≡ palette_colour registers block n }
{
    if n < 8 {
        block.col[n as usize]
    } else {
        8 * (registers.fixbias % 32) + (n - 8)
    }
}

// The sixteen colours of the palette. By a loop: what array::from_fn promises does not say that the closure keeps what it captured.
#[tactic(auto, unfolding(crate::specs::Cell::palette_of))]
pub fn palette(registers: Registers, block: Block) -> [u8; 16]
    ensures { result ≡ palette_of registers block }
{
    let mut palette = [0; 16];
    for (n, colour) in palette.iter_mut().enumerate() {
        *colour = palette_colour(registers, block, n as u8);
    }
    palette
}

// Whether the pixel's palette number is 8 to 15.
fn is_high(pixel: Pixel) -> bool
    ensures { result ≡ high_index pixel }
{
    matches!(pixel, Pixel::Palette(8..))
}

// Whether the priority lets external colour `ec` replace a pixel. The rules number the priorities, so they have no names here.
#[tactic(auto, using(crate::proofs::External::gives_by_test))]
fn priority_gives(registers: Registers, high: bool, ec: u8) -> bool
    ensures { result ≡ priority_gives (registers.fixbias / 32 % 4) high ec }
{
    match registers.fixbias / 32 % 4 {
        0 => true,
        1 => high,
        2 => high || ec < 8,
        _ => high || ec / 4 % 2 == 0,
    }
}

// Whether external colour replaces the pixel.
pub fn external_wins(registers: Registers, pixel: Pixel, external: u8) -> bool
    ensures { result ≡ external_wins registers pixel external }
{
    external / 128 % 2 == 1 && priority_gives(registers, is_high(pixel), external % 16)
}

// The colour of a dot that shows the pixel, external colour considered.
#[tactic(auto, unfolding(nick::specs::External::mixed_colour))]
pub fn mixed_colour(registers: Registers, block: Block, pixel: Pixel, external: u8) -> u8
    requires { palette_number pixel < 16 }
    ensures { result ≡ mixed_colour registers block pixel external }
{
    if external_wins(registers, pixel, external) {
        return palette_colour(registers, block, external % 16);
    }
    match pixel {
        Pixel::Palette(n) => palette_colour(registers, block, n),
        Pixel::Direct(colour) => colour,
    }
}
