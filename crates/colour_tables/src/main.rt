// Prints a digest of every display byte in every mode, of the palette, of external colour and of the colour levels.
// The lines must be those of the second program.
#![tactic(auto)]

ghost use Rattle.std.specs.Prelude.{◌<◌};
ghost use Rattle.colour.specs.Cell.{palette_number};

use cases::Digest;
use colour::Cell;
use nick::{Block, Pixel, Registers};
use std::io;

// Attributes and codes, which are fetched before the display byte.
const FIRST_BYTES: [u8; 6] = [0, 64, 128, 192, 27, 255];

// Values of FIXBIAS for the palette.
const BIASES: [u8; 6] = [0, 21, 31, 32, 96, 255];

// COLn is 37 n + 11, of 256.
const STEPPED: [u8; 8] = [11, 48, 85, 122, 159, 196, 233, 14];

// COLn is 255 - n.
const FALLING: [u8; 8] = [255, 254, 253, 252, 251, 250, 249, 248];

// A video mode: how many dots an eighth of a byte has; the attributes or codes that stand beside a display byte, where it has none
// one that nothing reads; and the cell of a block, an attribute or code, and a display byte. That the closure may be called is a clause
// of each function: a ghost field over it is not proved.
#[derive(Drop)]
struct Mode<'a, F> {
    dots: u8,
    firsts: &'a [u8],
    cell: F,
}

// Registers with FIXBIAS alone.
fn biased(fixbias: u8) -> Registers {
    Registers {
        fixbias,
        ..Registers::default()
    }
}

// A block with the palette's first eight alone.
fn block_with(col: [u8; 8]) -> Block {
    Block {
        col,
        ..Block::default()
    }
}

// A block of this colour mode, with two alternate bits each of LM and RM. By the mode's number, which the lines name.
fn block_in(colours: u8, bits: u8) -> Block
    requires colours_bound { colours < 4 }
    requires bits_bound { bits < 16 }
{
    Block {
        mb: 32 * colours,
        lm: 64 * (bits / 4),
        rm: 64 * (bits % 4),
        ..Block::default()
    }
}

// Takes in the palette number of a dot; 255 and the colour where it has none.
fn digest_dot(digest: &mut Digest, pixel: Pixel) {
    match pixel {
        Pixel::Palette(n) => digest.byte(n),
        Pixel::Direct(colour) => digest.bytes(&[255, colour]),
    }
}

// Takes in the dots of an eighth of the byte, which are alike.
fn digest_eighth(digest: &mut Digest, dots: u8, cell: Cell, at: u8)
    requires { at < 8 }
{
    let pixel = colour::pixel_at(cell, at);
    for _ in 0..dots {
        digest_dot(digest, pixel);
    }
}

// Takes in the dots of a byte.
fn digest_cell(digest: &mut Digest, dots: u8, cell: Cell) {
    for at in 0..8 {
        digest_eighth(digest, dots, cell, at);
    }
}

// Takes in every display byte beside one attribute or code.
fn digest_bytes<F: Fn(Block, u8, u8) -> Cell>(
    digest: &mut Digest,
    mode: &Mode<'_, F>,
    block: Block,
    first: u8,
)
    requires { F.IsAlwaysCallable mode.now.cell }
{
    for byte in 0..=255 {
        digest_cell(digest, mode.dots, (mode.cell)(block, first, byte));
    }
}

// Takes in every display byte of a block, beside each attribute or code.
fn digest_block<F: Fn(Block, u8, u8) -> Cell>(digest: &mut Digest, mode: &Mode<'_, F>, block: Block)
    requires { F.IsAlwaysCallable mode.now.cell }
{
    for first in mode.firsts {
        digest_bytes(digest, mode, block, *first);
    }
}

// The digest of every setting of the alternate bits.
fn mode_digest<F: Fn(Block, u8, u8) -> Cell>(mode: &Mode<'_, F>, colours: u8) -> Digest
    requires colours_bound { colours < 4 }
    requires callable { F.IsAlwaysCallable mode.now.cell }
{
    let mut digest = Digest::new();
    for bits in 0..16 {
        digest_block(&mut digest, mode, block_in(colours, bits));
    }
    digest
}

// The digest of the palette at every FIXBIAS, over both sets of columns.
fn palettes_digest() -> Digest {
    let mut digest = Digest::new();
    for fixbias in BIASES {
        let registers = biased(fixbias);
        digest.bytes(&colour::palette(registers, block_with(STEPPED)));
        digest.bytes(&colour::palette(registers, block_with(FALLING)));
    }
    digest
}

// Takes in every external byte over one pixel.
fn digest_mixed(digest: &mut Digest, registers: Registers, pixel: Pixel)
    requires { palette_number pixel < 16 }
{
    let block = block_with(STEPPED);
    for external in 0..=255 {
        digest.byte(colour::mixed_colour(registers, block, pixel, external));
    }
}

// The digest of every external byte over the sixteen palette numbers, then over a 256-colour dot.
fn external_digest(priority: u8) -> Digest
    requires { priority < 4 }
{
    let registers = biased(32 * priority + 21);
    let mut digest = Digest::new();
    for n in 0..16 {
        digest_mixed(&mut digest, registers, Pixel::Palette(n));
    }
    digest_mixed(&mut digest, registers, Pixel::Direct(200));
    digest
}

// The digest of the levels of every colour byte.
fn levels_digest() -> Digest {
    let mut digest = Digest::new();
    for colour in 0..=255 {
        let levels = nick::levels_of(colour);
        digest.bytes(&[levels.red, levels.green, levels.blue]);
    }
    digest
}

// Prints the lines of a video mode, one for each colour mode.
fn print_mode<F: Fn(Block, u8, u8) -> Cell>(
    rt: &impl Print,
    name: &str,
    dots: u8,
    firsts: &[u8],
    cell: F,
) -> io::Result<()>
    requires { F.IsAlwaysCallable cell }
{
    let mode = Mode { dots, firsts, cell };
    for colours in 0..4 {
        let digest = mode_digest(&mode, colours);
        println!(rt; "colours {name} {colours} {digest}")?;
    }
    Ok(())
}

// Prints the lines of external colour, one for each priority.
fn print_external(rt: &impl Print) -> io::Result<()> {
    for priority in 0..4 {
        let digest = external_digest(priority);
        println!(rt; "colours external {priority} {digest}")?;
    }
    Ok(())
}

fn main(rt: HostRuntime) -> io::Result<()> {
    let rt = &rt;
    let graphics = |block, _, byte| colour::graphics_cell(block, byte);
    let attributes = |_, first, byte| colour::attribute_cell(first, byte);
    print_mode(rt, "PIXEL", 1, &[0], graphics)?;
    print_mode(rt, "LPIXEL", 2, &[0], graphics)?;
    print_mode(rt, "ATTR", 2, &FIRST_BYTES, attributes)?;
    for name in ["CH256", "CH128", "CH64"] {
        print_mode(rt, name, 2, &FIRST_BYTES, colour::character_cell)?;
    }
    let palettes = palettes_digest();
    println!(rt; "colours palette {palettes}")?;
    print_external(rt)?;
    let levels = levels_digest();
    println!(rt; "colours levels {levels}")
}
