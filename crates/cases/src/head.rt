// The head of a case: what is drawn first, and the state made from it.
ghost use Rattle.std.specs.Prelude.{◌<◌, ◌≤◌};

use crate::source::Source;
use nick::{Pointers, Registers, Scan, State};

// The head: F, G and K, the state, the drawn height, and T0 to T9. The bytes are drawn, and second/README.md says of each what its bits
// and remainders decide, in each family its own.
#[derive(Clone, Copy, PartialEq, Eq)]
pub struct Head {
    pub f: u8,
    pub g: u8,
    pub k: u8,
    pub state: State,
    pub height: usize,
    pub t: [u8; 10],
    ghost number_below: { state.scan.number < 4096 },
    ghost height_most: { height ≤ 1024 },
}

// A case whose head is drawn.
#[derive(Clone, Copy, PartialEq, Eq)]
pub struct Case {
    pub source: Source,
    pub head: Head,
}

// LPH: with bit 4 of K its two high bits are set, with bit 6 its four low bits.
fn lph_of(lph: u8, k: u8) -> u8 {
    let set = if k / 16 % 2 == 1 { lph % 64 + 192 } else { lph };
    if k / 64 % 2 == 1 {
        set / 16 * 16 + 15
    } else {
        set
    }
}

// LPL: with bit 6 of K its four high bits are set.
fn lpl_of(lpl: u8, k: u8) -> u8 {
    if k / 64 % 2 == 1 { 240 + lpl % 16 } else { lpl }
}

// The block number: with bit 6 of K one of the last sixteen.
fn number_of(number: u16, k: u8) -> u16
    ensures { result < 4096 }
{
    if k / 64 % 2 == 1 {
        4080 + number % 16
    } else {
        number % 4096
    }
}

// The scanlines left: with bit 3 of K up to 3.
fn left_of(left: u16, k: u8) -> u16 {
    if k / 8 % 2 == 1 { left % 4 } else { left % 257 }
}

// The drawn height, by H0 to H2.
fn height_of(h0: u8, h1: u8, h2: u8) -> usize
    ensures { result ≤ 1024 }
{
    match h0 {
        0..=3 => 1024,
        4..=19 => 1 + usize::from(u16::from_le_bytes([h1, h2])) % 1024,
        20..=83 => 1 + usize::from(h1) % 64,
        _ => 1 + usize::from(h1) % 8,
    }
}

// Draws the place in the line parameter table.
fn draw_scan(source: &mut Source, k: u8) -> Scan
    ensures { result.number < 4096 }
{
    let number = number_of(source.word(), k);
    let ld1 = source.word();
    let ld2 = source.word();
    let left = left_of(source.word(), k);
    let block: [u8; 16] = source.bytes();
    Scan {
        pending: k % 2 == 1,
        block: blocks::decode(&block),
        number,
        at: Pointers { ld1, ld2 },
        left,
    }
}

// Draws a head, before any fault: its parts in the order of the draws.
fn draw_head(source: &mut Source) -> Head {
    let [f, g, fixbias, border, lpl, lph, k]: [u8; 7] = source.bytes();
    let scan = draw_scan(source, k);
    let [h0, h1, h2]: [u8; 3] = source.bytes();
    let t = source.bytes();
    let registers = Registers {
        fixbias,
        border,
        lpl: lpl_of(lpl, k),
        lph: lph_of(lph, k),
    };
    let state = State {
        registers,
        scan,
        virq: k / 2 % 2 == 1,
        sync: k / 4 % 2 == 1,
    };
    Head {
        f,
        g,
        k,
        state,
        height: height_of(h0, h1, h2),
        t,
    }
}

impl Case {
    // A case of a family, with its head drawn.
    pub(crate) fn begin(family: u8, case: u32) -> Self {
        let mut source = Source::seeded(family, case);
        let head = draw_head(&mut source);
        Case { source, head }
    }
}
