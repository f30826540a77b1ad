// The walk from line parameter block to line parameter block, and the pointers at a slot, with no scanline or slot stepped
// singly.
#![tactic(auto)]

ghost use Rattle.std.specs.Prelude.{◌≡◌, ◌<◌, ◌≤◌, min, if◌then◌else◌};
ghost use Rattle.nick.specs.Blocks.{vres};
ghost use Rattle.nick.specs.Scanline.{pointers_after};
ghost use Rattle.blocks.specs.Modes.{mode_named};
ghost use Rattle.walk.specs.Steps.{StepsOf, skipped};
ghost use Rattle.nick.specs.Refusals.{Formed};
ghost use Rattle.walk.specs.Walks.{Reached, Turns};

use blocks::{VideoMode, active_before, has_vres, video_mode};
use nick::{Block, Pointers, Ram, Registers, Scan};

// By how much LD1 and LD2 go up at an active slot, and LD2 at a scanline's end.
#[derive(Clone, Copy, PartialEq, Eq)]
struct Steps {
    pub ld1: u16,
    pub ld2: u16,
    pub line: u16,
}

// One turn of the walk: how many scanlines it went on, and the scan after them.
#[derive(Clone, Copy, PartialEq, Eq)]
struct Turned {
    lines: usize,
    scan: Scan,
}

// The steps of a video mode. fetch and scanline move the pointers as they read; here nothing is read.
fn steps_of(mode: VideoMode) -> Steps
    ensures { StepsOf (mode_named mode) result }
{
    let (ld1, ld2, line) = match mode {
        VideoMode::Pixel => (2, 0, 0),
        VideoMode::Attr => (1, 1, 0),
        VideoMode::Character(_) => (1, 0, 1),
        VideoMode::Lpixel => (1, 0, 0),
        VideoMode::Vsync | VideoMode::Unused => (0, 0, 0),
    };
    Steps { ld1, ld2, line }
}

// The pointers at dot slot `slot`, where `at` are those at the first.
#[tactic(auto, using(crate::proofs::Rises::pointers_after_lem), unfolding(crate::specs::Steps::advanced))]
pub fn pointers_at(block: Block, at: Pointers, slot: u8) -> Pointers
    ensures { result ≡ pointers_after block slot at }
{
    let steps = steps_of(video_mode(block));
    let active = active_before(block, slot);
    at.up(steps.ld1 * active, steps.ld2 * active)
}

// Over how many of `lines` scanlines of a mode line LD1 goes on: over all with VRES, else over the last alone.
fn lines_of_ld1(block: Block, lines: u16) -> u16
    requires { lines ≤ 256 }
    ensures { (result ≡ (if vres block then lines else 1)) × (result ≤ 256) }
{
    if has_vres(block) { lines } else { 1 }
}

// The scan after `lines` scanlines of a mode line, from the scan as the first of them begins.
#[tactic(auto, unfolding(crate::specs::Steps::skipped, crate::specs::Steps::advanced))]
fn skip(scan: Scan, lines: u16) -> Scan
    requires { (lines ≤ 256) × (lines ≤ scan.left) }
    ensures { result ≡ skipped scan lines }
{
    let block = scan.block;
    let steps = steps_of(video_mode(block));
    let active = active_before(block, 46);
    let ld1 = lines_of_ld1(block, lines) * (steps.ld1 * active);
    let ld2 = lines * (steps.ld2 * active + steps.line);
    Scan {
        at: scan.at.up(ld1, ld2),
        left: scan.left - lines,
        ..scan
    }
}

// How many of the next `lines` scanlines belong to the mode line that has begun, or one where a reload is pending.
fn lines_inside(scan: Scan, lines: usize) -> u16
    ensures { result ≡ (if scan.pending then 1 else min scan.left lines) }
{
    if scan.pending {
        return 1;
    }
    usize::from(scan.left).min(lines) as u16
}

// One turn: the scanlines up to the next load, at most `lines` of them. Well-formed by a clause: docs/DECISIONS.md 66.
#[tactic(auto, using(crate::proofs::Walking::begun_left, crate::proofs::Walking::lines_together, crate::proofs::Walking::scan_together, crate::proofs::Walking::formed_together))]
fn turn(registers: Registers, ram: &Ram, scan: Scan, lines: usize) -> Turned
    requires { Formed scan × (1 ≤ lines) }
    ensures { Turns registers ram.now scan lines result }
{
    let begun = blocks::begin(registers, ram, scan);
    let n = lines_inside(begun, lines);
    Turned {
        lines: usize::from(n),
        scan: skip(begun, n),
    }
}

// The scan after `lines` scanlines, from block to block.
#[tactic(auto, using(laws::proofs::StatesAfter::scan_add))]
pub fn walk(registers: Registers, ram: &Ram, scan: Scan, lines: usize) -> Scan
    requires { Formed scan }
    ensures { Reached registers ram.now scan lines result }
{
    let mut at = scan;
    let mut done = 0;
    // turns differ in length, so no range counts them
    while done < lines {
        let turned = turn(registers, ram, at, lines - done);
        at = turned.scan;
        done += turned.lines;
    }
    at
}
