// The direct answer: one dot's colour and the addresses that it comes from, without painting.
#![tactic(auto)]

ghost use Rattle.std.specs.Prelude.{◌≡◌, ◌/◌, ◌%◌, ◌<◌, Ok, IfOk, map};
ghost use Rattle.nick.specs.Blocks.{begun};
ghost use Rattle.nick.specs.Scanline.{scan_after};
ghost use Rattle.nick.specs.Direct.{addresses_of, answered, direct};
ghost use Rattle.nick.specs.Refusals.{Formed, refusal_in, bad_place, direct_refusal};
ghost use Rattle.nick.specs.Numbers.{byte_at};
ghost use Rattle.nick.specs.Slots.{mode_of};
ghost use Rattle.direct.specs.DotFromBytes.{cell_from, eighth_of, byte_colour, sourced_colour, dot_answer};

use blocks::{VideoMode, video_mode};
use colour::Cell;
use fetch::SlotDot;
use nick::{Answer, Block, Ram, Refusal, Registers, Scan, Sources, State};

// The display byte of a dot made ready, from the bytes that the dot comes from; `second` counts in ATTR and the character modes. fetch
// makes the same cells as it reads: with one function for both painting was slower (docs/DECISIONS.md 16).
fn cell_from(block: Block, first: u8, second: u8) -> Cell
    ensures { result ≡ cell_from (mode_of block) block first second }
{
    match video_mode(block) {
        VideoMode::Attr => colour::attribute_cell(first, second),
        VideoMode::Character(_) => colour::character_cell(block, first, second),
        _ => colour::graphics_cell(block, first),
    }
}

// Which eighth of its display byte a dot shows: in PIXEL a byte has eight dots, else sixteen.
fn eighth_of(block: Block, dot: SlotDot) -> u8
    ensures { (result ≡ eighth_of (mode_of block) dot.place) × (result < 8) }
{
    match video_mode(block) {
        VideoMode::Pixel => dot.place % 8,
        _ => dot.place / 2,
    }
}

// The colour of a dot, from the bytes that it comes from.
#[tactic(auto, using(colour::proofs::Cells::cell_below), unfolding(crate::specs::DotFromBytes::byte_colour))]
fn byte_colour(
    registers: Registers,
    block: Block,
    first: u8,
    second: u8,
    dot: SlotDot,
    external: u8,
) -> u8
    ensures { result ≡ byte_colour registers block first second dot.place external }
{
    let cell = cell_from(block, first, second);
    let pixel = colour::pixel_at(cell, eighth_of(block, dot));
    colour::mixed_colour(registers, block, pixel, external)
}

// The colour of a dot that comes from these addresses.
fn sourced_colour(
    registers: Registers,
    ram: &Ram,
    block: Block,
    sources: Sources,
    dot: SlotDot,
    external: u8,
) -> u8
    ensures { result ≡ sourced_colour registers block (map (byte_at ram.now) (addresses_of sources)) dot.place external }
{
    match sources {
        Sources::Nothing => fetch::unfetched(registers, block),
        Sources::One(a) => byte_colour(registers, block, ram[a as usize], 0, dot, external),
        Sources::Two(a, b) => {
            byte_colour(
                registers,
                block,
                ram[a as usize],
                ram[b as usize],
                dot,
                external,
            )
        }
    }
}

// Dot `dot` of a scanline that has begun as `scan` says: its addresses, and the colour of the bytes there.
#[tactic(auto, using(crate::proofs::DotFromBytes::slot_answer))]
fn begun_dot(registers: Registers, ram: &Ram, scan: Scan, dot: usize, external: u8) -> Answer
    requires { dot < 736 }
    ensures { answered (Ok result) ≡ dot_answer registers ram.now scan dot external }
{
    let block = scan.block;
    let dot = SlotDot {
        slot: (dot / 16) as u8,
        place: (dot % 16) as u8,
    };
    let at = walk::pointers_at(block, scan.at, dot.slot);
    let sources = fetch::sources_at(ram, block, at, dot);
    let colour = sourced_colour(registers, ram, block, sources, dot, external);
    Answer { colour, sources }
}

// The scan as scanline `line` from here begins.
fn begin_line(registers: Registers, ram: &Ram, scan: Scan, line: usize) -> Scan
    requires { Formed scan }
    ensures { result ≡ begun registers ram.now (scan_after registers ram.now line scan) }
{
    let reached = walk::walk(registers, ram, scan, line);
    blocks::begin(registers, ram, reached)
}

// 9: a line that is not one of the next 1,024, or a dot that no line has.
fn is_bad_place(line: usize, dot: usize) -> bool
    ensures { result ≡ bad_place line dot }
{
    1023 < line || 735 < dot
}

// The whole RAM, or the refusal of a direct answer: the tests in the order of their numbers.
#[tactic(auto, unfolding(nick::specs::Refusals::direct_refusal))]
fn accepted(state: State, ram: &[u8], line: usize, dot: usize) -> Result<&Ram, Refusal>
    ensures refusal { refusal_in result ≡ direct_refusal state ram.now line dot }
    ensures same { IfOk result (λ whole. whole.now ≡ ram.now) }
{
    if refusals::is_ill_formed(state.scan) {
        return Err(Refusal::IllFormedState);
    }
    let whole = refusals::whole(ram)?;
    if is_bad_place(line, dot) {
        return Err(Refusal::Place);
    }
    Ok(whole)
}

// The direct answer for a dot of scanline `line` from here, `external` being its external byte, 0 if nothing is connected.
#[tactic(auto, using(nick::proofs::Refusals::answerable, crate::proofs::DotFromBytes::direct_refused, crate::proofs::DotFromBytes::direct_answered))]
pub fn dot(
    state: State,
    ram: &[u8],
    line: usize,
    dot: usize,
    external: u8,
) -> Result<Answer, Refusal>
    ensures { answered result ≡ direct state ram.now line dot external }
{
    let ram = accepted(state, ram, line, dot)?;
    let begun = begin_line(state.registers, ram, state.scan, line);
    Ok(begun_dot(state.registers, ram, begun, dot, external))
}
