// Painting scanlines: one, and 1 to 1,024 in order, with every refusal of the table. The refusals come first, then the
// scanlines one after another.
#![tactic(auto)]

mod lines;

ghost use Rattle.nick.specs.Refusals.{Formed, Accepted};
ghost use Rattle.painting.specs.PaintedFrame.{HasRoom, NextLine, Frame, Paints};

pub use lines::lines_refusal;
use nick::{RECORD_BYTES, Ram, Refusal, State};
use refusals::{is_bad_height, stamp};
use scanline::paint_scanline;

// Paints line `y` of a frame into its parts of the buffers, with its own part of the external input; it is never refused. The part of
// the dots is lent by index, a form that docs/DECISIONS.md 20 names; 66 and 67 say why the scan is well-formed by a clause, and why
// dots, records and external input come one by one.
#[tactic(auto, using(nick::proofs::WellFormed::next_state_formed, crate::proofs::OwnLine::own_line, crate::proofs::OwnLine::dots_put, crate::proofs::OwnLine::record_put))]
pub fn next_line(
    state: State,
    ram: &Ram,
    y: usize,
    dots: &mut [u8],
    records: &mut [u8],
    external: &[u8],
) -> State
    requires room { HasRoom y dots.old records.old }
    requires formed { Formed state.scan }
    ensures { NextLine state ram.now y external.now dots.old dots.new records.old records.new result }
{
    let a = 736 * y;
    let e = a + 736;
    let b = RECORD_BYTES * y;
    let f = b + RECORD_BYTES;
    let from = a.min(external.len());
    let to = e.min(external.len());
    paint_scanline(
        state,
        ram,
        &mut dots[a..e],
        &mut records[b..f],
        &external[from..to],
    )
}

// Paints the lines of a frame that is not refused, by number, since `next_line` lends each its parts.
#[tactic(auto, using(crate::proofs::FrameLines::dots_more, crate::proofs::FrameLines::records_more, crate::proofs::FrameLines::state_more))]
fn paint_accepted(
    state: State,
    ram: &Ram,
    height: usize,
    dots: &mut [u8],
    records: &mut [u8],
    external: &[u8],
) -> State
    requires { Accepted state ram.now height dots.old records.old }
    ensures { Frame state ram.now height external.now dots.new records.new result }
{
    let mut next = state;
    for y in 0..height {
        next = next_line(next, ram, y, dots, records, external);
    }
    next
}

// Paints `height` scanlines, or refuses: then the state and the dots stay, and every record byte is 255. A match, since the records are
// stamped before the refusal is handed on.
#[tactic(auto, using(crate::proofs::FrameLines::refused_paint, crate::proofs::FrameLines::accepted_paint, crate::proofs::FrameLines::accepted_fits), unfolding(nick::specs::Painting::painted, nick::specs::Painting::refused_painting))]
pub fn paint_lines(
    state: &mut State,
    ram: &[u8],
    height: usize,
    dots: &mut [u8],
    records: &mut [u8],
    external: &[u8],
) -> Result<(), Refusal>
    ensures { Paints state.old ram.now height dots.old records.old external.now dots.new records.new state.new result }
{
    let bad_height = is_bad_height(height);
    match lines_refusal(bad_height, *state, ram, height, dots, records, external) {
        Ok(ram) => {
            *state = paint_accepted(*state, ram, height, dots, records, external);
            Ok(())
        }
        Err(refusal) => {
            stamp(records);
            Err(refusal)
        }
    }
}

// Paints one scanline, or refuses: a call of its own in the description, and a frame of height 1.
pub fn paint_line(
    state: &mut State,
    ram: &[u8],
    dots: &mut [u8],
    records: &mut [u8],
    external: &[u8],
) -> Result<(), Refusal>
    ensures { Paints state.old ram.now 1 dots.old records.old external.now dots.new records.new state.new result }
{
    paint_lines(state, ram, 1, dots, records, external)
}
