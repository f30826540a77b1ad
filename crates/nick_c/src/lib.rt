// The library for C, Rust and Python: the chip's state is 32 bytes, and every call is an exported function that answers a
// number. include/nick.h declares them. A state of another length than 32, or an answer of a comparison of another length than
// 14, is refusal 20, before all else.
#![tactic(auto)]

mod calls;
mod ran;

ghost use Rattle.std.specs.Prelude.{◌≡◌};
ghost use Rattle.nick.specs.Levels.{levels_of};
ghost use Rattle.nick.specs.Refusals.{refusal_in};
ghost use Rattle.packing.specs.Packed.{packed_levels};
ghost use Rattle.nick_c.specs.Calls.{Freshens, Writes, PaintsBytes, ListsBytes, ComparesBytes, RunsBytes, packed_dot, run_from};

use comparison::Side;
use encoding::decode_state;
use nick::Refusal;
use packing::{
    found_bytes, packed_answer, packed_levels, packed_listed, packed_ran, packed_refusal,
};
use ran::{keep_ran, put_place};

// How many bytes the answer of a comparison has.
const COMPARISON_BYTES: usize = 14;

// The number that a call answers: a refusal's, 0 for none, as include/nick.h says.
fn number(outcome: Result<(), Refusal>) -> u32
    ensures { result ≡ refusal_in outcome }
{
    match outcome {
        Ok(()) => 0,
        Err(refusal) => u32::from(u8::from(refusal)),
    }
}

// The state before any write.
#[unsafe(no_mangle)]
pub extern "C" fn nick_fresh(state: &mut [u8]) -> u32
    ensures { Freshens state.old state.new result }
{
    number(calls::fresh(state))
}

// Writes one register.
#[unsafe(no_mangle)]
pub extern "C" fn nick_write(state: &mut [u8], port: u32, value: u8) -> u32
    ensures { Writes state.old port value state.new result }
{
    number(calls::write(state, port, value))
}

// Paints `height` scanlines, or refuses: then the state and the dots stay, and every record byte is 255.
#[unsafe(no_mangle)]
pub extern "C" fn nick_paint(
    state: &mut [u8],
    ram: &[u8],
    height: usize,
    dots: &mut [u8],
    records: &mut [u8],
    external: &[u8],
) -> u32
    ensures { PaintsBytes state.old ram.now height dots.old records.old external.now state.new dots.new records.new result }
{
    number(calls::paint(state, ram, height, dots, records, external))
}

// Paints one scanline, or refuses.
#[unsafe(no_mangle)]
pub extern "C" fn nick_paint_line(
    state: &mut [u8],
    ram: &[u8],
    dots: &mut [u8],
    records: &mut [u8],
    external: &[u8],
) -> u32
    ensures { PaintsBytes state.old ram.now 1 dots.old records.old external.now state.new dots.new records.new result }
{
    nick_paint(state, ram, 1, dots, records, external)
}

// The direct answer for a dot of scanline `line` from here, `external` being its external byte, 0 if nothing is connected.
#[unsafe(no_mangle)]
pub extern "C" fn nick_dot(state: &[u8], ram: &[u8], line: usize, dot: usize, external: u8) -> u64
    ensures { result ≡ packed_dot state.now ram.now line dot external }
{
    packed_answer(calls::dot(state, ram, line, dot, external))
}

// Writes the listing of the line parameter table that starts at the base block.
#[unsafe(no_mangle)]
pub extern "C" fn nick_list(state: &[u8], ram: &[u8], out: &mut [u8]) -> u64
    ensures { ListsBytes state.now ram.now out.old out.new result }
{
    packed_listed(calls::list(state, ram, out))
}

// The levels of a colour byte: red + 256 * green + 65,536 * blue.
#[unsafe(no_mangle)]
pub extern "C" fn nick_levels(colour: u8) -> u32
    ensures { result ≡ packed_levels (levels_of colour) }
{
    packed_levels(nick::levels_of(colour))
}

// Compares a capture with a frame of the same height.
#[unsafe(no_mangle)]
pub extern "C" fn nick_compare(
    height: usize,
    capture: &[u8],
    capture_records: &[u8],
    frame: &[u8],
    frame_records: &[u8],
    answer: &mut [u8],
) -> u32
    ensures { ComparesBytes height capture.now capture_records.now frame.now frame_records.now answer.old answer.new result }
{
    let Some(answer) = answer.as_mut_array::<COMPARISON_BYTES>() else {
        return number(Err(Refusal::EncodedLength));
    };
    let capture = Side {
        dots: capture,
        records: capture_records,
    };
    let frame = Side {
        dots: frame,
        records: frame_records,
    };
    match comparison::compare(height, capture, frame) {
        Ok(found) => {
            *answer = found_bytes(found);
            0
        }
        Err(refused) => packed_refusal(refused),
    }
}

// Runs a script, up to the first refused step. What was done before that step stands.
#[tactic(auto, unfolding(crate::specs::Calls::run_from, script::specs::Runs::refused_run))]
#[unsafe(no_mangle)]
pub extern "C" fn nick_run(
    state: &mut [u8],
    ram: &[u8],
    script: &[u8],
    dots: &mut [u8],
    records: &mut [u8],
    external: &[u8],
    place: &mut u64,
) -> u32
    ensures { RunsBytes (run_from state.old ram.now script.now dots.old records.old external.now) state.old place.old state.new dots.new records.new place.new result }
{
    let Some(bytes) = state.as_mut_array() else {
        refusals::stamp(records);
        return number(Err(Refusal::EncodedLength));
    };
    let ran = script::run(decode_state(bytes), ram, script, dots, records, external);
    keep_ran(ran.outcome, ran.bench.state, bytes);
    put_place(ran.outcome, place);
    packed_ran(ran)
}
