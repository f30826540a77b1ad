// The chip's calls over a state's bytes. Bytes of another length are refusal 20, before all else.
ghost use Rattle.std.specs.Prelude.{◌≡◌, ◌<◌, ◌^◌};
ghost use Rattle.nick.specs.Refusals.{refusal_in};
ghost use Rattle.nick.specs.Direct.{answered};
ghost use Rattle.nick.specs.Listing.{list_answered};
ghost use Rattle.packing.specs.Packed.{packed_answer, packed_listed, length_of};
ghost use Rattle.nick_c.specs.Calls.{Freshens, Writes, PaintsBytes, ListsBytes, packed_dot};

use encoding::{decode_state, state_bytes};
use nick::{Answer, Refusal};

// The state before any write.
pub fn fresh(state: &mut [u8]) -> Result<(), Refusal>
    ensures { Freshens state.old state.new (refusal_in result) }
{
    let bytes = state.as_mut_array().ok_or(Refusal::EncodedLength)?;
    *bytes = state_bytes(nick::fresh());
    Ok(())
}

// Writes one register. Each call that keeps a state decodes and encodes it itself: a bound on a closure over the state would be longer.
pub fn write(state: &mut [u8], port: u32, value: u8) -> Result<(), Refusal>
    ensures { Writes state.old port value state.new (refusal_in result) }
{
    let bytes = state.as_mut_array().ok_or(Refusal::EncodedLength)?;
    let mut next = decode_state(bytes);
    nick::write(&mut next, port, value)?;
    *bytes = state_bytes(next);
    Ok(())
}

// Paints `height` scanlines, or refuses: then the state and the dots stay, and every record byte is 255.
#[tactic(auto, unfolding(crate::specs::Calls::paint_bytes))]
pub fn paint(
    state: &mut [u8],
    ram: &[u8],
    height: usize,
    dots: &mut [u8],
    records: &mut [u8],
    external: &[u8],
) -> Result<(), Refusal>
    ensures { PaintsBytes state.old ram.now height dots.old records.old external.now state.new dots.new records.new (refusal_in result) }
{
    let Some(bytes) = state.as_mut_array() else {
        refusals::stamp(records);
        return Err(Refusal::EncodedLength);
    };
    let mut next = decode_state(bytes);
    painting::paint_lines(&mut next, ram, height, dots, records, external)?;
    *bytes = state_bytes(next);
    Ok(())
}

// The direct answer for a dot of scanline `line` from here.
#[tactic(auto, unfolding(crate::specs::Calls::packed_dot))]
pub fn dot(
    state: &[u8],
    ram: &[u8],
    line: usize,
    dot: usize,
    external: u8,
) -> Result<Answer, Refusal>
    ensures { packed_answer (answered result) ≡ packed_dot state.now ram.now line dot external }
{
    let bytes = state.as_array().ok_or(Refusal::EncodedLength)?;
    direct::dot(decode_state(bytes), ram, line, dot, external)
}

// Writes the listing of the line parameter table that starts at the base block.
#[tactic(auto, using(listing::proofs::Length::listing_bound), unfolding(nick::specs::Listing::list_answer))]
pub fn list(state: &[u8], ram: &[u8], out: &mut [u8]) -> Result<usize, Refusal>
    ensures lists { ListsBytes state.now ram.now out.old out.new (packed_listed (list_answered result)) }
    ensures fits { length_of (list_answered result) < 2 ^ 32 }
{
    let bytes = state.as_array().ok_or(Refusal::EncodedLength)?;
    listing::list(decode_state(bytes).registers, ram, out)
}
