// Answers as numbers, for the exported calls: the direct answer and the listing's in 64 bits, levels in 32, a comparison's and a
// run's.
#![tactic(auto)]

mod compared;
mod runs;

ghost use Rattle.std.specs.Prelude.{◌≡◌, ◌<◌, ◌^◌};
ghost use Rattle.nick.specs.Direct.{addresses_of, answered};
ghost use Rattle.nick.specs.Listing.{list_answered};
ghost use Rattle.packing.specs.Packed.{packed_addresses, packed_answer, packed_listed, packed_levels, length_of};

pub use compared::{found_bytes, packed_refusal, side_number};
use nick::{Answer, Levels, Refusal, Sources};
pub use runs::{packed_ran, run_refusal};

// Bits 16 to 23 how many addresses, 24 to 39 and 40 to 55 the addresses in order.
fn packed_sources(sources: Sources) -> u64
    ensures { (result ≡ packed_addresses (addresses_of sources)) × (result < 2 ^ 56) }
{
    match sources {
        Sources::Nothing => 0,
        Sources::One(a) => (1 << 16) + (u64::from(a) << 24),
        Sources::Two(a, b) => (2 << 16) + (u64::from(a) << 24) + (u64::from(b) << 40),
    }
}

// Bits 0 to 7 the refusal, 8 to 15 the colour, then where it came from.
pub fn packed_answer(answer: Result<Answer, Refusal>) -> u64
    ensures { result ≡ packed_answer (answered answer) }
{
    match answer {
        Ok(answer) => (u64::from(answer.colour) << 8) + packed_sources(answer.sources),
        Err(refusal) => u64::from(u8::from(refusal)),
    }
}

// Bits 0 to 31 the refusal, 32 to 63 the length.
pub fn packed_listed(listed: Result<usize, Refusal>) -> u64
    requires { length_of (list_answered listed) < 2 ^ 32 }
    ensures { result ≡ packed_listed (list_answered listed) }
{
    match listed {
        Ok(length) => (length as u64) << 32,
        Err(refusal) => u64::from(u8::from(refusal)),
    }
}

// Bits 0 to 7 red, 8 to 15 green, 16 to 23 blue.
pub fn packed_levels(levels: Levels) -> u32
    ensures { result ≡ packed_levels levels }
{
    u32::from_le_bytes([levels.red, levels.green, levels.blue, 0])
}
