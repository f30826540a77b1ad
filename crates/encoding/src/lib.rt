// The state as 32 bytes: specs/Encoding.antt has the places.
#![tactic(auto)]

ghost use Rattle.std.specs.Prelude.{◌≡◌, ◌/◌, ◌%◌};
ghost use Rattle.encoding.specs.Encoding.{encoded, flags_of, scan_of, state_of};

use nick::{Pointers, Registers, Scan, State};

// How many bytes a state has.
pub const STATE_BYTES: usize = 32;

// Where the chip stands in the table, from a state's bytes.
#[tactic(auto, using(lists::proofs::Laws::chunk_at), unfolding(crate::specs::Encoding::scan_of))]
fn decode_scan(bytes: &[u8; STATE_BYTES]) -> Scan
    ensures { result ≡ scan_of bytes.now }
{
    let (halves, _) = bytes.as_chunks();
    Scan {
        pending: bytes[4] % 2 == 1,
        block: blocks::decode(&halves[1]),
        number: u16::from_le_bytes([bytes[6], bytes[7]]),
        at: Pointers {
            ld1: u16::from_le_bytes([bytes[8], bytes[9]]),
            ld2: u16::from_le_bytes([bytes[10], bytes[11]]),
        },
        left: u16::from_le_bytes([bytes[12], bytes[13]]),
    }
}

// The state that 32 bytes hold. Here and below functions and no `From`: both types are of other crates.
#[tactic(auto, unfolding(crate::specs::Encoding::state_of))]
pub fn decode_state(bytes: &[u8; STATE_BYTES]) -> State
    ensures { result ≡ state_of bytes.now }
{
    State {
        registers: Registers {
            fixbias: bytes[0],
            border: bytes[1],
            lpl: bytes[2],
            lph: bytes[3],
        },
        scan: decode_scan(bytes),
        virq: bytes[4] / 2 % 2 == 1,
        sync: bytes[4] / 4 % 2 == 1,
    }
}

// Bit 0 reload pending, bit 1 VIRQ low, bit 2 sync on.
#[tactic(auto, unfolding(crate::specs::Encoding::flags_of))]
fn flags(state: State) -> u8
    ensures { result ≡ flags_of state }
{
    u8::from(state.scan.pending) + 2 * u8::from(state.virq) + 4 * u8::from(state.sync)
}

// The low byte of a pair. With `to_le_bytes` six times in `state_bytes` the check does not find that these are the state's bytes.
fn low(pair: u16) -> u8
    ensures { result ≡ pair % 256 }
{
    let [low, _] = pair.to_le_bytes();
    low
}

// The high byte of a pair.
fn high(pair: u16) -> u8
    ensures { result ≡ pair / 256 }
{
    let [_, high] = pair.to_le_bytes();
    high
}

// The bytes of a state, each by itself: std has nothing that joins arrays into one.
#[tactic(auto, unfolding(crate::specs::Encoding::encoded))]
pub fn state_bytes(state: State) -> [u8; STATE_BYTES]
    ensures { result ≡ encoded state }
{
    let State {
        registers,
        scan,
        ..
    } = state;
    let block = scan.block;
    [
        registers.fixbias,
        registers.border,
        registers.lpl,
        registers.lph,
        flags(state),
        0,
        low(scan.number),
        high(scan.number),
        low(scan.at.ld1),
        high(scan.at.ld1),
        low(scan.at.ld2),
        high(scan.at.ld2),
        low(scan.left),
        high(scan.left),
        0,
        0,
        block.sc,
        block.mb,
        block.lm,
        block.rm,
        low(block.start.ld1),
        high(block.start.ld1),
        low(block.start.ld2),
        high(block.start.ld2),
        block.col[0],
        block.col[1],
        block.col[2],
        block.col[3],
        block.col[4],
        block.col[5],
        block.col[6],
        block.col[7],
    ]
}
