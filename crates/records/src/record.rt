// The line record: its bytes, and those for flags, active slots and VC1.
ghost use Rattle.std.specs.Prelude.{◌≡◌, ◌&&◌, not};
ghost use Rattle.nick.specs.Record.{flags, fetching_slots, vc1};
ghost use Rattle.records.specs.RecordBytes.{bytes_of};

use blocks::{VideoMode, active_before, has_vint, video_mode};
use nick::{Block, RECORD_BYTES, Registers};

// The record of a scanline; `number` is that of the block in force.
#[derive(Clone, Copy, PartialEq, Eq)]
pub struct Record {
    pub flags: u8,
    pub sync: u8,
    pub fetched: u8,
    pub slots: u8,
    pub vc1: u8,
    pub number: u16,
}

impl From<Record> for [u8; RECORD_BYTES] {
    ghost from_gives = { λ line bytes. bytes ≡ bytes_of line };

    fn from(line: Record) -> [u8; RECORD_BYTES] {
        let [low, high] = line.number.to_le_bytes();
        [
            line.flags,
            line.sync,
            line.fetched,
            line.slots,
            line.vc1,
            low,
            high,
        ]
    }
}

// VIRQ is low now, and was high in the scanline before.
fn falls(low: bool, was_low: bool) -> bool
    ensures { result ≡ low && not was_low }
{
    low && !was_low
}

// Byte 0: VIRQ, its edge, burst, load, last scanline, mode 6; from tests, as the rules' `flags` takes them.
#[tactic(auto, unfolding(nick::specs::Record::flags))]
pub fn flag_byte(block: Block, was_low: bool, load: bool, last: bool) -> u8
    ensures { result ≡ flags block was_low load last }
{
    let mode = video_mode(block);
    let low = has_vint(block);
    u8::from(low)
        + 2 * u8::from(falls(low, was_low))
        + 4 * u8::from(mode != VideoMode::Vsync)
        + 8 * u8::from(load)
        + 16 * u8::from(last)
        + 32 * u8::from(mode == VideoMode::Unused)
}

// Byte 3: the active slots, in modes that fetch.
#[tactic(auto, using(blocks::proofs::ActiveSlots::active_all))]
pub fn slots_byte(block: Block) -> u8
    ensures { result ≡ fetching_slots block }
{
    match video_mode(block) {
        VideoMode::Vsync | VideoMode::Unused => 0,
        _ => active_before(block, 46) as u8,
    }
}

// Byte 4: VC1, bit 7 of FIXBIAS, as 0 or 1.
pub fn vc1_byte(registers: Registers) -> u8
    ensures { result ≡ vc1 registers }
{
    registers.fixbias / 128 % 2
}
