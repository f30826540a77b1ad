// One scanline: its dots, its record and the state after it.
#![tactic(auto)]

ghost use Rattle.std.specs.Prelude.{◌≡◌, ◌*◌, ◌<◌, ◌≤◌, length, if◌then◌else◌};
ghost use Rattle.nick.specs.Sizes.{record_bytes};
ghost use Rattle.nick.specs.Slots.{mode_of, line_pointers};
ghost use Rattle.nick.specs.Refusals.{Formed};
ghost use Rattle.scanline.specs.PaintedLine.{Slots, ended_at, Line};

use blocks::{VideoMode, video_mode};
use colour::LineColours;
use nick::{Block, Pointers, RECORD_BYTES, Ram, Registers, Scan, State};
use records::{Record, flag_byte, slots_byte, sync_line, vc1_byte};
use slots::{Slot, paint_slot};

// Paints the 46 dot slots of a scanline that has begun. By index: std says nothing of what chunks_exact_mut leaves. `out` is a slice here
// and below: docs/DECISIONS.md 72.
#[tactic(auto, using(crate::proofs::DotSlots::slot_more, crate::proofs::DotSlots::at_more, crate::proofs::DotSlots::fetched_more, crate::proofs::DotSlots::whole_line, crate::proofs::DotSlots::all_dots, crate::proofs::DotSlots::all_at, crate::proofs::DotSlots::all_fetched))]
fn slots_in_order(
    registers: Registers,
    ram: &Ram,
    begun: Scan,
    out: &mut [u8],
    external: &[u8],
) -> Slot
    requires { length out.old ≡ 736 }
    ensures { Slots registers ram.now begun external.now out.new result }
{
    let colours = LineColours::new(registers, begun.block);
    let mut slot = Slot {
        at: begun.at,
        fetched: 0,
    };
    for n in 0..46 {
        let from = 16 * usize::from(n);
        let dots = &mut out[from..from + 16];
        let next = paint_slot(&colours, ram, n, slot.at, dots, external);
        slot = Slot {
            fetched: slot.fetched + next.fetched,
            ..next
        };
    }
    slot
}

// Paints the 46 dot slots of a scanline that has begun; where no slot fetches, all at once, since much of a frame is such scanlines.
#[tactic(auto, using(crate::proofs::Idle::idle_dots, crate::proofs::Idle::idle_at, crate::proofs::Idle::idle_fetches))]
fn paint_slots(
    registers: Registers,
    ram: &Ram,
    begun: Scan,
    out: &mut [u8],
    external: &[u8],
) -> Slot
    requires { length out.old ≡ 736 }
    ensures { Slots registers ram.now begun external.now out.new result }
{
    let block = begun.block;
    if slots_byte(block) == 0 {
        out.fill(fetch::unfetched(registers, block));
        return Slot {
            at: begun.at,
            fetched: 0,
        };
    }
    slots_in_order(registers, ram, begun, out, external)
}

// The pointers after a scanline's slots: LD2 of a character mode goes up.
fn end_pointers(block: Block, at: Pointers) -> Pointers
    ensures { result ≡ line_pointers (mode_of block) at }
{
    match video_mode(block) {
        VideoMode::Character(_) => at.up(0, 1),
        _ => at,
    }
}

// The scan as a scanline ends, its slots having left the pointers `at`.
#[tactic(auto, unfolding(crate::specs::PaintedLine::ended_at))]
fn end_scan(begun: Scan, at: Pointers) -> Scan
    requires { 0 < begun.left }
    ensures { result ≡ ended_at begun at }
{
    Scan {
        at: end_pointers(begun.block, at),
        left: begun.left - 1,
        ..begun
    }
}

// The bytes that a load fetches.
fn load_fetches(load: bool) -> u8
    ensures { (result ≡ (if load then 16 else 0)) × (result ≤ 16) }
{
    if load { 16 } else { 0 }
}

// Paints the next scanline; `external` has its bytes. Well-formed by a clause: docs/DECISIONS.md 66.
#[tactic(auto, using(nick::proofs::WellFormed::begun_some, crate::proofs::Scanlines::ended_at_lem, crate::proofs::Scanlines::fetches_length), unfolding(nick::specs::Scanline::line_dots, nick::specs::Scanline::line_fetches, nick::specs::Scanline::next_scan, nick::specs::Record::line_record, nick::specs::Record::next_state, crate::specs::PaintedLine::ended_at))]
pub fn paint_scanline(
    state: State,
    ram: &Ram,
    dots: &mut [u8],
    recorded: &mut [u8],
    external: &[u8],
) -> State
    requires lengths { (length dots.old ≡ 736) × (length recorded.old ≡ record_bytes) }
    requires formed { Formed state.scan }
    ensures { Line state ram.now external.now dots.new recorded.new result }
{
    let registers = state.registers;
    let load = blocks::is_loading(state.scan);
    let begun = blocks::begin(registers, ram, state.scan);
    let block = begun.block;
    let slot = paint_slots(registers, ram, begun, dots, external);
    let scan = end_scan(begun, slot.at);
    let sync = sync_line(block, state.sync);
    let line = Record {
        flags: flag_byte(block, state.virq, load, scan.left == 0),
        sync: sync.count,
        fetched: load_fetches(load) + slot.fetched,
        slots: slots_byte(block),
        vc1: vc1_byte(registers),
        number: scan.number,
    };
    recorded.copy_from_slice(&<[u8; RECORD_BYTES]>::from(line));
    // VINT in line: with `has_vint` here painting is slower (docs/DECISIONS.md 35).
    State {
        scan,
        virq: block.mb / 128 % 2 == 1,
        sync: sync.on,
        ..state
    }
}
