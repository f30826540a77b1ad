// One slot of a scanline: the sixteen dots that it shows of what it fetches.
#![tactic(auto)]

ghost use Rattle.std.specs.Prelude.{◌≡◌, length};
ghost use Rattle.slots.specs.PaintedSlot.{AnySlot};

mod show;

use colour::LineColours;
use nick::{Pointers, Ram};

// The pointers after a slot, and the bytes fetched: what is left of a fetch once its cells are shown.
#[derive(Clone, Copy, PartialEq, Eq)]
pub struct Slot {
    pub at: Pointers,
    pub fetched: u8,
}

// Paints a dot slot; `external` has the scanline's bytes. `out` is a slice: of a part of a buffer that
// `as_mut_array` makes an array the check does not find what is left in the buffer.
#[tactic(auto, using(crate::proofs::SlotDots::slot_shown, fetch::proofs::SlotDots::moved, fetch::proofs::SlotDots::counted, fetch::proofs::SlotDots::few))]
pub fn paint_slot(
    colours: &LineColours,
    ram: &Ram,
    slot: u8,
    at: Pointers,
    out: &mut [u8],
    external: &[u8],
) -> Slot
    requires { length out.old ≡ 16 }
    ensures { AnySlot colours.now.registers ram.now colours.now.block slot at external.now out.new result }
{
    let fetched = fetch::fetch_slot(ram, colours.block, slot, at);
    show::show(colours, fetched.cells, out, external, slot);
    Slot {
        at: fetched.at,
        fetched: fetched.count,
    }
}
