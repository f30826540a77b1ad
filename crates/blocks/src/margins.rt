// The margins of a block, and its active slots.
ghost use Rattle.std.specs.Prelude.{◌≡◌, ◌<◌, ◌≤◌};
ghost use Rattle.nick.specs.Slots.{left_margin, right_margin};
ghost use Rattle.nick.specs.Scanline.{active_at};
ghost use Rattle.blocks.specs.ActiveSlots.{active_before};

use nick::Block;

// The first slot that may be active.
fn left_margin(block: Block) -> u16
    ensures { (result ≡ left_margin block) × (8 ≤ result) × (result < 64) }
{
    (u16::from(block.lm) % 64).max(8)
}

// The slot after the last that may be active.
fn right_margin(block: Block) -> u16
    ensures { (result ≡ right_margin block) × (result ≤ 54) }
{
    (u16::from(block.rm) % 64).min(54)
}

// Whether a dot slot is active. The margins count the slots of the whole scanline: eight stand before the dot slots.
pub fn is_active(block: Block, slot: u8) -> bool
    ensures { result ≡ active_at block slot }
{
    let slot = 8 + u16::from(slot);
    left_margin(block) <= slot && slot < right_margin(block)
}

// How many of the first `slots` dot slots are active.
pub fn active_before(block: Block, slots: u8) -> u16
    ensures { (result ≡ active_before block slots) × (result ≤ 46) }
{
    let end = right_margin(block).min(8 + u16::from(slots));
    end.saturating_sub(left_margin(block))
}
