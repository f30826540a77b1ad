// Sync through the 57 slots of a scanline.
ghost use Rattle.std.specs.Prelude.{◌<◌};
ghost use Rattle.records.specs.Syncs.{Syncs, SyncStep};

use blocks::{VideoMode, video_mode};
use nick::Block;

// The level, and the slots counted at sync level.
#[derive(Clone, Copy, PartialEq, Eq)]
pub struct Sync {
    pub on: bool,
    pub count: u8,
}

// Passes one slot: on at the left margin, off at the right one, then the slot is counted.
fn pass_slot(block: Block, slot: u8, sync: Sync) -> Sync
    requires { sync.count < 255 }
    ensures { SyncStep block slot sync result }
{
    let on = slot != block.rm % 64 && (slot == block.lm % 64 || sync.on);
    Sync {
        on,
        count: sync.count + u8::from(on),
    }
}

// The level after a scanline, and its slots at sync level: off in every mode but VSYNC. A `for` and no fold, since its invariant says
// that the count stays below 255.
#[tactic(auto, using(crate::proofs::Vsync::level_in_vsync, crate::proofs::Vsync::count_in_vsync), unfolding(nick::specs::Sync::line_sync, nick::specs::Sync::line_sync_count))]
pub fn sync_line(block: Block, on: bool) -> Sync
    ensures { Syncs block on result }
{
    let VideoMode::Vsync = video_mode(block) else {
        return Sync {
            on: false,
            count: 0,
        };
    };
    let mut sync = Sync { on, count: 0 };
    for slot in 0..57 {
        sync = pass_slot(block, slot, sync);
    }
    sync
}
