// The line record and its bytes, its flags, active slots and VC1, and sync through a scanline.
#![tactic(auto)]

mod record;
mod sync;

pub use record::{Record, flag_byte, slots_byte, vc1_byte};
pub use sync::{Sync, sync_line};
