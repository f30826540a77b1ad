// Video RAM of a case: drawn, then edited block by block as the bits of F say.
ghost use Rattle.std.specs.Prelude.{◌≤◌};

use crate::head::Case;
use crate::source::Source;
use blocks::BlockNumber;
use nick::RAM_BYTES;

// RAM and the byte after it, which is lent where the length is wrong.
pub type LongRam = [u8; RAM_BYTES + 1];

// Draws the 65,536 bytes of RAM; the byte after them is 0.
pub fn draw_plain_ram(source: &mut Source, ram: &mut LongRam) {
    source.fill(&mut ram[..RAM_BYTES]);
    ram[RAM_BYTES] = 0;
}

// A margin byte whose slot becomes one of the eight from `first` on.
fn margin(byte: u8, first: u8) -> u8
    requires { first ≤ 50 }
{
    byte / 64 * 64 + first + byte % 8
}

// A mode byte without RELOAD.
pub fn no_reload(mb: u8) -> u8 {
    mb / 2 * 2
}

// Edits block n by the bits of F, in their order.
fn edit_block(f: u8, n: usize, block: &mut [u8; 16]) {
    // Mode lines of up to four scanlines.
    if f % 2 == 1 {
        block[0] = 252 + block[0] % 4;
    }
    // Pointers near the end of RAM.
    if f / 2 % 2 == 1 {
        block[4] = 192 + block[4] % 64;
        block[5] = 255;
        block[6] = 192 + block[6] % 64;
        block[7] = 255;
    }
    // Usual margins.
    if f / 4 % 2 == 1 {
        block[2] = margin(block[2], 8);
        block[3] = margin(block[3], 46);
    }
    // VSYNC without VRES in three blocks of four.
    if f / 8 % 2 == 1 && n % 4 != 0 {
        block[1] = block[1] / 16 * 16 + block[1] % 2;
    }
    // Margins about the right edge in every other block.
    if f / 16 % 2 == 1 && n % 2 == 1 {
        block[2] = margin(block[2], 50);
        block[3] = margin(block[3], 50);
    }
    // No RELOAD in seven blocks of eight.
    if f / 32 % 2 == 1 && n % 8 != 7 {
        block[1] = no_reload(block[1]);
    }
    // Mode lines of 256 scanlines in one block of four.
    if f / 64 % 2 == 1 && n % 4 == 1 {
        block[0] = 0;
    }
}

// Edits all blocks.
fn edit_blocks(f: u8, ram: &mut LongRam) {
    let (blocks, _) = ram.as_chunks_mut();
    for (n, block) in blocks.iter_mut().enumerate() {
        edit_block(f, n, block);
    }
}

impl Case {
    // Draws RAM, and edits its blocks. The stored block is taken from RAM where bit 5 of K says so.
    pub fn draw_ram(&mut self, ram: &mut LongRam) {
        draw_plain_ram(&mut self.source, ram);
        edit_blocks(self.head.f, ram);
        if self.head.k / 32 % 2 == 1 {
            let whole = ram.first_chunk::<RAM_BYTES>().unwrap();
            let scan = &mut self.head.state.scan;
            let number = BlockNumber { value: scan.number };
            scan.block = blocks::block_at(whole, number);
        }
    }
}
