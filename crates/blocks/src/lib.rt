// Line parameter blocks: decoding the sixteen bytes, how a scanline begins, and the active slots between the margins.
#![tactic(auto)]

mod margins;
mod mode;

ghost use Rattle.std.specs.Prelude.{◌≡◌, ◌+◌, ◌*◌, ◌%◌, ◌<◌};
ghost use Rattle.nick.specs.Registers.{base_number};
ghost use Rattle.nick.specs.Blocks.{decoded, block_at, loaded_number, loaded, continued, loads, begun};

pub use margins::{active_before, is_active};
pub use mode::{
    CodeWidth, ColourMode, VideoMode, code_width, colour_mode, has_reload, has_vint, has_vres,
    video_mode,
};
use nick::{Block, Pointers, Ram, Registers, Scan};

// A block's number, 0 to 4,095.
#[derive(Clone, Copy)]
pub struct BlockNumber {
    pub value: u16,
    ghost inside: { value < 4096 },
}

impl BlockNumber {
    // The number k places on; 0 comes after 4,095.
    pub fn after(self, k: u16) -> Self
        ensures { result.value ≡ (self.value + k) % 4096 }
    {
        let value = self.value.wrapping_add(k) % 4096;
        BlockNumber { value }
    }

    // The address of the block's first byte.
    pub fn address(self) -> usize
        ensures { result ≡ 16 * self.value }
    {
        16 * usize::from(self.value)
    }
}

// The block that sixteen bytes hold. A function and no `From`: both types are of other crates.
#[tactic(auto, unfolding(nick::specs::Blocks::decoded))]
pub fn decode(bytes: &[u8; 16]) -> Block
    ensures { result ≡ decoded bytes.now }
{
    let start = Pointers {
        ld1: u16::from_le_bytes([bytes[4], bytes[5]]),
        ld2: u16::from_le_bytes([bytes[6], bytes[7]]),
    };
    let col = [
        bytes[8], bytes[9], bytes[10], bytes[11], bytes[12], bytes[13], bytes[14], bytes[15],
    ];
    Block {
        sc: bytes[0],
        mb: bytes[1],
        lm: bytes[2],
        rm: bytes[3],
        start,
        col,
    }
}

// The block that starts at sixteen times its number.
#[tactic(auto, using(lists::proofs::Laws::chunk_at), unfolding(nick::specs::Blocks::block_at))]
pub fn block_at(ram: &Ram, number: BlockNumber) -> Block
    ensures { result ≡ block_at ram.now number.value }
{
    let (blocks, _) = ram.as_chunks();
    decode(&blocks[number.value as usize])
}

// The number of the table's first block.
pub fn base_number(registers: Registers) -> BlockNumber
    ensures { result.value ≡ base_number registers }
{
    let value = registers.lph as u16 % 16 * 256 + registers.lpl as u16;
    BlockNumber { value }
}

// Whether the next scanline loads a block.
pub fn is_loading(scan: Scan) -> bool
    ensures { result ≡ loads scan }
{
    scan.pending || scan.left == 0
}

// The number of the block that a load takes.
#[tactic(auto, unfolding(nick::specs::Blocks::loaded_number))]
fn loaded_number(registers: Registers, scan: Scan) -> BlockNumber
    requires { scan.number < 4096 }
    ensures { result.value ≡ loaded_number registers scan }
{
    if scan.pending || has_reload(scan.block) {
        return base_number(registers);
    }
    let stored = BlockNumber { value: scan.number };
    if registers.lph / 64 % 2 == 0 {
        return stored;
    }
    stored.after(1)
}

// The scan after block `number` is loaded.
#[tactic(auto, unfolding(nick::specs::Blocks::loaded))]
fn load_block(registers: Registers, ram: &Ram, number: BlockNumber) -> Scan
    ensures { result ≡ loaded registers number.value (block_at ram.now number.value) }
{
    let block = block_at(ram, number);
    Scan {
        pending: registers.lph / 128 % 2 == 0,
        block,
        number: number.value,
        at: block.start,
        left: 256 - u16::from(block.sc),
    }
}

// The scan after a load.
fn load(registers: Registers, ram: &Ram, scan: Scan) -> Scan
    requires { scan.number < 4096 }
    ensures { result ≡ loaded registers (loaded_number registers scan) (block_at ram.now (loaded_number registers scan)) }
{
    let number = loaded_number(registers, scan);
    load_block(registers, ram, number)
}

// The scan of a mode line that goes on.
#[tactic(auto, unfolding(nick::specs::Blocks::continued))]
fn resume(scan: Scan) -> Scan
    ensures { result ≡ continued scan }
{
    let mut at = scan.at;
    if !has_vres(scan.block) {
        at.ld1 = scan.block.start.ld1;
    }
    Scan { at, ..scan }
}

// The scan as the next scanline begins. Here and above it registers and RAM stand apart, as in each definition. It is inlined, since
// a scanline in which nothing is fetched is little more.
#[tactic(auto, unfolding(nick::specs::Blocks::begun))]
#[inline(always)]
pub fn begin(registers: Registers, ram: &Ram, scan: Scan) -> Scan
    requires { scan.number < 4096 }
    ensures { result ≡ begun registers ram.now scan }
{
    if is_loading(scan) {
        load(registers, ram, scan)
    } else {
        resume(scan)
    }
}
