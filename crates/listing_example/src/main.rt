// Prints the listing of the guide's vertical sequence at base 0.
#![tactic(auto)]

use nick::RAM_BYTES;
use std::io;

// Four blocks; pointers and colours are 0.
const BLOCKS: [[u8; 4]; 4] = [
    [253, 0, 63, 0],
    [254, 0, 6, 63],
    [255, 0, 63, 32],
    [237, 3, 6, 63],
];

fn main(rt: HostRuntime) -> io::Result<()> {
    let mut ram = [0u8; RAM_BYTES];
    let (blocks, _) = ram.as_chunks_mut::<16>();
    for (place, block) in blocks.iter_mut().zip(&BLOCKS) {
        place[..4].copy_from_slice(block);
    }
    let mut text = [0u8; 4096];
    if let Ok(length) = listing::list(nick::fresh().registers, &ram, &mut text) {
        rt.write_all(&text[..length])?;
    }
    Ok(())
}
