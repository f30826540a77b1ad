// The seeded generator: xorshift on 64 bits.

// How many bytes are drawn of a buffer that then repeats them.
const PERIOD: usize = 5888;

// Where the generator stands.
#[derive(Clone, Copy, PartialEq, Eq)]
pub struct Source {
    x: u64,
}

// One step of xorshift; bits shifted out are lost.
pub fn step(x: u64) -> u64 {
    let a = x ^ (x << 13);
    let b = a ^ (a >> 7);
    b ^ (b << 17)
}

impl Source {
    // The generator at the start of a case, after the sixteen bytes that are thrown away.
    pub fn seeded(family: u8, case: u32) -> Self {
        let seed = u64::from(family) * 1099511627776 + u64::from(case) + 1;
        let mut source = Source {
            x: 88172645463325252 ^ seed,
        };
        let _thrown: [u8; 16] = source.bytes();
        source
    }

    // Draws a byte.
    pub fn byte(&mut self) -> u8 {
        self.x = step(self.x);
        (self.x / 4294967296 % 256) as u8
    }

    // Draws N bytes, in order.
    pub fn bytes<const N: usize>(&mut self) -> [u8; N] {
        let mut bytes = [0u8; N];
        self.fill(&mut bytes);
        bytes
    }

    // Draws a word, low byte first.
    pub fn word(&mut self) -> u16 {
        u16::from_le_bytes(self.bytes())
    }

    // Draws all bytes of a slice, in order.
    pub fn fill(&mut self, out: &mut [u8]) {
        for byte in out {
            *byte = self.byte();
        }
    }

    // Draws up to 5,888 bytes, and has these again after them. By index: of chunks the check does not see that none is longer than what
    // is drawn.
    pub fn fill_repeated(&mut self, out: &mut [u8]) {
        let drawn = out.len().min(PERIOD);
        self.fill(&mut out[..drawn]);
        for j in PERIOD..out.len() {
            out[j] = out[j - PERIOD];
        }
    }
}
