// The digest of bytes, words, numbers and states.
use crate::source::step;
use nick::State;
use std::fmt;

// The digest of the bytes so far.
#[derive(Clone, Copy, PartialEq, Eq)]
pub struct Digest {
    x: u64,
}

impl Digest {
    // The digest of no bytes.
    pub fn new() -> Self {
        Digest {
            x: 1469598103934665603,
        }
    }

    // Takes in a byte.
    pub fn byte(&mut self, byte: u8) {
        self.x = step(self.x ^ u64::from(byte));
    }

    // Takes in all bytes of a slice.
    pub fn bytes(&mut self, bytes: &[u8]) {
        for byte in bytes {
            self.byte(*byte);
        }
    }

    // Takes in a word, low byte first.
    pub fn word(&mut self, word: u16) {
        self.bytes(&word.to_le_bytes());
    }

    // Takes in a number as four bytes, low byte first.
    pub fn number(&mut self, number: usize) {
        let [a, b, c, d, _, _, _, _] = number.to_le_bytes();
        self.bytes(&[a, b, c, d]);
    }

    // Takes in the 32 bytes of a state.
    pub fn state(&mut self, state: State) {
        self.bytes(&encoding::state_bytes(state));
    }
}

impl fmt::Display for Digest {
    fn fmt<W: fmt::Write>(&self, f: &mut fmt::Formatter<W>) -> fmt::Result {
        write!(f, "{}", self.x)
    }
}
