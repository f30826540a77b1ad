// Heights and lengths of the buffers of a painting or a comparison, right or wrong by the faults of its case. In which way is told by the
// remainders that second/README.md gives.
ghost use Rattle.std.specs.Prelude.{◌≡◌, ◌+◌, ◌*◌, ◌≤◌, cond, None};

use crate::head::Head;
use nick::RECORD_BYTES;

// The dots of a scanline, by name, since a wrong length differs by them too.
const LINE_DOTS: usize = 736;

// The most bytes that are lent of dots, and of external input.
pub const MOST_DOTS: usize = 1025 * LINE_DOTS;

// The most bytes that are lent of records.
pub const MOST_RECORDS: usize = 1026 * RECORD_BYTES;

// The bytes of an old stored record: a buffer of such records gets refusal 7.
const OLD_RECORD_BYTES: usize = 4;

// The height that buffers are made for.
#[derive(Clone, Copy, PartialEq, Eq)]
pub struct Lines {
    pub count: usize,
    ghost most: { count ≤ 1025 },
}

// The height asked for, and the height that the buffers are made for.
#[derive(Clone, Copy, PartialEq, Eq)]
pub struct Heights {
    pub asked: usize,
    pub lent: Lines,
}

impl Head {
    // Both heights, wrong by fault 3.
    pub fn heights(self) -> Heights {
        let h = self.height;
        let (asked, count) = if self.has_fault(3) {
            match self.t[5] % 4 {
                0 => (0, 0),
                1 => (1025, 1025),
                2 => (0, h),
                _ => (1025 + 256 * usize::from(self.t[6]), h),
            }
        } else {
            (h, h)
        };
        Heights {
            asked,
            lent: Lines { count },
        }
    }

    // The byte that says how a length is wrong, where the case has the fault.
    pub fn wrong(self, fault: u8) -> Option<u8>
        requires { fault ≤ 6 }
    {
        let kind = match fault {
            0 => self.t[4],
            4 => self.t[7],
            5 => self.t[8],
            _ => self.t[9],
        };
        self.has_fault(fault).then_some(kind)
    }
}

// A wrong length: one more than the right one, one less, `other`, or `unit` more.
fn wrong_length(kind: u8, right: usize, unit: usize, other: usize) -> usize
    requires { (right ≤ MOST_DOTS) × (1 ≤ unit) × (unit ≤ LINE_DOTS) × (other ≤ 1) }
    ensures { result ≤ right + unit }
{
    match kind % 4 {
        0 => right + 1,
        1 => right.saturating_sub(1),
        2 => other,
        _ => right + unit,
    }
}

impl Lines {
    // The length of dots. This and the two below stay apart: each is wrong in its own way in second/README.md.
    pub fn dots(self, wrong: Option<u8>) -> usize
        ensures right { wrong ≡ None → result ≡ 736 * self.count }
        ensures most { result ≤ MOST_DOTS }
    {
        let right = LINE_DOTS * self.count;
        match wrong {
            None => right,
            Some(kind) => wrong_length(kind, right, LINE_DOTS, 0).min(MOST_DOTS),
        }
    }

    // The length of records: wrong as other lengths are, or that of old records.
    pub fn records(self, wrong: Option<u8>) -> usize
        ensures right { wrong ≡ None → result ≡ RECORD_BYTES * self.count }
        ensures most { result ≤ MOST_RECORDS }
    {
        let right = RECORD_BYTES * self.count;
        match wrong {
            None => right,
            Some(kind) if kind % 5 == 4 => OLD_RECORD_BYTES * self.count,
            Some(kind) => wrong_length(kind % 5, right, RECORD_BYTES, 0),
        }
    }

    // The length of external input, which is none unless connected.
    pub fn external(self, is_connected: bool, wrong: Option<u8>) -> usize
        ensures right { wrong ≡ None → result ≡ cond is_connected (736 * self.count) 0 }
        ensures most { result ≤ MOST_DOTS }
    {
        let right = LINE_DOTS * self.count;
        match wrong {
            None => { if is_connected { right } else { 0 } }
            Some(kind) => wrong_length(kind, right, LINE_DOTS, 1).min(MOST_DOTS),
        }
    }
}
