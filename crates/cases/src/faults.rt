// Whether a case has a fault; and faults 0 to 2 of the families that a state, or RAM too, is given to.
ghost use Rattle.std.specs.Prelude.{◌≤◌};

use crate::head::Head;
use nick::{Scan, State};

// Whether a case of T0 to T9 has fault n. second/README.md numbers the faults, and a number is another fault in another family.
pub fn has_fault(t: [u8; 10], n: u8) -> bool
    requires { n ≤ 6 }
{
    match t[0] {
        0..=31 => t[1] % 7 == n,
        32..=63 => (t[1] >> n) % 2 == 1,
        _ => false,
    }
}

// A state after faults 0 and 1: too many scanlines left, and a block number over 4,095.
pub fn faulty_state(state: State, t: [u8; 10]) -> State {
    let [_, _, bits, times, ..] = t;
    let mut scan = state.scan;
    if has_fault(t, 0) {
        scan.left = 257 + excess(bits, times);
    }
    if has_fault(t, 1) {
        scan.number = 4096 + excess(bits / 4, times);
    }
    State { scan, ..state }
}

// The length of RAM lent, wrong by fault 2.
pub fn ram_length(t: [u8; 10]) -> usize
    ensures { result ≤ 65537 }
{
    if !has_fault(t, 2) {
        return 65536;
    }
    match t[4] % 4 {
        0 => 65535,
        1 => 0,
        2 => 65537,
        _ => 32768,
    }
}

impl Head {
    // Whether the case has fault n.
    pub fn has_fault(self, n: u8) -> bool
        requires { n ≤ 6 }
    {
        has_fault(self.t, n)
    }

    // The state after faults 0 and 1.
    pub fn faulty_state(self) -> State {
        faulty_state(self.state, self.t)
    }

    // The length of RAM lent.
    pub fn ram_length(self) -> usize
        ensures { result ≤ 65537 }
    {
        ram_length(self.t)
    }
}

// How far a fault exceeds the bound: T2's two bits times T3 times 64.
fn excess(bits: u8, times: u8) -> u16
    ensures { result ≤ 48960 }
{
    u16::from(bits % 4) * (64 * u16::from(times))
}
