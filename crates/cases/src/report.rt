// What is reported of a family: the digest of each line of its cases, and at the end how often each refusal was given.
ghost use Rattle.std.specs.Prelude.{◌<◌};

use crate::digest::Digest;
use crate::head::Case;
use nick::{Refusal, State};
use std::io;

// A family of cases: its name, the number of second/README.md that its cases are seeded with, how many cases it has, and how many of
// them a line covers.
#[derive(Clone, Copy, PartialEq, Eq)]
pub struct Family<'a> {
    pub name: &'a str,
    pub number: u8,
    pub cases: u32,
    pub line: u32,
    ghost covers_some: { 0 < line },
}

// The digest of a line's cases so far, and how often each refusal was given, by its number, 0 for none: so the last line has them.
#[derive(Clone, Copy, PartialEq, Eq)]
pub struct Report {
    pub digest: Digest,
    tally: [u64; 21],
}

impl Report {
    // Counts a call by its refusal, and takes that refusal's number in, 0 for none.
    pub fn refusal(&mut self, refusal: Option<Refusal>) {
        let number = refusal.map_or(0, u8::from);
        let count = &mut self.tally[usize::from(number)];
        *count = count.wrapping_add(1);
        self.digest.byte(number);
    }

    // Takes in the state and RAM that a call is given.
    pub fn given(&mut self, state: State, ram: &[u8]) {
        self.digest.state(state);
        self.digest.bytes(ram);
    }

    // Takes in the state, dots and records that a painting leaves.
    pub fn left(&mut self, state: State, dots: &[u8], records: &[u8]) {
        self.digest.state(state);
        self.digest.bytes(dots);
        self.digest.bytes(records);
    }
}

// Prints the last line: the cases, and how often each refusal was given, rising.
fn print_tally(rt: &impl Print, cases: u32, tally: &[u64]) -> io::Result<()> {
    print!(rt; "cases {cases} refusals")?;
    for (refusal, count) in tally.iter().enumerate() {
        if *count != 0 {
            print!(rt; " {refusal}:{count}")?;
        }
    }
    rt.println("")
}

// Runs the cases of a family, and prints its lines: NAME FROM TO DIGEST, and the last one.
pub fn run_family<F: FnMut(Case, &mut Report)>(
    rt: &impl Print,
    family: Family<'_>,
    mut run_case: F,
) -> io::Result<()>
    requires { F.IsAlwaysCallable run_case }
{
    let Family {
        name,
        number,
        cases,
        line,
    } = family;
    let mut report = Report {
        digest: Digest::new(),
        tally: [0; 21],
    };
    for case in 0..cases {
        run_case(Case::begin(number, case), &mut report);
        if case % line == line - 1 {
            let from = case - (line - 1);
            println!(rt; "{name} {from} {case} {}", report.digest)?;
            report.digest = Digest::new();
        }
    }
    print_tally(rt, cases, &report.tally)
}
