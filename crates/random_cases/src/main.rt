// Runs the proved code on the random cases of second/README.md, family by family, and prints the lines of each.
#![tactic(auto)]

mod comparisons;
mod dots;
mod frames;
mod listings;
mod writes;

use cases::{Buffers, run_family};
use std::io;

// Runs the families in the order of second/compared.txt.
fn main(rt: HostRuntime) -> io::Result<()> {
    let rt = &rt;
    let mut buffers = Buffers::new();
    let mut text = [0u8; listings::OUTPUT_BYTES];
    run_family(rt, writes::FAMILY, writes::run_case)?;
    run_family(rt, frames::FAMILY, |drawn, report| {
        frames::run_case(drawn, &mut buffers, report)
    })?;
    run_family(rt, dots::FAMILY, |drawn, report| {
        dots::run_case(drawn, &mut buffers.ram, report)
    })?;
    run_family(rt, listings::FAMILY, |drawn, report| {
        listings::run_case(drawn, &mut buffers.ram, &mut text, report)
    })?;
    run_family(rt, comparisons::FAMILY, |drawn, report| {
        comparisons::run_case(drawn, &mut buffers, report)
    })
}
