// Runs the proved code on the family "scripts" of second/README.md's random cases, and prints its lines.
#![tactic(auto)]

mod scripts;

use cases::{Buffers, run_family};
use std::io;

fn main(rt: HostRuntime) -> io::Result<()> {
    let mut buffers = Buffers::new();
    run_family(&rt, scripts::FAMILY, |drawn, report| {
        scripts::run_case(drawn, &mut buffers, report)
    })
}
