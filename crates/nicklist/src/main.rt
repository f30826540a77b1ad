// Lists the line parameter table:
// nicklist RAM WRITES
#![tactic(auto)]

ghost use Rattle.nicklist.specs.ListingAfterWrites.{ListsAfter};

use files::{Error, Inputs, RAM_ROOM, WRITES, WRITES_ROOM};
use nick::Refusal;
use std::env::Env;
use std::rt::Files;

const USAGE: &str =
    "usage: nicklist RAM WRITES; WRITES is pairs of bytes, port and value, at most 32,768";

// The bytes of the longest listing.
const LONGEST: usize = 323609;

// Writes the listing for the registers that the writes leave, and answers its length.
#[tactic(auto, unfolding(files::specs::Writes::after_writes))]
fn list(inputs: Inputs<'_>, text: &mut [u8]) -> Result<usize, Refusal>
    ensures { ListsAfter inputs.entry.writes.now inputs.entry.ram.now text.old result text.new }
{
    let (state, written) = files::apply_writes(inputs.writes);
    written?;
    listing::list(state.registers, inputs.ram, text)
}

// Prints the listing of what the files hold.
fn print_listing(rt: &impl Print, inputs: Inputs<'_>, text: &mut [u8]) -> Result<(), Error> {
    let length = list(inputs, text)?;
    let _ = rt.write_all(&text[..length]);
    Ok(())
}

// Reads the files and lists.
fn run(rt: &(impl Files + Env + Print)) -> Result<(), Error> {
    if files::argument_count(rt) != WRITES + 1 {
        return Err(Error::Usage);
    }
    let mut ram = [0u8; RAM_ROOM];
    let mut writes = [0u8; WRITES_ROOM];
    let inputs = files::read_inputs(rt, &mut ram, &mut writes)?;
    print_listing(rt, inputs, &mut [0; LONGEST])
}

fn main(rt: HostRuntime) {
    files::report(&rt, run(&rt), USAGE);
}
