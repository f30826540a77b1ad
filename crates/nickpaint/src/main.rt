// Paints scanlines from files, line by line:
// nickpaint RAM WRITES HEIGHT DOTS RECORDS [EXTERNAL]
//
// RECORDS is stamped first and written last, so that a run that is refused, fails or is stopped leaves a stamped one, also where the
// stack has no room for the buffers. Where an output is one of the inputs, by whatever name, nothing is touched.
#![tactic(auto)]

ghost use Rattle.nick.specs.Refusals.{refusal_in};
ghost use Rattle.nickpaint.specs.PaintingAfterWrites.{PaintsAfter};

use files::{Buffers, DOTS_MOST, Error, Inputs, Places, RECORDS_MOST, WRITES_ROOM};
use nick::{RECORD_BYTES, Refusal};
use std::env::Env;
use std::rt::Files;

// The arguments after RAM and WRITES.
const HEIGHT: usize = 3;

const PLACES: Places = Places {
    dots: 4,
    records: 5,
    external: 6,
};

const USAGE: &str =
    "usage: nickpaint RAM WRITES HEIGHT DOTS RECORDS [EXTERNAL]; WRITES is pairs of bytes, port and value, at most 32,768; DOTS and RECORDS are two files, and neither is an input";

// Stamps RECORDS, unless an output is an input, and answers the height.
fn start(rt: &(impl Files + Env)) -> Result<usize, Error> {
    let asked = files::number_argument(rt, HEIGHT);
    files::begin(rt, PLACES, asked)?;
    asked.ok_or(Error::Usage)
}

// Paints from the state that the writes leave.
#[tactic(auto, unfolding(files::specs::Writes::after_writes))]
fn paint(
    inputs: Inputs<'_>,
    height: usize,
    dots: &mut [u8],
    records: &mut [u8],
    external: &[u8],
) -> Result<(), Refusal>
    ensures { PaintsAfter inputs.entry.writes.now inputs.entry.ram.now height dots.old records.old external.now dots.new records.new (refusal_in result) }
{
    let (mut state, written) = files::apply_writes(inputs.writes);
    written?;
    painting::paint_lines(&mut state, inputs.ram, height, dots, records, external)
}

// Paints what the files hold and writes it. A height over 1,024 is refused before its buffers count.
fn paint_files(
    rt: &(impl Files + Env + Print),
    inputs: Inputs<'_>,
    height: usize,
    dots: &mut [u8; DOTS_MOST],
    records: &mut [u8; RECORDS_MOST],
    external: &[u8],
) -> Result<(), Error> {
    let lines = height.min(1024);
    let dots = &mut dots[..736 * lines];
    let records = &mut records[..RECORD_BYTES * lines];
    paint(inputs, height, dots, records, external)?;
    files::write_outputs(rt, PLACES, dots, records)?;
    files::print_painted(rt, lines);
    Ok(())
}

// Reads the files and paints.
fn run_in(
    rt: &(impl Files + Env + Print),
    height: usize,
    buffers: &mut Buffers,
    writes: &mut [u8; WRITES_ROOM],
) -> Result<(), Error> {
    let inputs = files::read_inputs(rt, &mut buffers.ram, writes)?;
    let external = files::read_optional(rt, PLACES.external, &mut buffers.external)?;
    paint_files(
        rt,
        inputs,
        height,
        &mut buffers.dots,
        &mut buffers.records,
        external,
    )
}

// Stamps RECORDS, and paints.
fn run(rt: &(impl Files + Env + Print)) -> Result<(), Error> {
    let height = start(rt)?;
    files::run_in_buffers(|buffers| run_in(rt, height, buffers, &mut [0; WRITES_ROOM]))
}

fn main(rt: HostRuntime) {
    files::report(&rt, run(&rt), USAGE);
}
