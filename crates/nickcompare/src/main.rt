// Compares a capture with a frame, and says how far it is off:
// nickcompare HEIGHT CAPTURE CAPTURE-RECORDS FRAME FRAME-RECORDS
#![tactic(auto)]

mod print;

ghost use Rattle.std.specs.Prelude.{◌≡◌, ◌≤◌, length, IfOk};
ghost use Rattle.nickcompare.specs.ComparedFiles.{Compares};

use comparison::{Differences, Refused, Side};
use files::{DOTS_MOST, Error, RECORDS_MOST};
use print::{print_differences, print_refused};
use std::env::Env;
use std::rt::Files;

// The arguments.
const HEIGHT: usize = 1;

const CAPTURE: usize = 2;

const CAPTURE_RECORDS: usize = 3;

const FRAME: usize = 4;

const FRAME_RECORDS: usize = 5;

// The room for dots and for records: one byte more than is allowed, so that a longer file shows.
const DOTS_ROOM: usize = DOTS_MOST + 1;

const RECORDS_ROOM: usize = RECORDS_MOST + 1;

// What is read of a side.
#[derive(Drop)]
struct Room {
    dots: [u8; DOTS_ROOM],
    records: [u8; RECORDS_ROOM],
}

const USAGE: &str =
    "usage: nickcompare HEIGHT CAPTURE CAPTURE-RECORDS FRAME FRAME-RECORDS; CAPTURE and FRAME are 736 bytes a line, their records 7";

// The side of which these dots and records were read.
fn side_of<'a>(read: (&'a [u8], &'a [u8])) -> Side<'a>
    ensures { (result.dots.now ≡ read.entry.0.now) × (result.records.now ≡ read.entry.1.now) }
{
    let (dots, records) = read;
    Side { dots, records }
}

// Reads a side, from the files that arguments i and j name.
fn read_side<'a>(
    rt: &(impl Files + Env),
    i: usize,
    j: usize,
    room: &'a mut Room,
) -> Result<Side<'a>, Error>
    ensures { IfOk result (λ side. (length side.dots.now ≤ length room.old.dots) × (length side.records.now ≤ length room.old.records)) }
{
    let Room { dots, records } = room;
    files::read_pair(rt, i, j, dots, records).map(side_of)
}

// Compares what was read. The first dot that differs is in both sides.
#[tactic(auto, using(crate::proofs::FirstDot::compares))]
fn compare_read(height: usize, capture: Side<'_>, frame: Side<'_>) -> Result<Differences, Refused>
    ensures { Compares height capture.entry.dots.now capture.entry.records.now frame.entry.dots.now frame.entry.records.now result }
{
    comparison::compare(height, capture, frame)
}

// Prints what the comparison of what was read answers.
fn print_comparison(rt: &impl Print, height: usize, capture: Side<'_>, frame: Side<'_>) {
    match compare_read(height, capture, frame) {
        Ok(found) => print_differences(rt, found, capture.dots, frame.dots),
        Err(refused) => print_refused(rt, refused),
    }
}

// Reads the files in the order of the arguments, and compares. The rooms are in a function that begins with them: else they are made
// zero twice.
fn compare_files(rt: &(impl Files + Env + Print), height: usize) -> Result<(), Error> {
    let mut capture = Room {
        dots: [0; DOTS_ROOM],
        records: [0; RECORDS_ROOM],
    };
    let mut frame = Room {
        dots: [0; DOTS_ROOM],
        records: [0; RECORDS_ROOM],
    };
    let capture = read_side(rt, CAPTURE, CAPTURE_RECORDS, &mut capture)?;
    let frame = read_side(rt, FRAME, FRAME_RECORDS, &mut frame)?;
    print_comparison(rt, height, capture, frame);
    Ok(())
}

// Does what the arguments ask.
fn run(rt: &(impl Files + Env + Print)) -> Result<(), Error> {
    if files::argument_count(rt) != FRAME_RECORDS + 1 {
        return Err(Error::Usage);
    }
    let height = files::number_argument(rt, HEIGHT).ok_or(Error::Usage)?;
    compare_files(rt, height)
}

fn main(rt: HostRuntime) {
    files::report(&rt, run(&rt), USAGE);
}
