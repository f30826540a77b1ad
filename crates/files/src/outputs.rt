// The files that a painting program writes, DOTS and RECORDS. RECORDS is stamped first and written last, so that a run that is
// refused, fails or dies leaves a stamped one. Where an output is one of the inputs, by whatever name, nothing is touched.
ghost use Rattle.std.specs.Prelude.{◌≡◌, ◌≤◌, cond, is_ok};
ghost use Rattle.files.specs.Outputs.{is_clash, is_input, lines_stamped, stamps};

use crate::argument::{argument_count, is_given, write_argument, write_repeated};
use crate::error::Error;
use crate::inputs::{COMMANDS, RAM};
use crate::same::is_same_file;
use nick::RECORD_BYTES;
use std::env::Env;
use std::rt::Files;

// The bytes of dots and of records of the most lines that are painted.
pub const DOTS_MOST: usize = 736 * 1024;

pub const RECORDS_MOST: usize = RECORD_BYTES * 1024;

// Which arguments name the outputs, and EXTERNAL, which is the last and may be absent.
#[derive(Clone, Copy, PartialEq, Eq)]
pub struct Places {
    pub dots: usize,
    pub records: usize,
    pub external: usize,
}

// Which inputs are the file that an output names: flags, so that `is_clash` can be promised without files.
#[derive(Clone, Copy, PartialEq, Eq)]
struct Named {
    ram: bool,
    commands: bool,
    external: bool,
}

// The lines to stamp: those asked for, but at least one and at most 65,536.
fn lines_stamped(asked: Option<usize>) -> usize
    ensures { (result ≡ lines_stamped asked) × (result ≤ 65536) }
{
    asked.unwrap_or(1).clamp(1, 65536)
}

// Writes RECORDS with the lines asked for stamped, line by line, so that little room is needed.
pub fn stamp_lines(
    rt: &(impl Files + Env),
    places: Places,
    asked: Option<usize>,
) -> Result<(), Error> {
    let mut record = [0u8; RECORD_BYTES];
    refusals::stamp(&mut record);
    write_repeated(rt, places.records, &record, lines_stamped(asked))
}

// Compares an output with each input.
fn inputs_named(rt: &(impl Files + Env), places: Places, output: usize) -> Named {
    Named {
        ram: is_same_file(rt, RAM, output),
        commands: is_same_file(rt, COMMANDS, output),
        external: is_given(rt, places.external) && is_same_file(rt, places.external, output),
    }
}

// Whether an output is one of the inputs.
fn is_input(output: Named) -> bool
    ensures { result ≡ is_input output }
{
    output.ram || output.commands || output.external
}

// Whether the run would write over an input.
fn is_clash(dots: Named, records: Named) -> bool
    ensures { result ≡ is_clash dots records }
{
    is_input(dots) || is_input(records)
}

// Stamps RECORDS for the lines asked for, unless an output is an input.
pub fn begin(rt: &(impl Files + Env), places: Places, asked: Option<usize>) -> Result<(), Error> {
    let count = argument_count(rt);
    if count <= places.records
        || is_clash(
            inputs_named(rt, places, places.dots),
            inputs_named(rt, places, places.records),
        )
    {
        return Err(Error::Usage);
    }
    stamp_lines(rt, places, asked)?;
    if places.external < count - 1 || is_same_file(rt, places.dots, places.records) {
        return Err(Error::Usage);
    }
    Ok(())
}

// Writes RECORDS; where that fails, it is stamped again.
fn write_records(rt: &(impl Files + Env), places: Places, records: &mut [u8]) -> Result<(), Error>
    ensures { records.new ≡ cond (is_ok result) records.old (stamps records.old) }
{
    let written = write_argument(rt, places.records, records);
    if written.is_err() {
        refusals::stamp(records);
        let _ = write_argument(rt, places.records, records);
    }
    written
}

// Writes DOTS, then RECORDS.
pub fn write_outputs(
    rt: &(impl Files + Env),
    places: Places,
    dots: &[u8],
    records: &mut [u8],
) -> Result<(), Error> {
    write_argument(rt, places.dots, dots)?;
    write_records(rt, places, records)
}
