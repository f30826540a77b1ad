// Runs a script from files, from the fresh state:
// nickrun RAM SCRIPT DOTS RECORDS [EXTERNAL]
//
// RECORDS is stamped before there are buffers, with one line, and again once it is known how many lines the script asks for.
#![tactic(auto)]

mod print;

ghost use Rattle.std.specs.Prelude.{◌≡◌, ◌*◌, cond, leb, length};
ghost use Rattle.nick.specs.Registers.{fresh_state};
ghost use Rattle.nick.specs.Sizes.{record_bytes};
ghost use Rattle.script.specs.Answers.{Runs};
ghost use Rattle.nickrun.specs.Buffers.{lines_lent};

use files::{Buffers, COMMANDS, DOTS_MOST, Error, Places, RAM, RECORDS_MOST};
use nick::RECORD_BYTES;
use print::print_ran;
use script::{Failure, Ran};
use std::env::Env;
use std::rt::Files;

// The arguments after RAM and SCRIPT.
const PLACES: Places = Places {
    dots: 3,
    records: 4,
    external: 5,
};

// How many bytes of dots and of records are lent to a run: a struct, so that both lengths are promised apart from the buffers.
#[derive(Clone, Copy, PartialEq, Eq)]
struct Lent {
    dots: usize,
    records: usize,
}

// The bytes of the longest script that is run: 65,536 steps.
const LONGEST: usize = 196608;

const USAGE: &str =
    "usage: nickrun RAM SCRIPT DOTS RECORDS [EXTERNAL]; SCRIPT is steps of three bytes, kind, port and data, at most 65,536; DOTS and RECORDS are two files, and neither is an input";

// The script, where it is not too long.
fn runnable(script: &[u8]) -> Result<&[u8], Error>
    ensures { result ≡ cond (leb (length script.now) 196608) (Ok script.entry) (Err Error.Usage) }
{
    if script.len() <= LONGEST {
        Ok(script)
    } else {
        Err(Error::Usage)
    }
}

// What is lent: dots and a record for each line that the script asks for. A run of more than 1,024 is refused before they count.
fn lent_for(script: &[u8]) -> Lent
    ensures { (result.dots ≡ 736 * lines_lent script.now) × (result.records ≡ record_bytes * lines_lent script.now) }
{
    let lines = script::lines_in(script).min(1024);
    Lent {
        dots: 736 * lines,
        records: RECORD_BYTES * lines,
    }
}

// Runs the script from the fresh state.
fn run_script(
    ram: &[u8],
    script: &[u8],
    dots: &mut [u8],
    records: &mut [u8],
    external: &[u8],
) -> Ran
    ensures { Runs fresh_state ram.now script.now dots.old records.old external.now dots.new records.new result }
{
    script::run(nick::fresh(), ram, script, dots, records, external)
}

// Runs what the files hold, writes what is painted and prints how the run ended.
fn run_files(
    rt: &(impl Files + Env + Print),
    ram: &[u8],
    script: &[u8],
    dots: &mut [u8; DOTS_MOST],
    records: &mut [u8; RECORDS_MOST],
    external: &[u8],
) -> Result<(), Error> {
    let lent = lent_for(script);
    let dots = &mut dots[..lent.dots];
    let records = &mut records[..lent.records];
    let ran = run_script(ram, script, dots, records, external);
    if let Err(Failure::Refused(refusal)) = ran.outcome {
        return Err(Error::Refused(refusal));
    }
    files::write_outputs(rt, PLACES, dots, records)?;
    print_ran(rt, ran);
    Ok(())
}

// Reads the files, stamps RECORDS for the lines that the script asks for, and runs.
fn run_in(
    rt: &(impl Files + Env + Print),
    buffers: &mut Buffers,
    script: &mut [u8; LONGEST + 1],
) -> Result<(), Error> {
    let (ram, script) = files::read_pair(rt, RAM, COMMANDS, &mut buffers.ram, script)?;
    let script = runnable(script)?;
    files::stamp_lines(rt, PLACES, Some(script::lines_in(script)))?;
    let external = files::read_optional(rt, PLACES.external, &mut buffers.external)?;
    run_files(
        rt,
        ram,
        script,
        &mut buffers.dots,
        &mut buffers.records,
        external,
    )
}

// Stamps RECORDS, and runs.
fn run(rt: &(impl Files + Env + Print)) -> Result<(), Error> {
    files::begin(rt, PLACES, None)?;
    files::run_in_buffers(|buffers| run_in(rt, buffers, &mut [0; LONGEST + 1]))
}

fn main(rt: HostRuntime) {
    files::report(&rt, run(&rt), USAGE);
}
