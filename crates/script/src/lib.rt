// The bench's scripts: steps of three bytes that write ports, paint scanlines, and serve the interrupt latch of the sound chip.
// specs/Steps.antt and specs/Runs.antt have the rules.
#![tactic(auto)]

mod steps;
mod table;

ghost use Rattle.std.specs.Prelude.{◌≡◌};
ghost use Rattle.script.specs.Steps.{begins};
ghost use Rattle.script.specs.Runs.{requests};
ghost use Rattle.script.specs.Answers.{Steps, Runs};

use nick::{RECORD_BYTES, Refusal, State};
use refusals::stamp;
use steps::{begun, do_steps};
pub use table::lines_in;
use table::refusal_of;

// The bench as it stands: the chip's state, the interrupt latch and enable, and how many scanlines are painted.
#[derive(Clone, Copy, PartialEq, Eq)]
pub struct Bench {
    pub state: State,
    pub latch: bool,
    pub enable: bool,
    pub lines: usize,
}

// Why a run does not do all its steps: it is refused before the first, or stopped at one, which has a place, from 0. The rules have the
// two apart.
#[derive(Clone, Copy, PartialEq, Eq)]
pub enum Failure {
    Refused(Refusal),
    Stopped(Refusal, usize),
}

// What a run answers. The bench stands after a refusal too, so it is beside the outcome; the request is the rules' own.
#[derive(Clone, Copy, PartialEq, Eq)]
pub struct Ran {
    pub outcome: Result<(), Failure>,
    pub bench: Bench,
    pub request: bool,
}

// The interrupt request, given while latch and enable are both on.
fn is_requested(bench: Bench) -> bool
    ensures { result ≡ requests bench }
{
    bench.latch && bench.enable
}

// Does the steps of a script up to the first refused one, or none where the run is refused before.
#[tactic(auto, using(std::proofs::lemmas::Grind::common_steps, crate::proofs::RunTable::run_accepted, crate::proofs::RunTable::steps_refused, crate::proofs::RunTable::ran_is), unfolding(crate::specs::Runs::ran))]
fn run_steps(
    bench: &mut Bench,
    ram: &[u8],
    script: &[u8],
    dots: &mut [u8],
    records: &mut [u8],
    external: &[u8],
) -> Result<(), Failure>
    requires { bench.old ≡ begins bench.old.state }
    ensures { Steps bench.old.state ram.now script.now dots.old records.old external.now dots.new records.new bench.new result }
{
    let ram = refusal_of(bench.state, ram, script, dots, records, external).map_err(
        Failure::Refused,
    )?;
    do_steps(bench, script, ram, dots, records, external)
}

// Runs a script up to the first refused step. Lines that are not painted keep their dots, and their records are stamped.
#[tactic(auto, using(crate::proofs::RunTable::stamped_rest))]
pub fn run(
    state: State,
    ram: &[u8],
    script: &[u8],
    dots: &mut [u8],
    records: &mut [u8],
    external: &[u8],
) -> Ran
    ensures { Runs state ram.now script.now dots.old records.old external.now dots.new records.new result }
{
    let mut bench = begun(state);
    let outcome = run_steps(&mut bench, ram, script, dots, records, external);
    let painted = RECORD_BYTES * bench.lines;
    stamp(&mut records[painted..]);
    Ran {
        outcome,
        bench,
        request: is_requested(bench),
    }
}
