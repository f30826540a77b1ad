// A run's answer as a number.
ghost use Rattle.std.specs.Prelude.{◌≡◌};
ghost use Rattle.script.specs.Answers.{ended_by};
ghost use Rattle.packing.specs.Runs.{refusal_of, is_stopped, packed_run};

use script::{Failure, Ran};

// The refusal of a run, before the first step or at one; 0 for none.
pub fn run_refusal(outcome: Result<(), Failure>) -> u8
    ensures { result ≡ refusal_of (ended_by outcome) }
{
    match outcome {
        Ok(()) => 0,
        Err(Failure::Refused(refusal) | Failure::Stopped(refusal, _)) => u8::from(refusal),
    }
}

// Whether a run stopped at a step.
fn is_stopped(outcome: Result<(), Failure>) -> bool
    ensures { result ≡ is_stopped (ended_by outcome) }
{
    matches!(outcome, Err(Failure::Stopped(..)))
}

// Bits 0 to 7 the refusal, 8 latch, 9 enable, 10 request, 11 stopped at a step.
pub fn packed_ran(ran: Ran) -> u32
    ensures { result ≡ packed_run (ended_by ran.outcome) ran.bench ran.request }
{
    u32::from(run_refusal(ran.outcome))
        + (u32::from(ran.bench.latch) << 8)
        + (u32::from(ran.bench.enable) << 9)
        + (u32::from(ran.request) << 10)
        + (u32::from(is_stopped(ran.outcome)) << 11)
}
