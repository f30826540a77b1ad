// What a run leaves in the state's bytes, and in the place that is lent.
ghost use Rattle.std.specs.Prelude.{◌≡◌};
ghost use Rattle.script.specs.Answers.{ended_by};
ghost use Rattle.packing.specs.Runs.{place_after};
ghost use Rattle.nick_c.specs.Calls.{ran_state};

use encoding::{STATE_BYTES, state_bytes};
use nick::State;
use script::Failure;

// Stores the state after a run, unless it was refused before its first step.
pub fn keep_ran(outcome: Result<(), Failure>, next: State, state: &mut [u8; STATE_BYTES])
    ensures { state.new ≡ ran_state (ended_by outcome) next state.old }
{
    if let Err(Failure::Refused(_)) = outcome {
        return;
    }
    *state = state_bytes(next);
}

// Stores the place of the step that a run stopped at, if it stopped at one.
pub fn put_place(outcome: Result<(), Failure>, place: &mut u64)
    ensures { place.new ≡ place_after (ended_by outcome) place.old }
{
    if let Err(Failure::Stopped(_, at)) = outcome {
        *place = at as u64;
    }
}
