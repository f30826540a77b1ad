// Steps: one, and those of a script in order up to the first that is refused.
ghost use Rattle.std.specs.Prelude.{◌≡◌, true, ◌||◌, ◌≤◌};
ghost use Rattle.nick.specs.Numbers.{is_set};
ghost use Rattle.nick.specs.Refusals.{Formed, Accepted, refusal_in};
ghost use Rattle.script.specs.Steps.{paints, steps_of, lines_in, is_paint, step_refusal, begins};
ghost use Rattle.painting.specs.PaintedFrame.{HasRoom};
ghost use Rattle.script.specs.Answers.{step_in, step_read, Does, DoesAll};

use crate::{Bench, Failure};
use nick::{RECORD_BYTES, Ram, Refusal, State};
use painting::next_line;

// A step of a script.
#[derive(Clone, Copy, PartialEq, Eq)]
pub enum Step {
    Write { port: u8, value: u8 },
    Paint,
    Enable(bool),
    Reset,
}

// The bench before the first step.
pub fn begun(state: State) -> Bench
    ensures { result ≡ begins state }
{
    Bench {
        state,
        latch: false,
        enable: false,
        lines: 0,
    }
}

// The step that kind, port and data make; there is none of a kind over 3. No TryFrom, since `do_step` says which refusal that is.
fn step_of(bytes: &[u8; 3]) -> Option<Step>
    ensures { step_read result ≡ step_in bytes.now }
{
    let [kind, port, value] = *bytes;
    match kind {
        0 => Some(Step::Write { port, value }),
        1 => Some(Step::Paint),
        2 => Some(Step::Enable(value % 2 == 1)),
        3 => Some(Step::Reset),
        _ => None,
    }
}

// Bit 1 of a record's first byte, VIRQ's edge, sets the latch.
fn latched(latch: bool, flags: u8) -> bool
    ensures { result ≡ latch || is_set 1 flags }
{
    latch || flags / 2 % 2 == 1
}

// Kind 1: paints the next line.
#[tactic(auto, using(crate::proofs::StepLaws::flags_there, crate::proofs::StepLaws::past_dots, crate::proofs::StepLaws::past_record), unfolding(crate::specs::Steps::after))]
fn paint_line(bench: &mut Bench, ram: &Ram, dots: &mut [u8], records: &mut [u8], external: &[u8])
    requires formed { Formed bench.old.state.scan }
    requires room { HasRoom bench.old.lines dots.old records.old }
    ensures { Does paints ram.now external.now bench.old dots.old dots.new records.old records.new bench.new }
{
    let y = bench.lines;
    bench.state = next_line(bench.state, ram, y, dots, records, external);
    bench.latch = latched(bench.latch, records[RECORD_BYTES * y]);
    bench.lines = y + 1;
}

// Does one step; a refused one changes nothing.
#[tactic(auto, using(std::proofs::lemmas::Grind::common_steps, crate::proofs::StepLaws::written_formed), unfolding(crate::specs::Steps::after))]
fn do_step(
    bench: &mut Bench,
    bytes: &[u8; 3],
    ram: &Ram,
    dots: &mut [u8],
    records: &mut [u8],
    external: &[u8],
) -> Result<(), Refusal>
    requires formed { Formed bench.old.state.scan }
    requires room { is_paint (step_in bytes.now) ≡ true → HasRoom bench.old.lines dots.old records.old }
    ensures refusal { refusal_in result ≡ step_refusal (step_in bytes.now) }
    ensures does { Does (step_in bytes.now) ram.now external.now bench.old dots.old dots.new records.old records.new bench.new }
{
    match step_of(bytes) {
        Some(Step::Write { port, value }) => nick::write(&mut bench.state, u32::from(port), value)?,
        Some(Step::Paint) => paint_line(bench, ram, dots, records, external),
        Some(Step::Enable(on)) => bench.enable = on,
        Some(Step::Reset) => bench.latch = false,
        None => return Err(Refusal::Script),
    }
    Ok(())
}

// A script's steps in order, up to the first that is refused. Each answer is taken apart by let .. else (docs/DECISIONS.md 20).
#[tactic(auto, using(std::proofs::lemmas::Grind::common_steps, crate::proofs::Ahead::ahead_here, crate::proofs::Ahead::ahead_none))]
pub fn do_steps(
    bench: &mut Bench,
    script: &[u8],
    ram: &Ram,
    dots: &mut [u8],
    records: &mut [u8],
    external: &[u8],
) -> Result<(), Failure>
    requires begun { bench.old ≡ begins bench.old.state }
    requires accepted { Accepted bench.old.state ram.now (lines_in (steps_of script.now)) dots.old records.old }
    ensures { DoesAll bench.old.state ram.now script.now external.now dots.old dots.new records.old records.new bench.new result }
{
    let (steps, _) = script.as_chunks();
    for (place, bytes) in steps.iter().enumerate() {
        let done = do_step(bench, bytes, ram, dots, records, external);
        let Ok(()) = done else {
            return Err(Failure::Stopped(done.unwrap_err(), place));
        };
    }
    Ok(())
}
