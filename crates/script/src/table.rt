// When a run is refused before its first step.
ghost use Rattle.std.specs.Prelude.{◌≡◌, IfOk};
ghost use Rattle.nick.specs.Refusals.{refusal_in};
ghost use Rattle.script.specs.Steps.{steps_of, lines_in};
ghost use Rattle.script.specs.Runs.{run_refusal};

use nick::{Ram, Refusal, State};
use painting::lines_refusal;

// How many scanlines a script asks for, the steps after a refused one included: kind 1 paints.
#[tactic(auto, using(crate::proofs::Chunks::lines_counted))]
pub fn lines_in(script: &[u8]) -> usize
    ensures { result ≡ lines_in (steps_of script.now) }
{
    let (steps, _) = script.as_chunks::<3>();
    steps.iter().filter(|step| step[0] == 1).count()
}

// The refusal before the first step: those of a painting of as many lines, but that none are no fault; then 19. Else the whole RAM.
#[tactic(auto, using(painting::proofs::Numbers::some_number), unfolding(crate::specs::Runs::run_refusal))]
pub fn refusal_of<'a>(
    state: State,
    ram: &'a [u8],
    script: &[u8],
    dots: &[u8],
    records: &[u8],
    external: &[u8],
) -> Result<&'a Ram, Refusal>
    ensures refusal { refusal_in result ≡ run_refusal state ram.now script.now dots.now records.now external.now }
    ensures same { IfOk result (λ whole. whole.now ≡ ram.now) }
{
    let lines = lines_in(script);
    let ram = lines_refusal(1024 < lines, state, ram, lines, dots, records, external)?;
    if script.len() % 3 != 0 {
        return Err(Refusal::Script);
    }
    Ok(ram)
}
