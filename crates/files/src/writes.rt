// Register writes from a file: pairs of bytes, a port and a value.
ghost use Rattle.std.specs.Prelude.{◌≡◌};
ghost use Rattle.nick.specs.Refusals.{refusal_in};
ghost use Rattle.files.specs.Writes.{given as Writes·given, written_by};

use nick::{Refusal, State};

// What is given where two calls gave these: of two refusals the one of the smaller number. With `min` over a derived order the check
// leaves a goal on that order, with `min_by_key` one on every key.
#[tactic(auto, unfolding(crate::specs::Writes::given))]
fn given(a: Result<(), Refusal>, b: Result<(), Refusal>) -> Result<(), Refusal>
    ensures { refusal_in result ≡ Writes·given (refusal_in a) (refusal_in b) }
{
    match (a, b) {
        (Ok(()), b) => b,
        (a, Ok(())) => a,
        (Err(a), Err(b)) => Err(if u8::from(a) < u8::from(b) { a } else { b }),
    }
}

// Applies the writes in order, from the fresh state: the state that they leave, and the smallest refusal of them. An odd byte is left
// out. The state is promised after a refused write too, so it stands beside the Result.
#[tactic(auto, using(crate::proofs::Pairs::pair_at), unfolding(crate::specs::Writes::written_next))]
pub fn apply_writes(bytes: &[u8]) -> (State, Result<(), Refusal>)
    ensures state { result.0 ≡ (written_by bytes.now).state }
    ensures refusal { refusal_in result.1 ≡ (written_by bytes.now).refusal }
{
    let mut state = nick::fresh();
    let mut written = Ok(());
    let (pairs, _) = bytes.as_chunks::<2>();
    for &[port, value] in pairs {
        written = given(written, nick::write(&mut state, u32::from(port), value));
    }
    (state, written)
}
