// The refusal table of every call that paints lines, with the call's own test of its height.
ghost use Rattle.std.specs.Prelude.{◌≡◌, false, ◌≤◌, IfOk};
ghost use Rattle.nick.specs.Refusals.{refusal_in, lines_refusal};

use nick::{RECORD_BYTES, Ram, Refusal, State};
use refusals::{is_bad_external, is_bad_length, is_ill_formed, whole};

// Why a call that paints `height` lines is refused, the tests being made in the order of their numbers; else the whole RAM. The
// call's own test of the height, number 5, is made before.
#[tactic(auto, unfolding(nick::specs::Refusals::lines_refusal))]
pub fn lines_refusal<'a>(
    bad_height: bool,
    state: State,
    ram: &'a [u8],
    height: usize,
    dots: &[u8],
    records: &[u8],
    external: &[u8],
) -> Result<&'a Ram, Refusal>
    requires { bad_height ≡ false → height ≤ 1024 }
    ensures refusal { refusal_in result ≡ lines_refusal bad_height state ram.now height dots.now records.now external.now }
    ensures same { IfOk result (λ whole. whole.now ≡ ram.now) }
{
    if is_ill_formed(state.scan) {
        return Err(Refusal::IllFormedState);
    }
    let ram = whole(ram)?;
    if bad_height {
        return Err(Refusal::Height);
    }
    if is_bad_length(dots.len(), 736, height) {
        return Err(Refusal::DotsLength);
    }
    if is_bad_length(records.len(), RECORD_BYTES, height) {
        return Err(Refusal::RecordsLength);
    }
    if is_bad_external(external.len(), height) {
        return Err(Refusal::ExternalLength);
    }
    Ok(ram)
}
