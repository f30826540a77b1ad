// When a comparison is refused: the smallest number is given, and of two sides at fault the capture.
ghost use Rattle.std.specs.Prelude.{◌≡◌};
ghost use Rattle.nick.specs.Refusals.{number_of};
ghost use Rattle.comparison.specs.Comparison.{no_side, told, of_side, comparison_refusal};
ghost use Rattle.comparison.specs.Answers.{told_in};

use crate::{Named, Refused, Side};
use nick::{RECORD_BYTES, Refusal};
use refusals::{is_bad_height, is_bad_length, is_stamped};

// A refusal that names the side at fault, if one is: by two tests, as the rules' `of_side` takes them.
fn of_side(refusal: Refusal, in_capture: bool, in_frame: bool) -> Result<(), Refused>
    ensures { told_in result ≡ of_side (number_of refusal) in_capture in_frame (told 0 no_side) }
{
    let side = match (in_capture, in_frame) {
        (true, _) => Named::Capture,
        (false, true) => Named::Frame,
        (false, false) => return Ok(()),
    };
    Err(Refused {
        refusal,
        side: Some(side),
    })
}

// The refusal of a comparison: the tests in the order of their numbers.
#[tactic(auto, unfolding(crate::specs::Comparison::comparison_refusal))]
pub fn check(height: usize, capture: Side<'_>, frame: Side<'_>) -> Result<(), Refused>
    ensures { told_in result ≡ comparison_refusal height capture.entry.dots.now capture.entry.records.now frame.entry.dots.now frame.entry.records.now }
{
    if is_bad_height(height) {
        return Err(Refused {
            refusal: Refusal::Height,
            side: None,
        });
    }
    let bad_dots = |side: Side<'_>| is_bad_length(side.dots.len(), 736, height);
    of_side(Refusal::DotsLength, bad_dots(capture), bad_dots(frame))?;
    let bad_records = |side: Side<'_>| is_bad_length(side.records.len(), RECORD_BYTES, height);
    of_side(
        Refusal::RecordsLength,
        bad_records(capture),
        bad_records(frame),
    )?;
    of_side(
        Refusal::StampedRecord,
        is_stamped(capture.records),
        is_stamped(frame.records),
    )
}
