// The lines that say what a comparison answers.
ghost use Rattle.std.specs.Prelude.{◌≡◌, ◌+◌, ◌*◌, ◌<◌, length, get_or};
ghost use Rattle.nickcompare.specs.FirstDot.{LiesIn};

use comparison::{Differences, Named, Place, Range, Ranges, Refused};
use std::fmt;

// A range of differences. Display is not for Range itself: the words are this program's.
#[derive(Clone, Copy, PartialEq, Eq)]
struct Span(Range);

impl fmt::Display for Span {
    ghost use Rattle.std.specs.Prelude.{◌++◌, codes, Some};
    ghost use Rattle.std.specs.Fmt.{signed_decimal};

    ghost output = { λ span. Some (signed_decimal span.0.smallest ++ (codes " to " ++ signed_decimal span.0.largest)) };

    fn fmt<W: fmt::Write>(&self, f: &mut fmt::Formatter<W>) -> fmt::Result {
        let Range { smallest, largest } = self.0;
        write!(f, "{smallest} to {largest}")
    }
}

// Prints a refusal, with the side that it names.
pub fn print_refused(rt: &impl Print, refused: Refused) {
    let named = match refused.side {
        None => "",
        Some(Named::Capture) => "capture: ",
        Some(Named::Frame) => "frame: ",
    };
    files::print_refusal_of(rt, &named, refused.refusal);
}

// The colour of a dot.
fn colour_at(dots: &[u8], place: Place) -> u8
    requires { 736 * place.line + place.dot < length dots.now }
    ensures { result ≡ get_or dots.now (736 * place.line + place.dot) 0 }
{
    dots[736 * usize::from(place.line) + usize::from(place.dot)]
}

// Prints the first dot's place and its two colours.
fn print_dot(rt: &impl Print, place: Place, capture: &[u8], frame: &[u8])
    requires capture { 736 * place.line + place.dot < length capture.now }
    requires frame { 736 * place.line + place.dot < length frame.now }
{
    let Place { line, dot } = place;
    let _ = print!(rt; "first: line {line}, dot {dot}\ncapture: ");
    files::print_colour(rt, colour_at(capture, place));
    let _ = rt.print("frame: ");
    files::print_colour(rt, colour_at(frame, place));
}

// Prints what is found.
pub fn print_differences(rt: &impl Print, found: Differences, capture: &[u8], frame: &[u8])
    requires { LiesIn found.first capture.now × LiesIn found.first frame.now }
{
    let dots = capture.len();
    let _ = println!(rt; "{} of {dots} dots differ", found.count);
    match found.first {
        None => {
            let _ = rt.println("first: none");
        }
        Some(place) => print_dot(rt, place, capture, frame),
    }
    let Ranges { red, green, blue } = found.ranges;
    let (red, green, blue) = (Span(red), Span(green), Span(blue));
    let _ = println!(rt; "capture minus frame: red {red}, green {green}, blue {blue}");
}
