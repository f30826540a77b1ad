// A capture compared with a frame, dot by dot: how many dots differ, the first of them, and how far the levels are off.
// specs/Comparison.antt has the rules.
#![tactic(auto)]

mod dots;
mod pair;
mod ranges;
mod table;

ghost use Rattle.std.specs.Prelude.{◌≡◌};
ghost use Rattle.std.specs.List.{zip};
ghost use Rattle.comparison.specs.Comparison.{found_in, comparison};
ghost use Rattle.comparison.specs.Answers.{found_by, answered};

use nick::Refusal;
use pair::Pair;
pub use ranges::Ranges;
use table::check;

// A capture or a frame: its dots, and its records.
#[derive(Clone, Copy)]
pub struct Side<'a> {
    pub dots: &'a [u8],
    pub records: &'a [u8],
}

// The side that a refusal names.
#[derive(Clone, Copy, PartialEq, Eq)]
pub enum Named {
    Capture,
    Frame,
}

// Why a comparison is refused, and the side at fault where the refusal names one: the pair that the rules call `Told`.
#[derive(Clone, Copy, PartialEq, Eq)]
pub struct Refused {
    pub refusal: Refusal,
    pub side: Option<Named>,
}

// Where a dot is: its line, and its place in the line.
#[derive(Clone, Copy, PartialEq, Eq)]
pub struct Place {
    pub line: u16,
    pub dot: u16,
}

// A colour's three levels.
#[derive(Clone, Copy, PartialEq, Eq)]
pub enum Channel {
    Red,
    Green,
    Blue,
}

// The smallest and the largest difference of levels, capture minus frame.
#[derive(Clone, Copy, PartialEq, Eq)]
pub struct Range {
    pub smallest: i32,
    pub largest: i32,
}

// What is found: how many dots differ, the first of them, and the differences of levels.
#[derive(Clone, Copy, PartialEq, Eq)]
pub struct Differences {
    pub count: u32,
    pub first: Option<Place>,
    pub ranges: Ranges,
}

// Compares the dots of two sides.
#[tactic(auto, using(crate::proofs::Differing::count_is), unfolding(crate::specs::Comparison::found_in))]
fn compare_dots(pair: Pair<'_>) -> Differences
    ensures { found_by result ≡ found_in (zip pair.entry.capture.now pair.entry.frame.now) }
{
    Differences {
        count: pair.count_differing(),
        first: pair.first_differing(),
        ranges: pair.ranges(),
    }
}

// Compares a capture with a frame of the same height, or refuses. The height stands apart, as in the rules, since it may be that of
// neither side.
#[tactic(auto, using(crate::proofs::RefusalTable::comparable), unfolding(crate::specs::Comparison::comparison))]
pub fn compare(height: usize, capture: Side<'_>, frame: Side<'_>) -> Result<Differences, Refused>
    ensures { answered result ≡ comparison height capture.entry.dots.now capture.entry.records.now frame.entry.dots.now frame.entry.records.now }
{
    check(height, capture, frame)?;
    Ok(compare_dots(Pair {
        capture: capture.dots,
        frame: frame.dots,
    }))
}
