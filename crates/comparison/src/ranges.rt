// How far the levels are off.
ghost use Rattle.std.specs.Prelude.{◌≡◌, fold};
ghost use Rattle.std.specs.List.{zip};
ghost use Rattle.comparison.specs.Comparison.{level_of, difference as Comparison·difference, differences, range_of};
ghost use Rattle.comparison.specs.Widened.{range_at as Widened·range_at, widened, ranges_at as Widened·ranges_at, with_dot};
ghost use Rattle.comparison.specs.declared.Channel.TheVariants.{Red, Green, Blue};

use crate::pair::Pair;
use crate::{Channel, Range};
use nick::{Levels, levels_of};

// The range of each level.
#[derive(Clone, Copy, PartialEq, Eq)]
pub struct Ranges {
    pub red: Range,
    pub green: Range,
    pub blue: Range,
}

// One of a colour's levels. The rules name a level by its channel, so this is a match and no closure.
fn level(channel: Channel, levels: Levels) -> u8
    ensures { result ≡ level_of channel levels }
{
    match channel {
        Channel::Red => levels.red,
        Channel::Green => levels.green,
        Channel::Blue => levels.blue,
    }
}

// How far the level of a dot, its colours in the capture and in the frame, is off: capture minus frame.
#[tactic(auto, using(crate::proofs::Colours::level_most), unfolding(crate::specs::Comparison::difference))]
fn difference(channel: Channel, dot: (u8, u8)) -> i32
    ensures { result ≡ Comparison·difference channel dot }
{
    let (capture, frame) = dot;
    i32::from(level(channel, levels_of(capture))) - i32::from(level(channel, levels_of(frame)))
}

// The range of one difference. A running smallest and largest, in i32, is the form that document 01 names.
fn range_at(first: i32) -> Range
    ensures { result ≡ Widened·range_at first }
{
    Range {
        smallest: first,
        largest: first,
    }
}

// A range with one difference more.
#[tactic(auto, unfolding(crate::specs::Widened::widened))]
fn widened(range: Range, next: i32) -> Range
    ensures { result ≡ widened range next }
{
    Range {
        smallest: range.smallest.min(next),
        largest: range.largest.max(next),
    }
}

// The ranges of one dot. The rules have the three levels by name, so no array holds them.
fn ranges_at(dot: (u8, u8)) -> Ranges
    ensures { result ≡ Widened·ranges_at dot }
{
    Ranges {
        red: range_at(difference(Channel::Red, dot)),
        green: range_at(difference(Channel::Green, dot)),
        blue: range_at(difference(Channel::Blue, dot)),
    }
}

// The ranges with one dot more.
fn with_dot(ranges: Ranges, dot: (u8, u8)) -> Ranges
    ensures { result ≡ with_dot ranges dot }
{
    Ranges {
        red: widened(ranges.red, difference(Channel::Red, dot)),
        green: widened(ranges.green, difference(Channel::Green, dot)),
        blue: widened(ranges.blue, difference(Channel::Blue, dot)),
    }
}

impl Pair<'_> {
    // The given ranges with all dots more.
    fn with_dots(self, ranges: Ranges) -> Ranges
        ensures { result ≡ fold with_dot ranges (zip self.entry.capture.now self.entry.frame.now) }
    {
        self.capture
            .iter()
            .zip(self.frame)
            .fold(ranges, |ranges, (c, f)| with_dot(ranges, (*c, *f)))
    }

    // The smallest and the largest difference of each level over all dots.
    #[tactic(auto, using(crate::proofs::Ranged::ranged))]
    pub fn ranges(self) -> Ranges
        ensures red { result.red ≡ range_of (differences Red (zip self.entry.capture.now self.entry.frame.now)) }
        ensures green { result.green ≡ range_of (differences Green (zip self.entry.capture.now self.entry.frame.now)) }
        ensures blue { result.blue ≡ range_of (differences Blue (zip self.entry.capture.now self.entry.frame.now)) }
    {
        // The first dot is taken in again, which changes nothing.
        self.with_dots(ranges_at((self.capture[0], self.frame[0])))
    }
}
