// Which dots differ.
ghost use Rattle.std.specs.Prelude.{◌≡◌, ◌<◌, ◌==◌, not, length, sum_by, position, IfSome};
ghost use Rattle.std.specs.List.{zip};
ghost use Rattle.lists.specs.Number.{number};
ghost use Rattle.comparison.specs.Comparison.{first_from};
ghost use Rattle.comparison.specs.Answers.{place_of};

use crate::Place;
use crate::pair::Pair;

impl Pair<'_> {
    // How many dots differ.
    pub fn count_differing(self) -> u32
        ensures { result ≡ sum_by (λ dot. number (not (dot.0 == dot.1))) (zip self.entry.capture.now self.entry.frame.now) }
    {
        self.capture
            .iter()
            .zip(self.frame)
            .map(|(c, f)| u32::from(c != f))
            .sum()
    }

    // The index of the first dot that differs.
    fn first_index(self) -> Option<usize>
        ensures first { result ≡ position (λ dot. not (dot.0 == dot.1)) (zip self.entry.capture.now self.entry.frame.now) }
        ensures inside { IfSome result (λ i. i < length self.entry.capture.now) }
    {
        self.capture
            .iter()
            .zip(self.frame)
            .position(|(c, f)| c != f)
    }

    // The first dot that differs.
    #[tactic(auto, using(crate::proofs::Differing::first_is))]
    pub fn first_differing(self) -> Option<Place>
        ensures { place_of result ≡ first_from 0 (zip self.entry.capture.now self.entry.frame.now) }
    {
        let i = self.first_index()?;
        Some(Place {
            line: (i / 736) as u16,
            dot: (i % 736) as u16,
        })
    }
}
