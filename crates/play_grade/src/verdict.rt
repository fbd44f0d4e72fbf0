//! The verdict on a hand-in.
ghost use Rattle.std.specs.Prelude.{◌≡◌};
ghost use Rattle.play_grade.specs.Verdicts as verdicts;

use crate::marks::Marks;
use play_script::Played;

/// The result of playing a hand-in, and its marks.
#[derive(Clone, Copy)]
pub struct Verdict {
    pub played: Played,
    pub marks: Marks,
}

impl Verdict {
    /// Returns whether it passes: it was played to its end, all of its lines could be read and all of its expectations
    /// were met, it has an answer, and no answer is wrong or missing.
    pub fn is_passed(&self) -> bool
        ensures { result ≡ verdicts.is_passed self.now }
    {
        self.played.outcome.is_ok() && (self.played.sound && self.marks.are_full())
    }
}
