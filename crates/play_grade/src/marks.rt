//! The numbers of right, wrong and missing answers.
ghost use Rattle.std.specs.Prelude.{◌≡◌};
ghost use Rattle.play_grade.specs.Marks as marks;

/// The mark for one answer.
#[derive(Clone, Copy)]
pub enum Mark {
    /// It equals the key's answer.
    Right,
    /// It differs from the key's answer.
    Wrong,
    /// There is no answer, or only `_`, `?` or `..`, or the line that it belongs to is missing.
    Missing,
}

/// The marks of a hand-in. Each number stops at the largest 64-bit number.
#[derive(Clone, Copy)]
pub struct Marks {
    pub right: u64,
    pub wrong: u64,
    pub missing: u64,
    /// The line of the key whose answer is the first that isn't right, counted from 1.
    pub first: Option<u64>,
}

impl Marks {
    /// Returns the marks before the first answer.
    pub(crate) fn none() -> Marks
        ensures { result ≡ marks.no_marks }
    {
        Marks {
            right: 0,
            wrong: 0,
            missing: 0,
            first: None,
        }
    }

    /// Returns the marks with one more answer, for the key's line of this number.
    pub(crate) fn counted(self, mark: Mark, number: u64) -> Marks
        ensures { result ≡ marks.counted mark number self }
    {
        let first = match self.first {
            Some(first) => Some(first),
            None => Some(number),
        };
        match mark {
            Mark::Right => Marks {
                right: self.right.saturating_add(1),
                ..self
            },
            Mark::Wrong => Marks {
                wrong: self.wrong.saturating_add(1),
                first,
                ..self
            },
            Mark::Missing => Marks {
                missing: self.missing.saturating_add(1),
                first,
                ..self
            },
        }
    }

    /// Returns whether there is an answer, and all answers are right.
    pub fn are_full(&self) -> bool
        ensures { result ≡ marks.are_full self.now }
    {
        self.right > 0 && (self.wrong == 0 && self.missing == 0)
    }
}
