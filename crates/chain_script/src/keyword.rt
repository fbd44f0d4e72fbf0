//! The first words of lines.
ghost use Rattle.std.specs.Prelude.{◌≡◌, MatchOption};
ghost use Rattle.chain_script.specs.Lines.{Request, chain_keyword};
ghost use Rattle.chain_script.specs.Inside.Calls.{word_of};

/// The first word of a line.
#[derive(Clone, Copy)]
pub(crate) enum Keyword {
    User,
    Wire,
    CopyM,
    Prepend,
    PullUp,
    Adj,
    Split,
    Cat,
    CopyBack,
    CopyData,
    Show,
    Free,
    MbStat,
}

/// All keywords.
const KEYWORDS: [Keyword; 13] = [
    Keyword::User,
    Keyword::Wire,
    Keyword::CopyM,
    Keyword::Prepend,
    Keyword::PullUp,
    Keyword::Adj,
    Keyword::Split,
    Keyword::Cat,
    Keyword::CopyBack,
    Keyword::CopyData,
    Keyword::Show,
    Keyword::Free,
    Keyword::MbStat,
];

impl Keyword {
    /// Returns its word.
    fn word(self) -> &'static [u8]
        ensures { result.now ≡ word_of self }
    {
        match self {
            Keyword::User => b"user",
            Keyword::Wire => b"wire",
            Keyword::CopyM => b"copym",
            Keyword::Prepend => b"prepend",
            Keyword::PullUp => b"pullup",
            Keyword::Adj => b"adj",
            Keyword::Split => b"split",
            Keyword::Cat => b"cat",
            Keyword::CopyBack => b"copyback",
            Keyword::CopyData => b"copydata",
            Keyword::Show => b"show",
            Keyword::Free => b"free",
            Keyword::MbStat => b"mbstat",
        }
    }
}

/// Returns the keyword for this word.
pub(crate) fn keyword_of(word: &[u8]) -> Option<Keyword>
    ensures { MatchOption result ((request : Request) → chain_keyword request ≡ word.now → ⊥)
        (λ k. word.now ≡ word_of k) }
{
    for keyword in &KEYWORDS {
        if keyword.word() == word {
            return Some(*keyword);
        }
    }
    None
}
