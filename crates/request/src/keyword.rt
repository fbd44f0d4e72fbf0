//! The first words of lines.
ghost use Rattle.std.specs.Prelude.{◌≡◌, MatchOption};
ghost use Rattle.flat_model.specs.Machine.Event.{Event};
ghost use Rattle.flat_model.specs.Scripts.Grammar as grammar;
ghost use Rattle.request.specs.Inside.{word_of};

/// The first word of a line.
#[derive(Clone, Copy)]
pub(crate) enum Keyword {
    Socket,
    Bind,
    Connect,
    SendTo,
    Send,
    RecvFrom,
    Close,
    SetSockOpt,
    Rx,
    Tx,
    Tick,
    Stat,
    MbStat,
}

/// The keywords, those of the most lines first.
const KEYWORDS: [Keyword; 13] = [
    Keyword::Rx,
    Keyword::Tx,
    Keyword::RecvFrom,
    Keyword::SendTo,
    Keyword::Send,
    Keyword::Tick,
    Keyword::Socket,
    Keyword::Bind,
    Keyword::Connect,
    Keyword::Close,
    Keyword::SetSockOpt,
    Keyword::Stat,
    Keyword::MbStat,
];

impl Keyword {
    /// Returns its word.
    fn word(self) -> &'static [u8]
        ensures { result.now ≡ word_of self }
    {
        match self {
            Keyword::Socket => b"socket",
            Keyword::Bind => b"bind",
            Keyword::Connect => b"connect",
            Keyword::SendTo => b"sendto",
            Keyword::Send => b"send",
            Keyword::RecvFrom => b"recvfrom",
            Keyword::Close => b"close",
            Keyword::SetSockOpt => b"setsockopt",
            Keyword::Rx => b"rx",
            Keyword::Tx => b"tx",
            Keyword::Tick => b"tick",
            Keyword::Stat => b"stat",
            Keyword::MbStat => b"mbstat",
        }
    }
}

/// Returns the keyword for this word.
pub(crate) fn keyword_of(word: &[u8]) -> Option<Keyword>
    ensures { MatchOption result ((event : Event) → grammar.keyword event ≡ word.now → ⊥) (λ k. word.now ≡ word_of k) }
{
    for keyword in &KEYWORDS {
        if keyword.word() == word {
            return Some(*keyword);
        }
    }
    None
}
