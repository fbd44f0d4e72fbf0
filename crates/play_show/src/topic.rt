//! The query of a line.
ghost use Rattle.std.specs.Prelude.{◌≡◌};
ghost use Rattle.play_show.specs.Topics.{topic_asked};

/// A query about a machine (this project's own).
#[derive(Clone, Copy, Debug, PartialEq, Eq)]
pub enum Topic {
    /// Its sockets: what each is bound and connected to, its options, and what waits in it.
    Sockets,
    /// Its unfinished datagrams: their keys, the ticks that each has left, and which bytes of it are held.
    Unfinished,
    /// The packets that wait for the link.
    Queue,
    /// Each counter, with what it counts.
    Counters,
    /// How much of the pool is free.
    Pool,
}

/// Returns the query of a plain line, or `None` if it has none.
pub fn topic_of(plain: &[u8]) -> Option<Topic>
    ensures { result ≡ topic_asked plain.now }
{
    if plain == b"show sockets".as_slice() {
        return Some(Topic::Sockets);
    }
    if plain == b"show unfinished".as_slice() {
        return Some(Topic::Unfinished);
    }
    if plain == b"show queue".as_slice() {
        return Some(Topic::Queue);
    }
    if plain == b"show counters".as_slice() {
        return Some(Topic::Counters);
    }
    if plain == b"show pool".as_slice() {
        return Some(Topic::Pool);
    }
    None
}
