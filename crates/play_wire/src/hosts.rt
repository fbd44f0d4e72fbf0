//! The hosts of a script, and the wire that joins them.
ghost use Rattle.std.specs.Prelude.{◌≡◌, ◌≤◌, ◌++◌, ◌∷◌, [], IfOk, IfSome, MatchResult, length};
ghost use Rattle.segment.specs.Inside.{view};
ghost use Rattle.segment.specs.Chances.{seeded};
ghost use Rattle.segment.specs.Segment.{no_hosts};
ghost use Rattle.play_wire.specs.Acts.{AreLedTo};

use crate::capture_out::{self, Capture};
use crate::fault::Fault;
use crate::halves::join;
use crate::link::link_of;
use crate::log::Log;
use crate::names::{NAME, is_name, place_of};
use crate::passed::Counted;
use crate::spare::Spare;
use flat_model::Config;
use play_script::{DEFAULTS, SettingFault, settings_of};
use request::address_of;
use script_loop::{Buffer, Sink, first_word};
use segment::{Link, Segment};
use std::alloc::Global;

/// The most packets that are in flight at once.
pub(crate) const PACKETS: u16 = 4096;

/// The hosts, by their places, and the wire.
pub(crate) struct Hosts<T: Sink + Drop> {
    pub(crate) alloc: Global,
    pub(crate) segment: Segment,
    pub(crate) names: Vec<Buffer<NAME>>,
    /// Whether the line `wire` was executed.
    pub(crate) wired: bool,
    /// The capture of the wire.
    pub(crate) capture: Capture<T>,
    pub(crate) spare: Spare,
    /// The counters of each host before a line.
    pub(crate) counts: Vec<Counted>,
    /// The log of what passes on the wire during a line.
    pub(crate) log: Log,
}

/// Returns the configuration that the words after a host's name give, from these defaults.
fn config_of(settings: Option<&[u8]>, defaults: Config) -> Result<Config, Fault> {
    let Some(words) = settings else {
        return Ok(defaults);
    };
    match settings_of(words, defaults) {
        Ok(config) => Ok(config),
        Err(fault) => Err(Fault::Setting(fault)),
    }
}

/// Returns the link that the words after a host's name give, if they begin with `ether`, and the settings after it.
fn link_in(words: Option<&[u8]>, place: usize) -> Result<(Option<Link>, Option<&[u8]>), Fault> {
    let Some(text) = words else {
        return Ok((None, None));
    };
    let (word, rest) = first_word(text);
    if word != b"ether".as_slice() {
        return Ok((None, words));
    }
    let (link, settings) = link_of(rest, place)?;
    Ok((Some(link), settings))
}

/// Returns the address after the last `--addr` among these words, or the default address.
fn addr_in(words: &[u8]) -> u32 {
    let mut addr = DEFAULTS.addr;
    let mut is_next = false;
    let mut rest = Some(words);
    'words: while let Some(text) = rest {
        let (word, after) = first_word(text);
        if is_next {
            addr = address_of(word).unwrap_or(addr);
        }
        is_next = word == b"--addr".as_slice();
        rest = after;
    }
    addr
}

/// Returns the configuration of a host with this link. Without `--bcast`, its broadcast address is the last address of
/// the network.
fn config_on(link: &Link, settings: Option<&[u8]>) -> Result<Config, Fault> {
    let words = settings.unwrap_or(b"");
    if has_word(words, b"--bcast") {
        return config_of(settings, DEFAULTS);
    }
    // Settings with an address need a broadcast address near it.
    let near = Config {
        bcast: addr_in(words),
        ..DEFAULTS
    };
    let config = config_of(settings, near)?;
    Ok(Config {
        bcast: config.addr | !link.mask,
        ..config
    })
}

/// Returns the link and the configuration that the words after a host's name give, by its place.
fn settings_in(words: Option<&[u8]>, place: usize) -> Result<(Option<Link>, Config), Fault> {
    let (link, settings) = link_in(words, place)?;
    let config = match &link {
        Some(link) => config_on(link, settings)?,
        None => config_of(settings, DEFAULTS)?,
    };
    Ok((link, config))
}

/// Returns whether a word is among these.
fn has_word(words: &[u8], wanted: &[u8]) -> bool {
    let mut rest = Some(words);
    'words: while let Some(text) = rest {
        let (word, after) = first_word(text);
        if word == wanted {
            return true;
        }
        rest = after;
    }
    false
}

/// Returns how many words there are.
fn count_words(words: &[u8]) -> u64 {
    let mut count = 0u64;
    let mut rest = Some(words);
    'words: while let Some(text) = rest {
        let (_, after) = first_word(text);
        count = count.saturating_add(1);
        rest = after;
    }
    count
}

/// Returns whether the words are all of these names, each once.
fn are_all(words: &[u8], names: &[Buffer<NAME>]) -> bool {
    if count_words(words) != names.len() as u64 {
        return false;
    }
    for place in 0..names.len() {
        if !has_word(words, names[place].as_slice()) {
            return false;
        }
    }
    true
}

impl<T: Sink + Drop> Hosts<T> {
    /// Returns hosts before the first one, with a wire of this seed. `None` if host memory runs out.
    pub(crate) fn new(alloc: Global, seed: u64, capture: Capture<T>) -> Option<Hosts<T>>
        ensures { IfSome result (λ h. (view h.segment ≡ record (no_hosts PACKETS) { random = seeded seed })
            × (h.names.items ≡ [])) }
    {
        let Ok(log) = Log::new(alloc) else {
            capture_out::end(capture);
            return None;
        };
        let Ok(mut segment) = Segment::new(alloc, PACKETS) else {
            capture_out::end(capture);
            return None;
        };
        segment.seed(seed);
        match Spare::new(alloc) {
            Some(spare) => Some(Hosts {
                alloc,
                segment,
                names: Vec::new(alloc),
                wired: false,
                capture,
                spare,
                counts: Vec::new(alloc),
                log,
            }),
            None => {
                segment.end();
                capture_out::end(capture);
                None
            }
        }
    }

    /// Returns the link and the configuration of a line `host NAME ..`. Errors, in this order: the word isn't a name;
    /// there is a wire already; another host has the name; those of `link_of` and `config_of`.
    fn host_of(&self, name: &[u8], words: Option<&[u8]>) -> Result<(Option<Link>, Config), Fault>
        ensures { IfOk result (λ _. length name.now ≤ NAME) }
    {
        if !is_name(name) {
            return Err(Fault::NoName);
        }
        if self.wired {
            return Err(Fault::Wired);
        }
        if place_of(self.names.as_slice(), name).is_some() {
            return Err(Fault::NameTaken);
        }
        settings_in(words, self.names.len())
    }

    /// `host NAME ..`: a host with this link and these settings has the next place.
    pub(crate) fn add(&mut self, name: &[u8], words: Option<&[u8]>) -> Result<(), Fault>
        ensures moves { AreLedTo (view self.old.segment) (view self.new.segment) }
        ensures names { MatchResult result (λ _. self.new.names.items ≡ self.old.names.items ++ name.now ∷ [])
            (λ _. self.new.names.items ≡ self.old.names.items) }
    {
        let (link, config) = self.host_of(name, words)?;
        let Ok(mut buffer) = Buffer::new(self.alloc) else {
            return Err(Fault::Setting(SettingFault::Memory));
        };
        buffer.append(name);
        if self.names.reserve(1).is_err() || self.counts.reserve(1).is_err() {
            return Err(Fault::Setting(SettingFault::Memory));
        }
        match join(&mut self.segment, self.alloc, config, link) {
            Ok(()) => {
                self.capture.choose(&self.segment);
                self.names.push_reserved(buffer);
                self.counts.push_reserved(Counted::none());
                Ok(())
            }
            Err(fault) => Err(Fault::of_join(fault)),
        }
    }

    /// `wire NAME ..`: all hosts are joined.
    pub(crate) fn wire(&mut self, rest: Option<&[u8]>) -> Result<(), Fault>
        ensures segment { self.new.segment ≡ self.old.segment }
        ensures names { self.new.names ≡ self.old.names }
    {
        if self.wired {
            return Err(Fault::Wired);
        }
        let Some(words) = rest else {
            return Err(Fault::NotAll);
        };
        if !are_all(words, self.names.as_slice()) {
            return Err(Fault::NotAll);
        }
        self.wired = true;
        Ok(())
    }

    /// Frees all. Returns whether the whole capture was written.
    pub(crate) fn end(self) -> bool {
        let Hosts {
            alloc: _,
            segment,
            names: _names,
            wired: _,
            capture,
            spare,
            counts: _counts,
            log: _log,
        } = self;
        spare.end();
        segment.end();
        capture_out::end(capture)
    }
}
