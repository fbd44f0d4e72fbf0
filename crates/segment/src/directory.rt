//! The configurations of hosts by their places, and which host has an address.
ghost use Rattle.std.specs.Prelude.{◌≡◌, ◌<◌, ◌≤◌, ◌∷◌, ◌++◌, [], true, length, option_map, slice_get, vec_capacity, vec_len, IfSome, OnOk, Some};
ghost use Rattle.std.specs.List.{list_all};
ghost use Rattle.segment.specs.Segment.{all_apart, are_apart};

use flat_model::Config;
use std::alloc::{AllocError, Global};

/// An address, and the place of the host that has it.
#[derive(Clone, Copy)]
struct Entry {
    addr: u32,
    place: usize,
}

/// The configurations of hosts by their places, with addresses that differ. `entries` has the hosts in the order of
/// their addresses. Only speed depends on it, since `find` compares what it says with the configuration.
#[derive(Drop)]
pub(crate) struct Directory {
    pub(crate) configs: Vec<Config>,
    entries: Vec<Entry>,
    ghost apart: { all_apart configs.items ≡ true },
}

/// The place of the first entry whose address isn't below this one; the number of entries if there is none.
fn position(entries: &[Entry], addr: u32) -> usize
    ensures { result ≤ length entries.now }
{
    let mut low = 0;
    let mut high = entries.len();
    while low < high {
        let middle = low + (high - low) / 2;
        if entries[middle].addr < addr {
            low = middle + 1;
        } else {
            high = middle;
        }
    }
    low
}

impl Directory {
    /// No hosts.
    pub(crate) fn new(alloc: Global) -> Directory
        ensures { result.configs.items ≡ [] }
    {
        Directory {
            configs: Vec::new(alloc),
            entries: Vec::new(alloc),
        }
    }

    /// Allocates memory for one more host.
    pub(crate) fn reserve(&mut self) -> Result<(), AllocError>
        ensures same { self.new.configs.items ≡ self.old.configs.items }
        ensures room { OnOk result (vec_len self.new.configs < vec_capacity self.new.configs) }
    {
        self.configs.reserve(1)?;
        self.entries.reserve(1)
    }

    /// Adds a host, which gets the next place. Its addresses must differ from those of all others, and `reserve` has
    /// allocated the memory.
    pub(crate) fn add(&mut self, config: Config)
        requires room { vec_len self.old.configs < vec_capacity self.old.configs }
        requires apart { list_all (are_apart config) self.old.configs.items ≡ true }
        ensures { self.new.configs.items ≡ self.old.configs.items ++ config ∷ [] }
    {
        let entry = Entry {
            addr: config.addr,
            place: self.configs.len(),
        };
        let at = position(self.entries.as_slice(), config.addr);
        let _ = self.entries.insert(at, entry);
        self.configs.push_reserved(config);
    }

    /// The place of the host with this address. `None` if it isn't known.
    pub(crate) fn find(&self, addr: u32) -> Option<usize>
        ensures { IfSome result
            (λ place. option_map (λ c. c.addr) (slice_get self.now.configs.items place) ≡ Some addr) }
    {
        let entry = self.entries.get(position(self.entries.as_slice(), addr))?;
        let config = self.configs.get(entry.place)?;
        if config.addr == addr {
            Some(entry.place)
        } else {
            None
        }
    }
}
