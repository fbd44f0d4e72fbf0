//! The page's settings of a machine, as they are in memory.
ghost use Rattle.std.specs.Prelude.{◌≡◌};
ghost use Rattle.page.specs.Served.{machine_config, sizes_of};

use chain_script::Sizes;
use link_script::Config;

/// The machine of a script of socket calls: `struct page_machine`, of 20 bytes. Its fields are those of `Config`, in
/// C's layout. `CConfig` of libbsdudp is another library's struct, so that each can change by itself.
#[repr(C)]
pub struct PageMachine {
    /// The address of the one interface.
    pub addr: u32,
    /// The broadcast address of its network.
    pub bcast: u32,
    /// The number of mbufs in the pool.
    pub mbufs: u32,
    /// The number of clusters in the pool.
    pub clusters: u32,
    /// The MTU of the link: the longest packet in bytes.
    pub mtu: u16,
    /// The identification of the first datagram sent.
    pub first_id: u16,
}

impl PageMachine {
    /// Returns the same settings for the stack.
    pub(crate) fn config(&self) -> Config
        ensures { result ≡ machine_config self.now }
    {
        Config {
            addr: self.addr,
            bcast: self.bcast,
            mtu: self.mtu,
            mbufs: self.mbufs,
            clusters: self.clusters,
            first_id: self.first_id,
        }
    }
}

/// The pool of a script of calls on chains: `struct page_pool`, of 8 bytes.
#[repr(C)]
pub struct PagePool {
    /// The number of mbufs in the pool.
    pub mbufs: u32,
    /// The number of clusters in the pool.
    pub clusters: u32,
}

impl PagePool {
    /// Returns the same settings for the pool.
    pub(crate) fn sizes(&self) -> Sizes
        ensures { result ≡ sizes_of self.now }
    {
        Sizes {
            mbufs: self.mbufs,
            clusters: self.clusters,
        }
    }
}
