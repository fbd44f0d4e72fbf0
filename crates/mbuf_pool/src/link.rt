//! Links between free buffers: the head of a free list, and the link from one free cluster to the next.
ghost use Rattle.std.specs.Prelude.{◌≡◌, ◌<◌, length};
ghost use Rattle.raw_cells.specs.Cells.{IsLink, read, cells_written};
ghost use Rattle.mbuf_pool.specs.Inside.Link.{link_in, link_bytes, link_part};

use byteorder::{ByteOrder, LittleEndian};
use raw_cells::{Buffer, Part, Region};
use std::marker::Model;

/// The stored number that means "no further buffer".
const NONE: u32 = 0xffff_ffff;

/// The first buffer of a list, or none. It is one word, like a link in memory. An option would take two words, and each
/// call would test and write both.
#[derive(Drop)]
pub(crate) struct First {
    number: u32,
}

impl Model for First {
    ghost use Rattle.std.specs.Prelude.{ℕ, Option};
    ghost use Rattle.mbuf_pool.specs.Inside.Link.{link_from};

    ghost Value = { Option ℕ };

    ghost view = { λ f. link_from f.number };
}

impl First {
    pub(crate) fn new(first: Option<u32>) -> First
        requires { IsLink first }
        ensures { result ≡ first }
    {
        First {
            number: first.unwrap_or(NONE),
        }
    }

    pub(crate) fn get(&self) -> Option<u32>
        ensures { result ≡ self.now }
    {
        if self.number == NONE {
            None
        } else {
            Some(self.number)
        }
    }
}

fn part_of(cluster: u32) -> Part
    ensures { result ≡ link_part cluster }
{
    Part {
        buffer: Buffer::Cluster(cluster),
        start: 0,
        len: 4,
    }
}

/// Returns the cluster after a free one.
pub(crate) fn next_cluster(region: &Region, cluster: u32) -> Option<u32>
    requires { cluster < region.now.clusters }
    ensures value { result ≡ link_in (read region.now (link_part cluster)) }
    ensures storable { IsLink result }
{
    let number = LittleEndian::read_u32(region.bytes(part_of(cluster)));
    if number == NONE { None } else { Some(number) }
}

fn write_link(bytes: &mut [u8], next: Option<u32>)
    requires { length bytes.old ≡ 4 }
    ensures { bytes.new ≡ link_bytes next }
{
    LittleEndian::write_u32(bytes, next.unwrap_or(NONE));
}

/// Links a free cluster to the one after it.
pub(crate) fn set_next_cluster(region: &mut Region, cluster: u32, next: Option<u32>)
    requires { cluster < region.old.clusters }
    ensures { region.new ≡ cells_written region.old (link_part cluster) (link_bytes next) }
{
    write_link(region.bytes_mut(part_of(cluster)), next);
}
