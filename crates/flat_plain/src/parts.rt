//! How a datagram is fragmented for a link.
ghost use Rattle.std.specs.Prelude.{◌≡◌, ◌+◌, ◌*◌, ◌≤◌, map, IfOk, vec_len};
ghost use Rattle.flat_model.specs.Fragments.Cuts as Cuts;
ghost use Rattle.flat_plain.specs.Parts.{part_of};

use params::{FRAGMENT_UNIT, IP_HEADER, IP_MAX_PACKET};
use std::alloc::{AllocError, Global};

/// One packet's share of a datagram.
#[derive(Clone, Copy, Debug, PartialEq, Eq)]
pub struct Part {
    /// The offset of its first byte, counted after the IP header.
    pub offset: u32,
    /// The number of bytes.
    pub size: u32,
    /// Whether more parts follow it.
    pub more: bool,
}

/// Returns the i-th part of `n` bytes in chunks of `chunk`.
fn part_at(n: u32, chunk: u32, i: u32) -> Part
    requires some { i * chunk ≤ n }
    requires small { n + chunk ≤ 131072 }
    ensures { part_of result ≡ Cuts.part n chunk i }
{
    let offset = i * chunk;
    Part {
        offset,
        size: chunk.min(n - offset),
        more: offset + chunk < n,
    }
}

/// Returns the parts of `n` bytes after an IP header, for a link with this MTU in bytes. Returns `AllocError` if the
/// host refuses memory for the list.
pub fn cuts(alloc: Global, n: u32, mtu: u32) -> Result<Vec<Part>, AllocError>
    requires short { n ≤ IP_MAX_PACKET }
    requires least { IP_HEADER + FRAGMENT_UNIT ≤ mtu }
    requires greatest { mtu ≤ IP_MAX_PACKET }
    ensures parts { IfOk result (λ v. map part_of v.items ≡ Cuts.cuts n mtu) }
    ensures len { IfOk result (λ v. vec_len v ≤ n + 1) }
{
    let mut parts = Vec::new(alloc);
    if IP_HEADER + n <= mtu {
        parts.push(Part {
            offset: 0,
            size: n,
            more: false,
        })?;
        return Ok(parts);
    }
    let chunk = (mtu - IP_HEADER) / FRAGMENT_UNIT * FRAGMENT_UNIT;
    let count = (n + (chunk - 1)) / chunk;
    for i in 0..count {
        parts.push(part_at(n, chunk, i))?;
    }
    Ok(parts)
}
