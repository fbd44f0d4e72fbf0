//! The weights of items, in buffers of a pool.
ghost use Rattle.std.specs.Prelude.{◌≡◌, ℕ, ◌+◌, ◌*◌, ◌^◌, ◌<◌, ◌≤◌, ◌++◌, length, filter_map, Option, OnOk, IfOk};
ghost use Rattle.flat_model.specs.Machine.Arrival as Arrival;
ghost use Rattle.flat_model.specs.Amounts.Layout as Layout;
ghost use Rattle.flat_model.specs.Machine.Sending as Sending;
ghost use Rattle.flat_model.specs.Amounts.Weight.{◌⊕◌};
ghost use Rattle.flat_model.specs.Fragments.Whole as Whole;
ghost use Rattle.flat_plain.specs.Parts.{part_of};
ghost use Rattle.flat_plain.specs.Tables.{plain_map, weight_of_mbufs};
ghost use Rattle.flat_plain.specs.Weights.{entries_of, entry_size, weight_begun, plain_weight};

use crate::maps::Cell;
use crate::parts::Part;
use params::{IP_HEADER, IP_MAX_DATA, MAX_PROTOCOL_HEADER};
use std::alloc::{AllocError, Global};

/// A number of mbufs, and a cluster number for each of them that refers to a cluster.
#[derive(Debug, Drop)]
pub struct Weight {
    /// The number of mbufs.
    pub mbufs: u64,
    /// The clusters to which they refer, each as often as it is referred to.
    pub bag: Vec<u32>,
}

/// An mbuf of a chain: the number of bytes in it, and the cluster to which it refers, if any.
#[derive(Clone, Copy, Debug, PartialEq, Eq)]
pub struct Entry {
    /// The number of bytes in it.
    pub size: u32,
    /// The cluster to which it refers, if any.
    pub cluster: Option<u32>,
}

/// Adds the mbufs that share a byte with the range from `a` up to `b`, if the first one begins at `at`.
fn add_met(
    weight: &mut Weight,
    entries: &[Entry],
    at: u64,
    a: u64,
    b: u64,
) -> Result<(), AllocError>
    requires short { at + 2 ^ 32 * length entries.now < 2 ^ 63 }
    requires few { weight.old.mbufs + length entries.now < 2 ^ 63 }
    ensures { OnOk result (plain_weight weight.new
        ≡ plain_weight weight.old ⊕ Layout.weight_of (Layout.meets_from entry_size at (entries_of entries.now) a b)) }
{
    match entries {
        [] => Ok(()),
        [entry, rest @ ..] => {
            let after = at + entry.size as u64;
            if at.max(a) < after.min(b) {
                add(weight, 1, &[entry.cluster])?;
            }
            add_met(weight, rest, after, a, b)?;
            Ok(())
        }
    }
}

/// Adds this many mbufs, and the clusters that are `Some`.
fn add(weight: &mut Weight, mbufs: u32, clusters: &[Option<u32>]) -> Result<(), AllocError>
    requires { weight.old.mbufs + mbufs < 2 ^ 64 }
    ensures { OnOk result (plain_weight weight.new ≡ plain_weight weight.old ⊕ weight_of_mbufs mbufs clusters.now) }
{
    weight.mbufs += mbufs as u64;
    add_clusters(&mut weight.bag, clusters)?;
    Ok(())
}

fn add_clusters(bag: &mut Vec<u32>, clusters: &[Option<u32>]) -> Result<(), AllocError>
    ensures { OnOk result (bag.new.items ≡ bag.old.items ++ filter_map (λ (c : Option ℕ). c) clusters.now) }
{
    match clusters {
        [] => Ok(()),
        [first, rest @ ..] => {
            if let Some(cluster) = first {
                bag.push(*cluster)?;
            }
            add_clusters(bag, rest)?;
            Ok(())
        }
    }
}

/// Returns the weight of the packet for a later part of a send, whose bytes are in these mbufs. Returns `AllocError` if
/// the host refuses memory for the numbers of its clusters.
pub fn later_weight(alloc: Global, entries: &[Entry], part: Part) -> Result<Weight, AllocError>
    requires { length entries.now ≤ 65536 }
    ensures { IfOk result (λ w. plain_weight w ≡ Sending.later_weight (entries_of entries.now) (part_of part)) }
{
    let mut weight = Weight {
        mbufs: 1,
        bag: Vec::new(alloc),
    };
    let from = IP_HEADER as u64 + part.offset as u64;
    let after = from + part.size as u64;
    add_met(&mut weight, entries, 0, from, after)?;
    Ok(weight)
}

/// Returns the weight of a fragment in a cluster after the pull-up. `total` is its length in bytes, header included.
pub fn pulled_up(total: u32, weight: Weight) -> Weight
    requires { weight.mbufs < 2 ^ 63 }
    ensures { plain_weight result ≡ Arrival.pulled_up total (plain_weight weight) }
{
    let mut weight = weight;
    if MAX_PROTOCOL_HEADER < total {
        weight.mbufs += 1;
    } else if !weight.bag.is_empty() {
        let _cluster = weight.bag.remove(0);
    }
    weight
}

/// Returns the weight of the pieces in a table that still own an offset. Returns `AllocError` if the host refuses
/// memory for the numbers of their clusters.
pub fn weight_of_pieces(alloc: Global, cells: &[Option<Cell>]) -> Result<Weight, AllocError>
    requires { length cells.now ≤ IP_MAX_DATA }
    ensures { IfOk result (λ w. plain_weight w ≡ Whole.weight_of_pieces (plain_map cells.now)) }
{
    let mut weight = Weight {
        mbufs: 0,
        bag: Vec::new(alloc),
    };
    for k in 0..cells.len() {
        add_piece(&mut weight, cells[k], k as u32)?;
    }
    Ok(weight)
}

/// Adds the piece at offset `k`, if it begins there.
fn add_piece(weight: &mut Weight, cell: Option<Cell>, k: u32) -> Result<(), AllocError>
    requires { weight.old.mbufs < 2 ^ 63 }
    ensures weight { OnOk result (plain_weight weight.new ≡ plain_weight weight.old ⊕ weight_begun cell k) }
    ensures most { OnOk result (weight.new.mbufs < weight.old.mbufs + 2 ^ 32) }
{
    if let Some(cell) = cell {
        if cell.first == k {
            add(weight, cell.mbufs, &cell.clusters)?;
        }
    }
    Ok(())
}
