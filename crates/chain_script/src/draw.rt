//! The mbufs of a slot's chain as text lines, from which a picture can be drawn.
ghost use Rattle.std.specs.Prelude.{◌≡◌, ◌≤◌, ◌++◌, ◌==◌, OnOk, IfOk, IfSome, decimal, length, position};
ghost use Rattle.flat_model.specs.Scripts.Texts.{hex_text};
ghost use Rattle.params.specs.declared.TheConstants.{MCLBYTES};
ghost use Rattle.mbuf_chain.specs.Chain.{IsLive, IsPlace, chain_of, entry_in};
ghost use Rattle.script_loop.specs.Serves.{Serves};
ghost use Rattle.script_loop.specs.Streams.{MoreBy, reader_failures, writer_failures};
ghost use Rattle.chain_script.specs.Boots.{BootsChains};
ghost use Rattle.chain_script.specs.Drawings.{cluster_text, drawing, mbuf_line, mbuf_lines, found_after, collected_all, collected_slots, place_in, served};
ghost use Rattle.chain_script.specs.Inside.Slots.{machine_of, FitsSlots};
ghost use Rattle.chain_script.specs.Machines.{Machine, booted};
ghost use Rattle.chain_script.specs.Steps.{Says};

use crate::caller::Caller;
use mbuf_chain::{Chain, Place, Pool};
use mbuf_pool::{BootFault, Sizes};
use params::MCLBYTES;
use script_loop::{RunFault, Sink, Source, serve_script};
use std::alloc::{AllocError, Global};

/// The most digits for the bytes of one mbuf, two for each byte.
const DIGITS: usize = 2 * MCLBYTES as usize;

fn position_of(seen: &[u32], cluster: u32) -> Option<usize>
    ensures { result ≡ position (λ d. d == cluster) seen.now }
{
    seen.iter().position(|other| *other == cluster)
}

/// Returns how many clusters were seen before this one.
fn place_in(seen: &[u32], cluster: Option<u32>) -> Option<usize>
    ensures { result ≡ place_in seen.now cluster }
{
    match cluster {
        Some(cluster) => position_of(seen, cluster),
        None => None,
    }
}

/// Appends a cluster to those that were seen, if it is new.
fn collect(seen: &mut Vec<u32>, cluster: Option<u32>) -> Result<(), AllocError>
    ensures { OnOk result (seen.new.items ≡ found_after seen.old.items cluster) }
{
    let Some(number) = cluster else {
        return Ok(());
    };
    if position_of(seen.as_slice(), number).is_none() {
        seen.push(number)?;
    }
    Ok(())
}

/// Does the same for all mbufs of a chain.
fn collect_chain(pool: &Pool, chain: &Chain, seen: &mut Vec<u32>) -> Result<(), AllocError>
    requires { IsLive pool.now chain.now }
    ensures { OnOk result (seen.new.items ≡ collected_all seen.old.items (chain_of pool.now chain.now).entries) }
{
    let mut at = pool.first(chain);
    'mbufs: loop {
        collect(seen, pool.segment(chain, at).cluster)?;
        let Some(place) = pool.next(chain, at) else {
            return Ok(());
        };
        at = place;
    }
}

/// Does the same for all slots.
fn collect_slots(
    pool: &Pool,
    chains: &[Option<Chain>],
    seen: &mut Vec<u32>,
) -> Result<(), AllocError>
    requires { FitsSlots pool.now chains.now }
    ensures { OnOk result (seen.new.items ≡ collected_slots seen.old.items (machine_of pool.now chains.now).slots) }
{
    'slots: for slot in 0..chains.len() {
        if let Some(chain) = &chains[slot] {
            collect_chain(pool, chain, seen)?;
        }
    }
    Ok(())
}

fn put_u32(text: &mut Vec<u8>, n: u32) -> Result<(), AllocError>
    ensures { OnOk result (text.new.items ≡ text.old.items ++ decimal n) }
{
    let mut digits = itoa::Buffer::new();
    text.extend_from_slice(digits.format(n).as_bytes())
}

fn put_bytes(text: &mut Vec<u8>, bytes: &[u8]) -> Result<(), AllocError>
    requires { length bytes.now ≤ MCLBYTES }
    ensures { OnOk result (text.new.items ≡ text.old.items ++ hex_text bytes.now) }
{
    if bytes.is_empty() {
        return text.extend_from_slice(b"-");
    }
    let mut digits = [0; DIGITS];
    let written = &mut digits[..2 * bytes.len()];
    let _ = hex::encode_to_slice(bytes, &mut *written);
    text.extend_from_slice(written)
}

fn put_cluster(text: &mut Vec<u8>, place: Option<usize>) -> Result<(), AllocError>
    ensures { OnOk result (text.new.items ≡ text.old.items ++ cluster_text place) }
{
    let Some(place) = place else {
        return Ok(());
    };
    let mut digits = itoa::Buffer::new();
    text.extend_from_slice(b"cluster ")?;
    text.extend_from_slice(digits.format(place).as_bytes())?;
    text.extend_from_slice(b" ")
}

/// Appends the line for an mbuf, with or without the chain's packet header.
fn put_mbuf(
    text: &mut Vec<u8>,
    seen: &[u32],
    header: bool,
    pool: &Pool,
    chain: &Chain,
    at: Place,
) -> Result<(), AllocError>
    requires live { IsLive pool.now chain.now }
    requires place { IsPlace (chain_of pool.now chain.now) at }
    ensures { OnOk result (text.new.items ≡ text.old.items
        ++ mbuf_line seen.now header (entry_in pool.now chain.now at)) }
{
    let segment = pool.segment(chain, at);
    if header {
        text.extend_from_slice(b"pkthdr ")?;
    }
    put_cluster(text, place_in(seen, segment.cluster))?;
    put_u32(text, segment.start)?;
    text.extend_from_slice(b" ")?;
    put_bytes(text, pool.bytes(chain, at))?;
    text.extend_from_slice(b"\n")
}

/// Appends the lines for all mbufs of a chain.
fn put_chain(text: &mut Vec<u8>, seen: &[u32], pool: &Pool, chain: &Chain) -> Result<(), AllocError>
    requires { IsLive pool.now chain.now }
    ensures { OnOk result (text.new.items ≡ text.old.items
        ++ mbuf_lines seen.now (chain_of pool.now chain.now).front.header (chain_of pool.now chain.now).entries) }
{
    let mut header = pool.has_header(chain);
    let mut at = pool.first(chain);
    'mbufs: loop {
        put_mbuf(text, seen, header, pool, chain, at)?;
        let Some(place) = pool.next(chain, at) else {
            return Ok(());
        };
        at = place;
        header = false;
    }
}

/// Returns the drawing of a slot; `AllocError` if the host refuses memory.
pub(crate) fn draw(
    alloc: Global,
    pool: &Pool,
    chains: &[Option<Chain>],
    slot: usize,
) -> Result<Vec<u8>, AllocError>
    requires { FitsSlots pool.now chains.now }
    ensures { IfOk result (λ text. text.items ≡ drawing (machine_of pool.now chains.now) slot) }
{
    let mut seen = Vec::new(alloc);
    collect_slots(pool, chains, &mut seen)?;
    let mut text = Vec::new(alloc);
    if slot < chains.len() {
        if let Some(chain) = &chains[slot] {
            put_chain(&mut text, seen.as_slice(), pool, chain)?;
        }
    }
    Ok(text)
}

/// Serves a script of calls on chains as `run_chains` does, and then draws the chain of one slot, from 0 to 63.
///
/// The drawing has one line for each mbuf: `pkthdr ` if it has the packet header; `cluster K ` if its bytes are in a
/// cluster; the offset of its first byte in the mbuf's 128 bytes or the cluster's 2,048; and the bytes in hex, or a
/// dash if there are no bytes. K counts from 0: clusters are numbered as they first appear, in slot 0 from its first
/// mbuf on, then in slot 1, and so on. So the drawing shows which mbufs share a cluster, but not which cluster was
/// free. An empty slot, and a number of more than 63, has no line.
///
/// Returns `None` if the host refuses memory for the drawing. In that case the script was served to its end.
///
/// # Errors
///
/// The errors of `run_chains`. Nothing is drawn then.
pub fn draw_slot<R: Source, W: Sink>(
    alloc: Global,
    sizes: Sizes,
    reader: &mut R,
    writer: &mut W,
    slot: usize,
) -> Result<Option<Vec<u8>>, RunFault>
    ensures booted { BootsChains sizes (served result) }
    ensures read { MoreBy (reader_failures (served result)) (R.failures reader.old) (R.failures reader.new) }
    ensures wrote { MoreBy (writer_failures (served result)) (W.failures writer.old) (W.failures writer.new) }
    // `run_chains` describes how the script is served. The drawing shows the slot in the machine's state after that.
    ensures drawn { (new : Machine) × Serves Says (booted sizes.mbufs sizes.clusters) new (R.remaining reader.old)
        (R.remaining reader.new) (W.contents writer.old) (W.contents writer.new) (served result)
        × IfOk result (λ text. IfSome text (λ bytes. bytes.items ≡ drawing new slot)) }
{
    match Caller::boot(alloc, sizes) {
        Ok(mut caller) => {
            let outcome = serve_script(alloc, &mut caller, reader, writer);
            let drawn = caller.draw(alloc, slot);
            let _pool = caller.end();
            match outcome {
                Ok(()) => Ok(drawn.ok()),
                Err(fault) => Err(fault),
            }
        }
        Err(BootFault::BadSizes) => Err(RunFault::BadSizes),
        Err(BootFault::Memory) => Err(RunFault::Memory),
    }
}
