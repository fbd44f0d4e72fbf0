//! The mbufs of a stack as JSON objects, one per line.
ghost use Rattle.std.specs.Prelude.{◌≡◌, ◌≤◌, ◌++◌, length, take, decimal, OnOk};
ghost use Rattle.std.specs.Result.{result_ok};
ghost use Rattle.hex.specs.Hex.{encode_lower};
ghost use Rattle.net_stack.specs.Questions.{chains_held};
ghost use Rattle.net_stack.specs.Stack.{state_of};
ghost use Rattle.sock_calls.specs.Questions.{receive_limit_at};
ghost use Rattle.params.specs.declared.TheConstants.{MAX_SOCKETS};
ghost use Rattle.page.specs.Pictured.{stack_objects};
ghost use Rattle.page.specs.States.{all_sockets, below, chain_objects, cluster_object, counted_text, first_number, header_fields, held_objects, holder_field, key_fields, late_text, len_in, link_fields, mbuf_object, mbuf_objects, number_text, output_objects, place_fields, references_text, socket_objects, tag_in, unfinished_objects};

use mbuf_chain::{MbufHead, MbufHeads};
use mbuf_pool::PacketHeader;
use net_stack::{Holder, Stack, UnfinishedDatagram};
use params::{FIRST_DESCRIPTOR, MAX_SOCKETS};
use std::alloc::AllocError;

/// The most bytes of an mbuf that are passed to the page.
pub const SHOWN: usize = 32;

fn put_number(text: &mut Vec<u8>, n: u32) -> Result<(), AllocError>
    ensures { OnOk result (text.new.items ≡ text.old.items ++ decimal n) }
{
    let mut digits = itoa::Buffer::new();
    text.extend_from_slice(digits.format(n).as_bytes())
}

/// Appends a name with its punctuation, and its value.
fn put_field(text: &mut Vec<u8>, name: &[u8], value: Option<u32>) -> Result<(), AllocError>
    ensures { OnOk result (text.new.items ≡ text.old.items ++ (name.now ++ number_text value)) }
{
    text.extend_from_slice(name)?;
    match value {
        Some(n) => put_number(text, n),
        None => text.extend_from_slice(b"null"),
    }
}

fn front_of(bytes: &[u8]) -> &[u8]
    ensures front { result.now ≡ take SHOWN bytes.now }
    ensures short { length result.now ≤ SHOWN }
{
    if bytes.len() <= SHOWN {
        bytes
    } else {
        &bytes[..SHOWN]
    }
}

/// Appends two digits for each of the first bytes.
fn put_bytes(text: &mut Vec<u8>, bytes: &[u8]) -> Result<(), AllocError>
    ensures { OnOk result (text.new.items ≡ text.old.items ++ encode_lower (take SHOWN bytes.now)) }
{
    let front = front_of(bytes);
    let mut digits = [0; 2 * SHOWN];
    let written = &mut digits[..2 * front.len()];
    let _ = hex::encode_to_slice(front, &mut *written);
    text.extend_from_slice(written)
}

fn len_in(packet: Option<PacketHeader>) -> Option<u32>
    ensures { result ≡ len_in packet }
{
    match packet {
        Some(packet) => Some(packet.len),
        None => None,
    }
}

fn tag_in(packet: Option<PacketHeader>) -> Option<u32>
    ensures { result ≡ tag_in packet }
{
    match packet {
        Some(packet) => Some(packet.arrival),
        None => None,
    }
}

fn put_links(text: &mut Vec<u8>, head: MbufHead) -> Result<(), AllocError>
    ensures { OnOk result (text.new.items ≡ text.old.items ++ link_fields head) }
{
    put_field(text, b"{\"mbuf\":", Some(head.number))?;
    put_field(text, b",\"next\":", head.next)?;
    put_field(text, b",\"nextpkt\":", head.next_packet)
}

fn put_place(text: &mut Vec<u8>, head: MbufHead) -> Result<(), AllocError>
    ensures { OnOk result (text.new.items ≡ text.old.items ++ place_fields head) }
{
    put_field(text, b",\"len\":", Some(head.len))?;
    put_field(text, b",\"data\":", Some(head.start))
}

fn put_packet(text: &mut Vec<u8>, head: MbufHead) -> Result<(), AllocError>
    ensures { OnOk result (text.new.items ≡ text.old.items ++ header_fields head) }
{
    put_field(text, b",\"pkthdr\":", len_in(head.packet))?;
    put_field(text, b",\"rcvif\":", tag_in(head.packet))?;
    put_field(text, b",\"cluster\":", head.cluster)
}

fn put_mbuf(text: &mut Vec<u8>, head: MbufHead, bytes: &[u8]) -> Result<(), AllocError>
    ensures { OnOk result (text.new.items ≡ text.old.items ++ mbuf_object head bytes.now) }
{
    put_links(text, head)?;
    put_place(text, head)?;
    put_packet(text, head)?;
    text.extend_from_slice(b",\"bytes\":\"")?;
    put_bytes(text, bytes)?;
    text.extend_from_slice(b"\"}\n")?;
    Ok(())
}

/// Appends the mbufs of a chain.
fn put_mbufs(text: &mut Vec<u8>, mbufs: MbufHeads<'_>) -> Result<(), AllocError>
    ensures { OnOk result (text.new.items ≡ text.old.items ++ mbuf_objects mbufs.entry) }
{
    'mbufs: for mbuf in mbufs {
        put_mbuf(text, mbuf.0, mbuf.1)?;
    }
    Ok(())
}

/// Appends the mbufs of all chains of a holder. Returns `AllocError` also for 4,294,967,295 chains, which no pool has.
fn put_chains(text: &mut Vec<u8>, stack: &Stack, holder: Holder) -> Result<(), AllocError>
    ensures { OnOk result (text.new.items
        ≡ text.old.items ++ chain_objects stack.now.pool (chains_held stack.now holder)) }
{
    'chains: for i in 0..u32::MAX {
        match stack.heads(holder, i) {
            Some(mbufs) => put_mbufs(text, mbufs)?,
            None => return Ok(()),
        }
    }
    Err(AllocError)
}

/// Returns the number of a chain's first mbuf, if there is a chain.
fn first_number(chain: Option<MbufHeads<'_>>) -> Option<u32>
    ensures { result ≡ first_number chain.entry }
{
    let mut mbufs = chain?;
    let first = mbufs.next()?;
    Some(first.0.number)
}

/// Appends the end of a holder's line, and all mbufs that it holds. `i` is the index of the first chain that the line
/// names.
fn put_held(text: &mut Vec<u8>, stack: &Stack, holder: Holder, i: u32) -> Result<(), AllocError>
    ensures { OnOk result (text.new.items ≡ text.old.items ++ held_objects stack.now holder i) }
{
    put_field(text, b",\"first\":", first_number(stack.heads(holder, i)))?;
    text.extend_from_slice(b"}\n")?;
    put_chains(text, stack, holder)
}

/// Returns the size that was set for a socket's receive queue, or 0. `None` if the socket isn't open.
fn limit_of(stack: &Stack, fd: u32) -> Option<u32>
    ensures { result ≡ result_ok (receive_limit_at fd (state_of stack.now)) }
{
    match stack.receive_limit(fd) {
        Ok(limit) => Some(u32::from(limit)),
        Err(_) => None,
    }
}

/// Appends the socket at index `place`, where 0 is descriptor 3, with its queue; nothing if it isn't open.
fn put_socket(text: &mut Vec<u8>, stack: &Stack, place: u32) -> Result<(), AllocError>
    requires { place ≤ MAX_SOCKETS }
    ensures { OnOk result (text.new.items ≡ text.old.items ++ socket_objects stack.now place) }
{
    let fd = FIRST_DESCRIPTOR + place;
    let Ok(cc) = stack.bytes_queued(fd) else {
        return Ok(());
    };
    put_field(text, b"{\"socket\":", Some(fd))?;
    put_field(text, b",\"cc\":", Some(cc))?;
    put_field(text, b",\"mbcnt\":", stack.memory_queued(fd).ok())?;
    put_field(text, b",\"limit\":", limit_of(stack, fd))?;
    put_held(text, stack, Holder::Socket(fd), 0)
}

fn put_output(text: &mut Vec<u8>, stack: &Stack) -> Result<(), AllocError>
    ensures { OnOk result (text.new.items ≡ text.old.items ++ output_objects stack.now) }
{
    let len = stack.output_len();
    let last = stack.heads(Holder::Output, len.saturating_sub(1));
    put_field(text, b"{\"output\":", Some(len))?;
    put_field(text, b",\"last\":", first_number(last))?;
    put_held(text, stack, Holder::Output, 0)
}

/// Appends the key of an unfinished datagram, and its remaining ticks.
fn put_key(text: &mut Vec<u8>, datagram: UnfinishedDatagram) -> Result<(), AllocError>
    ensures { OnOk result (text.new.items ≡ text.old.items ++ key_fields datagram) }
{
    put_field(text, b",\"id\":", Some(u32::from(datagram.key.id)))?;
    put_field(text, b",\"source\":", Some(datagram.key.source))?;
    put_field(text, b",\"ticks\":", Some(u32::from(datagram.ticks)))
}

/// Appends the mbuf of an unfinished datagram's key.
fn put_holder(text: &mut Vec<u8>, stack: &Stack, place: u32) -> Result<(), AllocError>
    ensures { OnOk result (text.new.items ≡ text.old.items ++ holder_field stack.now place) }
{
    let mbuf = first_number(stack.heads(Holder::Unfinished(place), 0));
    put_field(text, b"{\"unfinished\":", mbuf)
}

/// Appends an unfinished datagram, with the mbufs that it holds.
fn put_late(
    text: &mut Vec<u8>,
    stack: &Stack,
    place: u32,
    datagram: UnfinishedDatagram,
) -> Result<(), AllocError>
    ensures { OnOk result (text.new.items ≡ text.old.items ++ late_text stack.now place (Some datagram)) }
{
    put_holder(text, stack, place)?;
    put_key(text, datagram)?;
    put_held(text, stack, Holder::Unfinished(place), 1)?;
    Ok(())
}

/// Appends the unfinished datagram at an index, if there is one.
fn put_unfinished(text: &mut Vec<u8>, stack: &Stack, place: u32) -> Result<(), AllocError>
    ensures { OnOk result (text.new.items ≡ text.old.items ++ unfinished_objects stack.now place) }
{
    match stack.unfinished(place) {
        Some(datagram) => put_late(text, stack, place, datagram),
        None => Ok(()),
    }
}

/// Appends a cluster with its reference count.
fn put_references(text: &mut Vec<u8>, cluster: u32, count: u32) -> Result<(), AllocError>
    ensures { OnOk result (text.new.items ≡ text.old.items ++ references_text cluster count) }
{
    put_field(text, b"{\"cluster\":", Some(cluster))?;
    put_field(text, b",\"references\":", Some(count))?;
    text.extend_from_slice(b"}\n")?;
    Ok(())
}

/// Does the same; nothing if the count is 0.
fn put_counted(text: &mut Vec<u8>, cluster: u32, count: u32) -> Result<(), AllocError>
    ensures { OnOk result (text.new.items ≡ text.old.items ++ counted_text cluster count) }
{
    if count == 0 {
        Ok(())
    } else {
        put_references(text, cluster, count)
    }
}

/// Appends the sockets at the indices below `end`.
fn put_below(text: &mut Vec<u8>, stack: &Stack, end: u32) -> Result<(), AllocError>
    requires { end ≤ MAX_SOCKETS }
    ensures { OnOk result (text.new.items ≡ text.old.items ++ below (socket_objects stack.now) end) }
{
    'places: for place in 0..end {
        put_socket(text, stack, place)?;
    }
    Ok(())
}

fn put_sockets(text: &mut Vec<u8>, stack: &Stack) -> Result<(), AllocError>
    ensures { OnOk result (text.new.items ≡ text.old.items ++ all_sockets stack.now) }
{
    put_below(text, stack, MAX_SOCKETS)
}

fn put_all_unfinished(text: &mut Vec<u8>, stack: &Stack) -> Result<(), AllocError>
    ensures { OnOk result (text.new.items
        ≡ text.old.items ++ below (unfinished_objects stack.now) (length (state_of stack.now).unfinished)) }
{
    'places: for place in 0..stack.unfinished_len() {
        put_unfinished(text, stack, place)?;
    }
    Ok(())
}

/// Appends the clusters that have references. Returns `AllocError` also for 4,294,967,295 clusters, which no pool has.
fn put_clusters(text: &mut Vec<u8>, stack: &Stack) -> Result<(), AllocError>
    ensures { OnOk result (text.new.items
        ≡ text.old.items ++ below (cluster_object stack.now) stack.now.pool.clusters) }
{
    'clusters: for cluster in 0..u32::MAX {
        match stack.references(cluster) {
            Some(count) => put_counted(text, cluster, count)?,
            None => return Ok(()),
        }
    }
    Err(AllocError)
}

/// Appends all mbufs of a stack, with their holders, and the clusters that they refer to.
pub(crate) fn put_state(text: &mut Vec<u8>, stack: &Stack) -> Result<(), AllocError>
    ensures { OnOk result (text.new.items ≡ text.old.items ++ stack_objects stack.now) }
{
    put_sockets(text, stack)?;
    put_output(text, stack)?;
    put_all_unfinished(text, stack)?;
    put_clusters(text, stack)?;
    Ok(())
}
