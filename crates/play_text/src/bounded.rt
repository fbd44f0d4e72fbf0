//! Texts that are cut if they don't fit. No contract says what they contain.
ghost use Rattle.std.specs.Prelude.{◌≤◌, ◌+◌, IsTrue, length};
ghost use Rattle.play_text.specs.Pieces.{piece_room};

use crate::count::{COUNT, Count, put_count};
use crate::fate::Fate;
use crate::frame::put_frame;
use crate::packet::{put_kept, put_packet, put_whole};
use crate::piece::{Piece, put};
use crate::table::{TABLE, Table};
use crate::time::{TIME, put_time};
use params::IP_MAX_PACKET;
use script_loop::Buffer;

/// The line that ends a text from which something was left out because the buffer was full.
const CUT: &[u8] = b"    (cut)\n";

/// The size of a buffer for a packet in words, for what happened to its fragment, and for a frame in words.
const PACKET: usize = 174;

const FATE: usize = 100;

const FRAME: usize = 214;

/// Returns whether there is space for a piece.
fn fits(piece: &Piece<'_>, space: usize) -> bool
    ensures { IsTrue result → piece_room piece.now ≤ space }
{
    match *piece {
        Piece::Text(bytes) => bytes.len() <= space,
        Piece::Either(_, this, other) => this.len() <= space && other.len() <= space - this.len(),
        Piece::Maybe(_, none) => space >= 20 && none.len() <= space - 20,
        Piece::Amount(_, what) => space >= 12 && what.len() <= space - 12,
        Piece::Quoted(bytes) => space >= 2 && bytes.len() <= (space - 2) / 6,
        Piece::Reply(_, reply) => space >= 2 && reply.len() <= space - 2,
        _ => space >= 53,
    }
}

/// Returns whether something was left out of a text.
fn is_cut<const N: usize>(text: &Buffer<N>) -> bool {
    text.as_slice().ends_with(CUT)
}

/// Returns how many more bytes fit, before the line that ends a text that was cut.
fn space_in<const N: usize>(text: &Buffer<N>) -> usize
    ensures { result + length text.now ≤ N }
{
    (N - text.len()).saturating_sub(CUT.len())
}

/// Ends a text from which something was left out.
fn cut<const N: usize>(text: &mut Buffer<N>) {
    if N - text.len() >= CUT.len() {
        text.append(CUT);
    }
}

/// Appends pieces, one after another, as long as there is space for them. If there is no space for a piece, the line
/// `(cut)` ends the text, and nothing more is appended.
pub fn add<const N: usize>(text: &mut Buffer<N>, pieces: &[Piece<'_>]) {
    if is_cut(text) {
        return;
    }
    for piece in pieces {
        if !fits(piece, space_in(text)) {
            cut(text);
            return;
        }
        put(text, &[*piece]);
    }
}

/// Appends a packet in words, as [`put_packet`] does, or cuts the text as [`add`] does.
pub fn add_packet<const N: usize>(text: &mut Buffer<N>, packet: &[u8]) {
    if is_cut(text) {
        return;
    }
    if packet.len() <= IP_MAX_PACKET as usize && space_in(text) >= PACKET {
        put_packet(text, packet);
    } else {
        cut(text);
    }
}

/// Appends a frame in words, as [`put_frame`] does, or cuts the text as [`add`] does.
pub fn add_frame<const N: usize>(text: &mut Buffer<N>, frame: &[u8]) {
    if is_cut(text) {
        return;
    }
    if frame.len() <= IP_MAX_PACKET as usize && space_in(text) >= FRAME {
        put_frame(text, frame);
    } else {
        cut(text);
    }
}

/// Appends what happened to a packet's fragment, as a line, or cuts the text as [`add`] does.
pub fn add_fate<const N: usize>(text: &mut Buffer<N>, packet: &[u8], fate: Fate) {
    if is_cut(text) {
        return;
    }
    if space_in(text) < FATE {
        cut(text);
        return;
    }
    match fate {
        Fate::Whole => put_whole(text, packet),
        Fate::Kept => put_kept(text, packet),
        Fate::Other => {}
    }
}

/// Appends a time, as [`put_time`] does, or cuts the text as [`add`] does.
pub fn add_time<const N: usize>(text: &mut Buffer<N>, time: u64) {
    if is_cut(text) {
        return;
    }
    if space_in(text) >= TIME {
        put_time(text, time);
    } else {
        cut(text);
    }
}

/// Appends the line of a count, as [`put_count`] does, or cuts the text as [`add`] does.
pub fn add_count<const N: usize>(text: &mut Buffer<N>, count: Count, what: &[u8]) {
    if is_cut(text) {
        return;
    }
    let space = space_in(text);
    if space >= COUNT && what.len() <= space - COUNT {
        put_count(text, count, what);
    } else {
        cut(text);
    }
}

/// Appends the lines of a table, or cuts the text as [`add`] does.
pub fn add_table<const N: usize>(text: &mut Buffer<N>, table: &Table) {
    if is_cut(text) {
        return;
    }
    if space_in(text) >= TABLE {
        table.put(text);
    } else {
        cut(text);
    }
}
