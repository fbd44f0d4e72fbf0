//! The packets that are under way, and those that are due in a carry.
ghost use Rattle.std.specs.Prelude.{◌≡◌, ◌+◌, ◌<◌, ◌≤◌, [], vec_capacity, vec_len, IfOk};

use crate::frame::Frame;
use std::alloc::{AllocError, Global};

/// The packets that are under way, up to the capacity, and those that are due in a carry. `hand` has the packet that a
/// host has given last, `spare` has buffers without a packet, and `passed` is for use within a call. What was due has
/// arrived, so the buffers of `due` are used again once `spare` has no more.
#[derive(Drop)]
pub(crate) struct Flight {
    pub(crate) frames: Vec<Frame>,
    pub(crate) due: Vec<Frame>,
    pub(crate) passed: Vec<Frame>,
    pub(crate) spare: Vec<Frame>,
    pub(crate) hand: Frame,
    ghost due_room: { vec_capacity due ≡ vec_capacity frames },
    ghost passed_room: { vec_capacity passed ≡ vec_capacity frames },
    ghost spare_room: { vec_capacity spare ≡ vec_capacity frames },
    ghost unpassed: { vec_len passed ≡ 0 },
    ghost buffers: { vec_len frames + (vec_len due + vec_len spare) ≡ vec_capacity frames },
}

/// This many buffers without a packet.
fn blanks(alloc: Global, room: usize) -> Result<Vec<Frame>, AllocError>
    ensures { IfOk result (λ v. (vec_len v ≡ room) × (vec_capacity v ≡ room)) }
{
    let mut spare = Vec::with_capacity(alloc, room)?;
    for _ in 0..room {
        spare.push_reserved(Frame::blank(alloc)?);
    }
    Ok(spare)
}

impl Flight {
    /// Buffers for this many packets.
    pub(crate) fn new(alloc: Global, room: u16) -> Result<Flight, AllocError>
        ensures { IfOk result (λ f. (f.frames.items ≡ []) × (vec_capacity f.frames ≡ room)) }
    {
        let room = usize::from(room);
        Ok(Flight {
            frames: Vec::with_capacity(alloc, room)?,
            due: Vec::with_capacity(alloc, room)?,
            passed: Vec::with_capacity(alloc, room)?,
            spare: blanks(alloc, room)?,
            hand: Frame::blank(alloc)?,
        })
    }
}

/// A buffer without a packet. There must be one.
pub(crate) fn unused(spare: &mut Vec<Frame>, due: &mut Vec<Frame>) -> Frame
    requires { 0 < vec_len spare.old + vec_len due.old }
    ensures one { vec_len spare.new + vec_len due.new + 1 ≡ vec_len spare.old + vec_len due.old }
    ensures room { vec_capacity spare.new ≡ vec_capacity spare.old }
    ensures due_room { vec_capacity due.new ≡ vec_capacity due.old }
{
    match spare.pop() {
        Some(frame) => frame,
        None => due.take_last(),
    }
}

/// The buffers of packets that have arrived are without a packet again.
pub(crate) fn empty(due: &mut Vec<Frame>, spare: &mut Vec<Frame>)
    requires { vec_len due.old + vec_len spare.old ≤ vec_capacity spare.old }
    ensures none { (due.new.items ≡ []) × (vec_len due.new ≡ 0) }
    ensures all { vec_len spare.new ≡ vec_len due.old + vec_len spare.old }
    ensures room { vec_capacity spare.new ≡ vec_capacity spare.old }
    ensures due_room { vec_capacity due.new ≡ vec_capacity due.old }
{
    while let Some(frame) = due.pop() {
        spare.push_reserved(frame);
    }
}
