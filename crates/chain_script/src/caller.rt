//! Slots of chains over a pool, whose calls are made by script lines.
ghost use Rattle.std.specs.Prelude.{◌≡◌, ◌≤◌, ◌*◌, ◌++◌, ℕ, List, Err, length, IfOk, ◌↔◌, replicate, None, []};
ghost use Rattle.arrayvec.specs.ArrayVec.{array_vec_len};
ghost use Rattle.mbuf_pool.specs.Store.{IsBad};
ghost use Rattle.mbuf_pool.specs.declared.fault.BootFault.TheVariants as boot_fault;
ghost use Rattle.mbuf_chain.specs.Owners.{IsAll};
ghost use Rattle.params.specs.declared.TheConstants.{IP_MAX_PACKET};
ghost use Rattle.chain_script.specs.declared.caller.TheConstants.{SLOTS};
ghost use Rattle.chain_script.specs.Inside.Calls.{request_of, IsSlotCall};
ghost use Rattle.chain_script.specs.Inside.Needs.{AreSlots, HasSlot, Replies};
ghost use Rattle.chain_script.specs.Inside.Slots.{machine_of, slot_numbers, FitsSlots};
ghost use Rattle.chain_script.specs.Drawings.{drawing};
ghost use Rattle.chain_script.specs.Lines.{Read_out};
ghost use Rattle.chain_script.specs.Machines.{Machine, booted};
ghost use Rattle.chain_script.specs.Steps.{Says};

use crate::calls::{
    adj, copyback, copydata, copym, free, join_slots, prepend, pullup, split, user, wire,
};
use crate::draw::draw;
use crate::line::{Call, call_of};
use crate::reply::{TEXT, put_done, put_held};
use crate::show::{show, usage};
use crate::slots::free_all;
use arrayvec::ArrayVec;
use mbuf_chain::{Chain, Pool};
use mbuf_pool::{BootFault, Sizes, Store};
use script_loop::{Answers, Buffer, HELD, LineBuffers};
use std::alloc::{AllocError, Global};
use std::array;
use std::mem::ManuallyDrop;

/// The number of slots.
pub(crate) const SLOTS: usize = 64;

/// Copies bytes out of a chain, and appends the reply line for them to the text.
fn read_out(
    pool: &Pool,
    chains: &[Option<Chain>],
    bytes: &mut [u8],
    digits: &mut [u8],
    slot: usize,
    off: u32,
    len: usize,
    text: &mut Buffer<TEXT>,
)
    requires slot { HasSlot pool.now chains.now slot }
    requires bytes { length bytes.old ≡ IP_MAX_PACKET }
    requires digits { length digits.old ≡ 2 * IP_MAX_PACKET }
    requires off { off ≤ IP_MAX_PACKET }
    requires len { len ≤ IP_MAX_PACKET }
    requires text { length text.old ≤ HELD }
    ensures { Replies (machine_of pool.now chains.now) (Read_out slot off len) text.old
        (machine_of pool.now chains.now) text.new }
{
    let to = &mut bytes[..len];
    let outcome = copydata(pool, chains, slot, off, to);
    put_held(text, digits, to, outcome);
}

/// Makes the call that a line requests, and appends its reply to the text.
fn make_call(
    pool: &mut Pool,
    chains: &mut [Option<Chain>],
    buffers: &mut LineBuffers,
    call: Call,
    text: &mut Buffer<TEXT>,
)
    requires slots { AreSlots pool.old chains.old }
    requires call { IsSlotCall call }
    requires text { length text.old ≤ HELD }
    ensures slots { AreSlots pool.new chains.new }
    ensures step { Replies (machine_of pool.old chains.old) (request_of call buffers.old.bytes.items) text.old
        (machine_of pool.new chains.new) text.new }
{
    let bytes = buffers.bytes.as_slice();
    match call {
        Call::User(slot, len) => put_done(text, user(pool, chains, slot as usize, &bytes[..len])),
        Call::Wire(slot, len) => put_done(text, wire(pool, chains, slot as usize, &bytes[..len])),
        Call::Copy(to, slot, extent) => put_done(
            text,
            copym(pool, chains, to as usize, slot as usize, extent),
        ),
        Call::Prepend(slot, len) => put_done(
            text,
            prepend(pool, chains, slot as usize, &bytes[..len]),
        ),
        Call::PullUp(slot, n) => put_done(text, pullup(pool, chains, slot as usize, n)),
        Call::Adjust(slot, n) => put_done(text, adj(pool, chains, slot as usize, n)),
        Call::Split(to, slot, at) => put_done(
            text,
            split(pool, chains, to as usize, slot as usize, at),
        ),
        Call::Join(slot, other) => put_done(
            text,
            join_slots(pool, chains, slot as usize, other as usize),
        ),
        Call::WriteOver(slot, off, len) => put_done(
            text,
            copyback(pool, chains, slot as usize, off, &bytes[..len]),
        ),
        Call::ReadOut(slot, off, len) => read_out(
            pool,
            chains,
            buffers.bytes.as_mut_slice(),
            buffers.digits.as_mut_slice(),
            slot as usize,
            off,
            len as usize,
            text,
        ),
        Call::Show(slot) => show(pool, chains, slot as usize, text),
        Call::Free(slot) => put_done(text, free(pool, chains, slot as usize)),
        Call::Usage => usage(pool, chains, text),
    }
}

/// Appends the reply to a line to the text.
fn put_answer(
    pool: &mut Pool,
    chains: &mut [Option<Chain>],
    buffers: &mut LineBuffers,
    line: &[u8],
    text: &mut Buffer<TEXT>,
)
    requires slots { AreSlots pool.old chains.old }
    requires text { length text.old ≤ HELD }
    ensures slots { AreSlots pool.new chains.new }
    ensures says { (reply : List ℕ)
        × Says (machine_of pool.old chains.old) line.now reply (machine_of pool.new chains.new)
        × (text.new ≡ text.old ++ reply) }
{
    match call_of(line, buffers.bytes.as_mut_slice()) {
        Some(call) => make_call(pool, chains, buffers, call, text),
        None => text.append(b"? line\n"),
    }
}

/// A pool, 64 slots for its chains, and the memory for the work on one line. It must be consumed by `end`.
pub(crate) struct Caller {
    pool: Pool,
    chains: ArrayVec<Option<Chain>, SLOTS>,
    buffers: LineBuffers,
    ghost slots: { array_vec_len chains ≡ SLOTS },
    ghost fits: { FitsSlots pool chains.items },
}

/// Creates slots that are all empty.
fn empty_slots() -> ArrayVec<Option<Chain>, SLOTS>
    ensures items { result.items ≡ replicate SLOTS None }
    ensures len { array_vec_len result ≡ SLOTS }
{
    let slots = array::from_fn(
        |_| -> Option<Chain>
            ensures { result ≡ None }
        { None },
    );
    ArrayVec::from_array_in((), slots)
}

/// Consumes slots that are all empty.
fn end_empty(chains: ArrayVec<Option<Chain>, SLOTS>)
    requires { slot_numbers chains.items ≡ [] }
{
    // A vector of the library hands out only elements that may be dropped, and a chain must be consumed. Here there is
    // no chain.
    let _empty = unsafe { ManuallyDrop::new_unchecked(chains) };
}

impl Caller {
    /// Creates a pool without chains, and empty slots. Returns `BadSizes` exactly if a pool can't have these sizes,
    /// which is tested first, and `Memory` if the host refuses memory. On error nothing stays allocated.
    pub(crate) fn boot(alloc: Global, sizes: Sizes) -> Result<Caller, BootFault>
        ensures ok { IfOk result (λ c. machine_of c.pool c.chains.items ≡ booted sizes.mbufs sizes.clusters) }
        ensures bad { (result ≡ Err boot_fault.BadSizes) ↔ IsBad sizes }
    {
        let store = Store::boot(alloc, sizes)?;
        let Ok(buffers) = LineBuffers::new(alloc) else {
            return Err(BootFault::Memory);
        };
        Ok(Caller {
            pool: Pool::over(store),
            chains: empty_slots(),
            buffers,
        })
    }

    /// Returns the drawing of a slot; `AllocError` only if the host refuses memory.
    pub(crate) fn draw(&self, alloc: Global, slot: usize) -> Result<Vec<u8>, AllocError>
        ensures { IfOk result (λ text. text.items ≡ drawing (machine_of self.now.pool self.now.chains.items) slot) }
    {
        draw(alloc, &self.pool, self.chains.as_slice(), slot)
    }

    /// Frees all chains, and returns the pool.
    pub(crate) fn end(self) -> Pool
        ensures { IsAll result [] }
    {
        let Caller {
            mut pool,
            mut chains,
            buffers: _,
        } = self;
        free_all(&mut pool, chains.as_mut_slice());
        end_empty(chains);
        pool
    }
}

impl Answers<TEXT> for Caller {
    ghost State = { Machine };

    ghost state = { λ c. machine_of c.pool c.chains.items };

    ghost may_answer = { Says };

    fn answer(&mut self, line: &[u8], text: &mut Buffer<TEXT>) {
        put_answer(
            &mut self.pool,
            self.chains.as_mut_slice(),
            &mut self.buffers,
            line,
            text,
        );
    }
}
