//! The calls of a web page: scripts of `bsdudp` and of `bsdplay` as functions of a whole script, over bytes in memory.
//! The page passes a whole script each time, so no state is kept between two calls. No other crate depends on this one.
//!
//! The contracts say that the outcome and the replies are those of the script on a new machine, and at which offset the
//! replies are.
#![tactic(auto)]

ghost use Rattle.flat_model.specs.Machine.State.{boot};
ghost use Rattle.flat_model.specs.Machine.Step.{Step};
ghost use Rattle.link_script.specs.Boots.{BootsRun};
ghost use Rattle.chain_script.specs.Machines.{booted};
ghost use Rattle.chain_script.specs.Steps as chain_steps;
ghost use Rattle.chain_script.specs.Boots as chain_sizes;
ghost use Rattle.page.specs.Says.{SaysLine};
ghost use Rattle.page.specs.Served.{Drawn, PageRun, machine_config, sizes_of};

mod caller;
mod handed;
mod headers;
mod marks;
mod mbufs;
mod play;
mod records;
mod settings;
mod state;

use caller::run_lines;
use chain_script::{draw_slot, run_chains};
use handed::{hand_over, number_of};
pub use headers::{PageHeader, bsdudp_page_header};
use link_script::RunFault;
pub use marks::{PageMarks, bsdudp_page_marks};
pub use play::{bsdudp_page_capture, bsdudp_page_hosts, bsdudp_page_play};
pub use records::{PageCapture, bsdudp_page_records};
pub use settings::{PageMachine, PagePool};
pub use state::bsdudp_page_state;
use std::alloc::Global;

/// Serves a script of `bsdudp run`, which may also have lines `setsockopt FD rcvbuf N`, on a new machine, and writes
/// the replies to the front of the buffer: `uint32_t bsdudp_page_run(const struct page_machine *, const uint8_t
/// *script, size_t, uint8_t *room, size_t, size_t *len)`.
///
/// Returns the outcome's number: 0 if all lines got a reply, otherwise that of the fault. `len` is then the length of
/// the replies in bytes. If the buffer is shorter, it is unchanged, and the page calls again with a longer one.
///
/// The faults: 1 `BadSizes`, 2 `BadConfig`, 3 `Memory`, 4 `TooManyLines`, 6 `Write`, each as `link_script::run` defines
/// it; `Write` also occurs if the host refuses memory for the replies. 5 is `Read`, which never occurs for a script in
/// memory.
#[unsafe(no_mangle)]
pub extern "C" fn bsdudp_page_run(
    alloc: Global,
    machine: &PageMachine,
    script: &[u8],
    buffer: &mut [u8],
    len: &mut usize,
) -> u32
    ensures reported { PageRun (SaysLine Step) (boot (machine_config machine.now))
        (BootsRun (machine_config machine.now)) script.now result len.new buffer.old buffer.new }
{
    let mut reader = script;
    let mut replies = Vec::new(alloc);
    let outcome = run_lines(alloc, machine.config(), &mut reader, &mut replies);
    *len = hand_over(replies.as_slice(), buffer);
    number_of(outcome)
}

/// Serves a script of `bsdudp chain` over a new pool, in the same way: `uint32_t bsdudp_page_chain(const struct
/// page_pool *, const uint8_t *script, size_t, uint8_t *room, size_t, size_t *len)`.
///
/// The faults: 1 `BadSizes`, 3 `Memory`, 4 `TooManyLines`, 6 `Write`, each as `chain_script::run_chains` defines it.
#[unsafe(no_mangle)]
pub extern "C" fn bsdudp_page_chain(
    alloc: Global,
    pool: &PagePool,
    script: &[u8],
    buffer: &mut [u8],
    len: &mut usize,
) -> u32
    ensures reported { PageRun chain_steps.Says (booted pool.now.mbufs pool.now.clusters)
        (chain_sizes.BootsChains (sizes_of pool.now))
        script.now result len.new buffer.old buffer.new }
{
    let mut reader = script;
    let mut replies = Vec::new(alloc);
    let outcome = run_chains(alloc, pool.sizes(), &mut reader, &mut replies);
    *len = hand_over(replies.as_slice(), buffer);
    number_of(outcome)
}

/// Serves a script of `bsdudp chain` over a new pool, discards the replies, and draws the chain of one slot in the
/// final state: `uint32_t bsdudp_page_draw(const struct page_pool *, uint32_t slot, const uint8_t *script, size_t,
/// uint8_t *room, size_t, size_t *len)`. The lines of a drawing are those of `chain_script::draw_slot`; an empty slot,
/// and a slot above 63, has none.
///
/// Returns the outcome's number: 0 if the slot was drawn, otherwise that of the fault. The drawing is returned in the
/// way replies are. If nothing was drawn, `len` is 0 and the buffer is unchanged.
///
/// The faults: those of `bsdudp_page_chain`. `Memory` also occurs if the host refuses memory for the drawing.
#[unsafe(no_mangle)]
pub extern "C" fn bsdudp_page_draw(
    alloc: Global,
    pool: &PagePool,
    slot: u32,
    script: &[u8],
    buffer: &mut [u8],
    len: &mut usize,
) -> u32
    ensures drawn { Drawn pool.now slot script.now result len.new buffer.old buffer.new }
{
    let mut reader = script;
    let mut replies = Vec::new(alloc);
    match draw_slot(
        alloc,
        pool.sizes(),
        &mut reader,
        &mut replies,
        slot as usize,
    ) {
        Ok(Some(text)) => {
            *len = hand_over(text.as_slice(), buffer);
            number_of(Ok(()))
        }
        Ok(None) => {
            *len = 0;
            number_of(Err(RunFault::Memory))
        }
        Err(fault) => {
            *len = 0;
            number_of(Err(fault))
        }
    }
}
