//! The stack as a host on an Ethernet. In addition to the handle of the stack there is a handle of its link, which is
//! the link's half of the host. A call on a stack changes nothing in its link. The link is booted and ended separately.
ghost use Rattle.std.specs.Prelude.{◌≡◌, ⊤};
ghost use Rattle.libbsdudp.specs.Calls.{stack_in};
ghost use Rattle.libbsdudp.specs.Ether.{AnswersHost, AnswersLink, Arrives, ArrivesFate, HasHostTicked, IsFramed, IsLinkAsked, IsLinkBooted, IsLinkEnded, NamesFault, ReportsAddress, ReportsError, ReportsNeighbour, ReportsTallies, handle_link};

use crate::errors::{INVALID, NO_LINK, NO_MEMORY, NO_STACK};
use crate::ether_calls;
use crate::exchange::with_held;
use crate::handle::Handle;
use crate::link_handle::LinkHandle;
use crate::link_owned::OwnedLink;
use crate::link_plain::{CLink, CNeighbour, CTallies};
use crate::plain::{CConfig, CFate};
use ether_host::{LinkFault, LinkLayer};
use std::alloc::Global;

/// Returns which setting of a host is wrong: 0 if none is, and otherwise the place of the first fault in the list of
/// `LinkFault`, from 1 on.
///
///     int bsdudp_core_ether_fault(const struct bsdudp_config *, const struct core_link *)
#[unsafe(no_mangle)]
pub extern "C" fn bsdudp_core_ether_fault(config: &CConfig, link: &CLink) -> i32
    ensures { NamesFault config.now link.now result }
{
    match link.link().fault(&config.config()) {
        None => 0,
        Some(LinkFault::Mtu) => 1,
        Some(LinkFault::GroupMac) => 2,
        Some(LinkFault::NoMac) => 3,
        Some(LinkFault::Addr) => 4,
        Some(LinkFault::Mask) => 5,
        Some(LinkFault::WideMask) => 6,
        Some(LinkFault::HostNumber) => 7,
        Some(LinkFault::Bcast) => 8,
        Some(LinkFault::Gateway) => 9,
    }
}

/// Boots the link of a stack with this configuration, into a handle that holds no link.
///
///     int bsdudp_core_ether_boot(struct bsdudp_core *link, const struct bsdudp_config *, const struct core_link *)
///
/// Returns 0, or the first error of these: -ENXIO if the handle holds a link, which stays; -EINVAL for link settings
/// that no host can have; -ENOMEM if an allocation fails.
#[unsafe(no_mangle)]
pub extern "C" fn bsdudp_core_ether_boot(
    alloc: Global,
    handle: &mut LinkHandle,
    config: &CConfig,
    link: &CLink,
) -> i32
    ensures { IsLinkBooted (handle_link handle.old) config.now link.now result (handle_link handle.new) }
{
    if handle.is_live() {
        return NO_STACK;
    }
    let config = config.config();
    let link = link.link();
    if link.fault(&config).is_some() {
        return INVALID;
    }
    let Ok(layer) = LinkLayer::boot(alloc, config, link) else {
        return NO_MEMORY;
    };
    match Box::new(alloc, OwnedLink { layer }) {
        Ok(boxed) => {
            handle.put(boxed);
            0
        }
        Err(_) => NO_MEMORY,
    }
}

/// Ends the link, frees all that it holds, and leaves the handle without a link.
///
///     int bsdudp_core_ether_end(struct bsdudp_core *link)
///
/// Returns 0, or -EOPNOTSUPP if the handle holds no link.
#[unsafe(no_mangle)]
pub extern "C" fn bsdudp_core_ether_end(alloc: Global, handle: &mut LinkHandle) -> i32
    ensures { IsLinkEnded (handle_link handle.old) result (handle_link handle.new) }
{
    match handle.take(alloc) {
        Some(boxed) => {
            drop(boxed);
            0
        }
        None => NO_LINK,
    }
}

/// Receives a frame. Returns 0, or -EMSGSIZE if it has more than 65,549 bytes.
///
///     int bsdudp_core_ether_receive(struct bsdudp_core *, struct bsdudp_core *link, const uint8_t *frame, size_t len)
#[tactic(auto, using(crate::proofs::EtherAnswered::host_answered))]
#[unsafe(no_mangle)]
pub extern "C" fn bsdudp_core_ether_receive(
    handle: &mut Handle,
    link: &mut LinkHandle,
    frame: &[u8],
) -> i32
    ensures { AnswersHost (stack_in handle.old) (handle_link link.old) result (stack_in handle.new)
        (handle_link link.new) ⊤
        (Arrives frame.now result) }
{
    if !handle.is_live() {
        return NO_STACK;
    }
    if !link.is_live() {
        return NO_LINK;
    }
    ether_calls::receive(
        &mut handle.value_mut().stack,
        &mut link.value_mut().layer,
        frame,
    )
}

/// Receives a frame as `bsdudp_core_ether_receive` does, and writes the fate of its packet. Returns 0, or -EMSGSIZE
/// if it has more than 65,549 bytes.
///
///     int bsdudp_core_ether_receive_fate(struct bsdudp_core *, struct bsdudp_core *link, const uint8_t *frame,
///                                        size_t len, struct bsdudp_fate *)
#[tactic(auto, using(crate::proofs::EtherAnswered::host_answered))]
#[unsafe(no_mangle)]
pub extern "C" fn bsdudp_core_ether_receive_fate(
    handle: &mut Handle,
    link: &mut LinkHandle,
    frame: &[u8],
    fate: &mut CFate,
) -> i32
    ensures { AnswersHost (stack_in handle.old) (handle_link link.old) result (stack_in handle.new)
        (handle_link link.new)
        (fate.new ≡ fate.old) (ArrivesFate frame.now result fate.old fate.new) }
{
    if !handle.is_live() {
        return NO_STACK;
    }
    if !link.is_live() {
        return NO_LINK;
    }
    ether_calls::receive_fate(
        &mut handle.value_mut().stack,
        &mut link.value_mut().layer,
        frame,
        fate,
    )
}

/// Takes the next frame for the link. Returns its length in bytes, or 0 if no frame is queued; -EMSGSIZE if the buffer
/// has fewer than 1,514 bytes, or the MTU of the stack is above 1,500.
///
///     int bsdudp_core_ether_transmit(struct bsdudp_core *, struct bsdudp_core *link, uint8_t *room, size_t len)
#[tactic(auto, using(crate::proofs::EtherAnswered::host_answered))]
#[unsafe(no_mangle)]
pub extern "C" fn bsdudp_core_ether_transmit(
    handle: &mut Handle,
    link: &mut LinkHandle,
    buffer: &mut [u8],
) -> i32
    ensures { AnswersHost (stack_in handle.old) (handle_link link.old) result (stack_in handle.new)
        (handle_link link.new)
        (buffer.new ≡ buffer.old) (IsFramed buffer.old buffer.new result) }
{
    if !handle.is_live() {
        return NO_STACK;
    }
    if !link.is_live() {
        return NO_LINK;
    }
    ether_calls::transmit(
        &mut handle.value_mut().stack,
        &mut link.value_mut().layer,
        buffer,
    )
}

/// Returns what other hosts reported about the datagrams that a connected socket sent to its peer, and clears it: 0 for
/// no report, 61 for ECONNREFUSED, 65 for EHOSTUNREACH, or a negative error code if the call fails.
///
///     int bsdudp_core_ether_last_error(struct bsdudp_core *, struct bsdudp_core *link, uint32_t fd)
#[tactic(auto, using(crate::proofs::EtherAnswered::host_answered))]
#[unsafe(no_mangle)]
pub extern "C" fn bsdudp_core_ether_last_error(
    handle: &mut Handle,
    link: &mut LinkHandle,
    fd: u32,
) -> i32
    ensures { AnswersHost (stack_in handle.old) (handle_link link.old) result (stack_in handle.new)
        (handle_link link.new) ⊤
        (ReportsError fd result) }
{
    if !handle.is_live() {
        return NO_STACK;
    }
    if !link.is_live() {
        return NO_LINK;
    }
    ether_calls::last_error(&handle.value_mut().stack, &mut link.value_mut().layer, fd)
}

/// Half a second has passed for the stack and for its link: a host calls this instead of `bsdudp_core_tick`. Returns 0.
///
///     int bsdudp_core_ether_tick(struct bsdudp_core *, struct bsdudp_core *link)
#[tactic(auto, using(crate::proofs::EtherAnswered::host_answered))]
#[unsafe(no_mangle)]
pub extern "C" fn bsdudp_core_ether_tick(handle: &mut Handle, link: &mut LinkHandle) -> i32
    ensures { AnswersHost (stack_in handle.old) (handle_link link.old) result (stack_in handle.new)
        (handle_link link.new) ⊤
        (HasHostTicked result) }
{
    if !handle.is_live() {
        return NO_STACK;
    }
    if !link.is_live() {
        return NO_LINK;
    }
    ether_calls::tick(&mut handle.value_mut().stack, &mut link.value_mut().layer)
}

/// Returns the state of the host's address: 1 if it is in use, 0 while the host probes for it, or -EADDRINUSE if
/// another host has it.
///
///     int bsdudp_core_ether_address(struct bsdudp_core *link)
#[tactic(auto, using(crate::proofs::EtherAnswered::link_asked))]
#[unsafe(no_mangle)]
pub extern "C" fn bsdudp_core_ether_address(link: &mut LinkHandle) -> i32
    ensures { AnswersLink (handle_link link.old) result (handle_link link.new) ⊤ (IsLinkAsked (ReportsAddress result)) }
{
    with_held!(link, NO_LINK, held => ether_calls::address(&held.layer))
}

/// Reads the counters of the link. Returns 0.
///
///     int bsdudp_core_ether_tallies(struct bsdudp_core *link, struct core_tallies *)
#[tactic(auto, using(crate::proofs::EtherAnswered::link_asked))]
#[unsafe(no_mangle)]
pub extern "C" fn bsdudp_core_ether_tallies(link: &mut LinkHandle, tallies: &mut CTallies) -> i32
    ensures { AnswersLink (handle_link link.old) result (handle_link link.new) (tallies.new ≡ tallies.old)
        (IsLinkAsked (ReportsTallies result tallies.new)) }
{
    with_held!(link, NO_LINK, held => ether_calls::tallies(&held.layer, tallies))
}

/// Reads a neighbour by its index in the table, in which the newest entry is last. Returns 0, or -EINVAL if there is no
/// such neighbour.
///
///     int bsdudp_core_ether_neighbour(struct bsdudp_core *link, uint32_t i, struct core_neighbour *)
#[tactic(auto, using(crate::proofs::EtherAnswered::link_asked))]
#[unsafe(no_mangle)]
pub extern "C" fn bsdudp_core_ether_neighbour(
    link: &mut LinkHandle,
    i: u32,
    neighbour: &mut CNeighbour,
) -> i32
    ensures { AnswersLink (handle_link link.old) result (handle_link link.new) (neighbour.new ≡ neighbour.old)
        (IsLinkAsked (ReportsNeighbour i result neighbour.old neighbour.new)) }
{
    with_held!(link, NO_LINK, held => ether_calls::neighbour(&held.layer, i, neighbour))
}
