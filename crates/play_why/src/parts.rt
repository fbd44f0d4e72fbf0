//! The fragments of unfinished datagrams, with the numbers of their records.
ghost use Rattle.std.specs.Prelude.{◌≡◌, ◌≤◌, ◌++◌, ◌||◌, filter, length, not, IfOk, IfSome};
ghost use Rattle.params.specs.declared.TheConstants.{IP_HEADER};
ghost use Rattle.ip_reass.specs.Questions.{nth_unfinished};
ghost use Rattle.net_stack.specs.Stack.{state_of};
ghost use Rattle.play_text.specs.Fates.{fate_of};
ghost use Rattle.play_why.specs.declared.joined.TheConstants.{DATAGRAM};
ghost use Rattle.play_why.specs.Keys as keys;
ghost use Rattle.play_why.specs.Kept as fragments;

use crate::blame::carried_of;
use crate::joined::Joined;
use crate::key::{key_of, offset_of, same_key};
use flat_model::{Counter, Counters, FragmentKey};
use net_stack::Stack;
use params::IP_HEADER;
use play_text::{Fate, drops_between, fate_of, is_any, rose};
use std::alloc::{AllocError, Global};

/// Why the fragments of an unfinished datagram were dropped.
#[derive(Clone, Copy, Debug, PartialEq, Eq)]
pub enum Loss {
    /// The others didn't arrive within 30 seconds.
    Expired,
    /// The stack needed the buffers.
    Reclaimed,
}

/// A fragment that is kept.
#[derive(Drop)]
pub(crate) struct Part {
    pub(crate) key: FragmentKey,
    pub(crate) number: u64,
    pub(crate) offset: usize,
    pub(crate) bytes: Vec<u8>,
}

/// A fragment that was kept, and dropped later.
#[derive(Clone, Copy)]
pub(crate) struct Lost {
    pub(crate) key: FragmentKey,
    pub(crate) number: u64,
    pub(crate) why: Loss,
}

/// The fragments that are kept and those that were dropped later; the records of the fragments that were gathered last,
/// and the bytes of the datagram that was reassembled last.
#[derive(Drop)]
pub(crate) struct Parts {
    alloc: Global,
    kept: Vec<Part>,
    lost: Vec<Lost>,
    numbers: Vec<u64>,
    whole: Joined,
}

/// Returns whether two fragments were dropped for the same reason.
fn same_loss(a: Loss, b: Loss) -> bool
    ensures { result ≡ fragments.same_loss a b }
{
    match (a, b) {
        (Loss::Expired, Loss::Expired) => true,
        (Loss::Reclaimed, Loss::Reclaimed) => true,
        _ => false,
    }
}

/// Returns whether the unfinished datagram at index `i` has this key.
fn has_key(machine: &Stack, i: u32, key: FragmentKey) -> bool
    ensures { result ≡ fragments.has_same_key key (nth_unfinished i (state_of machine.now).unfinished) }
{
    match machine.unfinished(i) {
        Some(datagram) => same_key(datagram.key, key),
        None => false,
    }
}

/// Returns whether `so` is true or the unfinished datagram at index `i` has this key.
fn or_has_key(so: bool, machine: &Stack, i: u32, key: FragmentKey) -> bool
    ensures { result ≡ (so || fragments.has_same_key key (nth_unfinished i (state_of machine.now).unfinished)) }
{
    so || has_key(machine, i, key)
}

/// Returns whether a machine has an unfinished datagram with this key.
fn is_unfinished(machine: &Stack, key: FragmentKey) -> bool
    ensures { result ≡ fragments.is_unfinished key (state_of machine.now).unfinished }
{
    let mut found = false;
    'places: for i in 0..machine.unfinished_len() {
        found = or_has_key(found, machine, i, key);
    }
    found
}

/// Returns whether a fragment belongs to the datagram that is complete.
fn is_spared(part: &Part, whole: Option<FragmentKey>) -> bool
    ensures { result ≡ fragments.is_spared whole part.now }
{
    match whole {
        Some(key) => same_key(part.key, key),
        None => false,
    }
}

/// Appends the record of a fragment if it belongs to this datagram.
fn append_number(part: &Part, key: FragmentKey, numbers: &mut Vec<u64>) -> Result<(), AllocError>
    ensures { IfOk result (λ u. numbers.new.items ≡ numbers.old.items ++ fragments.number_if key part.now) }
{
    if same_key(part.key, key) {
        numbers.push(part.number)?;
    }
    Ok(())
}

/// Appends the records of a datagram's fragments.
fn append_numbers(
    parts: &[Part],
    key: FragmentKey,
    numbers: &mut Vec<u64>,
) -> Result<(), AllocError>
    ensures { IfOk result (λ u. numbers.new.items ≡ numbers.old.items ++ fragments.numbers_of key parts.now) }
{
    for part in parts {
        append_number(part, key, numbers)?;
    }
    Ok(())
}

/// Appends a fragment to those that were dropped, unless it stays.
fn append_lost(part: &Part, stays: bool, why: Loss, lost: &mut Vec<Lost>) -> Result<(), AllocError>
    ensures { IfOk result (λ u. lost.new.items ≡ lost.old.items ++ fragments.lost_if stays why part.now) }
{
    if !stays {
        lost.push(Lost {
            key: part.key,
            number: part.number,
            why,
        })?;
    }
    Ok(())
}

/// Appends the fragments whose datagrams a machine has dropped to those that were dropped.
fn append_expired(parts: &[Part], machine: &Stack, lost: &mut Vec<Lost>) -> Result<(), AllocError>
    ensures { IfOk result (λ u. lost.new.items
        ≡ lost.old.items ++ fragments.expired_of (state_of machine.now).unfinished parts.now) }
{
    for part in parts {
        append_lost(part, is_unfinished(machine, part.key), Loss::Expired, lost)?;
    }
    Ok(())
}

/// Appends all fragments except those of the complete datagram to those that were dropped.
fn append_reclaimed(
    parts: &[Part],
    whole: Option<FragmentKey>,
    lost: &mut Vec<Lost>,
) -> Result<(), AllocError>
    ensures { IfOk result (λ u. lost.new.items ≡ lost.old.items ++ fragments.reclaimed_of whole parts.now) }
{
    for part in parts {
        append_lost(part, is_spared(part, whole), Loss::Reclaimed, lost)?;
    }
    Ok(())
}

/// Returns whether two fragments were dropped with one datagram.
fn same_lost(a: &Lost, b: &Lost) -> bool
    ensures { result ≡ fragments.same_lost a.now b.now }
{
    same_key(a.key, b.key) && same_loss(a.why, b.why)
}

/// Appends the record of a fragment if it was dropped together with `first`.
fn append_lost_number(it: &Lost, first: &Lost, numbers: &mut Vec<u64>) -> Result<(), AllocError>
    ensures { IfOk result (λ u. numbers.new.items ≡ numbers.old.items ++ fragments.lost_number_if first.now it.now) }
{
    if same_lost(first, it) {
        numbers.push(it.number)?;
    }
    Ok(())
}

/// Appends the records of the fragments that were dropped together with `first`.
fn append_lost_numbers(all: &[Lost], first: &Lost, numbers: &mut Vec<u64>) -> Result<(), AllocError>
    ensures { IfOk result (λ u. numbers.new.items ≡ numbers.old.items ++ fragments.lost_numbers_of first.now all.now) }
{
    for it in all {
        append_lost_number(it, first, numbers)?;
    }
    Ok(())
}

/// Returns the key of a packet that completed a datagram.
fn whole_key(packet: &[u8], before: &Counters, after: &Counters) -> Option<FragmentKey>
    ensures is { result ≡ fragments.whole_key (fate_of before.now after.now) packet.now }
    ensures least { IfSome result (λ k. IP_HEADER ≤ length packet.now) }
{
    match fate_of(before, after) {
        Fate::Whole => key_of(packet),
        Fate::Kept => None,
        Fate::Other => None,
    }
}

/// Returns the key of a packet that completed a datagram, if packets were dropped then.
fn dropped_key(packet: &[u8], before: &Counters, after: &Counters) -> Option<FragmentKey>
    ensures is { result ≡ fragments.dropped_key before.now after.now packet.now }
    ensures least { IfSome result (λ k. IP_HEADER ≤ length packet.now) }
{
    if is_any(&drops_between(before, after)) {
        whole_key(packet, before, after)
    } else {
        None
    }
}

/// Removes the fragments whose datagrams a machine has dropped.
fn retain_unfinished(kept: &mut Vec<Part>, machine: &Stack)
    ensures { kept.new.items
        ≡ filter (λ (part : Part). fragments.is_unfinished part.key (state_of machine.now).unfinished) kept.old.items }
{
    kept.retain(|part| is_unfinished(machine, part.key));
}

/// Removes all fragments except those of the complete datagram.
fn retain_spared(kept: &mut Vec<Part>, whole: Option<FragmentKey>)
    ensures { kept.new.items ≡ filter (fragments.is_spared whole) kept.old.items }
{
    kept.retain(|part| is_spared(part, whole));
}

/// Removes the fragments of a datagram.
fn retain_others(kept: &mut Vec<Part>, key: FragmentKey)
    ensures { kept.new.items ≡ filter (λ (part : Part). not (keys.same_key part.key key)) kept.old.items }
{
    kept.retain(|part| !same_key(part.key, key));
}

/// Removes the fragments that were dropped together with `first`.
fn retain_other_lost(lost: &mut Vec<Lost>, first: &Lost)
    ensures { lost.new.items ≡ filter (λ (it : Lost). not (fragments.same_lost first.now it)) lost.old.items }
{
    lost.retain(|it| !same_lost(first, it));
}

impl Parts {
    /// No fragment is kept yet. Fails if the host has no memory.
    pub(crate) fn new(alloc: Global) -> Result<Parts, AllocError>
        ensures { IfOk result fragments.AreNone }
    {
        Ok(Parts {
            alloc,
            kept: Vec::new(alloc),
            lost: Vec::new(alloc),
            numbers: Vec::new(alloc),
            whole: Joined::new(alloc)?,
        })
    }

    /// The records that were gathered last.
    pub(crate) fn records(&self) -> &[u64]
        ensures { result.now ≡ self.now.numbers.items }
    {
        self.numbers.as_slice()
    }

    /// The bytes of the datagram that was reassembled last.
    pub(crate) fn bytes(&self) -> &[u8]
        ensures is { result.now ≡ self.now.whole.bytes }
        ensures most { length result.now ≤ DATAGRAM }
    {
        self.whole.bytes()
    }

    /// Gathers the records of the other fragments of its datagram if the packet is a fragment. Fails if the host has no
    /// memory for the numbers.
    pub(crate) fn gather(&mut self, packet: &[u8]) -> Result<(), AllocError>
        ensures { IfOk result (λ u. fragments.Gathers packet.now self.old self.new) }
    {
        self.numbers.clear();
        match key_of(packet) {
            Some(key) => append_numbers(self.kept.as_slice(), key, &mut self.numbers),
            None => Ok(()),
        }
    }

    /// Gathers the records of the fragments that are kept of a datagram. Fails if the host has no memory.
    pub(crate) fn gather_of(&mut self, key: FragmentKey) -> Result<(), AllocError>
        ensures { IfOk result (λ u. fragments.GathersOf key self.old self.new) }
    {
        self.numbers.clear();
        append_numbers(self.kept.as_slice(), key, &mut self.numbers)
    }

    /// A packet has arrived: if it completed a datagram that was dropped, that is reassembled from the fragments that
    /// are kept and the packet.
    pub(crate) fn join(&mut self, packet: &[u8], before: &Counters, after: &Counters)
        ensures { fragments.Joins packet.now before.now after.now self.old self.new }
    {
        match dropped_key(packet, before, after) {
            Some(key) => self.whole.join(self.kept.as_slice(), key, packet),
            None => self.whole.clear(),
        }
    }

    /// Ticks have passed: the fragments are dropped whose datagrams the machine has dropped. Fails if the host has no
    /// memory.
    pub(crate) fn expire(
        &mut self,
        machine: &Stack,
        before: &Counters,
        after: &Counters,
    ) -> Result<(), AllocError>
        ensures { IfOk result (λ u. fragments.Expires before.now after.now (state_of machine.now) self.old self.new) }
    {
        if rose(Counter::IpFragtimeout, before, after) {
            append_expired(self.kept.as_slice(), machine, &mut self.lost)?;
            retain_unfinished(&mut self.kept, machine);
        }
        Ok(())
    }

    /// A packet has arrived: if the machine reclaimed buffers for it, all fragments are dropped except those of a
    /// datagram that it completed. Fails if the host has no memory.
    pub(crate) fn reclaim(
        &mut self,
        packet: &[u8],
        before: &Counters,
        after: &Counters,
    ) -> Result<(), AllocError>
        ensures { IfOk result (λ u. fragments.Reclaims packet.now before.now after.now self.old self.new) }
    {
        if rose(Counter::IpReclaimed, before, after) {
            let whole = whole_key(packet, before, after);
            append_reclaimed(self.kept.as_slice(), whole, &mut self.lost)?;
            retain_spared(&mut self.kept, whole);
        }
        Ok(())
    }

    /// Keeps the fragment in a packet with this key.
    fn keep_part(&mut self, number: u64, key: FragmentKey, packet: &[u8]) -> Result<(), AllocError>
        requires { IP_HEADER ≤ length packet.now }
        ensures { IfOk result (λ u. fragments.KeepsPart number key packet.now self.old self.new) }
    {
        let bytes = Vec::from_slice(self.alloc, carried_of(packet))?;
        self.kept.push(Part {
            key,
            number,
            offset: offset_of(packet),
            bytes,
        })?;
        Ok(())
    }

    /// Keeps the fragment in a packet, with the number of its record. Fails if the host has no memory.
    pub(crate) fn keep(&mut self, number: u64, packet: &[u8]) -> Result<(), AllocError>
        ensures { IfOk result (λ u. fragments.KeepsFragment number packet.now self.old self.new) }
    {
        match key_of(packet) {
            Some(key) => self.keep_part(number, key, packet),
            None => Ok(()),
        }
    }

    /// Forgets the fragments of a datagram.
    fn forget_part(&mut self, key: FragmentKey)
        ensures { fragments.ForgetsPart key self.old self.new }
    {
        retain_others(&mut self.kept, key);
    }

    /// Forgets the fragments of a packet's datagram, which is complete.
    pub(crate) fn forget(&mut self, packet: &[u8])
        ensures { fragments.Forgets packet.now self.old self.new }
    {
        match key_of(packet) {
            Some(key) => self.forget_part(key),
            None => {}
        }
    }

    /// Removes the first fragment that was dropped and isn't reported yet, and those that were dropped together with
    /// it, whose records it gathers. `None` if there is no such fragment. Fails if the host has no memory.
    pub(crate) fn take_lost(&mut self) -> Result<Option<Lost>, AllocError>
        ensures { IfOk result (λ first. fragments.TakesLost first self.old self.new) }
    {
        let Some(first) = self.lost.get(0) else {
            return Ok(None);
        };
        let first = *first;
        self.numbers.clear();
        append_lost_numbers(self.lost.as_slice(), &first, &mut self.numbers)?;
        retain_other_lost(&mut self.lost, &first);
        Ok(Some(first))
    }
}
