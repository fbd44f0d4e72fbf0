//! The records of a capture, each of which is given to a judge.
ghost use Rattle.std.specs.Prelude.{◌≤◌, length, IfSome};

use crate::copies::{Copies, Times};
use crate::ether::{EtherEnd, LinkCounts, Linked};
use crate::ether_text::{Frame, LINK_TEXT, put_frame_text, put_link_totals};
use crate::flow::{FlowSums, is_of_flow};
use crate::kinds::Kinds;
use crate::pieces::{Key, Pieces};
use crate::vlan::{Vlan, vlan_of};
use crate::why::Choice;
use capture::pcap::{LinkType, ipv4_packet};
use capture::{Fault, Record, Records};
use flat_model::Why;
use play_pcap::Range;
use play_text::Fate;
use play_why::{Arrival, Blame, Card, Judge, Layout, Outcome, Refusals, Verdict};
use script_loop::{Buffer, Source};
use std::alloc::{AllocError, Global};
use std::io::{self, Write};
use std::net::Ipv4Addr;

/// The most bytes of a packet.
const MOST_BYTES: usize = 65_535;

/// Returns the packet in a record of these bytes, if it has one that a machine accepts.
pub(crate) fn packet_in(record: Record, bytes: &[u8]) -> Option<&[u8]>
    ensures { IfSome result (λ p. length p.now ≤ 65535) }
{
    match ipv4_packet(record.link?, bytes) {
        Ok(packet) if packet.len() <= MOST_BYTES => Some(packet),
        _ => None,
    }
}

/// What a capture has besides the packets for the machine, and what `--fail-on` may name.
#[derive(Clone, Copy)]
pub(crate) struct Counts {
    /// Packets for other machines.
    pub(crate) elsewhere: u64,
    /// Records without IPv4.
    pub(crate) without: u64,
    /// Packets of other VLANs.
    pub(crate) other_vlans: u64,
    /// Datagrams that are unfinished at the end.
    pub(crate) unfinished: u64,
    /// Frames that the link of a host on an Ethernet didn't give to its stack.
    pub(crate) link: LinkCounts,
    pub(crate) kinds: Kinds,
    /// Whether something happened that `--fail-on` names.
    pub(crate) fails: bool,
    /// Whether a record was for the host.
    pub(crate) heard: bool,
    /// IPv4 packets that weren't, also if they are played.
    pub(crate) others: u64,
}

/// Why the records of a capture weren't all printed.
#[derive(Clone, Copy)]
pub(crate) enum End {
    Fault(Fault),
    Memory,
    Unwritten,
    /// The reader of the output has ended, as `head` does.
    Closed,
}

/// The machine that judges: a stack, and a host on an Ethernet if frames are judged. It must be consumed by `end`.
pub(crate) struct Machine {
    pub(crate) judge: Judge,
    /// The host on an Ethernet, if one judges.
    pub(crate) link: Option<EtherEnd>,
}

impl Machine {
    /// Ends both.
    pub(crate) fn end(self) {
        let Machine { judge, link } = self;
        judge.end();
        if let Some(link) = link {
            link.end();
        }
    }
}

/// What only the capture knows of a record.
#[derive(Clone, Copy)]
struct At {
    /// When it was captured, in nanoseconds since 1970.
    time: Option<u64>,
    vlan: Vlan,
}

/// The records, played on a machine.
#[derive(Drop)]
pub(crate) struct Play<'a> {
    pub(crate) choice: Choice,
    pub(crate) ours: u32,
    machine: &'a mut Machine,
    link_text: Buffer<LINK_TEXT>,
    refusals: Refusals,
    /// Whether the refusals were read ahead.
    ahead: bool,
    /// The host's VLAN, once it's known. A host on an Ethernet has none, and its link drops frames with tags.
    vlan: Option<Vlan>,
    /// The record that is played.
    at: At,
    card: Card,
    copies: Copies,
    pieces: Pieces,
    flow: FlowSums,
    /// Packets that were dropped for what this stack lacks.
    lacking: Times,
    pub(crate) counts: Counts,
}

/// Writes bytes to the output.
fn put<W: Write>(out: &mut W, bytes: &[u8]) -> Result<(), End> {
    written(out.write_all(bytes))
}

/// Writes how many records are of a kind, and the first of them, if there are some.
fn put_times<W: Write>(times: Times, what: &str, out: &mut W) -> Result<(), End> {
    if times.count == 0 {
        return Ok(());
    }
    let (count, first) = (times.count, times.first);
    written(writeln!(out, "    {count} {what} (first: record {first})"))
}

/// Returns whether the output was written.
pub(crate) fn written(done: io::Result<()>) -> Result<(), End> {
    let Err(error) = done else {
        return Ok(());
    };
    Err(if error.kind() == io::ErrorKind::BrokenPipe {
        End::Closed
    } else {
        End::Unwritten
    })
}

/// Writes the records of a datagram's fragments, of which the last one completed it.
fn write_records<W: Write>(earlier: &[u64], last: u64, out: &mut W) -> io::Result<()> {
    out.write_all(b",\"records\":[")?;
    for number in earlier {
        write!(out, "{number},")?;
    }
    write!(out, "{last}]")
}

/// Writes the members for what only the capture knows of a record, and the end of its object.
fn write_at<W: Write>(at: At, out: &mut W) -> io::Result<()> {
    match at.time {
        Some(time) => write!(
            out,
            ",\"time_epoch\":\"{}.{:09}\"",
            time / 1_000_000_000,
            time % 1_000_000_000
        )?,
        None => out.write_all(b",\"time_epoch\":null")?,
    }
    out.write_all(b",\"vlan\":")?;
    at.vlan.write_array(out)?;
    out.write_all(b"}\n")
}

/// Returns whether a record is to be printed.
fn is_in(range: Option<Range>, number: u64) -> bool {
    match range {
        None => true,
        Some(range) => u64::from(range.first) <= number && number <= u64::from(range.last),
    }
}

/// Returns whether a packet counts as dropped for `--dropped`.
fn is_dropped(outcome: Outcome) -> bool {
    matches!(outcome, Outcome::Dropped | Outcome::Refused)
}

/// Returns whether the record with this verdict is to be printed.
fn is_wanted(choice: Choice, verdict: &Verdict) -> bool {
    is_in(choice.range, verdict.number)
        && (!choice.dropped || is_dropped(verdict.outcome))
        && (choice.flow.is_none() || is_of_flow(choice, verdict))
}

/// Returns whether this is to blame for one of the causes of a verdict.
fn is_blamed(verdict: &Verdict, blame: Blame) -> bool {
    let mut found = false;
    for finding in verdict.findings {
        if let Some(finding) = finding {
            found = found || finding.blame == blame;
        }
    }
    found
}

/// What is printed below a datagram for which a host on an Ethernet sends an ICMP error.
static REPORTED: &[u8] =
    b"    the host sends the ICMP error \"port unreachable\" (RFC 1122, section 4.1.3.1)\n";

/// Returns whether no socket took a datagram that the host didn't refuse in the capture.
fn is_unclaimed(verdict: &Verdict) -> bool {
    let mut found = false;
    for finding in verdict.findings {
        if let Some(finding) = finding {
            found = found
                || (matches!(finding.why, Why::UdpNoPort)
                    && matches!(finding.blame, Blame::Packet));
        }
    }
    found
}

impl<'a> Play<'a> {
    /// No record was played on the machine, which has just started. `ahead`: the refusals and the host's VLAN, if the
    /// capture was read ahead.
    pub(crate) fn over(
        alloc: Global,
        choice: Choice,
        ours: u32,
        machine: &'a mut Machine,
        ahead: (Option<Refusals>, Option<Vlan>),
    ) -> Result<Play<'a>, AllocError> {
        let (refusals, vlan) = ahead;
        let (Ok(card), Ok(link_text)) = (Card::new(alloc), Buffer::new(alloc)) else {
            return Err(AllocError);
        };
        Ok(Play {
            choice,
            ours,
            machine,
            link_text,
            ahead: refusals.is_some(),
            refusals: match refusals {
                Some(refusals) => refusals,
                None => Refusals::new(alloc),
            },
            vlan,
            at: At {
                time: None,
                vlan: vlan_of(None, b""),
            },
            card,
            copies: Copies::new(alloc),
            pieces: Pieces::new(alloc),
            flow: FlowSums::new(),
            lacking: Times::never(),
            counts: Counts {
                elsewhere: 0,
                without: 0,
                other_vlans: 0,
                unfinished: 0,
                link: LinkCounts::new(),
                kinds: Kinds::new(),
                fails: false,
                heard: false,
                others: 0,
            },
        })
    }

    /// Notes that a datagram isn't completed. `are_copies`: only copies of its fragments came, so that's no case that
    /// `--fail-on` names.
    fn note_unfinished(&mut self, key: Option<Key>, are_copies: bool) {
        if !are_copies && self.may_be_of_flow(key) {
            self.flow.add_unfinished();
        }
        let fails = self.choice.fail_on.unfinished && !are_copies;
        self.counts.fails = self.counts.fails || fails;
    }

    /// Returns whether a datagram that isn't completed may be of the flow that is selected.
    fn may_be_of_flow(&self, key: Option<Key>) -> bool {
        match (self.choice.flow, key) {
            (Some(flow), Some(key)) => self.pieces.may_be_of(key, (flow.address, flow.port)),
            _ => true,
        }
    }

    /// Prints the judge's line on a datagram that isn't completed: only copies came, or which bytes are missing of one
    /// that was dropped.
    fn put_line<W: Write>(
        &self,
        lost: Option<Key>,
        are_copies: bool,
        out: &mut W,
    ) -> Result<(), End> {
        let text = self.machine.judge.text();
        if are_copies && let Some(rest) = text.strip_prefix(b"    unfinished: ") {
            put(out, b"    only copies: ")?;
            return put(out, rest);
        }
        let (Some(front), Some(key)) = (text.strip_suffix(b"\n"), lost) else {
            return put(out, text);
        };
        put(out, front)?;
        put(out, b"; lacks")?;
        written(self.pieces.write_missing(key, Layout::Lines, out))?;
        put(out, b"\n")
    }

    /// Prints the judge's object on a datagram that isn't completed, with its ports and what is missing.
    fn put_object<W: Write>(
        &self,
        key: Option<Key>,
        are_copies: bool,
        out: &mut W,
    ) -> Result<(), End> {
        let text = self.machine.judge.text();
        let Some(front) = text.strip_suffix(b"}\n") else {
            return put(out, text);
        };
        put(out, front)?;
        if let Some(key) = key {
            written(self.pieces.write_members(key, out))?;
        }
        put(
            out,
            if are_copies {
                b",\"copies\":true}\n"
            } else {
                b"}\n"
            },
        )
    }

    /// Prints the judge's text on a record. An object has members for what only the capture knows.
    fn put_judged<W: Write>(&self, verdict: &Verdict, out: &mut W) -> Result<(), End> {
        let text = self.machine.judge.text();
        match (self.choice.layout, text.strip_suffix(b"}\n")) {
            (Layout::Objects, Some(front)) => {
                put(out, front)?;
                if matches!(verdict.fate, Fate::Whole) {
                    let records = self.machine.judge.records();
                    written(write_records(records, verdict.number, out))?;
                }
                written(write_at(self.at, out))
            }
            _ => put(out, text),
        }
    }

    /// Prints that a fragment came again after its datagram was whole.
    fn put_copy<W: Write>(&self, number: u64, whole: u64, out: &mut W) -> Result<(), End> {
        written(match self.choice.layout {
            Layout::Lines => writeln!(
                out,
                "    a copy: its datagram was whole with record {whole}"
            ),
            Layout::Objects => writeln!(out, "{{\"copy\":{number},\"whole\":{whole}}}"),
        })
    }

    /// Prints the datagrams that were dropped unfinished, if one of their records is selected.
    fn put_lost<W: Write>(&mut self, out: &mut W) -> Result<(), End> {
        for _ in 0..u64::MAX {
            match self.machine.judge.report_lost() {
                Ok(Some(_)) => {}
                Ok(None) => break,
                Err(_) => return Err(End::Memory),
            }
            let key = self.pieces.key_in(self.machine.judge.records());
            let are_copies = self.copies.are_copies(self.machine.judge.records());
            self.note_unfinished(key, are_copies);
            let mut wanted = false;
            for number in self.machine.judge.records() {
                wanted = wanted || is_in(self.choice.range, *number);
            }
            if wanted && self.may_be_of_flow(key) {
                match self.choice.layout {
                    Layout::Lines => self.put_line(key, are_copies, out)?,
                    Layout::Objects => self.put_object(key, are_copies, out)?,
                }
            }
            self.pieces.drop_unfinished(key);
        }
        Ok(())
    }

    /// Lets time pass up to a record, and prints the datagrams that expired.
    fn pass<W: Write>(&mut self, time: u64, out: &mut W) -> Result<(), End> {
        if self.machine.judge.pass(time).is_err() {
            return Err(End::Memory);
        }
        if let Some(link) = &mut self.machine.link {
            link.pass(time);
        }
        self.put_lost(out)
    }

    /// Notes whether a verdict is one that `--fail-on` names.
    fn note(&mut self, verdict: &Verdict) {
        if is_of_flow(self.choice, verdict) {
            self.flow.add(verdict.outcome);
        }
        let fail_on = self.choice.fail_on;
        let is_dropped = matches!(verdict.outcome, Outcome::Dropped);
        let is_packet = fail_on.packet && is_dropped && is_blamed(verdict, Blame::Packet);
        let is_lacking = is_dropped && is_blamed(verdict, Blame::Stack);
        let is_stack = fail_on.stack && is_lacking;
        let is_offload = fail_on.offload && (verdict.filled || is_blamed(verdict, Blame::Card));
        let is_cut = fail_on.cut && is_blamed(verdict, Blame::Capture);
        self.counts.fails = self.counts.fails || is_packet || is_stack || is_offload || is_cut;
        if is_lacking {
            self.lacking.add(verdict.number);
        }
    }

    /// Prints what happened to a packet if it's selected, and the datagrams that were dropped for it. `reported`: a
    /// host on an Ethernet sends an ICMP error for the packet if no socket takes it.
    fn put_verdict<W: Write>(
        &mut self,
        verdict: &Verdict,
        packet: &[u8],
        reported: bool,
        out: &mut W,
    ) -> Result<(), End> {
        self.note(verdict);
        let (Ok(earlier), Ok(())) = (self.copies.note(verdict), self.pieces.note(packet, verdict))
        else {
            return Err(End::Memory);
        };
        if is_wanted(self.choice, verdict) {
            self.put_judged(verdict, out)?;
            let (number, layout) = (verdict.number, self.choice.layout);
            written(self.pieces.write_overlaps(number, layout, out))?;
            if let Some(whole) = earlier {
                self.put_copy(verdict.number, whole, out)?;
            }
            if reported && is_unclaimed(verdict) && matches!(self.choice.layout, Layout::Lines) {
                put(out, REPORTED)?;
            }
        }
        self.put_lost(out)
    }

    /// Lets a packet for the machine arrive, with its checksum filled in if it was left to the card and the options say
    /// so. Prints what happened to it.
    fn receive<W: Write>(
        &mut self,
        arrival: &Arrival<'_>,
        reported: bool,
        out: &mut W,
    ) -> Result<(), End>
        requires { length arrival.now.packet.now ≤ 65535 }
    {
        let is_whole = arrival.original <= arrival.captured;
        let judged = if self.choice.offload && is_whole && self.card.fill(arrival.packet) {
            self.machine.judge.receive(&Arrival {
                packet: self.card.packet(),
                filled: true,
                ..*arrival
            })
        } else {
            self.machine.judge.receive(arrival)
        };
        match judged {
            Ok(verdict) => self.put_verdict(&verdict, arrival.packet, reported, out),
            Err(_) => Err(End::Memory),
        }
    }

    /// Prints that the host refused a port, if this wasn't read ahead.
    fn put_refusal<W: Write>(
        &mut self,
        number: u64,
        packet: &[u8],
        out: &mut W,
    ) -> Result<(), End> {
        let Some(refusal) = play_why::refusal_of(packet) else {
            return Ok(());
        };
        if self.ahead || refusal.host != self.ours {
            return Ok(());
        }
        let peer = Ipv4Addr::from_bits(refusal.peer);
        let (port, id, peer_port) = (refusal.port, refusal.id, refusal.peer_port);
        written(match self.choice.layout {
            Layout::Lines => writeln!(
                out,
                "{number}  the host refused port {port}, for the datagram with id {id} from {peer}:{peer_port}"
            ),
            Layout::Objects => writeln!(
                out,
                "{{\"refusal\":{number},\"port\":{port},\"src\":\"{peer}\",\"sport\":{peer_port},\"id\":{id}}}"
            ),
        })
    }

    /// Plays the packet of a record, which the link gave to the stack if `linked` says so.
    fn play_packet<W: Write>(
        &mut self,
        arrival: &Arrival<'_>,
        linked: Linked,
        out: &mut W,
    ) -> Result<(), End>
        requires { length arrival.now.packet.now ≤ 65535 }
    {
        match linked {
            Linked::Packet { reported } => self.receive(arrival, reported, out)?,
            Linked::Elsewhere => {
                self.counts.elsewhere = self.counts.elsewhere.saturating_add(1);
                self.put_refusal(arrival.number, arrival.packet, out)?;
            }
            _ => {}
        }
        match self.refusals.pass(arrival.number, arrival.packet) {
            Ok(()) => Ok(()),
            Err(_) => Err(End::Memory),
        }
    }

    /// Returns whether a packet is of another VLAN than the host, whose VLAN is that of the first packet for it if none
    /// was chosen.
    fn is_of_another_vlan(&mut self, packet: Option<&[u8]>) -> bool {
        let Some(packet) = packet else {
            return false;
        };
        if self.machine.link.is_some() {
            return false;
        }
        match self.vlan {
            Some(vlan) => vlan != self.at.vlan,
            None => {
                if self.machine.judge.is_ours(packet) {
                    self.vlan = Some(self.at.vlan);
                }
                false
            }
        }
    }

    /// Returns what the link does with a record. Without a link, each packet for the machine arrives.
    fn link_of(&mut self, record: Record, bytes: &[u8]) -> Linked {
        let packet = packet_in(record, bytes);
        let is_ours = match packet {
            Some(packet) => self.machine.judge.is_ours(packet),
            None => false,
        };
        let linked = match (&mut self.machine.link, record.link) {
            (Some(link), Some(LinkType::Ethernet)) => link.take(bytes, is_ours),
            _ if is_ours => Linked::Packet { reported: false },
            _ => Linked::Elsewhere,
        };
        if !matches!(linked, Linked::Elsewhere) {
            self.counts.heard = true;
        } else if packet.is_some() {
            self.counts.others = self.counts.others.saturating_add(1);
        }
        match linked {
            Linked::Elsewhere if self.choice.all => Linked::Packet { reported: false },
            _ => linked,
        }
    }

    /// Counts and prints a frame that the link didn't give to the stack, if it did something with it.
    fn put_linked<W: Write>(
        &mut self,
        frame: Frame<'_>,
        linked: Linked,
        out: &mut W,
    ) -> Result<(), End> {
        self.counts.link.add(linked);
        let is_drop = linked.is_drop();
        self.counts.fails = self.counts.fails || (is_drop && self.choice.fail_on.packet);
        if linked.words().is_none()
            || !is_in(self.choice.range, frame.number)
            || (self.choice.dropped && !is_drop)
            || self.choice.flow.is_some()
        {
            return Ok(());
        }
        put_frame_text(&mut self.link_text, self.choice.layout, frame, linked);
        put(out, self.link_text.as_slice())
    }

    /// Plays a record that was captured at a time.
    fn play_record<W: Write>(
        &mut self,
        record: Record,
        time: u64,
        bytes: &[u8],
        out: &mut W,
    ) -> Result<(), End> {
        self.counts.kinds.add(record, bytes);
        self.pass(time, out)?;
        self.at = At {
            time: record.time,
            vlan: vlan_of(record.link, bytes),
        };
        if self.is_of_another_vlan(packet_in(record, bytes)) {
            self.counts.other_vlans = self.counts.other_vlans.saturating_add(1);
            return Ok(());
        }
        let linked = self.link_of(record, bytes);
        let is_ours = !matches!(linked, Linked::Elsewhere);
        if self.copies.read(record.number, bytes, is_ours).is_err() {
            return Err(End::Memory);
        }
        let frame = Frame {
            number: record.number,
            time,
            bytes,
        };
        self.put_linked(frame, linked, out)?;
        let Some(packet) = packet_in(record, bytes) else {
            self.counts.without = self.counts.without.saturating_add(1);
            return Ok(());
        };
        let (source_port, destination_port) = self.pieces.ports_for(packet);
        let arrival = Arrival {
            number: record.number,
            time,
            original: record.original_len,
            captured: bytes.len().min(u32::MAX as usize) as u32,
            packet,
            filled: false,
            refused: self.refusals.record_for(record.number, packet),
            source_port,
            destination_port,
        };
        self.play_packet(&arrival, linked, out)
    }

    /// Plays all records, and prints what happened to each.
    pub(crate) fn play_records<S: Source, W: Write>(
        &mut self,
        records: &mut Records<S>,
        out: &mut W,
    ) -> Result<(), End> {
        let mut clock = Clock {
            first: None,
            last: 0,
        };
        for _ in 0..u64::MAX {
            let record = match records.next_record() {
                Ok(Some(record)) => record,
                Ok(None) => break,
                Err(fault) => return Err(End::Fault(fault)),
            };
            let time = clock.time_of(record);
            self.play_record(record, time, records.bytes(), out)?;
        }
        Ok(())
    }

    /// Prints the datagrams that are unfinished at the end.
    fn put_unfinished<W: Write>(&mut self, out: &mut W) -> Result<(), End> {
        for i in 0..u32::MAX {
            match self.machine.judge.report_unfinished(i) {
                Ok(true) => {}
                Ok(false) => break,
                Err(_) => return Err(End::Memory),
            }
            let key = self.pieces.key_in(self.machine.judge.records());
            let are_copies = self.copies.are_copies(self.machine.judge.records());
            self.note_unfinished(key, are_copies);
            if self.may_be_of_flow(key) {
                match self.choice.layout {
                    Layout::Lines => self.put_line(None, are_copies, out)?,
                    Layout::Objects => self.put_object(key, are_copies, out)?,
                }
            }
            if !are_copies {
                self.counts.unfinished = self.counts.unfinished.saturating_add(1);
            }
        }
        Ok(())
    }

    /// Prints what happened to all packets.
    fn put_totals<W: Write>(&mut self, out: &mut W) -> Result<(), End> {
        self.machine.judge.report_totals(play_why::Others {
            elsewhere: self.counts.elsewhere,
            without: self.counts.without,
            unfinished: self.counts.unfinished,
        });
        let text = self.machine.judge.text();
        match (self.choice.layout, text.strip_suffix(b"}}\n")) {
            (Layout::Objects, Some(front)) => {
                put(out, front)?;
                written(self.write_vlan(out))
            }
            _ => put(out, text),
        }
    }

    /// Writes the members of the summary for the host's VLAN and other ones, and the end of the object.
    fn write_vlan<W: Write>(&self, out: &mut W) -> io::Result<()> {
        out.write_all(b",\"vlan\":")?;
        match self.vlan {
            Some(vlan) => vlan.write_array(out)?,
            None => out.write_all(b"[]")?,
        }
        writeln!(out, ",\"other_vlans\":{}}}}}", self.counts.other_vlans)
    }

    /// Prints an object that counts what isn't the packets' fault, if there is such a case.
    fn put_apart_object<W: Write>(&self, out: &mut W) -> Result<(), End> {
        let (copies, repeats) = (self.copies.again.count, self.copies.repeats.count);
        let lacking = self.lacking.count;
        if copies == 0 && repeats == 0 && lacking == 0 {
            return Ok(());
        }
        written(writeln!(
            out,
            "{{\"apart\":{{\"stack\":{lacking},\"copies\":{copies},\"repeats\":{repeats}}}}}"
        ))
    }

    /// Prints lines that count what isn't the packets' fault, if there are such cases.
    fn put_apart<W: Write>(&self, out: &mut W) -> Result<(), End> {
        put_times(
            self.lacking,
            "of the dropped need what this stack lacks: no fault of the packets",
            out,
        )?;
        put_times(
            self.copies.again,
            "of those kept are copies: their datagram was whole before",
            out,
        )?;
        put_times(
            self.copies.repeats,
            "repeat the record before: editcap -d removes such copies of a mirror port",
            out,
        )
    }

    /// Prints what the link of a host on an Ethernet did, if one judges.
    fn put_link<W: Write>(&mut self, out: &mut W) -> Result<(), End> {
        let mac = match &self.machine.link {
            Some(link) => link.mac,
            None => return Ok(()),
        };
        put_link_totals(
            &mut self.link_text,
            self.choice.layout,
            mac,
            self.counts.link,
        );
        put(out, self.link_text.as_slice())
    }

    /// Prints the sums of the flow that is selected.
    fn put_flow<W: Write>(&self, out: &mut W) -> Result<(), End> {
        match self.choice.flow {
            Some(flow) => written(self.flow.write(flow, self.choice.layout, out)),
            None => Ok(()),
        }
    }

    /// Prints what follows the last record: the datagrams that are unfinished, after the lines of the summary, or
    /// before its object.
    pub(crate) fn put_rest<W: Write>(&mut self, out: &mut W) -> Result<(), End> {
        match self.choice.layout {
            Layout::Lines => {
                self.put_totals(out)?;
                self.put_apart(out)?;
                self.put_unfinished(out)?;
                self.put_flow(out)?;
                self.put_link(out)
            }
            Layout::Objects => {
                self.put_unfinished(out)?;
                self.put_apart_object(out)?;
                self.put_flow(out)?;
                self.put_link(out)?;
                self.put_totals(out)
            }
        }
    }
}

/// When records were captured, from the first one on. A record without a time has that of the one before it.
#[derive(Clone, Copy)]
struct Clock {
    first: Option<u64>,
    last: u64,
}

impl Clock {
    /// Returns how many nanoseconds after the first record this one was captured.
    fn time_of(&mut self, record: Record) -> u64 {
        let now = record.time.unwrap_or(self.last);
        self.last = now;
        match self.first {
            Some(first) => now.saturating_sub(first),
            None => {
                self.first = Some(now);
                0
            }
        }
    }
}
