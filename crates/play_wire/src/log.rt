//! The log of what passes on the wire during a line.

use crate::add::{add, add_number};
use crate::event::{Event, Happened, add_due, add_events, add_objects, add_packet};
use crate::names::NAME;
use crate::objects::{Fields, OBJECTS, add_more, add_object, add_sent, has_room};
use crate::show::name_at;
use crate::verdict::{Look, Verdict};
use net_stack::Stack;
use params::MAX_MTU;
use play_script::Form;
use play_show::SHOWN;
use script_loop::Buffer;
use segment::{Fate, MAX_HOSTS, Segment, Tallies, UnderWay, Watch};
use std::alloc::{AllocError, Global};

/// The most packets of each half of a carry that are printed as text.
const MOST: usize = 64;

/// The most packets of each half of a carry that are logged.
const KEPT: usize = 256;

/// The most events of these packets that are logged.
const FATES: usize = 4096;

/// The size of a packet of any link.
const OUTPUT: usize = MAX_MTU as usize;

/// A packet or a frame that was sent or delivered.
#[derive(Clone, Copy)]
struct Packet {
    sender: usize,
    len: usize,
    buffer: [u8; OUTPUT],
}

impl Packet {
    fn new() -> Packet {
        Packet {
            sender: 0,
            len: 0,
            buffer: [0; OUTPUT],
        }
    }

    fn set(&mut self, sender: usize, packet: &[u8]) {
        let len = packet.len().min(OUTPUT);
        self.sender = sender;
        self.len = len;
        self.buffer[..len].copy_from_slice(&packet[..len]);
    }

    fn bytes(&self) -> &[u8] {
        &self.buffer[..self.len.min(OUTPUT)]
    }
}

/// The log of what passes on the wire during a line, and its text.
#[derive(Drop)]
pub(crate) struct Log {
    /// Whether nothing is logged.
    quiet: bool,
    /// Whether JSON objects are written too.
    json: bool,
    /// The number of the line.
    number: u64,
    /// The packets of half a carry: the first `kept` of these. A place is filled again, since each has 9 KB.
    packets: Vec<Packet>,
    kept: usize,
    /// What happened to them.
    events: Vec<Event>,
    /// How many packets of each host were sent once, by the places of the hosts.
    sent: [u64; MAX_HOSTS],
    /// How many packets were printed as text, and how many more there were.
    printed: usize,
    more: u64,
    /// Whether an object was left out.
    partial: bool,
    /// Whether the line has as many objects as fit.
    full: bool,
    /// The host to which a packet is about to be delivered.
    before: Option<Look>,
    /// Whether the line moves packets, and whether some of them weren't printed as text.
    moved: bool,
    pub(crate) missed: bool,
    /// The text.
    pub(crate) text: Buffer<SHOWN>,
    /// The same as JSON objects.
    pub(crate) objects: Buffer<OBJECTS>,
}

impl Log {
    /// Allocates the memory for a log; it's empty.
    pub(crate) fn new(alloc: Global) -> Result<Log, AllocError> {
        Ok(Log {
            quiet: true,
            json: false,
            number: 0,
            packets: Vec::with_capacity(alloc, KEPT)?,
            kept: 0,
            events: Vec::with_capacity(alloc, FATES)?,
            sent: [0; MAX_HOSTS],
            printed: 0,
            more: 0,
            partial: false,
            full: false,
            before: None,
            moved: false,
            missed: false,
            text: Buffer::new(alloc)?,
            objects: Buffer::new(alloc)?,
        })
    }

    /// Begins the line with this number, whose packets are printed in this form.
    pub(crate) fn set_line(&mut self, number: u64, form: Form) {
        self.quiet = form.is_quiet();
        self.json = matches!(form, Form::Json);
        self.number = number;
        self.moved = false;
        self.missed = false;
        self.full = false;
        self.text.clear();
        self.objects.clear();
        self.clear();
    }

    /// Forgets the packets.
    fn clear(&mut self) {
        self.kept = 0;
        self.events.clear();
        self.sent = [0; MAX_HOSTS];
        self.printed = 0;
        self.more = 0;
        self.partial = false;
    }

    /// Logs a packet, and returns whether there was space for it.
    fn keep(&mut self, sender: usize, packet: &[u8]) -> bool {
        if self.kept == self.packets.len() && self.kept < self.packets.capacity() {
            self.packets.push_reserved(Packet::new());
        }
        if let Some(place) = self.packets.get_mut(self.kept) {
            place.set(sender, packet);
            self.kept = self.kept.saturating_add(1);
            return true;
        }
        self.partial = true;
        false
    }

    /// Counts a packet that is sent once.
    fn count_sent(&mut self, sender: usize) {
        if self.json && sender < MAX_HOSTS {
            self.sent[sender] = self.sent[sender].saturating_add(1);
        }
    }

    /// Logs what happened to the packet with this number, if it's logged.
    fn add_event(&mut self, number: usize, happened: Happened) {
        if number < self.kept && self.events.len() < self.events.capacity() {
            self.events.push_reserved(Event { number, happened });
        } else {
            self.partial = true;
        }
    }

    /// Writes all logged packets and what happened to them, and clears the log.
    pub(crate) fn report_packets(&mut self, names: &[Buffer<NAME>], ether: bool) {
        self.report_sent(names);
        for number in 0..self.kept {
            self.report_packet(names, ether, number);
        }
        self.report_more();
        self.clear();
        self.moved = true;
    }

    /// Writes how many packets were sent, as objects.
    fn report_sent(&mut self, names: &[Buffer<NAME>]) {
        for place in 0..MAX_HOSTS {
            let count = self.sent[place];
            if count != 0 && has_room(&self.objects) {
                add_sent(&mut self.objects, self.number, name_at(names, place), count);
            }
        }
    }

    /// Writes the packet with this number, and what happened to it.
    fn report_packet(&mut self, names: &[Buffer<NAME>], ether: bool, number: usize) {
        if let Some(packet) = self.packets.get(number) {
            let fields = Fields {
                number: self.number,
                from: packet.sender,
                to: None,
                packet: packet.bytes(),
                fate: b"unheard",
                wait: 0,
            };
            let events = self.events.as_slice();
            if self.json {
                add_objects(&mut self.objects, names, events, number, fields);
            }
            if self.printed < MOST {
                self.printed += 1;
                let name = name_at(names, packet.sender);
                add_packet(&mut self.text, name, packet.bytes(), ether);
                add_events(&mut self.text, names, events, number);
            } else {
                self.more = self.more.saturating_add(1);
            }
        }
    }

    /// Writes that there were more packets.
    fn report_more(&mut self) {
        if self.more != 0 {
            self.missed = true;
            add(&mut self.text, b"    and ");
            add_number(&mut self.text, self.more);
            add(&mut self.text, b" more\n");
        }
        let full = !has_room(&self.objects);
        if self.json && !self.full && (self.partial || full) {
            add_more(&mut self.objects, self.number);
        }
        self.full = full;
    }

    /// Writes a packet that is in flight.
    fn report_in_flight(&mut self, names: &[Buffer<NAME>], ether: bool, it: &UnderWay<'_>) {
        if self.json {
            let fields = Fields {
                number: self.number,
                from: it.sender,
                to: None,
                packet: it.packet,
                fate: b"under way",
                wait: it.wait,
            };
            add_object(&mut self.objects, names, &fields, None);
        }
        if self.printed < MOST {
            self.printed += 1;
            add_packet(&mut self.text, name_at(names, it.sender), it.packet, ether);
            add_due(&mut self.text, it.wait);
        } else {
            self.more = self.more.saturating_add(1);
        }
    }

    /// Writes what is still in flight, if the line moves packets.
    pub(crate) fn report_left(&mut self, segment: &Segment, names: &[Buffer<NAME>]) {
        if self.quiet || !self.moved {
            return;
        }
        for at in 0..segment.flight_len() {
            if let Some(it) = segment.under_way(at) {
                self.report_in_flight(names, segment.is_ether(), &it);
            }
        }
        self.report_more();
        self.clear();
    }
}

impl Watch for Log {
    fn sent(&mut self, sender: usize, packet: &[u8], fate: Fate, copies: usize) {
        if self.quiet {
            return;
        }
        let happened = match fate {
            Fate::Lost => Happened::Lost,
            Fate::Twice(_, _) if copies == 2 => Happened::Twice,
            Fate::Once(_) if copies == 1 => {
                self.count_sent(sender);
                return;
            }
            _ => Happened::WireFull,
        };
        let number = self.kept;
        if self.keep(sender, packet) {
            self.add_event(number, happened);
        } else {
            self.more = self.more.saturating_add(1);
        }
    }

    fn due(&mut self, _number: usize, sender: usize, packet: &[u8]) {
        if !self.quiet && !self.keep(sender, packet) {
            self.more = self.more.saturating_add(1);
        }
    }

    fn arriving(&mut self, number: usize, _place: usize, stack: &Stack, link: Tallies) {
        self.before = None;
        if number < self.kept {
            self.before = Some(Look::at(stack, link));
        }
    }

    fn arrived(&mut self, number: usize, place: usize, stack: &Stack, link: Tallies) {
        if let Some(before) = &self.before {
            let verdict = Verdict::of(before, &Look::at(stack, link));
            self.add_event(number, Happened::Came(place, verdict));
        }
    }
}
