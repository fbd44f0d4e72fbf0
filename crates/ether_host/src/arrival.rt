//! What arrives: ARP packets, and packets that get a reply.
ghost use Rattle.std.specs.Prelude.{◌≡◌, ◌+◌, ◌%◌, ◌<◌, ◌≤◌, length, true, if◌then◌else◌};
ghost use Rattle.params.specs.declared.TheConstants.{IP_HEADER};
ghost use Rattle.flat_ether.specs.Frames.{arp_of};
ghost use Rattle.flat_ether.specs.Icmp.{is_echo};
ghost use Rattle.flat_ether.specs.Options.{carried_in};
ghost use Rattle.ether_host.specs.Answers.{CanAnswer};
ghost use Rattle.flat_ether.specs.Links.{answers_by, answers_dropped, answers_fate, answers_now, answers_with, asks, counts_conflict, counts_error, counts_icmp_dropped, receives_arp, ignores, is_busy, is_conflict, learns, makes_way, puts_echo, puts_error, queues_reply, is_sound_arp, refuses, reports_error};

use crate::answer::{answer_to, echo_reply, error_reply, is_no_protocol};
use crate::frames::read_arp;
use crate::layer::LinkLayer;
use crate::table::{mac_of, place_of, put};
use flat_ether::{
    ARP_KEEP_TICKS, ARP_REQUEST, Answer, Arp, Neighbour, PENDING_REPLIES, PendingReply, Route,
    TIME_EXCEEDED,
};
use flat_model::{Fate, Why};
use ip_out::u32_at;

impl LinkLayer {
    ghost use Rattle.ether_host.specs.Inside.{link_seen};

    /// A frame that is ignored.
    pub(crate) fn ignore(&mut self)
        ensures { link_seen self.new ≡ ignores (link_seen self.old) }
    {
        self.tallies.ignored = self.tallies.ignored.saturating_add(1);
    }

    /// A packet with addresses that can't come from a link.
    pub(crate) fn refuse(&mut self)
        ensures { link_seen self.new ≡ refuses (link_seen self.old) }
    {
        self.tallies.martians = self.tallies.martians.saturating_add(1);
    }

    /// Learns the sender of an ARP packet, if it's in the table or sends to this host (RFC 826, "Packet Reception").
    fn learn(&mut self, arp: Arp)
        ensures { link_seen self.new ≡ learns arp (link_seen self.old) }
    {
        if !self.link.is_neighbour(&self.config, arp.ip) {
            return;
        }
        let known = place_of(self.neighbours.as_slice(), arp.ip).is_some();
        if known || arp.target == self.config.addr {
            put(
                &mut self.neighbours,
                Neighbour {
                    ip: arp.ip,
                    mac: Some(arp.mac),
                    ticks: ARP_KEEP_TICKS,
                    tries: 0,
                },
            );
        }
    }

    /// A request for the address that this host uses: its sender gets a reply.
    fn queue_reply(&mut self, arp: Arp)
        ensures { link_seen self.new ≡ queues_reply arp (link_seen self.old) }
    {
        if !self.claim.is_claimed() || arp.op != ARP_REQUEST || arp.target != self.config.addr {
            return;
        }
        if self.replies.len() < PENDING_REPLIES {
            self.replies.push(PendingReply {
                mac: arp.mac,
                ip: arp.ip,
            });
        } else {
            self.tallies.replies_dropped = self.tallies.replies_dropped.saturating_add(1);
        }
    }

    /// Whether another host has this one's address, or probes for it while this one does.
    fn is_conflict(&self, arp: Arp) -> bool
        ensures { result ≡ is_conflict (link_seen self.now) arp }
    {
        if arp.ip == self.config.addr {
            return true;
        }
        !self.claim.is_claimed()
            && arp.op == ARP_REQUEST
            && arp.ip == 0
            && arp.target == self.config.addr
    }

    /// Another host claims this one's address.
    fn contest(&mut self)
        ensures { link_seen self.new ≡ counts_conflict (link_seen self.old) }
    {
        self.claim = self.claim.contested();
        self.tallies.conflicts = self.tallies.conflicts.saturating_add(1);
    }

    /// An ARP packet, if it's from a hardware address that another host can have.
    fn sound_arp(&self, body: &[u8]) -> Option<Arp>
        ensures { result ≡ (if is_sound_arp self.now.link body.now then Some (arp_of body.now) else None) }
    {
        let arp = read_arp(body)?;
        if arp.mac.is(self.link.mac) || !arp.mac.is_host() {
            return None;
        }
        Some(arp)
    }

    /// An ARP packet arrives (`in_arpinput` of volume 2, chapter 21).
    pub(crate) fn receive_arp(&mut self, body: &[u8])
        ensures { link_seen self.new ≡ receives_arp body.now (link_seen self.old) }
    {
        let Some(arp) = self.sound_arp(body) else {
            self.tallies.bad_arp = self.tallies.bad_arp.saturating_add(1);
            return;
        };
        if self.is_conflict(arp) {
            self.contest();
        } else {
            self.learn(arp);
        }
        self.queue_reply(arp);
    }

    /// An ICMP reply that is dropped.
    pub(crate) fn count_icmp_dropped(&mut self)
        ensures { link_seen self.new ≡ counts_icmp_dropped (link_seen self.old) }
    {
        self.tallies.icmp_dropped = self.tallies.icmp_dropped.saturating_add(1);
    }

    /// Whether a reply is being sent: the hardware address of its next hop is known.
    fn is_busy(&self) -> bool
        ensures { result ≡ is_busy (link_seen self.now) }
    {
        self.answer.waits() && mac_of(self.neighbours.as_slice(), self.answer_hop).is_some()
    }

    /// A reply that waits for a hardware address makes way for a newer one.
    fn make_way(&mut self)
        ensures is { link_seen self.new ≡ makes_way (link_seen self.old) }
        ensures left { self.new.errors_left ≡ self.old.errors_left }
    {
        if self.answer.waits() {
            self.count_icmp_dropped();
        }
    }

    /// The reply in its place goes to this next hop. The next one gets another identification.
    fn ask_for_answer(&mut self, hop: u32)
        ensures { link_seen self.new ≡ asks hop (record (link_seen self.old) {
          answer_hop = hop;
          answer_id = ((link_seen self.old).answer_id + 1) % 65536;
        }) }
    {
        self.answer_hop = hop;
        self.answer_id = self.answer_id.wrapping_add(1);
        self.ask(hop);
    }

    /// An echo reply by way of a next hop takes the place for replies.
    fn put_echo(&mut self, hop: u32, came: &[u8])
        requires long { IP_HEADER ≤ length came.now }
        requires echo { is_echo (carried_in came.now) ≡ true }
        ensures { link_seen self.new ≡ puts_echo hop came.now (link_seen self.old) }
    {
        echo_reply(&mut self.answer, &self.config, self.answer_id, came);
        self.ask_for_answer(hop);
        self.tallies.echoes = self.tallies.echoes.saturating_add(1);
    }

    /// Counts an error of this type.
    fn count_error(&mut self, kind: u8)
        ensures { link_seen self.new ≡ counts_error kind (link_seen self.old) }
    {
        if kind == TIME_EXCEEDED {
            self.tallies.expired = self.tallies.expired.saturating_add(1);
        } else {
            self.tallies.unreachable = self.tallies.unreachable.saturating_add(1);
        }
    }

    /// An error by way of a next hop takes the place for replies.
    fn put_error(&mut self, hop: u32, kind: u8, code: u8, came: &[u8])
        requires long { IP_HEADER ≤ length came.now }
        requires some { 0 < self.old.errors_left }
        ensures { link_seen self.new ≡ puts_error hop kind code came.now (link_seen self.old) }
    {
        error_reply(
            &mut self.answer,
            &self.config,
            self.answer_id,
            kind,
            code,
            came,
        );
        self.errors_left -= 1;
        self.ask_for_answer(hop);
        self.count_error(kind);
    }

    /// An error by way of a next hop takes the place for replies, if the limit isn't reached.
    fn report_error(&mut self, hop: u32, kind: u8, code: u8, came: &[u8])
        requires { IP_HEADER ≤ length came.now }
        ensures { link_seen self.new ≡ reports_error hop kind code came.now (link_seen self.old) }
    {
        if self.errors_left == 0 {
            self.tallies.limited = self.tallies.limited.saturating_add(1);
            return;
        }
        self.make_way();
        self.put_error(hop, kind, code, came);
    }

    /// A reply by way of a next hop takes the place for replies.
    fn answer_by(&mut self, hop: u32, answer: Answer, came: &[u8])
        requires { CanAnswer answer came.now }
        ensures { link_seen self.new ≡ answers_by hop answer came.now (link_seen self.old) }
    {
        match answer {
            Answer::Echo => {
                self.make_way();
                self.put_echo(hop, came);
            }
            Answer::Error(kind, code) => self.report_error(hop, kind, code, came),
            Answer::Silence => {}
        }
    }

    /// A reply to the sender of a packet, if no other one is being sent.
    fn answer_now(&mut self, answer: Answer, came: &[u8])
        requires can { CanAnswer answer came.now }
        requires long { IP_HEADER ≤ length came.now }
        ensures { link_seen self.new ≡ answers_now answer came.now (link_seen self.old) }
    {
        if self.is_busy() {
            self.count_icmp_dropped();
            return;
        }
        match self.link.route(&self.config, u32_at(came, 12)) {
            Route::All => {}
            Route::Hop(hop) => self.answer_by(hop, answer, came),
            Route::NoRoute => self.count_no_route(),
        }
    }

    /// A reply to a packet takes the place for replies, if there is a reply and the place is free.
    pub(crate) fn answer_with(&mut self, answer: Answer, came: &[u8])
        requires { CanAnswer answer came.now }
        ensures { link_seen self.new ≡ answers_with answer came.now (link_seen self.old) }
    {
        match answer {
            Answer::Echo => self.answer_now(Answer::Echo, came),
            Answer::Error(kind, code) => self.answer_now(Answer::Error(kind, code), came),
            Answer::Silence => {}
        }
    }

    /// A whole packet was dropped: it may get a reply, or report an error.
    fn answer_dropped(&mut self, came: &[u8], why: Why)
        ensures { link_seen self.new ≡ answers_dropped came.now why (link_seen self.old) }
    {
        let answer = answer_to(&self.config, came, why);
        self.answer_with(answer, came);
        self.add_error(is_no_protocol(why), came);
    }

    /// What the link does with a packet to this host, by its fate in the stack.
    pub(crate) fn answer_fate(&mut self, came: &[u8], fate: Fate)
        ensures { link_seen self.new ≡ answers_fate came.now fate (link_seen self.old) }
    {
        match fate {
            Fate::Delivered(_) => {}
            Fate::Kept => self.keep_first(came),
            Fate::Completed(Ok(_)) => {}
            Fate::Completed(Err(why)) => self.answer_whole(came, why),
            Fate::Dropped(why) => self.answer_dropped(came, why),
        }
    }
}
