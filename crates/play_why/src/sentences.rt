//! What happened to a packet, in English. No contract specifies the words.
ghost use Rattle.std.specs.Prelude.{◌≤◌, length};
ghost use Rattle.params.specs.declared.TheConstants.{IP_MAX_PACKET};

use crate::FATE;
use crate::blame::Blame;
use crate::finding::Finding;
use crate::listed::{Listed, add_listed};
use crate::outcome::Outcome;
use crate::ports::port_in;
use crate::seen::Seen;
use crate::values::Value;
use crate::verdict::Verdict;
use crate::words::rule_for;
use flat_plain::{u16_at, u32_at};
use params::{IP_HEADER, UDP_HEADER};
use play_text::Piece::{Address, Amount, Long, Number, Range, Text};
use play_text::{Fate, add, add_packet, add_time, words_for};
use script_loop::Buffer;

/// The context in which a record is printed.
#[derive(Clone, Copy)]
pub(crate) struct Report<'a> {
    pub(crate) seen: &'a Seen<'a>,
    /// Nanoseconds since the first record.
    pub(crate) time: u64,
    pub(crate) verdict: &'a Verdict,
    /// The records of the other fragments of its datagram.
    pub(crate) records: &'a [u64],
}

/// Adds a description of the packet's headers, or at least its two addresses.
pub(crate) fn add_headers<const N: usize>(text: &mut Buffer<N>, packet: &[u8])
    requires { length packet.now ≤ IP_MAX_PACKET }
{
    if packet.len() < IP_HEADER as usize || packet[0] == 69 {
        add_packet(text, packet);
        return;
    }
    add(
        text,
        &[
            Address(u32_at(packet, 12)),
            Text(b" > "),
            Address(u32_at(packet, 16)),
            Text(b", "),
            Amount(packet.len() as u32, b"byte"),
        ],
    );
}

/// Returns the four lower-case hexadecimal digits of a number.
fn digits_of(n: u16) -> [u8; 4] {
    let mut digits = [0; 4];
    let _ = hex::encode_to_slice([(n / 256) as u8, (n % 256) as u8], &mut digits);
    digits
}

/// Adds two checksums, of which the second would be right.
fn add_sums<const N: usize>(text: &mut Buffer<N>, found: u16, right: u16) {
    add(
        text,
        &[
            Text(b"0x"),
            Text(&digits_of(found)),
            Text(b", right would be 0x"),
            Text(&digits_of(right)),
        ],
    );
}

/// Adds the value that shows a cause.
fn add_value<const N: usize>(text: &mut Buffer<N>, value: Value) {
    match value {
        Value::Short(arrived, least) => {
            let header = Text(b" came, and a header has ");
            add(text, &[Amount(arrived, b"byte"), header, Number(least)]);
        }
        Value::Version(version) => {
            let version = Number(u32::from(version));
            add(
                text,
                &[Text(b"version "), version, Text(b", right would be 4")],
            );
        }
        Value::HeaderWords(words) => {
            let front = Text(b"a header of ");
            let words = Amount(u32::from(words), b"word");
            add(text, &[front, words, Text(b", right would be 5")]);
        }
        Value::Sums(found, right) => add_sums(text, found, right),
        Value::Lengths(named, arrived) => {
            let (named, arrived) = (Number(u32::from(named)), Number(arrived));
            let (front, end) = (Text(b"length "), Text(b" came"));
            add(text, &[front, named, Text(b", "), arrived, end]);
        }
        Value::Elsewhere(to, ours) => {
            let (to, ours) = (Address(to), Address(ours));
            add(
                text,
                &[Text(b"it goes to "), to, Text(b", and this is "), ours],
            );
        }
        Value::Carried(offset, len) => add(text, &[Range(offset, len)]),
        Value::Protocol(protocol) => add(text, &[Text(b"protocol "), Number(u32::from(protocol))]),
        Value::Payload(len) => add(text, &[Amount(len, b"byte")]),
        Value::Port(port) => add(text, &[Text(b"port "), Number(u32::from(port))]),
        Value::NoneLeft => add(text, &[Text(b"none is left")]),
    }
}

/// Adds the values that show the causes.
pub(crate) fn add_values<const N: usize>(text: &mut Buffer<N>, verdict: &Verdict) {
    for finding in verdict.findings {
        if let Some(finding) = finding {
            add_value(text, finding.value);
        }
    }
}

/// Adds the records of a datagram's fragments, of which the last one completed it.
fn add_records<const N: usize>(text: &mut Buffer<N>, earlier: &[u64], last: u64) {
    if !earlier.is_empty() {
        add(text, &[Text(b" with records")]);
        add_listed(
            text,
            Listed {
                numbers: earlier,
                last: Some(last),
            },
        );
    }
}

/// Adds what happened to a fragment.
fn add_fragment<const N: usize>(text: &mut Buffer<N>, report: &Report<'_>) {
    let packet = report.seen.packet;
    if packet.len() < IP_HEADER as usize {
        return;
    }
    let id = Number(u32::from(u16_at(packet, 4)));
    match report.verdict.fate {
        Fate::Whole => {
            add(text, &[Text(b" => datagram "), id, Text(b" is whole")]);
            add_records(text, report.records, report.seen.number);
        }
        Fate::Kept => add(
            text,
            &[Text(b" => kept: datagram "), id, Text(b" isn't whole yet")],
        ),
        Fate::Other => {}
    }
}

/// Adds what happened to a packet. Each part begins with ` => `.
pub(crate) fn add_became<const N: usize>(text: &mut Buffer<N>, report: &Report<'_>) {
    if report.verdict.filled {
        add(text, &[Text(b" => checksum filled in for the card")]);
    }
    add_fragment(text, report);
    for delivered in report.verdict.delivered {
        if let Some(it) = delivered {
            let port = Number(u32::from(it.port));
            let len = Amount(it.len, b"byte");
            add(
                text,
                &[Text(b" => delivered to port "), port, Text(b": "), len],
            );
        }
    }
    let mut is_refusal_said = false;
    for finding in report.verdict.findings {
        if let Some(it) = finding {
            add_drop(text, it, report.verdict.refused);
            is_refusal_said = is_refusal_said || it.blame == Blame::Host;
        }
    }
    if !is_refusal_said {
        add_refusal(text, report.verdict);
    }
}

/// Adds that the host refused a packet that was dropped before its port was looked for, as one whose checksum was left
/// to the card is.
fn add_refusal<const N: usize>(text: &mut Buffer<N>, verdict: &Verdict) {
    if let (Outcome::Refused, Some(number)) = (verdict.outcome, verdict.refused) {
        add(
            text,
            &[
                Text(b" => refused by the host (record "),
                Long(number),
                Text(b")"),
            ],
        );
    }
}

/// Adds that a packet was dropped, or why this doesn't count as a drop.
fn add_drop<const N: usize>(text: &mut Buffer<N>, finding: Finding, refused: Option<u64>) {
    let cause = Text(words_for(finding.why).as_bytes());
    match finding.blame {
        Blame::Packet | Blame::Stack | Blame::Copy => {
            add(text, &[Text(b" => dropped: "), cause, Text(b": ")]);
        }
        Blame::Capture => add(text, &[Text(b" => cut: "), cause, Text(b": ")]),
        Blame::Card => add(text, &[Text(b" => left to the card: "), cause, Text(b": ")]),
        Blame::Host => add(text, &[Text(b" => refused by the host: ")]),
    }
    add_value(text, finding.value);
    if let (Blame::Host, Some(number)) = (finding.blame, refused) {
        add(text, &[Text(b" (record "), Long(number), Text(b")")]);
    }
}

/// Adds which checks a packet passed of which the capture has only a part, and the UDP length if that is wrong.
fn add_checked(text: &mut Buffer<FATE>, packet: &[u8])
    requires { length packet.now ≤ IP_MAX_PACKET }
{
    if packet.len() < IP_HEADER as usize {
        return;
    }
    add(text, &[Text(b"; its header and header checksum are right")]);
    if port_in(packet).is_none() || u16_at(packet, 6) % 16_384 != 0 {
        return;
    }
    let named = u16_at(packet, 24);
    let carried = u16_at(packet, 2).saturating_sub(IP_HEADER as u16);
    if UDP_HEADER as u16 <= named && named <= carried {
        add(text, &[Text(b", and so is the UDP length")]);
    } else {
        let (named, carried) = (Number(u32::from(named)), Number(u32::from(carried)));
        let (front, end) = (
            Text(b"; wrong datagram length: length "),
            Text(b" are carried"),
        );
        add(text, &[front, named, Text(b", "), carried, end]);
    }
}

/// Adds a line with the rule that a packet broke, or with the reason why the packet isn't to blame.
fn add_reason(text: &mut Buffer<FATE>, seen: &Seen<'_>, finding: Finding) {
    match finding.blame {
        Blame::Packet => {
            let rule = Text(rule_for(finding.why).as_bytes());
            add(text, &[Text(b"    rule: "), rule, Text(b"\n")]);
        }
        Blame::Stack | Blame::Copy => {
            let rule = Text(rule_for(finding.why).as_bytes());
            add(
                text,
                &[Text(b"    not the packet's fault: "), rule, Text(b"\n")],
            );
        }
        Blame::Capture => {
            add(
                text,
                &[
                    Text(b"    not the packet's fault: the capture kept "),
                    Number(seen.captured),
                    Text(b" of its "),
                    Amount(seen.original, b"byte"),
                    Text(b" (snap length)"),
                ],
            );
            add_checked(text, seen.packet);
            add(text, &[Text(b"\n")]);
        }
        Blame::Card => add(
            text,
            &[
                Text(b"    not wrong on the wire: this is the sum of the pseudo header alone, "),
                Text(b"to which the sender's card adds the rest (checksum offload)\n"),
            ],
        ),
        Blame::Host => add(
            text,
            &[
                Text(b"    the host answered with an ICMP error, "),
                Text(b"\"port unreachable\" (RFC 1122, section 4.1.3.1)\n"),
            ],
        ),
    }
}

/// Adds three more digits of a time, unless it's a number of microseconds.
fn add_nanoseconds(text: &mut Buffer<FATE>, time: u64) {
    let rest = (time % 1000) as u32;
    if rest != 0 {
        let digits = [
            48 + (rest / 100 % 10) as u8,
            48 + (rest / 10 % 10) as u8,
            48 + (rest % 10) as u8,
        ];
        add(text, &[Text(&digits)]);
    }
}

/// Puts the line of a record into a buffer, with a line below it for each cause for which its packet was dropped.
pub(crate) fn put_lines(text: &mut Buffer<FATE>, report: &Report<'_>) {
    text.clear();
    add(text, &[Long(report.seen.number), Text(b"  ")]);
    add_time(text, report.time);
    add_nanoseconds(text, report.time);
    add(text, &[Text(b"  ")]);
    add_headers(text, report.seen.packet);
    add_became(text, report);
    add(text, &[Text(b"\n")]);
    for finding in report.verdict.findings {
        if let Some(it) = finding {
            add_reason(text, report.seen, it);
        }
    }
}
