//! A record as a JSON object.
ghost use Rattle.std.specs.Prelude.{◌≡◌, ◌+◌, ◌*◌, ◌≤◌, ◌++◌, length};
ghost use Rattle.play_why.specs.Objects as objects;

use crate::FATE;
use crate::blame::Blame;
use crate::ends::Ends;
use crate::finding::Finding;
use crate::outcome::Outcome;
use crate::sentences::{Report, add_became, add_headers, add_values};
use crate::values::Value;
use params::{PROTOCOL_UDP, SOCKADDR_BYTES, UDP_RECEIVE_SPACE};
use play_text::Piece::{Address, Either, Long, Maybe, Number, Quoted, Text};
use play_text::{put, put_time, words_for};
use script_loop::Buffer;
use std::alloc::{AllocError, Global};

/// The most bytes of a string of an object.
pub const STRING: usize = 16_384;

/// Memory for the strings of an object.
#[derive(Drop)]
pub(crate) struct Strings {
    packet: Buffer<STRING>,
    became: Buffer<STRING>,
    values: Buffer<STRING>,
    causes: Buffer<STRING>,
    faults: Buffer<STRING>,
}

impl Strings {
    /// All of it. Fails if the host has no memory.
    pub(crate) fn new(alloc: Global) -> Result<Strings, AllocError> {
        Ok(Strings {
            packet: Buffer::new(alloc)?,
            became: Buffer::new(alloc)?,
            values: Buffer::new(alloc)?,
            causes: Buffer::new(alloc)?,
            faults: Buffer::new(alloc)?,
        })
    }
}

/// Returns who is to blame, in a word.
fn words_of_blame(blame: Blame) -> &'static str
    ensures is { result.now ≡ objects.blame_words blame }
    ensures short { length result.now ≤ 8 }
{
    match blame {
        Blame::Packet => "packet",
        Blame::Stack => "stack",
        Blame::Copy => "copy",
        Blame::Capture => "capture",
        Blame::Card => "card",
        Blame::Host => "host",
    }
}

/// Appends the cause that was found.
fn put_cause(text: &mut Buffer<STRING>, finding: Option<Finding>)
    requires { length text.old + 40 ≤ STRING }
    ensures items { text.new ≡ text.old ++ objects.cause_in finding }
    ensures len { length text.new ≤ length text.old + 40 }
{
    match finding {
        Some(finding) => text.append(words_for(finding.why).as_bytes()),
        None => {}
    }
}

/// Puts the causes that were found into a buffer.
fn put_causes(text: &mut Buffer<STRING>, findings: &[Option<Finding>])
    requires { length findings.now ≤ 18 }
    ensures { text.new ≡ objects.causes_in findings.now }
{
    text.clear();
    for finding in findings {
        put_cause(text, *finding);
    }
}

/// Appends who is to blame for the cause that was found.
fn put_fault(text: &mut Buffer<STRING>, finding: Option<Finding>)
    requires { length text.old + 8 ≤ STRING }
    ensures items { text.new ≡ text.old ++ objects.fault_word finding }
    ensures len { length text.new ≤ length text.old + 8 }
{
    match finding {
        Some(finding) => text.append(words_of_blame(finding.blame).as_bytes()),
        None => {}
    }
}

/// Puts who is to blame for each cause that was found into a buffer.
fn put_faults(text: &mut Buffer<STRING>, findings: &[Option<Finding>])
    requires { length findings.now ≤ 18 }
    ensures { text.new ≡ objects.faults_in findings.now }
{
    text.clear();
    for finding in findings {
        put_fault(text, *finding);
    }
}

/// Returns a number of up to 16 bits as one of 64.
fn wide(number: Option<u16>) -> Option<u64>
    ensures { result ≡ number }
{
    match number {
        Some(number) => Some(u64::from(number)),
        None => None,
    }
}

/// Returns the first finding, if there is one.
fn first_of(findings: &[Option<Finding>]) -> Option<Finding>
    ensures { result ≡ objects.first_found findings.now }
{
    let mut rest = findings;
    'findings: while let [finding, left @ ..] = rest {
        if let Some(found) = *finding {
            return Some(found);
        }
        rest = left;
    }
    None
}

/// Returns the number in the packet that shows the cause.
fn got_of(value: Value) -> Option<u64>
    ensures { result ≡ objects.got_of value }
{
    match value {
        Value::Short(arrived, _) => Some(u64::from(arrived)),
        Value::Version(version) => Some(u64::from(version)),
        Value::HeaderWords(words) => Some(u64::from(words)),
        Value::Sums(found, _) => Some(u64::from(found)),
        Value::Lengths(named, _) => Some(u64::from(named)),
        Value::Protocol(protocol) => Some(u64::from(protocol)),
        Value::Payload(len) => Some(u64::from(len)),
        Value::Port(port) => Some(u64::from(port)),
        Value::Elsewhere(_, _) => None,
        Value::Carried(_, _) => None,
        Value::NoneLeft => None,
    }
}

/// Returns the right number.
fn want_of(value: Value) -> Option<u64>
    ensures { result ≡ objects.want_of value }
{
    match value {
        Value::Short(_, least) => Some(u64::from(least)),
        Value::Version(_) => Some(4),
        Value::HeaderWords(_) => Some(5),
        Value::Sums(_, right) => Some(u64::from(right)),
        Value::Lengths(_, arrived) => Some(u64::from(arrived)),
        Value::Protocol(_) => Some(u64::from(PROTOCOL_UDP)),
        Value::Payload(_) => Some(u64::from(UDP_RECEIVE_SPACE - SOCKADDR_BYTES)),
        Value::Port(_) => None,
        Value::Elsewhere(_, _) => None,
        Value::Carried(_, _) => None,
        Value::NoneLeft => None,
    }
}

/// Returns both numbers of a finding.
fn numbers_of(finding: Option<Finding>) -> (Option<u64>, Option<u64>)
    ensures got { result.0 ≡ objects.got_in finding }
    ensures want { result.1 ≡ objects.want_in finding }
{
    match finding {
        Some(finding) => (got_of(finding.value), want_of(finding.value)),
        None => (None, None),
    }
}

/// Puts the first members of an object into a buffer.
#[tactic(auto, unfolding(crate::specs::Objects::first_members))]
fn put_head(text: &mut Buffer<FATE>, number: u64, time: u64, outcome: Outcome)
    ensures items { text.new ≡ objects.first_members number time outcome }
    ensures len { length text.new ≤ 160 }
{
    text.clear();
    put(
        text,
        &[Text(b"{\"number\":"), Long(number), Text(b",\"time\":")],
    );
    put_time(text, time);
    text.append(b",\"verdict\":\"");
    text.append(outcome.words().as_bytes());
    text.append(b"\"");
}

/// Appends the members for where a packet comes from and where it goes.
#[tactic(auto, unfolding(crate::specs::Objects::ends_members))]
fn put_ends(text: &mut Buffer<FATE>, ends: Option<Ends>)
    requires { length text.old ≤ 160 }
    ensures items { text.new ≡ text.old ++ objects.ends_members ends }
    ensures len { length text.new ≤ 460 }
{
    match ends {
        None => put(
            text,
            &[Text(
                b",\"src\":null,\"sport\":null,\"dst\":null,\"dport\":null,\"proto\":null,\"id\":null",
            )],
        ),
        Some(ends) => put(
            text,
            &[
                Text(b",\"src\":\""),
                Address(ends.source),
                Text(b"\",\"sport\":"),
                Maybe(wide(ends.source_port), b"null"),
                Text(b",\"dst\":\""),
                Address(ends.destination),
                Text(b"\",\"dport\":"),
                Maybe(wide(ends.destination_port), b"null"),
                Text(b",\"proto\":"),
                Number(u32::from(ends.protocol)),
                Text(b",\"id\":"),
                Number(u32::from(ends.id)),
            ],
        ),
    }
}

/// Appends the members with English words.
#[tactic(auto, unfolding(crate::specs::Objects::word_members))]
fn put_words<'a>(text: &mut Buffer<FATE>, packet: &'a [u8], became: &'a [u8])
    requires room { length text.old ≤ 460 }
    requires packet { length packet.now ≤ STRING }
    requires became { length became.now ≤ STRING }
    ensures items { text.new ≡ text.old ++ objects.word_members packet.now became.now }
    ensures len { length text.new ≤ 12 * STRING + 500 }
{
    put(
        text,
        &[
            Text(b",\"packet\":"),
            Quoted(packet),
            Text(b",\"became\":"),
            Quoted(became),
        ],
    );
}

/// Appends the members with the numbers that show the first cause.
#[tactic(auto, unfolding(crate::specs::Objects::value_members))]
fn put_numbers(text: &mut Buffer<FATE>, first: Option<Finding>)
    requires { length text.old ≤ 12 * STRING + 500 }
    ensures items { text.new ≡ text.old ++ objects.value_members first }
    ensures len { length text.new ≤ 12 * STRING + 600 }
{
    let (got, want) = numbers_of(first);
    put(
        text,
        &[
            Text(b",\"got\":"),
            Maybe(got, b"null"),
            Text(b",\"want\":"),
            Maybe(want, b"null"),
        ],
    );
}

/// Appends the members for the causes.
#[tactic(auto, unfolding(crate::specs::Objects::cause_members))]
fn put_tail<'a>(text: &mut Buffer<FATE>, cause: &'a [u8], values: &'a [u8], fault: &'a [u8])
    requires cause { length cause.now ≤ STRING }
    requires values { length values.now ≤ STRING }
    requires fault { length fault.now ≤ STRING }
    requires room { length text.old ≤ 12 * STRING + 600 }
    ensures items { text.new ≡ text.old ++ objects.cause_members cause.now values.now fault.now }
    ensures len { length text.new ≤ 30 * STRING + 700 }
{
    put(
        text,
        &[
            Text(b",\"cause\":"),
            Quoted(cause),
            Text(b",\"values\":"),
            Quoted(values),
            Text(b",\"fault\":"),
            Quoted(fault),
        ],
    );
}

/// Appends the last members of an object.
#[tactic(auto, unfolding(crate::specs::Objects::last_members))]
fn put_end(text: &mut Buffer<FATE>, filled: bool, refused: Option<u64>)
    requires { length text.old ≤ 30 * STRING + 700 }
    ensures { text.new ≡ text.old ++ objects.last_members filled refused }
{
    put(
        text,
        &[
            Text(b",\"filled\":"),
            Either(filled, b"true", b"false"),
            Text(b",\"refused\":"),
            Maybe(refused, b"null"),
            Text(b"}\n"),
        ],
    );
}

/// Returns the bytes of a string of an object.
fn bytes_of(string: &Buffer<STRING>) -> &[u8]
    ensures is { result.now ≡ string.now }
    ensures most { length result.now ≤ STRING }
{
    let _at_most = string.len();
    string.as_slice()
}

/// Returns the bytes of a string of an object after the first ` => `.
fn bytes_after_arrow(string: &Buffer<STRING>) -> &[u8]
    ensures { length result.now ≤ STRING }
{
    let bytes = bytes_of(string);
    &bytes[bytes.len().min(4)..]
}

/// Puts a record into a buffer as an object.
pub(crate) fn put_object(text: &mut Buffer<FATE>, report: &Report<'_>, strings: &mut Strings)
    ensures { objects.IsObject report.now.time report.now.verdict.now text.new }
{
    let Strings {
        packet,
        became,
        values,
        causes,
        faults,
    } = strings;
    packet.clear();
    add_headers(packet, report.seen.packet);
    became.clear();
    add_became(became, report);
    values.clear();
    add_values(values, report.verdict);
    put_causes(causes, &report.verdict.findings);
    put_faults(faults, &report.verdict.findings);
    let headers = bytes_of(packet);
    let parts = bytes_after_arrow(became);
    let cause = bytes_of(causes);
    let shown = bytes_of(values);
    let fault = bytes_of(faults);
    let first = first_of(&report.verdict.findings);
    put_head(
        text,
        report.verdict.number,
        report.time,
        report.verdict.outcome,
    );
    put_ends(text, report.verdict.ends);
    put_words(text, headers, parts);
    put_numbers(text, first);
    put_tail(text, cause, shown, fault);
    put_end(text, report.verdict.filled, report.verdict.refused);
}
