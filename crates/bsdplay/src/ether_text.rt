//! What is printed of frames that the link of a host didn't give to its stack.
use crate::ether::{LinkCounts, Linked};
use flat_ether::Mac;
use play_text::Piece::{Hardware, Long, Text};
use play_text::{add, add_frame, add_time};
use play_why::Layout;
use script_loop::Buffer;

/// The most bytes of such a text.
pub(crate) const LINK_TEXT: usize = 1024;

/// A frame of a record.
#[derive(Clone, Copy)]
pub(crate) struct Frame<'a> {
    pub(crate) number: u64,
    /// Nanoseconds since the first record.
    pub(crate) time: u64,
    pub(crate) bytes: &'a [u8],
}

/// Puts the lines for a frame into a buffer.
fn put_lines(text: &mut Buffer<LINK_TEXT>, frame: Frame<'_>, linked: Linked) {
    let Some(words) = linked.words() else {
        return;
    };
    add(text, &[Long(frame.number), Text(b"  ")]);
    add_time(text, frame.time);
    add(text, &[Text(b"  ")]);
    add_frame(text, frame.bytes);
    add(text, &[Text(b" => "), Text(words), Text(b"\n")]);
    if let Some(rule) = linked.rule() {
        add(text, &[Text(b"    rule: "), Text(rule), Text(b"\n")]);
    }
}

/// Puts the object for a frame into a buffer.
fn put_object(text: &mut Buffer<LINK_TEXT>, frame: Frame<'_>, linked: Linked) {
    add(
        text,
        &[
            Text(b"{\"number\":"),
            Long(frame.number),
            Text(b",\"time\":"),
        ],
    );
    add_time(text, frame.time);
    add(
        text,
        &[
            Text(b",\"link\":\""),
            Text(linked.word()),
            Text(b"\",\"frame\":\""),
        ],
    );
    add_frame(text, frame.bytes);
    let words = linked.words().unwrap_or(b"");
    add(
        text,
        &[Text(b"\",\"became\":\""), Text(words), Text(b"\"}\n")],
    );
}

/// Puts the text for a frame that the link didn't give to the stack into a buffer.
pub(crate) fn put_frame_text(
    text: &mut Buffer<LINK_TEXT>,
    layout: Layout,
    frame: Frame<'_>,
    linked: Linked,
) {
    text.clear();
    match layout {
        Layout::Lines => put_lines(text, frame, linked),
        Layout::Objects => put_object(text, frame, linked),
    }
}

/// Puts the line of the summary for the link into a buffer.
fn put_total_line(text: &mut Buffer<LINK_TEXT>, mac: Mac, counts: LinkCounts) {
    add(
        text,
        &[
            Text(b"By its link, "),
            Hardware(mac),
            Text(b": dropped: "),
            Long(counts.dropped),
            Text(b". Handled by ICMP: "),
            Long(counts.handled),
            Text(b". ARP requests with a reply: "),
            Long(counts.answered),
            Text(b". ARP replies: "),
            Long(counts.learned),
        ],
    );
    add(
        text,
        &[
            Text(b". Conflicts: "),
            Long(counts.conflicts),
            Text(b". Bad ARP: "),
            Long(counts.bad_arp),
            Text(b".\n"),
        ],
    );
}

/// Puts the object of the summary for the link into a buffer.
fn put_total_object(text: &mut Buffer<LINK_TEXT>, mac: Mac, counts: LinkCounts) {
    add(
        text,
        &[
            Text(b"{\"link\":{\"judge\":\"ethernet host\",\"mac\":\""),
            Hardware(mac),
            Text(b"\",\"dropped\":"),
            Long(counts.dropped),
            Text(b",\"handled\":"),
            Long(counts.handled),
            Text(b",\"answered\":"),
            Long(counts.answered),
            Text(b",\"learned\":"),
            Long(counts.learned),
        ],
    );
    add(
        text,
        &[
            Text(b",\"conflicts\":"),
            Long(counts.conflicts),
            Text(b",\"bad_arp\":"),
            Long(counts.bad_arp),
            Text(b"}}\n"),
        ],
    );
}

/// Puts the summary for the link into a buffer.
pub(crate) fn put_link_totals(
    text: &mut Buffer<LINK_TEXT>,
    layout: Layout,
    mac: Mac,
    counts: LinkCounts,
) {
    text.clear();
    match layout {
        Layout::Lines => put_total_line(text, mac, counts),
        Layout::Objects => put_total_object(text, mac, counts),
    }
}
