//! Sockets and the output queue in words.
use crate::SHOWN;
use flat_model::Errno;
use net_stack::{NextDatagram, SocketName, Stack};
use params::{FIRST_DESCRIPTOR, MAX_SOCKETS, UDP_RECEIVE_SPACE};
use play_text::Piece::{Address, Amount, Either, End, Number, Text};
use play_text::add;
use script_loop::Buffer;

/// Appends what a socket is bound and connected to, with a star for each part that isn't set.
fn put_ends(text: &mut Buffer<SHOWN>, name: SocketName) {
    let star = Text(b"*");
    let ip = match name.local {
        Some(ip) => Address(ip),
        None => star,
    };
    let port = match name.port {
        Some(port) => Number(u32::from(port)),
        None => star,
    };
    add(text, &[Text(b"local "), ip, Text(b":"), port]);
    if let Some(peer) = name.peer {
        add(text, &[Text(b", peer "), End(peer)]);
    }
}

/// Returns how many bytes a receive queue may hold: the limit that was set, if it isn't 0.
fn space_of(limit: u16) -> u32 {
    if limit == 0 {
        UDP_RECEIVE_SPACE
    } else {
        u32::from(limit)
    }
}

/// Appends how many datagrams wait in a socket, the sender of the oldest one, and how many bytes wait in all, of how
/// many.
fn put_waiting(
    text: &mut Buffer<SHOWN>,
    next: Result<NextDatagram, Errno>,
    queued: Result<u32, Errno>,
    space: u32,
) {
    let Ok(next) = next else {
        add(text, &[Text(b"no datagram")]);
        return;
    };
    add(
        text,
        &[
            Amount(next.waiting, b"datagram"),
            Text(b", the next of "),
            Amount(next.len, b"byte"),
            Text(b" from "),
            End(next.sender),
        ],
    );
    if let Ok(queued) = queued {
        add(
            text,
            &[
                Text(b", "),
                Number(queued),
                Text(b" of "),
                Amount(space, b"byte"),
                Text(b" queued"),
            ],
        );
    }
}

/// Appends the size of a receive queue, if it was set.
fn put_limit(text: &mut Buffer<SHOWN>, limit: u16) {
    if limit != 0 {
        add(text, &[Text(b", rcvbuf "), Number(u32::from(limit))]);
    }
}

/// Writes the lines of all open sockets into a buffer, and returns how many are open.
pub(crate) fn put_sockets(machine: &Stack, text: &mut Buffer<SHOWN>) -> u32 {
    let mut count: u32 = 0;
    for place in 0..MAX_SOCKETS {
        let fd = FIRST_DESCRIPTOR + place;
        if let Ok(name) = machine.socket_name(fd) {
            count = count.saturating_add(1);
            add(text, &[Text(b"    socket "), Number(fd), Text(b": ")]);
            put_ends(text, name);
            add(
                text,
                &[
                    Either(name.broadcast, b", broadcast", b""),
                    Either(name.reuse_port, b", reuseport", b""),
                ],
            );
            let limit = machine.receive_limit(fd).unwrap_or(0);
            put_limit(text, limit);
            add(text, &[Text(b"; ")]);
            put_waiting(
                text,
                machine.next_datagram(fd),
                machine.bytes_queued(fd),
                space_of(limit),
            );
            add(text, &[Text(b"\n")]);
        }
    }
    count
}

/// Appends how many packets wait for the link, and how many bytes the next one has.
pub(crate) fn put_queue(text: &mut Buffer<SHOWN>, count: u32, next: Option<u32>) {
    match next {
        Some(len) => add(
            text,
            &[
                Amount(count, b"packet"),
                Text(b", the next of "),
                Amount(len, b"byte"),
            ],
        ),
        None => add(text, &[Text(b"no packet")]),
    }
}
