//! The words of a line `host` that give the link of a host on an Ethernet.
ghost use Rattle.std.specs.Prelude.{◌≡◌, ◌≤◌, [], drop, get_or, length};
ghost use Rattle.script_loop.specs.Left.{left};

use crate::fault::Fault;
use request::address_of;
use script_loop::first_word;
use segment::{Link, Mac};

/// Returns a link before its words are read: the hardware address 02:00:00:00:00:NN, by the host's place from 1 on, and
/// the mask 255.255.255.0.
fn link_at(place: usize) -> Link {
    Link {
        mac: Mac {
            high: 0x0200,
            low: (place % 64) as u32 + 1,
        },
        mask: 0xffff_ff00,
        gateway: None,
        probe: false,
    }
}

/// Returns the hardware address that a word writes, as 02:00:00:00:00:01.
fn mac_of(word: &[u8]) -> Option<Mac> {
    let [
        a,
        b,
        b':',
        c,
        d,
        b':',
        e,
        f,
        b':',
        g,
        h,
        b':',
        i,
        j,
        b':',
        k,
        l,
    ] = word
    else {
        return None;
    };
    let digits = [*a, *b, *c, *d, *e, *f, *g, *h, *i, *j, *k, *l];
    let mut octets = [0; 6];
    if hex::decode_to_slice(digits, &mut octets).is_err() {
        return None;
    }
    let [a, b, c, d, e, f] = octets;
    Some(Mac {
        high: u16::from_be_bytes([a, b]),
        low: u32::from_be_bytes([c, d, e, f]),
    })
}

/// Returns the link with the setting of this word, whose value is the word after it.
fn with_word(link: Link, name: &[u8], value: &[u8]) -> Result<Link, Fault> {
    match name {
        b"mac" => match mac_of(value) {
            Some(mac) => Ok(Link { mac, ..link }),
            None => Err(Fault::BadMac),
        },
        b"mask" => match address_of(value) {
            Some(mask) => Ok(Link { mask, ..link }),
            None => Err(Fault::BadMask),
        },
        b"gateway" => match address_of(value) {
            Some(gateway) => Ok(Link {
                gateway: Some(gateway),
                ..link
            }),
            None => Err(Fault::BadGateway),
        },
        _ => Err(Fault::NoLinkWord),
    }
}

/// Returns the word after a name, or an empty word if the line ends, and the rest of the line.
pub(crate) fn value_in(rest: Option<&[u8]>) -> (&[u8], Option<&[u8]>)
    ensures word { result.0.now ≡ get_or (left rest.entry) 0 [] }
    ensures rest { left result.1 ≡ drop 1 (left rest.entry) }
    ensures shorter { length (left result.1) ≤ length (left rest.entry) }
{
    match rest {
        Some(words) => first_word(words),
        None => (b"", None),
    }
}

/// Returns the link of the host at a place by the words after `ether`, and the settings of its stack, which begin with
/// two dashes. Fails at the first word that is wrong: `NoLinkWord`, `BadMac`, `BadMask`, `BadGateway`.
pub(crate) fn link_of(words: Option<&[u8]>, place: usize) -> Result<(Link, Option<&[u8]>), Fault> {
    let mut link = link_at(place);
    let mut rest = words;
    'words: while let Some(text) = rest {
        let (name, after) = first_word(text);
        if name.starts_with(b"--") {
            return Ok((link, Some(text)));
        }
        if name == b"probe".as_slice() {
            link.probe = true;
            rest = after;
        } else {
            let (value, later) = value_in(after);
            link = with_word(link, name, value)?;
            rest = later;
        }
    }
    Ok((link, None))
}
