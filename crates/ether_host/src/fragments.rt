//! The first fragments of datagrams, which ICMP errors quote (RFC 1122, section 3.2.2).
ghost use Rattle.std.specs.Prelude.{◌≡◌, ◌≤◌, ◌∷◌, [], Err, length, map, option_map, position, take, true};
ghost use Rattle.params.specs.declared.TheConstants.{IP_HEADER, IP_UDP_HEADERS};
ghost use Rattle.flat_model.specs.Machine.Arrival.{key_of};
ghost use Rattle.flat_model.specs.Packets.Header.{head_of};
ghost use Rattle.flat_ether.specs.Icmp.{is_first, is_quote_of, quote_of, quote_size};
ghost use Rattle.flat_ether.specs.Links.{answers_expired, answers_whole, keeps_first, quote_for, quote_with, reports_expired};
ghost use Rattle.flat_ether.specs.declared.sizes.TheConstants.{FIRST_FRAGMENTS};
ghost use Rattle.ether_host.specs.Buffers.{is_kept_of};
ghost use Rattle.ether_host.specs.Expired.{told_keys};

use crate::answer::{HEADER, error_for, expired_error, is_answerable};
use crate::bytes::put_bytes;
use crate::layer::LinkLayer;
use crate::options::quote_size;
use arrayvec::ArrayVec;
use flat_ether::{FIRST_FRAGMENTS, QUOTE};
use flat_model::{Config, FragmentKey, Why};
use ip_out::{u16_at, u32_at};
use net_stack::Expired;

/// Whether a packet is the first fragment of a datagram for which an error may be sent.
fn is_first(config: &Config, came: &[u8]) -> bool
    ensures is { result ≡ is_first config.now came.now }
    ensures long { result ≡ true → IP_HEADER ≤ length came.now }
    ensures whole { result ≡ true → quote_size came.now ≤ length came.now }
{
    if came.len() < HEADER || came.len() < quote_size(came) {
        return false;
    }
    u16_at(came, 6) % 8192 == 0 && is_answerable(config, came)
}

/// Keeps what an error quotes of a packet.
fn kept_of(came: &[u8]) -> [u8; QUOTE]
    requires long { IP_HEADER ≤ length came.now }
    requires whole { quote_size came.now ≤ length came.now }
    ensures { quote_of result ≡ quote_of came.now }
{
    let mut kept = [0; QUOTE];
    put_bytes(&mut kept, 0, &came[..quote_size(came)]);
    kept
}

/// What an error quotes.
fn quote_of(kept: &[u8; QUOTE]) -> &[u8]
    ensures is { result.now ≡ quote_of kept.now }
    ensures long { IP_UDP_HEADERS ≤ length result.now }
{
    &kept[..quote_size(kept)]
}

/// The key of a fragment.
fn key_of(came: &[u8]) -> FragmentKey
    requires { IP_HEADER ≤ length came.now }
    ensures { result ≡ key_of (head_of came.now) }
{
    FragmentKey {
        source: u32_at(came, 12),
        destination: u32_at(came, 16),
        id: u16_at(came, 4),
        protocol: came[9],
    }
}

/// Whether it's quoted of a fragment with this key.
fn is_quote_of(key: FragmentKey, quote: &[u8]) -> bool
    requires { IP_UDP_HEADERS ≤ length quote.now }
    ensures { result ≡ is_quote_of key quote.now }
{
    u16_at(quote, 4) == key.id
        && quote[9] == key.protocol
        && u32_at(quote, 12) == key.source
        && u32_at(quote, 16) == key.destination
}

/// Whether it's kept of a fragment with this key.
fn is_kept_of(key: FragmentKey, kept: &[u8; QUOTE]) -> bool
    ensures { result ≡ is_kept_of key kept.now }
{
    is_quote_of(key, quote_of(kept))
}

/// The place of what is kept of a fragment with this key.
fn place_of(firsts: &[[u8; QUOTE]], key: FragmentKey) -> Option<usize>
    ensures { result ≡ position (is_kept_of key) firsts.now }
{
    firsts.iter().position(|kept| is_kept_of(key, kept))
}

/// What is kept of a fragment with this key.
fn kept_with(firsts: &[[u8; QUOTE]], key: FragmentKey) -> Option<[u8; QUOTE]>
    ensures { option_map quote_of result ≡ quote_with key (map quote_of firsts.now) }
{
    match place_of(firsts, key) {
        Some(at) => Some(firsts[at]),
        None => None,
    }
}

/// Adds what is kept before the others. If there are too many, the oldest goes.
fn put_first(firsts: &mut ArrayVec<[u8; QUOTE], FIRST_FRAGMENTS>, kept: [u8; QUOTE])
    ensures { map quote_of firsts.new.items ≡ take FIRST_FRAGMENTS (quote_of kept ∷ map quote_of firsts.old.items) }
{
    firsts.truncate(FIRST_FRAGMENTS - 1);
    firsts.insert(0, kept);
}

impl LinkLayer {
    ghost use Rattle.ether_host.specs.Inside.{link_seen};

    /// A fragment waits for the others of its datagram. If it's the first one, an error may quote it later.
    pub(crate) fn keep_first(&mut self, came: &[u8])
        ensures { link_seen self.new ≡ keeps_first came.now (link_seen self.old) }
    {
        if is_first(&self.config, came) {
            put_first(&mut self.firsts, kept_of(came));
        }
    }

    /// What is kept for an error of the datagram that this fragment completed.
    fn kept_for(&self, came: &[u8]) -> Option<[u8; QUOTE]>
        ensures { option_map quote_of result ≡ quote_for came.now (link_seen self.now) }
    {
        if is_first(&self.config, came) {
            return Some(kept_of(came));
        }
        if came.len() < HEADER {
            return None;
        }
        kept_with(self.firsts.as_slice(), key_of(came))
    }

    /// A fragment completed a datagram that was dropped: its sender may get an error.
    pub(crate) fn answer_whole(&mut self, came: &[u8], why: Why)
        ensures { link_seen self.new ≡ answers_whole came.now (Err why) (link_seen self.old) }
    {
        if let Some(kept) = self.kept_for(came) {
            let quote = quote_of(&kept);
            self.answer_with(error_for(quote, why), quote);
        }
    }

    /// A datagram with this key expired: its source may get an error that quotes the first fragment.
    fn answer_expired(&mut self, key: FragmentKey)
        ensures { link_seen self.new
            ≡ answers_expired (quote_with key (link_seen self.old).firsts) (link_seen self.old) }
    {
        if let Some(kept) = kept_with(self.firsts.as_slice(), key) {
            let quote = quote_of(&kept);
            self.answer_with(expired_error(quote), quote);
        }
    }

    /// A datagram expired. If its first fragment has arrived, its source may get an error.
    fn report_one(&mut self, expired: Expired)
        ensures { link_seen self.new ≡ reports_expired (told_keys (expired ∷ [])) (link_seen self.old) }
    {
        if expired.has_first {
            self.answer_expired(expired.key);
        }
    }

    /// These datagrams expired.
    // Not inlined, so that each stack frame stays below a kilobyte.
    #[inline(never)]
    pub(crate) fn report_expired(&mut self, expired: &[Expired])
        ensures { link_seen self.new ≡ reports_expired (told_keys expired.now) (link_seen self.old) }
    {
        let mut rest = expired;
        while let [first, later @ ..] = rest {
            self.report_one(*first);
            rest = later;
        }
    }
}
