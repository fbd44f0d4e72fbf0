//! Parsing the bodies of blocks.
ghost use Rattle.std.specs.Prelude.{◌≡◌, ◌+◌, ◌≤◌, IfOk, drop, length, take};
ghost use Rattle.capture.specs.File.{ReturnsBy};
ghost use Rattle.capture.specs.Bodies.{enhanced_in, interface_in, plain_in, passed, section_in, ticks_by, ticks_given};
ghost use Rattle.capture.specs.SeenBlocks.{enhanced, plain};

use crate::pcap::{LinkType, Order, u16_at, u32_at};
use crate::pcapng::block::Block;
use crate::pcapng::fault::BodyFault;

/// The code of the option if_tsresol.
const IF_TSRESOL: u16 = 9;

/// The header of a section (section 4.1).
#[derive(Clone, Copy, Debug, PartialEq, Eq)]
pub struct Section {
    /// 1.
    pub major: u16,
    /// 0, or 2, which some writers have.
    pub minor: u16,
}

/// The description of an interface (section 4.2).
#[derive(Clone, Copy, Debug, Default, PartialEq, Eq)]
pub struct Interface {
    /// The link type's number.
    pub link_number: u16,
    /// The link type, if it's one of those that `pcap` knows.
    pub link: Option<LinkType>,
    /// The most bytes that are kept of a packet; 0 is no limit.
    pub snap_len: u32,
    /// How many ticks of its packets' times are a second (the option if_tsresol): a power of 10 or of 2, 1 or more.
    pub ticks_per_second: u64,
}

/// An enhanced packet (section 4.3).
#[derive(Clone, Copy, Debug)]
pub struct EnhancedPacket<'a> {
    /// The index of the section's interface that captured it. Not checked: the section may not have that interface.
    pub interface: u32,
    /// When it was captured, in ticks of the interface since 1970-01-01, 00:00 UTC.
    pub ticks: u64,
    /// How many bytes the packet had. Not checked: it may be less than what was captured.
    pub original_len: u32,
    /// The bytes that were captured. They are those of the interface's link type.
    pub bytes: &'a [u8],
}

/// A simple packet (section 4.4): the section's first interface captured it, and it has no time.
#[derive(Clone, Copy, Debug)]
pub struct SimplePacket<'a> {
    /// How many bytes the packet had.
    pub original_len: u32,
    /// The bytes that were captured.
    pub bytes: &'a [u8],
}

/// Returns the ticks of a second, by a byte of the option if_tsresol.
#[tactic(auto, using(crate::proofs::Options::tens_fit, crate::proofs::Options::twos_fit))]
fn ticks_of(byte: u8) -> Result<u64, BodyFault>
    ensures { result ≡ ticks_given byte }
{
    if byte < 20 {
        Ok(10u64.pow(u32::from(byte)))
    } else if byte < 128 || byte >= 192 {
        Err(BodyFault::BadResolution)
    } else {
        Ok(2u64.pow(u32::from(byte) - 128))
    }
}

/// The ticks of a second if an interface doesn't give them: microseconds.
const MICROSECONDS: u64 = 1_000_000;

/// Returns the bytes after the first option, if a later one may give the ticks of a second; otherwise the result of the
/// options.
fn pass_option(order: Order, options: &[u8]) -> Result<&[u8], Result<u64, BodyFault>>
    ensures { ReturnsBy (λ r. r.now) result (passed order options.now) }
{
    if options.len() < 4 {
        return Err(Ok(MICROSECONDS));
    }
    let code = u16_at(order, options, 0);
    if code == 0 {
        return Err(Ok(MICROSECONDS));
    }
    let len = u16_at(order, options, 2) as usize;
    let end = 4 + (len + 3) / 4 * 4;
    if options.len() < end {
        return Err(Err(BodyFault::OptionCut));
    }
    if code != IF_TSRESOL {
        return Ok(&options[end..]);
    }
    if len != 1 {
        return Err(Err(BodyFault::BadResolution));
    }
    Err(ticks_of(options[4]))
}

/// Returns the ticks of a second that the first `most` options of an interface give.
#[tactic(auto, using(crate::proofs::Options::ticks_more))]
fn ticks_in(order: Order, options: &[u8], most: usize) -> Result<u64, BodyFault>
    ensures { result ≡ ticks_by most order options.now }
{
    let mut rest = options;
    let mut left = most;
    'options: while left > 0 {
        match pass_option(order, rest) {
            Ok(after) => rest = after,
            Err(said) => return said,
        }
        left -= 1;
    }
    Ok(MICROSECONDS)
}

impl<'a> Block<'a> {
    /// Parses the body as a section's header. Fails with `BodyCut` or `BadVersion`.
    pub fn section(&self) -> Result<Section, BodyFault>
        ensures { result ≡ section_in self.now.order self.now.body.now }
    {
        if self.body.len() < 16 {
            return Err(BodyFault::BodyCut);
        }
        let (major, minor) = (
            u16_at(self.order, self.body, 4),
            u16_at(self.order, self.body, 6),
        );
        if major == 1 && (minor == 0 || minor == 2) {
            Ok(Section { major, minor })
        } else {
            Err(BodyFault::BadVersion)
        }
    }

    /// Parses the body as the description of an interface. Fails with `BodyCut`, `OptionCut` or `BadResolution`.
    pub fn interface(&self) -> Result<Interface, BodyFault>
        ensures { result ≡ interface_in self.now.order self.now.body.now }
    {
        if self.body.len() < 8 {
            return Err(BodyFault::BodyCut);
        }
        let ticks_per_second = ticks_in(self.order, &self.body[8..], self.body.len())?;
        let link_number = u16_at(self.order, self.body, 0);
        Ok(Interface {
            link_number,
            link: LinkType::of(link_number),
            snap_len: u32_at(self.order, self.body, 4),
            ticks_per_second,
        })
    }

    /// Parses the body as an enhanced packet. Fails with `BodyCut`.
    pub fn enhanced_packet(&self) -> Result<EnhancedPacket<'a>, BodyFault>
        ensures found { ReturnsBy enhanced result (enhanced_in self.now.order self.now.body.now) }
        ensures place { IfOk result (λ p. p.bytes.now ≡ take (length p.bytes.now) (drop 20 self.now.body.now)) }
        ensures inside { IfOk result (λ p. 20 + length p.bytes.now ≤ length self.now.body.now) }
    {
        let (order, body) = (self.order, self.body);
        if body.len() < 20 {
            return Err(BodyFault::BodyCut);
        }
        let captured = u32_at(order, body, 12) as usize;
        if body.len() - 20 < captured {
            return Err(BodyFault::BodyCut);
        }
        Ok(EnhancedPacket {
            interface: u32_at(order, body, 0),
            ticks: u64::from(u32_at(order, body, 4)) * 0x1_0000_0000
                + u64::from(u32_at(order, body, 8)),
            original_len: u32_at(order, body, 16),
            bytes: body[20..].split_at(captured).0,
        })
    }

    /// Parses the body as a simple packet, in a section whose first interface keeps `snap_len` bytes. Fails with
    /// `BodyCut`.
    pub fn simple_packet(&self, snap_len: u32) -> Result<SimplePacket<'a>, BodyFault>
        ensures found { ReturnsBy plain result (plain_in snap_len self.now.order self.now.body.now) }
        ensures place { IfOk result (λ p. p.bytes.now ≡ take (length p.bytes.now) (drop 4 self.now.body.now)) }
        ensures inside { IfOk result (λ p. 4 + length p.bytes.now ≤ length self.now.body.now) }
    {
        let body = self.body;
        if body.len() < 4 {
            return Err(BodyFault::BodyCut);
        }
        let original_len = u32_at(self.order, body, 0);
        let kept = if snap_len == 0 || original_len < snap_len {
            original_len
        } else {
            snap_len
        };
        let kept = kept as usize;
        if body.len() - 4 < kept {
            return Err(BodyFault::BodyCut);
        }
        Ok(SimplePacket {
            original_len,
            bytes: body[4..].split_at(kept).0,
        })
    }
}
