//! Parsing the blocks of a pcapng file.
ghost use Rattle.std.specs.Prelude.{◌≡◌, ◌<◌, Some, Ok, Err, None, IfOk, MatchResult, length};
ghost use Rattle.capture.specs.Bodies.{enhanced_in, interface_in};
ghost use Rattle.capture.specs.SeenBlocks.{part};
ghost use Rattle.capture.specs.Packets as packets;
ghost use Rattle.capture.specs.Packets.{IsInside, BlockGives, Takes, known};

use crate::fault::{FaultAt, Why};
use crate::pcap::{LinkType, Order};
use crate::pcapng::{Block, Interface, SECTION_HEADER, first_block};
use crate::time::nanoseconds;
use arrayvec::ArrayVec;

/// How many interfaces a section may describe.
const INTERFACES: usize = 64;

/// The types of blocks that are parsed, apart from section headers (sections 4.2 to 4.4).
const INTERFACE: u32 = 1;

const SIMPLE_PACKET: u32 = 3;

const ENHANCED_PACKET: u32 = 6;

/// A packet, and the place of its bytes in a record or a block.
#[derive(Clone, Copy)]
pub(crate) struct Found {
    pub(crate) time: Option<u64>,
    pub(crate) original_len: u32,
    pub(crate) link_number: u16,
    pub(crate) link: Option<LinkType>,
    pub(crate) from: usize,
    pub(crate) len: usize,
}

/// What the blocks so far say: the byte order and the interfaces of the section.
#[derive(Drop)]
pub(crate) struct Blocks {
    pub(crate) order: Option<Order>,
    pub(crate) interfaces: ArrayVec<Interface, INTERFACES>,
}

impl Blocks {
    /// Adds an interface.
    fn add_interface(&mut self, block: &Block<'_>) -> Result<(), Why>
        ensures { MatchResult result
            (λ _. packets.by_interface (known self.old) (part block.now)
            (interface_in block.now.order block.now.body.now) ≡ Ok (known self.new, None))
            (λ why. packets.by_interface (known self.old) (part block.now)
            (interface_in block.now.order block.now.body.now) ≡ Err why) }
    {
        let interface = match block.interface() {
            Ok(interface) => interface,
            Err(fault) => return Err(Why::Body(fault)),
        };
        if self.interfaces.is_full() {
            return Err(Why::TooManyInterfaces);
        }
        self.interfaces.push(interface);
        self.order = Some(block.order);
        Ok(())
    }

    /// Returns an interface of the section.
    fn interface_at(&self, index: usize) -> Option<Interface>
        ensures { packets.InterfaceAt (known self.now) index result }
    {
        self.interfaces.get(index).copied()
    }

    /// Returns a packet with its time.
    fn enhanced(&self, block: &Block<'_>) -> Result<Found, Why>
        ensures says { MatchResult result
            (λ f. packets.by_enhanced (known self.now) (part block.now)
            (enhanced_in block.now.order block.now.body.now)
            ≡ Ok (packets.in_order (known self.now) block.now.order, Some (packets.found_in block.now.body.now f)))
            (λ why. packets.by_enhanced (known self.now) (part block.now)
            (enhanced_in block.now.order block.now.body.now) ≡ Err why) }
        ensures inside { IfOk result (λ f. IsInside (length block.now.body.now) (Some f)) }
    {
        let packet = match block.enhanced_packet() {
            Ok(packet) => packet,
            Err(fault) => return Err(Why::Body(fault)),
        };
        let Some(interface) = self.interface_at(packet.interface as usize) else {
            return Err(Why::NoInterface);
        };
        Ok(Found {
            time: Some(nanoseconds(packet.ticks, interface.ticks_per_second)),
            original_len: packet.original_len,
            link_number: interface.link_number,
            link: interface.link,
            from: 20,
            len: packet.bytes.len(),
        })
    }

    /// Returns a packet of the first interface.
    fn simple(&self, block: &Block<'_>) -> Result<Found, Why>
        ensures says { MatchResult result
            (λ f. packets.by_first (known self.now) (part block.now)
            ≡ Ok (packets.in_order (known self.now) block.now.order, Some (packets.found_in block.now.body.now f)))
            (λ why. packets.by_first (known self.now) (part block.now) ≡ Err why) }
        ensures inside { IfOk result (λ f. IsInside (length block.now.body.now) (Some f)) }
    {
        let Some(interface) = self.interface_at(0) else {
            return Err(Why::NoInterface);
        };
        match block.simple_packet(interface.snap_len) {
            Ok(packet) => Ok(Found {
                time: None,
                original_len: packet.original_len,
                link_number: interface.link_number,
                link: interface.link,
                from: 4,
                len: packet.bytes.len(),
            }),
            Err(fault) => Err(Why::Body(fault)),
        }
    }

    /// Parses a block. The place of a packet's bytes is an offset in the block's body.
    fn take_block(&mut self, block: &Block<'_>) -> Result<Option<Found>, Why>
        ensures says { BlockGives (known self.old) (part block.now) result (known self.new) }
        ensures inside { IfOk result (IsInside (length block.now.body.now)) }
    {
        match block.kind {
            SECTION_HEADER => {
                if let Err(fault) = block.section() {
                    return Err(Why::Body(fault));
                }
                self.interfaces.clear();
            }
            INTERFACE => {
                self.add_interface(block)?;
            }
            ENHANCED_PACKET => {
                let found = self.enhanced(block)?;
                self.order = Some(block.order);
                return Ok(Some(found));
            }
            SIMPLE_PACKET => {
                let found = self.simple(block)?;
                self.order = Some(block.order);
                return Ok(Some(found));
            }
            _ => {}
        }
        self.order = Some(block.order);
        Ok(None)
    }

    /// Parses the block at the beginning of these bytes. The place of a packet's bytes is an offset in these bytes.
    /// Fails with a fault of the block, or of its body.
    pub(crate) fn take(&mut self, bytes: &[u8]) -> Result<Option<Found>, FaultAt>
        ensures takes { Takes (known self.old) bytes.now result (known self.new) }
        ensures inside { IfOk result (IsInside (length bytes.now)) }
    {
        let (block, _rest) = first_block(self.order, bytes)?;
        match self.take_block(&block) {
            Ok(Some(found)) => Ok(Some(Found {
                from: found.from + 8,
                ..found
            })),
            Ok(None) => Ok(None),
            Err(why) => Err(FaultAt { why, at: 0 }),
        }
    }
}
