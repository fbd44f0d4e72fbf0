//! Readings of a capture before its records are judged: to which host most datagrams go, the ICMP errors, the host's
//! hardware address and its VLANs.
use crate::ether::MacSeen;
use crate::kinds::Kinds;
use crate::records::packet_in;
use crate::vlan::{Vlan, Vlans, destination_of, vlan_of};
use capture::pcap::LinkType;
use capture::{Fault, Record, Records};
use flat_ether::Mac;
use play_why::{Addresses, Busiest, Refusals};
use script_loop::Source;
use std::alloc::{AllocError, Global};

/// What a first reading of a capture gives.
#[derive(Drop)]
pub(crate) struct Ahead {
    addresses: Addresses,
    refusals: Refusals,
    kinds: Kinds,
    /// Whether a frame has a VLAN tag.
    pub(crate) is_tagged: bool,
}

impl Ahead {
    /// Nothing was read.
    fn new(alloc: Global) -> Ahead {
        Ahead {
            addresses: Addresses::new(alloc),
            refusals: Refusals::new(alloc),
            kinds: Kinds::new(),
            is_tagged: false,
        }
    }

    /// Reads a record.
    fn read(&mut self, record: Record, bytes: &[u8]) -> Result<(), AllocError> {
        self.kinds.add(record, bytes);
        self.is_tagged = self.is_tagged || !vlan_of(record.link, bytes).is_none();
        if let Some(packet) = packet_in(record, bytes) {
            self.addresses.count_packet(packet)?;
            self.refusals.read_ahead(record.number, packet)?;
        }
        Ok(())
    }

    /// Returns the address to which most datagrams go, if one of them goes to a host.
    pub(crate) fn busiest(&self) -> Option<Busiest> {
        self.addresses.busiest()
    }

    /// Returns what the records contain.
    pub(crate) fn kinds(&self) -> Kinds {
        self.kinds
    }

    /// Returns the refusals.
    pub(crate) fn into_refusals(self) -> Refusals {
        self.refusals
    }
}

/// Returns the hardware address of a host, by the frames of a capture, if one of them shows it.
pub(crate) fn find_mac<S: Source>(records: &mut Records<S>, ours: u32) -> Option<Mac> {
    let mut seen = MacSeen::new(ours);
    for _ in 0..u64::MAX {
        match records.next_record() {
            Ok(Some(record)) => {
                if matches!(record.link, Some(LinkType::Ethernet)) {
                    seen.read(records.bytes());
                }
            }
            Ok(None) | Err(_) => break,
        }
    }
    seen.found()
}

/// Returns the VLANs of the packets for a host.
pub(crate) fn find_vlans<S: Source>(
    alloc: Global,
    records: &mut Records<S>,
    ours: u32,
) -> Result<Vlans, AllocError> {
    let mut vlans = Vlans::new(alloc);
    for _ in 0..u64::MAX {
        let Ok(Some(record)) = records.next_record() else {
            break;
        };
        let to = packet_in(record, records.bytes()).and_then(destination_of);
        if to == Some(ours) {
            vlans.add(vlan_of(record.link, records.bytes()))?;
        }
    }
    Ok(vlans)
}

/// Returns the refusals of a VLAN.
pub(crate) fn find_refusals<S: Source>(
    alloc: Global,
    records: &mut Records<S>,
    vlan: Option<Vlan>,
) -> Result<Refusals, AllocError> {
    let mut refusals = Refusals::new(alloc);
    for _ in 0..u64::MAX {
        let Ok(Some(record)) = records.next_record() else {
            break;
        };
        let bytes = records.bytes();
        if let (Some(packet), true) = (
            packet_in(record, bytes),
            vlan == Some(vlan_of(record.link, bytes)),
        ) {
            refusals.read_ahead(record.number, packet)?;
        }
    }
    Ok(refusals)
}

/// Reads a capture ahead, up to its end or its first fault, which is returned too.
pub(crate) fn read_ahead<S: Source>(
    alloc: Global,
    records: &mut Records<S>,
) -> Result<(Ahead, Option<Fault>), AllocError> {
    let mut ahead = Ahead::new(alloc);
    let mut fault = None;
    for _ in 0..u64::MAX {
        match records.next_record() {
            Ok(Some(record)) => ahead.read(record, records.bytes())?,
            Ok(None) => break,
            Err(found) => {
                fault = Some(found);
                break;
            }
        }
    }
    Ok((ahead, fault))
}
