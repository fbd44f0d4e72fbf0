//! The packets of a capture file.
use capture::pcap::{ReadError, ipv4_packet, read};
use std::alloc::Global;

/// How many records of a file hold an IPv4 packet. Others hold ARP, say, or were cut short.
pub fn packets_in(alloc: Global, file: &[u8]) -> Result<u64, ReadError> {
    let capture = read(alloc, file)?;
    let link = capture.header.link;
    let mut packets: u64 = 0;
    for record in capture.records.as_slice() {
        if ipv4_packet(link, record.bytes).is_ok() {
            packets = packets.saturating_add(1);
        }
    }
    Ok(packets)
}
