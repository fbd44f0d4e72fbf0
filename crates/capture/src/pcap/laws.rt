//! Laws of the definitions, for callers to cite: each is the contract of a function that does nothing.
ghost use Rattle.std.specs.Prelude.{◌≡◌, ◌++◌, List, ℕ, Ok, Result, drop};
ghost use Rattle.std.specs.List.{AllByRecursion};
ghost use Rattle.capture.specs.File.{IsHeader, file_header_bytes, header_of};
ghost use Rattle.capture.specs.Frames.{CarriesIpv4, IsPacket, packet_in_frame};
ghost use Rattle.capture.specs.declared.pcap.link_type.LinkType.{LinkType};
ghost use Rattle.capture.specs.Records.{FitsFields, Reads, Whole, records_bytes};
ghost use Rattle.capture.specs.declared.pcap.header.Header.{Header};
ghost use Rattle.capture.specs.declared.pcap.fault.Fault.{Fault};

/// A header as the format defines it, in either byte order and of either resolution, is read back.
#[tactic(auto, using(crate::proofs::Headers::header_again))]
pub fn headers_are_read()
    ensures { (h : Header) (rest : List ℕ) → IsHeader h
        → (header_of (file_header_bytes h ++ rest) ≡ Ok h) × (drop 24 (file_header_bytes h ++ rest) ≡ rest) }
{}

/// A header and records as the format defines them are read as these and no others, by `one_reading`.
#[tactic(auto, using(crate::proofs::Headers::spelled_reads))]
pub fn written_is_read()
    ensures { (w : Whole) → IsHeader w.header → AllByRecursion FitsFields w.records
        → Reads (file_header_bytes w.header ++ records_bytes w.header.order w.records) (Ok w) }
{}

/// A file can be read in only one way: as one header with one list of records, or with one fault.
#[tactic(auto, using(crate::proofs::Unique::same_reading))]
pub fn one_reading()
    ensures { (file : List ℕ) (a b : Result Whole Fault) → Reads file a → Reads file b → a ≡ b }
{}

/// A frame that carries a packet with a right version and total length gives exactly this packet, whatever padding
/// follows.
#[tactic(auto, using(crate::proofs::Framed::carried))]
pub fn frames_hold_packets()
    ensures { (link : LinkType) (frame packet padding : List ℕ) → IsPacket packet
        → CarriesIpv4 link frame (packet ++ padding) → packet_in_frame link frame ≡ Ok packet }
{}
