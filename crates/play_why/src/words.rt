//! Rules in words, and what this stack lacks.
use flat_model::Why;

/// Returns the rule that a packet broke, with its source; or why it was dropped although it broke none.
pub(crate) fn rule_for(why: Why) -> &'static str {
    match why {
        Why::TooSmall => "an IPv4 header has 20 bytes at least (RFC 791, section 3.1)",
        Why::BadVersion => "the first four bits are 4 (RFC 791, section 3.1)",
        Why::BadHeaderLength => "the header has 5 words of 4 bytes at least (RFC 791, section 3.1)",
        Why::Options => "this stack accepts no IP options, so a header has 5 words",
        Why::BadSum =>
            "the 16-bit words of the header add up to 0xffff in ones' complement (RFC 791, section 3.1)",
        Why::BadLength =>
            "the total length counts the header too, so it's 20 at least (RFC 791, section 3.1)",
        Why::TooShort =>
            "a packet has as many bytes as its total length says (RFC 791, section 3.1)",
        Why::CantForward =>
            "a host accepts its own address and broadcasts, and forwards nothing (RFC 1122, section 3.2.1.3)",
        Why::BadFragment =>
            "no fragment is empty or ends past byte 65514, and all but the last carry a multiple of 8 bytes (RFC 791)",
        Why::FragmentDropped =>
            "fragments that arrived before have all its bytes (TCP/IP Illustrated 2, chapter 10)",
        Why::NoProtocol => "this stack delivers only UDP, protocol 17",
        Why::UdpHeaderDrops => "a UDP header has 8 bytes (RFC 768)",
        Why::UdpBadLength =>
            "the UDP length is 8 at least, and at most what the packet carries (RFC 768)",
        Why::UdpBadSum =>
            "the words of pseudo header and datagram add up to 0xffff, unless the checksum is 0 (RFC 768)",
        Why::UdpNoPort | Why::UdpNoPortBroadcast =>
            "a socket is bound to the destination port (TCP/IP Illustrated 2, chapter 23)",
        Why::UdpFullSocket =>
            "this stack's receive queue takes 41584 bytes: 41600, less 16 for the sender's address",
        Why::NoBufs => "this stack has no mbuf or cluster left for it",
    }
}
