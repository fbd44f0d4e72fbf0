//! Names of link types that `capture` doesn't read.

/// A link type by its number (tcpdump.org/linktypes.html), with the words that libpcap has for it.
#[derive(Clone, Copy)]
struct Row {
    number: u16,
    name: &'static str,
}

/// Those that are met most.
static ROWS: [Row; 49] = [
    Row {
        number: 6,
        name: "Token ring",
    },
    Row {
        number: 7,
        name: "BSD ARCNET",
    },
    Row {
        number: 8,
        name: "SLIP",
    },
    Row {
        number: 10,
        name: "FDDI",
    },
    Row {
        number: 50,
        name: "PPP over serial",
    },
    Row {
        number: 51,
        name: "PPPoE",
    },
    Row {
        number: 104,
        name: "Cisco HDLC",
    },
    Row {
        number: 105,
        name: "802.11",
    },
    Row {
        number: 107,
        name: "Frame Relay",
    },
    Row {
        number: 109,
        name: "OpenBSD encapsulated IP",
    },
    Row {
        number: 114,
        name: "Localtalk",
    },
    Row {
        number: 117,
        name: "OpenBSD pflog file",
    },
    Row {
        number: 119,
        name: "802.11 plus Prism header",
    },
    Row {
        number: 122,
        name: "RFC 2625 IP-over-Fibre Channel",
    },
    Row {
        number: 127,
        name: "802.11 plus radiotap header",
    },
    Row {
        number: 129,
        name: "Linux ARCNET",
    },
    Row {
        number: 138,
        name: "Apple IP-over-IEEE 1394",
    },
    Row {
        number: 143,
        name: "DOCSIS",
    },
    Row {
        number: 144,
        name: "Linux IrDA",
    },
    Row {
        number: 163,
        name: "802.11 plus AVS radio information header",
    },
    Row {
        number: 166,
        name: "PPP for pppd, with direction flag",
    },
    Row {
        number: 187,
        name: "Bluetooth HCI UART transport layer",
    },
    Row {
        number: 189,
        name: "USB with Linux header",
    },
    Row {
        number: 192,
        name: "Per-Packet Information",
    },
    Row {
        number: 195,
        name: "IEEE 802.15.4 with FCS",
    },
    Row {
        number: 201,
        name: "Bluetooth HCI UART transport layer plus pseudo-header",
    },
    Row {
        number: 202,
        name: "AX.25 with KISS header",
    },
    Row {
        number: 209,
        name: "IPMB with Linux/Pigeon Point pseudo-header",
    },
    Row {
        number: 219,
        name: "MPLS with label as link-layer header",
    },
    Row {
        number: 220,
        name: "USB with padded Linux header",
    },
    Row {
        number: 224,
        name: "Fibre Channel FC-2",
    },
    Row {
        number: 227,
        name: "CAN-bus with SocketCAN headers",
    },
    Row {
        number: 229,
        name: "Raw IPv6",
    },
    Row {
        number: 230,
        name: "IEEE 802.15.4 without FCS",
    },
    Row {
        number: 231,
        name: "D-Bus",
    },
    Row {
        number: 239,
        name: "Linux netfilter log messages",
    },
    Row {
        number: 240,
        name: "Ethernet with Hilscher netANALYZER pseudo-header",
    },
    Row {
        number: 242,
        name: "RFC 4391 IP-over-Infiniband",
    },
    Row {
        number: 243,
        name: "MPEG-2 transport stream",
    },
    Row {
        number: 247,
        name: "InfiniBand",
    },
    Row {
        number: 249,
        name: "USB with USBPcap header",
    },
    Row {
        number: 251,
        name: "Bluetooth Low Energy air interface",
    },
    Row {
        number: 253,
        name: "Linux netlink",
    },
    Row {
        number: 254,
        name: "Bluetooth Linux Monitor",
    },
    Row {
        number: 256,
        name: "Bluetooth Low Energy air interface with pseudo-header",
    },
    Row {
        number: 258,
        name: "Apple DLT_PKTAP",
    },
    Row {
        number: 271,
        name: "Linux vsock",
    },
    Row {
        number: 272,
        name: "Nordic Semiconductor Bluetooth LE sniffer frames",
    },
    Row {
        number: 283,
        name: "IEEE 802.15.4 with pseudo-header",
    },
];

/// Returns the name of a link type.
pub(crate) fn name_of(number: u16) -> Option<&'static str> {
    for row in &ROWS {
        if row.number == number {
            return Some(row.name);
        }
    }
    None
}
