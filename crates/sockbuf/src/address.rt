//! A sender's address, as the bytes of the mbuf before a datagram.

ghost use Rattle.std.specs.Prelude.{◌≡◌, length};
ghost use Rattle.sockbuf.specs.SockBuf.{sockaddr_bytes, sockaddr_in};

use byteorder::{BigEndian, ByteOrder};
use flat_model::Addr;
use params::SOCKADDR_BYTES;

/// The first byte of an address: its length.
const LENGTH: u8 = SOCKADDR_BYTES as u8;

/// The Internet address family, `AF_INET`.
const FAMILY: u8 = 2;

/// Encodes a sender's address.
pub(crate) fn sockaddr_bytes(sender: Addr) -> [u8; SOCKADDR_BYTES as usize]
    ensures { result ≡ sockaddr_bytes sender }
{
    let mut bytes = [0; SOCKADDR_BYTES as usize];
    bytes[0] = LENGTH;
    bytes[1] = FAMILY;
    BigEndian::write_u16(&mut bytes[2..], sender.port);
    BigEndian::write_u32(&mut bytes[4..], sender.ip);
    bytes
}

/// Decodes a sender's address.
pub(crate) fn sockaddr_in(bytes: &[u8]) -> Addr
    requires { length bytes.now ≡ SOCKADDR_BYTES }
    ensures { result ≡ sockaddr_in bytes.now }
{
    Addr {
        ip: BigEndian::read_u32(&bytes[4..]),
        port: BigEndian::read_u16(&bytes[2..]),
    }
}
