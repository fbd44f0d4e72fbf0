//! A host on an Ethernet that sends a datagram back to its sender.
use ether_host::{EtherFault, EtherHost, Link, Mac};
use flat_model::{Addr, Config, Errno};
use std::alloc::Global;

/// The host 10.0.0.1 of the network 10.0.0.0/24.
const HOST: Config = Config {
    addr: 0x0a00_0001,
    bcast: 0x0a00_00ff,
    mtu: 1500,
    mbufs: 512,
    clusters: 64,
    first_id: 1,
};

/// Its hardware address is 02:00:00:00:00:01, and 10.0.0.2 is the gateway to all other networks.
const LINK: Link = Link {
    mac: Mac {
        high: 0x0200,
        low: 0x0000_0001,
    },
    mask: 0xffff_ff00,
    gateway: Some(0x0a00_0002),
    probe: false,
};

/// Opens a socket on port 7, passes a frame to the host, and sends the datagram in it back, if there is one.
fn serve(host: &mut EtherHost, frame: &[u8; 60]) -> Result<usize, Errno> {
    let stack = host.stack();
    let fd = stack.socket()?;
    stack.bind(fd, Addr { ip: 0, port: 7 })?;
    host.receive(frame);
    let mut buffer = [0; 9216];
    let (sender, len) = host.stack().recvfrom(fd, &mut buffer)?;
    host.stack().sendto(fd, Some(sender), &buffer[..len])
}

/// Boots the host, lets it serve a frame, and copies the next frame for the link into `link`. Returns the length of
/// that frame. It is the announcement of the host's address: further calls of `transmit` return the others.
pub fn first_frame(
    alloc: Global,
    frame: &[u8; 60],
    link: &mut [u8; 1514],
) -> Result<Option<usize>, EtherFault> {
    let mut host = EtherHost::boot(alloc, HOST, LINK)?;
    let _ = serve(&mut host, frame);
    let sent = if host.stack().mtu() <= 1500 {
        host.transmit(link)
    } else {
        None
    };
    let _ = host.end();
    Ok(sent)
}
