//! Which socket a packet is for.
use flat_model::{Addr, Errno};
use pcb_table::Pcbs;

/// The address of this host, 10.0.0.1.
const HERE: u32 = 0x0a00_0001;

/// The broadcast address of its network.
const EVERYBODY: u32 = 0x0a00_00ff;

/// Returns a socket that is bound to port 7, and the socket that receives a packet to that port: they are the same.
pub fn received_by() -> Result<(u32, Option<u32>), Errno> {
    let mut table = Pcbs::new(HERE, EVERYBODY);
    let fd = table.open()?;
    table.bind(fd, Addr { ip: 0, port: 7 })?;
    let sender = Addr {
        ip: 0x0a00_0002,
        port: 5000,
    };
    Ok((fd, table.lookup(HERE, 7, sender)))
}
