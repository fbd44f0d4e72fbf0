//! How an ephemeral port is chosen.
ghost use Rattle.std.specs.Prelude.{◌≡◌, ◌+◌, ◌<◌, ◌≤◌, length};
ghost use Rattle.flat_model.specs.Machine.Calls as flat;
ghost use Rattle.pcb_table.specs.Inside.Search.{GivesPort, IsFreePort, is_used};
ghost use Rattle.pcb_table.specs.Inside.Fields.{IsInCircle, IsLowestUnused};

use crate::blocks::Blocks;
use crate::search::best;
use flat_model::LookupKey;
use params::{FIRST_DESCRIPTOR, FIRST_EPHEMERAL_PORT, LAST_EPHEMERAL_PORT, MAX_SOCKETS};

/// The number of ephemeral ports. They're tried in a circle.
const PORTS: u16 = LAST_EPHEMERAL_PORT - FIRST_EPHEMERAL_PORT + 1;

/// The port `turns` steps after the last one chosen.
fn port_after(last: Option<u16>, turns: u16) -> u16
    requires last { IsInCircle last }
    requires turns { turns < PORTS }
    ensures { result ≡ flat.port_after last turns }
{
    let start = match last {
        None => 0,
        Some(port) => port - FIRST_EPHEMERAL_PORT + 1,
    };
    FIRST_EPHEMERAL_PORT + (start + turns) % PORTS
}

/// Whether a block has the port and a local address that agrees with this one.
pub(crate) fn is_in_use(blocks: &Blocks, local: Option<u32>, port: u16) -> bool
    ensures { result ≡ is_used blocks.now local port }
{
    best(
        blocks,
        LookupKey {
            local,
            port: Some(port),
            peer: None,
        },
    )
    .is_some()
}

/// The next ephemeral port that isn't in use. There is one, because there are more ports than blocks.
pub(crate) fn next_free(blocks: &Blocks, local: Option<u32>, last: Option<u16>) -> u16
    requires last { IsInCircle last }
    ensures free { IsFreePort blocks.now last local result }
    ensures least { FIRST_EPHEMERAL_PORT ≤ result }
    ensures most { result ≤ LAST_EPHEMERAL_PORT }
{
    let _few = blocks.len();
    for turns in 0..PORTS {
        let port = port_after(last, turns);
        if !is_in_use(blocks, local, port) {
            return port;
        }
    }
    unreachable!()
}

/// A port, and the last ephemeral port chosen then.
#[derive(Clone, Copy)]
pub(crate) struct Chosen {
    pub(crate) port: u16,
    pub(crate) last: Option<u16>,
}

/// The requested port, or the next ephemeral one if `asked` is `None`.
pub(crate) fn port_for(
    blocks: &Blocks,
    local: Option<u32>,
    last: Option<u16>,
    asked: Option<u16>,
) -> Chosen
    requires last { IsInCircle last }
    ensures port { GivesPort blocks.now last local asked result.port result.last }
    ensures last { IsInCircle result.last }
{
    match asked {
        Some(port) => Chosen { port, last },
        None => {
            let port = next_free(blocks, local, last);
            Chosen {
                port,
                last: Some(port),
            }
        }
    }
}

/// The lowest descriptor that no block has. There is one from 3 to 66, because fewer than 64 are in use.
pub(crate) fn lowest_free(blocks: &Blocks) -> u32
    requires few { length blocks.now < MAX_SOCKETS }
    ensures free { IsLowestUnused blocks.now result }
    ensures most { result < FIRST_DESCRIPTOR + MAX_SOCKETS }
{
    for fd in FIRST_DESCRIPTOR..FIRST_DESCRIPTOR + MAX_SOCKETS {
        let Some(_at) = blocks.locate(fd) else {
            return fd;
        };
    }
    unreachable!()
}
