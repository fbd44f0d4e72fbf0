//! A control block, and the options of its socket.
ghost use Rattle.std.specs.Prelude.{◌≡◌, ◌&&◌};
ghost use Rattle.flat_model.specs.Sockets.Lookup as flat;
ghost use Rattle.flat_model.specs.Sockets.Lookup.{is_addr, wildcards};
ghost use Rattle.pcb_table.specs.Inside.Changed.{block_with_option, bound_block, limited_block, connected_block, connection_of, disconnected_block, unbound_block};
ghost use Rattle.pcb_table.specs.Inside.Search.{does_agree};
ghost use Rattle.pcb_table.specs.Apart.{does_match, has_score, plain};

use flat_model::{Addr, LookupKey, Opt};

/// A control block (volume 2 section 22.3): what a socket is bound and connected to, and its options. Array elements
/// without a block have the default value, whose descriptor is 0.
#[derive(Clone, Copy, Debug, Default, PartialEq, Eq)]
pub struct Block {
    /// The socket's descriptor, 3 to 66.
    pub fd: u32,
    /// The local address. If it's unset, the socket receives packets to each address of the machine.
    pub local: Option<u32>,
    /// The local port. No lookup finds a block without one.
    pub port: Option<u16>,
    /// The foreign address and port of a connected socket.
    pub peer: Option<Addr>,
    /// Whether the socket may send to the broadcast address (SO_BROADCAST).
    pub broadcast: bool,
    /// Whether other sockets with this option may bind to the same address and port (SO_REUSEPORT).
    pub reuse_port: bool,
    /// The size in bytes of the receive queue that a program has chosen (SO_RCVBUF), or 0.
    // Two bytes, because that much of a block was padding: a longer one takes 256 bytes more for 64 sockets.
    pub receive_limit: u16,
}

/// The two ends of a block whose four values are all set.
#[derive(Clone, Copy)]
pub(crate) struct Connection {
    pub(crate) fd: u32,
    pub(crate) local: Addr,
    pub(crate) peer: Addr,
}

impl Block {
    /// The block of a new socket.
    pub(crate) fn unbound(fd: u32) -> Block
        ensures { result ≡ unbound_block fd }
    {
        Block {
            fd,
            ..Block::default()
        }
    }

    /// The block with an option set or cleared.
    pub(crate) fn with_option(self, option: Opt, on: bool) -> Block
        ensures { result ≡ block_with_option option on self }
    {
        match option {
            Opt::Broadcast => Block {
                broadcast: on,
                ..self
            },
            Opt::ReusePort => Block {
                reuse_port: on,
                ..self
            },
        }
    }

    /// The block with this size of the receive queue.
    pub(crate) fn with_limit(self, limit: u16) -> Block
        ensures { result ≡ limited_block limit self }
    {
        Block {
            receive_limit: limit,
            ..self
        }
    }

    /// The block with this local address and port.
    pub(crate) fn bound_to(self, local: Option<u32>, port: u16) -> Block
        ensures { result ≡ bound_block local port self }
    {
        Block {
            local,
            port: Some(port),
            ..self
        }
    }

    /// The block with this local address, port and peer.
    pub(crate) fn connected_to(self, local: u32, port: u16, peer: Addr) -> Block
        ensures { result ≡ connected_block local port peer self }
    {
        Block {
            local: Some(local),
            port: Some(port),
            peer: Some(peer),
            ..self
        }
    }

    /// If the block is connected, clears its peer and its local address; otherwise returns it unchanged.
    pub(crate) fn disconnected(self) -> Block
        ensures { result ≡ disconnected_block self }
    {
        if self.peer.is_some() {
            Block {
                local: None,
                peer: None,
                ..self
            }
        } else {
            self
        }
    }

    /// The block as a connection, if all four of its values are set.
    pub(crate) fn connection(&self) -> Option<Connection>
        ensures { result ≡ connection_of self.now }
    {
        match (self.local, self.port, self.peer) {
            (Some(ip), Some(port), Some(peer)) => Some(Connection {
                fd: self.fd,
                local: Addr { ip, port },
                peer,
            }),
            _ => None,
        }
    }

    /// Whether the block and the key agree: the local addresses, if both have one, and the peers, if both have one.
    pub(crate) fn agrees(&self, key: &LookupKey) -> bool
        ensures { result ≡ does_agree key.now self.now }
    {
        if let (Some(own), Some(wanted)) = (self.local, key.local) {
            if own != wanted {
                return false;
            }
        }
        match (self.peer, key.peer) {
            (Some(own), Some(wanted)) => own.ip == wanted.ip && own.port == wanted.port,
            _ => true,
        }
    }

    /// Whether the block has the key's port and agrees with the key.
    pub(crate) fn matches(&self, key: &LookupKey) -> bool
        ensures { result ≡ does_match key.now self.now }
    {
        are_same(self.port, key.port) && self.agrees(key)
    }

    /// How many of the two ends, local and foreign, are set in exactly one of block and key.
    pub(crate) fn wildcards(&self, key: &LookupKey) -> u8
        ensures { result ≡ wildcards key.now (plain self.now) }
    {
        u8::from(self.local.is_some() != key.local.is_some())
            + u8::from(self.peer.is_some() != key.peer.is_some())
    }

    /// Whether the block matches the key without a wildcard.
    pub(crate) fn matches_exactly(&self, key: &LookupKey) -> bool
        ensures { result ≡ has_score 0 key.now self.now }
    {
        self.matches(key) && self.wildcards(key) == 0
    }
}

impl Connection {
    /// Whether the connection has these two ends.
    pub(crate) fn has_ends(&self, local: Addr, peer: Addr) -> bool
        ensures { result ≡ (is_addr self.now.local local && is_addr self.now.peer peer) }
    {
        self.local.ip == local.ip
            && self.local.port == local.port
            && (self.peer.ip == peer.ip && self.peer.port == peer.port)
    }
}

fn are_same(a: Option<u16>, b: Option<u16>) -> bool
    ensures { result ≡ flat.are_same a b }
{
    match (a, b) {
        (Some(x), Some(y)) => x == y,
        _ => false,
    }
}
