//! The control blocks of a machine, and the calls on them.
ghost use Rattle.std.specs.Prelude.{◌≡◌, ◌≢◌, ◌==◌, ◌||◌, ◌<◌, ◌≤◌, [], true, All, None, Some, Ok, IfNone, IfOk, IfSome, OnErr, OnOk, OnSome, length, option_map};
ghost use Rattle.flat_model.specs.Machine.Event.{Bind, Close, Connect, Open, Set_limit, Set_option};
ghost use Rattle.flat_model.specs.Machine.State.{State};
ghost use Rattle.flat_model.specs.Machine.Step.{Step};
ghost use Rattle.flat_model.specs.Machine.Calls.{disconnected};
ghost use Rattle.flat_model.specs.Sockets.Lookup as flat;
ghost use Rattle.pcb_table.specs.Table.{ClosesOnly, IsCall, IsDescriptor, IsOpen, KeepsOpen, OpensOnly, Queues, block_at, local_of, machine, packet_key, peer_of};
ghost use Rattle.flat_model.specs.Machine.Replies.{done_reply, opened_reply};
ghost use Rattle.pcb_table.specs.Inside.Changed.{forgotten};
ghost use Rattle.pcb_table.specs.Apart.{AreApart};
ghost use Rattle.pcb_table.specs.Found.{Changes, ChecksDestination, ChoosesNext, EnsuresPort, Finds, FindsAll, SendsFrom};

use crate::block::{Block, Connection};
use crate::blocks::Blocks;
use crate::interface::Interface;
use crate::ports::{lowest_free, next_free, port_for};
use crate::refusals::{bind_fault, destination_fault, port_unless_zero, unless_zero};
use crate::search::{best, exact, receivers};
use arrayvec::ArrayVec;
use flat_model::{Addr, Errno, LookupKey, Opt};
use params::{LOOPBACK, MAX_SOCKETS};
use std::marker::Model;

/// The largest number of open sockets, as the length of an array.
pub const SOCKETS: usize = MAX_SOCKETS as usize;

/// The control blocks of at most 64 sockets, the last ephemeral port chosen, and the machine's addresses. A call that
/// changes them is a step of the flat machine, for every content of the sockets' queues.
#[derive(Drop)]
pub struct Pcbs {
    interface: Interface,
    blocks: Blocks,
    // the last ephemeral port chosen
    last_port: Option<u16>,
    // the last block with all four values set that a packet's lookup found
    cache: Option<Connection>,
}

impl Model for Pcbs {
    ghost use Rattle.pcb_table.specs.Table.{Table};

    ghost Value = { Table };

    ghost use Rattle.pcb_table.specs.Apart.{AreApart};
    ghost use Rattle.pcb_table.specs.Inside.Fields.{IsCached, IsInCircle};

    ghost view = { λ p.
        record { addr = p.interface.addr; bcast = p.interface.bcast; blocks = p.blocks; last_port = p.last_port } };

    ghost invariant = { λ p. AreApart p.blocks × IsCached p.blocks p.cache × IsInCircle p.last_port };
}

impl Pcbs {
    /// Creates a table without blocks, for a machine with these two addresses. It allocates nothing.
    pub fn new(addr: u32, bcast: u32) -> Pcbs
        ensures { result ≡ record { addr = addr; bcast = bcast; blocks = []; last_port = None } }
    {
        Pcbs {
            interface: Interface { addr, bcast },
            blocks: Blocks::new(),
            last_port: None,
            cache: None,
        }
    }

    /// The machine's address.
    pub fn addr(&self) -> u32
        ensures { result ≡ self.now.addr }
    {
        self.interface.addr
    }

    /// The machine's broadcast address.
    pub fn bcast(&self) -> u32
        ensures { result ≡ self.now.bcast }
    {
        self.interface.bcast
    }

    /// What holds of every table: descriptors are 3 to 66 and unique, a connected block has a port, and no two blocks
    /// have all four of their values set and equal.
    pub fn laws(&self)
        ensures few { length self.now.blocks ≤ MAX_SOCKETS }
        ensures apart { AreApart self.now.blocks }
    {
        let _few = self.blocks.len();
    }

    /// The block of a descriptor, or `None` if it isn't open.
    // Inlined, or an echo on a board takes 200 instructions more.
    #[inline(always)]
    pub fn block(&self, fd: u32) -> Option<Block>
        ensures value { result ≡ block_at fd self.now }
        ensures named { IfSome result (λ block. block.fd ≡ fd) }
        ensures range { OnSome result (IsDescriptor fd) }
    {
        match self.blocks.locate(fd) {
            None => None,
            Some(at) => Some(at.block),
        }
    }

    /// Borrows the block of an open descriptor, if the table has its current index. `None` doesn't mean that the
    /// descriptor isn't open: use `block` then. O(1).
    #[inline(always)]
    pub fn indexed(&self, fd: u32) -> Option<&Block>
        ensures { IfSome result (λ b. block_at fd self.now ≡ Some b.now) }
    {
        let (_, block) = self.blocks.indexed(fd)?;
        Some(block)
    }

    /// The size in bytes of an open socket's receive queue that a program has chosen, or 0. The number of steps doesn't
    /// depend on the number of sockets, unless `params::indexes_sockets` returns `false`.
    // If no socket has a limit, no block is looked for: this is in the path of each packet that arrives.
    #[inline(always)]
    pub fn limit(&self, fd: u32) -> u16
        requires { IsOpen fd self.now }
        ensures { option_map (λ b. b.receive_limit) (block_at fd self.now) ≡ Some result }
    {
        if self.blocks.is_none_limited() {
            return 0;
        }
        match self.indexed(fd) {
            Some(block) => block.receive_limit,
            None => self.blocks.located(fd).block.receive_limit,
        }
    }

    /// The local and the foreign end of an open socket, with 0 for each value that is unset.
    pub fn ends(&self, fd: u32) -> (Addr, Addr)
        requires { IsOpen fd self.now }
        ensures local { option_map local_of (block_at fd self.now) ≡ Some result.0 }
        ensures foreign { option_map peer_of (block_at fd self.now) ≡ Some result.1 }
    {
        let block = self.blocks.located(fd).block;
        let local = Addr {
            ip: block.local.unwrap_or(0),
            port: block.port.unwrap_or(0),
        };
        (local, block.peer.unwrap_or(Addr { ip: 0, port: 0 }))
    }

    // ---- lookups

    /// The socket that receives a packet (volume 2 section 22.6): the descriptor of the block that matches the packet's
    /// four values with the fewest wildcards, and of several such blocks the youngest. `None` if no block matches. All
    /// four values count as set, also 0.0.0.0 and port 0. No block changes.
    pub fn lookup(&mut self, destination: u32, port: u16, source: Addr) -> Option<u32>
        ensures found { Finds (flat.best (packet_key destination port source)) self.old result }
        ensures range { IfSome result IsDescriptor }
        ensures blocks { self.new ≡ self.old }
    {
        let local = Addr {
            ip: destination,
            port,
        };
        if let Some(cached) = self.cache {
            if params::indexes_sockets() && cached.has_ends(local, source) {
                return Some(cached.fd);
            }
        }
        let key = LookupKey {
            local: Some(destination),
            port: Some(port),
            peer: Some(source),
        };
        match best(&self.blocks, key) {
            None => None,
            Some(block) => {
                if !params::indexes_sockets() {
                    return Some(block.fd);
                }
                // A block that isn't connected leaves the cache as it is.
                let Some(connection) = block.connection() else {
                    return Some(block.fd);
                };
                self.cache = Some(connection);
                Some(block.fd)
            }
        }
    }

    /// The youngest block that matches the key without a wildcard: its port is the key's, and its local address and its
    /// peer are set exactly if the key's are, with the same values.
    pub fn exact(&self, key: LookupKey) -> Option<u32>
        ensures found { Finds (flat.exact key) self.now result }
        ensures range { IfSome result IsDescriptor }
    {
        match exact(&self.blocks, key) {
            None => None,
            Some(block) => Some(block.fd),
        }
    }

    /// Adds the sockets that receive a broadcast to `matching`, which must be empty (volume 2 chapter 23; the use of
    /// SO_REUSEPORT is this project's own): the blocks that match its four values, the youngest first, up to and
    /// including the first one without the reuse-port option.
    pub fn receivers(
        &self,
        destination: u32,
        port: u16,
        source: Addr,
        matching: &mut ArrayVec<u32, SOCKETS>,
    )
        requires { matching.old.items ≡ [] }
        ensures found { FindsAll (flat.receivers (packet_key destination port source)) self.now matching.new.items }
        ensures range { All IsDescriptor matching.new.items }
    {
        let key = LookupKey {
            local: Some(destination),
            port: Some(port),
            peer: Some(source),
        };
        receivers(self.blocks.as_slice(), key, matching);
    }

    /// The ephemeral port, 1024 to 5000, that a bind to 0.0.0.0 and port 0 would choose now (volume 2 section 22.7).
    pub fn next_port(&self) -> u16
        ensures { ChoosesNext self.now result }
    {
        next_free(&self.blocks, None, self.last_port)
    }

    // ---- calls

    /// Opens a socket, with the lowest free descriptor from 3 to 66 (volume 2 section 22.4).
    ///
    /// # Errors
    ///
    /// `TooManyFiles` if 64 are open. Nothing changes then.
    pub fn open(&mut self) -> Result<u32, Errno>
        ensures step { (rest : State) (queues : Queues) → IfOk result (λ fd. queues fd ≡ [])
            → Step (machine rest queues self.old) Open (opened_reply result) (machine rest queues self.new) }
        ensures range { IfOk result IsDescriptor }
        ensures opened { IfOk result (λ fd. OpensOnly self.old fd self.new) }
        ensures err { OnErr result (self.new ≡ self.old) }
    {
        if self.blocks.len() == SOCKETS {
            return Err(Errno::TooManyFiles);
        }
        let fd = lowest_free(&self.blocks);
        self.blocks.insert_first(Block::unbound(fd));
        Ok(fd)
    }

    /// Closes a socket (volume 2 section 22.4).
    ///
    /// # Errors
    ///
    /// `BadDescriptor` if it isn't open. Nothing changes then.
    pub fn close(&mut self, fd: u32) -> Result<(), Errno>
        ensures step { IsCall self.old (Close fd) (done_reply result) self.new }
        ensures closed { OnOk result (ClosesOnly self.old fd self.new) }
        ensures err { OnErr result (self.new ≡ self.old) }
    {
        let Some(at) = self.blocks.locate(fd) else {
            return Err(Errno::BadDescriptor);
        };
        self.cache = without(self.cache, fd);
        self.blocks.remove_at(at.index);
        Ok(())
    }

    /// Sets or clears an option.
    ///
    /// # Errors
    ///
    /// `BadDescriptor` if the socket isn't open. Nothing changes then.
    pub fn set_option(&mut self, fd: u32, option: Opt, on: bool) -> Result<(), Errno>
        ensures step { IsCall self.old (Set_option fd option on) (done_reply result) self.new }
        ensures descriptors { KeepsOpen self.old self.new }
        ensures err { OnErr result (self.new ≡ self.old) }
    {
        let Some(at) = self.blocks.locate(fd) else {
            return Err(Errno::BadDescriptor);
        };
        self.blocks
            .set_block(at.index, at.block.with_option(option, on));
        Ok(())
    }

    /// Sets the size in bytes of a socket's receive queue; 0 is no size of its own. The queue keeps its datagrams.
    ///
    /// # Errors
    ///
    /// `BadDescriptor` if the socket isn't open. Nothing changes then.
    pub fn set_limit(&mut self, fd: u32, limit: u16) -> Result<(), Errno>
        ensures step { IsCall self.old (Set_limit fd limit) (done_reply result) self.new }
        ensures descriptors { KeepsOpen self.old self.new }
        ensures err { OnErr result (self.new ≡ self.old) }
    {
        let Some(at) = self.blocks.locate(fd) else {
            return Err(Errno::BadDescriptor);
        };
        self.blocks.set_block(at.index, at.block.with_limit(limit));
        Ok(())
    }

    /// Binds an unbound socket: sets its local address, unless that is 0.0.0.0, and its port. Port 0 chooses an
    /// ephemeral port (volume 2 section 22.7).
    ///
    /// # Errors
    ///
    /// Tested in this order, and nothing changes: `BadDescriptor`; `Invalid` if the socket has a port or a local
    /// address; `AddressNotAvailable` if the address is neither 0.0.0.0 nor one of the machine's; `AddressInUse` if the
    /// port isn't 0 and another block prevents the bind.
    pub fn bind(&mut self, fd: u32, address: Addr) -> Result<(), Errno>
        ensures step { IsCall self.old (Bind fd address) (done_reply result) self.new }
        ensures descriptors { KeepsOpen self.old self.new }
        ensures err { OnErr result (self.new ≡ self.old) }
    {
        let Some(at) = self.blocks.locate(fd) else {
            return Err(Errno::BadDescriptor);
        };
        let fault = bind_fault(&self.blocks, self.interface, &at.block, address);
        if let Some(errno) = fault {
            return Err(errno);
        }
        let local = unless_zero(address.ip);
        let chosen = port_for(
            &self.blocks,
            local,
            self.last_port,
            port_unless_zero(address.port),
        );
        self.last_port = chosen.last;
        self.blocks
            .set_block(at.index, at.block.bound_to(local, chosen.port));
        Ok(())
    }

    /// Connects a socket to an address (volume 2 section 22.8). 0.0.0.0 means the machine's address, and
    /// 255.255.255.255 its broadcast address. A connected socket is disconnected first. A socket without a port gets an
    /// ephemeral one, and a socket without a local address gets the source address of its packets to the peer.
    ///
    /// # Errors
    ///
    /// Tested in this order: `BadDescriptor`; `AddressNotAvailable` if the port is 0; `HostUnreachable`; `AddressInUse`
    /// if another socket has the same four values. On error, a socket that was connected is disconnected, and any other
    /// is unchanged.
    pub fn connect(&mut self, fd: u32, address: Addr) -> Result<(), Errno>
        ensures step { IsCall self.old (Connect fd address) (done_reply result) self.new }
        ensures descriptors { KeepsOpen self.old self.new }
    {
        let Some(at) = self.blocks.locate(fd) else {
            return Err(Errno::BadDescriptor);
        };
        let block = at.block.disconnected();
        self.cache = without(self.cache, fd);
        self.blocks.set_block(at.index, block);
        let to = self.interface.read(address);
        if let Some(errno) = destination_fault(&self.blocks, self.interface, &block, to) {
            return Err(errno);
        }
        let source = self.interface.source(&block, to.ip);
        let chosen = port_for(&self.blocks, block.local, self.last_port, block.port);
        self.last_port = chosen.last;
        self.blocks
            .set_block(at.index, block.connected_to(source, chosen.port, to));
        Ok(())
    }

    /// Clears the foreign address and port of a connected socket, and its local address. It keeps its local port
    /// (volume 2 section 22.9). A socket that isn't connected is unchanged.
    pub fn disconnect(&mut self, fd: u32)
        requires { IsOpen fd self.old }
        ensures step { Changes self.old fd disconnected self.new }
        ensures descriptors { KeepsOpen self.old self.new }
    {
        let at = self.blocks.located(fd);
        self.cache = without(self.cache, fd);
        self.blocks.set_block(at.index, at.block.disconnected());
    }

    /// Tests the destination of a send from the socket that has this block, and returns it with 0.0.0.0 replaced by the
    /// machine's address and 255.255.255.255 by its broadcast address. Nothing changes.
    ///
    /// # Errors
    ///
    /// Tested in this order: `IsConnected` if the socket is connected; `AddressNotAvailable` if the port is 0;
    /// `HostUnreachable`; `AddressInUse` if another socket has the same four values.
    #[inline(always)]
    pub fn check_destination_of(&self, block: &Block, to: Addr) -> Result<Addr, Errno>
        requires { block_at block.now.fd self.now ≡ Some block.now }
        ensures { ChecksDestination self.now block.now.fd to result }
    {
        let to = self.interface.read(to);
        if block.peer.is_some() {
            return Err(Errno::IsConnected);
        }
        match destination_fault(&self.blocks, self.interface, block, to) {
            Some(errno) => Err(errno),
            None => Ok(to),
        }
    }

    /// If `true`, packets of the socket that has this block go to the address by the link, to another machine, and
    /// `check_destination_of` returns the address unchanged. `false`: take the general path (the result is the same).
    #[inline(always)]
    pub fn goes_by_link(&self, block: &Block, to: Addr) -> bool
        requires { block_at block.now.fd self.now ≡ Some block.now }
        ensures checked { result ≡ true → ChecksDestination self.now block.now.fd to (Ok to) }
        ensures other { result ≡ true
            → (to.ip ≢ self.now.addr) × (to.ip ≢ self.now.bcast) × (to.ip ≢ LOOPBACK) }
    {
        if self.interface.is_ours(to.ip) || block.peer.is_some() {
            return false;
        }
        let fault = destination_fault(&self.blocks, self.interface, block, to);
        fault.is_none()
    }

    /// The peer of the socket that has this block, if the peer is another machine, so that packets to it leave by the
    /// link. `None`: take the general path (the result is the same).
    #[inline(always)]
    pub fn peer_by_link(&self, block: &Block) -> Option<Addr>
        ensures peer { IfSome result (λ a. block.now.peer ≡ Some a) }
        ensures other { IfSome result (λ a.
            (a.ip ≢ self.now.addr) × (a.ip ≢ self.now.bcast) × (a.ip ≢ LOOPBACK)) }
        ensures none { IfNone result (IfSome block.now.peer (λ a.
            ((a.ip == self.now.addr) || (a.ip == self.now.bcast) || (a.ip == LOOPBACK)) ≡ true)) }
    {
        match block.peer {
            Some(peer) => {
                if self.interface.is_ours(peer.ip) {
                    return None;
                }
                Some(peer)
            }
            None => None,
        }
    }

    /// The source address of packets to an address from the socket that has this block: its local address, if that is
    /// set; otherwise 127.0.0.1 for packets to 127.0.0.1, and the machine's address for all others.
    #[inline(always)]
    pub fn source_of(&self, block: &Block, ip: u32) -> u32
        requires { block_at block.now.fd self.now ≡ Some block.now }
        ensures { SendsFrom self.now block.now.fd ip result }
    {
        self.interface.source(block, ip)
    }

    /// The local port of the socket that has this block, if it has one. `ensure_port_of` returns the same port then.
    #[inline(always)]
    pub fn port_of(&self, block: &Block) -> Option<u16>
        requires { block_at block.now.fd self.now ≡ Some block.now }
        ensures port { result ≡ block.now.port }
        ensures same { IfSome result (λ port. EnsuresPort self.now block.now.fd port self.now) }
    {
        self.laws();
        match block.port {
            Some(port) => Some(port),
            None => None,
        }
    }

    /// `ensure_port` of the socket that has this block.
    pub fn ensure_port_of(&mut self, block: &Block) -> u16
        requires { block_at block.now.fd self.old ≡ Some block.now }
        ensures port { EnsuresPort self.old block.now.fd result self.new }
        ensures descriptors { KeepsOpen self.old self.new }
    {
        self.laws();
        match block.port {
            Some(port) => port,
            None => self.ensure_port(block.fd),
        }
    }

    /// The local port of an open socket. A socket without one gets the next free ephemeral port, as at its first send.
    pub fn ensure_port(&mut self, fd: u32) -> u16
        requires { IsOpen fd self.old }
        ensures port { EnsuresPort self.old fd result self.new }
        ensures descriptors { KeepsOpen self.old self.new }
    {
        let at = self.blocks.located(fd);
        let chosen = port_for(&self.blocks, at.block.local, self.last_port, at.block.port);
        self.last_port = chosen.last;
        self.blocks
            .set_block(at.index, at.block.bound_to(at.block.local, chosen.port));
        chosen.port
    }
}

/// The cached connection, unless it belongs to the descriptor.
fn without(cache: Option<Connection>, fd: u32) -> Option<Connection>
    ensures { result ≡ forgotten fd cache }
{
    match cache {
        Some(connection) => {
            if connection.fd == fd {
                None
            } else {
                Some(connection)
            }
        }
        None => None,
    }
}
