//! The structs that are shared with C.

/// `struct bsdudp_config`.
#[repr(C)]
#[derive(Clone, Copy)]
pub struct CConfig {
    /// The address of the interface.
    pub addr: u32,
    /// The broadcast address of its network.
    pub bcast: u32,
    /// The number of mbufs in the pool.
    pub mbufs: u32,
    /// The number of clusters in the pool.
    pub clusters: u32,
    /// The MTU of the link: the longest packet in bytes.
    pub mtu: u16,
    /// The identification of the first datagram.
    pub first_id: u16,
}

/// `struct bsdudp_addr`, both numbers in the host's byte order.
#[repr(C)]
#[derive(Clone, Copy)]
pub struct CAddr {
    /// The address.
    pub ip: u32,
    /// The port.
    pub port: u16,
}

/// `struct bsdudp_mbstat`.
#[repr(C)]
#[derive(Clone, Copy)]
pub struct CMbstat {
    /// Free mbufs.
    pub free_mbufs: u32,
    /// All mbufs.
    pub mbufs: u32,
    /// Free clusters.
    pub free_clusters: u32,
    /// All clusters.
    pub clusters: u32,
    /// The sum of the clusters' reference counts.
    pub refs: u32,
    /// The greatest reference count of a cluster.
    pub most: u32,
}

/// `struct bsdudp_name`: 0 for each address and port that is unset.
#[repr(C)]
#[derive(Clone, Copy)]
pub struct CName {
    /// The local address.
    pub local_ip: u32,
    /// The peer's address.
    pub peer_ip: u32,
    /// The local port.
    pub local_port: u16,
    /// The peer's port.
    pub peer_port: u16,
    /// 1 if the socket may send broadcasts, otherwise 0.
    pub broadcast: u8,
    /// 1 if its address and port may be shared, otherwise 0.
    pub reuse_port: u8,
}

/// `struct bsdudp_next`.
#[repr(C)]
#[derive(Clone, Copy)]
pub struct CNext {
    /// The address of the oldest datagram's sender.
    pub ip: u32,
    /// The sender's port.
    pub port: u16,
    /// The length of the oldest datagram in bytes.
    pub len: u32,
    /// The number of queued datagrams.
    pub waiting: u32,
}

/// `struct bsdudp_unfinished`.
#[repr(C)]
#[derive(Clone, Copy)]
pub struct CUnfinished {
    /// The source address of its fragments.
    pub source: u32,
    /// Their destination address.
    pub destination: u32,
    /// How many of its bytes have arrived.
    pub bytes: u32,
    /// The number of ranges that these bytes form.
    pub ranges: u32,
    /// Its identification.
    pub id: u16,
    /// The protocol number of its data.
    pub protocol: u8,
    /// The number of ticks after which it is dropped.
    pub ticks: u8,
}

/// `struct bsdudp_range`.
#[repr(C)]
#[derive(Clone, Copy)]
pub struct CRange {
    /// The offset of the first byte.
    pub offset: u32,
    /// How many bytes there are.
    pub len: u32,
    /// 1 if more fragments follow the one that brought these bytes, otherwise 0.
    pub more: u8,
}

/// `struct bsdudp_fate`.
#[repr(C)]
#[derive(Clone, Copy)]
pub struct CFate {
    /// The sockets that got the datagram: bit k is descriptor 3 + k.
    pub got: u64,
    /// The sockets that lost it.
    pub lost: u64,
    /// The index of the counter that counts the drop; 0 if there is none.
    pub cause: u32,
    /// 1 if the datagram was delivered, 2 if the fragment is kept, 3 if the packet or its datagram was dropped.
    pub kind: u8,
    /// 1 if the packet is a fragment that completed its datagram, otherwise 0.
    pub completed: u8,
}
