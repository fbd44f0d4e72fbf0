//! The request of a plain line.
use play_pcap::Ask as CaptureAsk;
use play_show::Topic;
use request::Request;

/// The request of a plain line. A file's name is borrowed from the line. The bytes of a packet or of a send are
/// borrowed from the buffer into which the line was read.
#[derive(Clone, Copy)]
pub enum Ask<'l, 'r> {
    /// One call, or a packet that arrives.
    Call(Request<'r>),
    /// The size in bytes of a descriptor's receive queue, 1 to 65,535.
    Limit(u32, u16),
    /// This many ticks, 1 to 65,535.
    Ticks(u32),
    /// A query about the host.
    Show(Topic),
    /// A capture file to play.
    Capture(CaptureAsk<'l>),
    /// A new host, with the settings of this plain line.
    Settings(&'l [u8]),
}
