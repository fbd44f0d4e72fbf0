//! The capture of the packets that arrive and leave.
ghost use Rattle.std.specs.Prelude.{◌≡◌, ◌≤◌, length, IfSome, Some};
ghost use Rattle.params.specs.declared.TheConstants.{IP_MAX_PACKET};
ghost use Rattle.request.specs.Replies.{packet_behind};
ghost use Rattle.play_script.specs.Captures.{Logs, after_ticks};

use play_pcap::Trace;
use script_loop::Sink;

/// A capture, and the number of the script's line whose packets are recorded.
pub struct Capture<T: Sink> {
    pub trace: Trace<T>,
    pub line: u64,
}

impl<T: Sink> Capture<T> {
    /// Records a packet, under the number of the current line.
    pub fn keep(&mut self, packet: &[u8])
        requires { length packet.now ≤ IP_MAX_PACKET }
        ensures line { self.new.line ≡ self.old.line }
        ensures logs { Logs self.old.line self.old.trace (Some packet.now) 0 self.new.trace }
    {
        self.trace.keep(self.line, packet);
    }

    /// Lets this many ticks pass.
    pub fn tick(&mut self, count: u32)
        ensures line { self.new.line ≡ self.old.line }
        ensures trace { self.new.trace ≡ after_ticks count self.old.trace }
    {
        let mut left = count;
        while left > 0 {
            self.trace.tick();
            left -= 1;
        }
    }

    /// Records a packet, if there is one.
    fn keep_moved(&mut self, moved: Option<&[u8]>)
        requires { IfSome moved (λ p. length p.now ≤ IP_MAX_PACKET) }
        ensures line { self.new.line ≡ self.old.line }
        ensures logs { Logs self.old.line self.old.trace (packet_behind moved.entry) 0 self.new.trace }
    {
        if let Some(packet) = moved {
            self.keep(packet);
        }
    }

    /// Records the packet that arrived or left, if there is one, and lets this many ticks pass.
    pub(crate) fn keep_action(&mut self, moved: Option<&[u8]>, ticks: u32)
        requires { IfSome moved (λ p. length p.now ≤ IP_MAX_PACKET) }
        ensures line { self.new.line ≡ self.old.line }
        ensures logs { Logs self.old.line self.old.trace (packet_behind moved.entry) ticks self.new.trace }
    {
        self.keep_moved(moved);
        self.tick(ticks);
    }
}
