ghost use Rattle.std.specs.Prelude.{◌≤◌, length};
ghost use Rattle.params.specs.declared.TheConstants.{IP_MAX_PACKET};
ghost use Rattle.play_pcap.specs.Acts.{Act, Arrives, Passes};

/// The record of a packet in a capture.
#[derive(Clone, Copy, Debug, PartialEq, Eq)]
pub struct RecordPlace {
    /// The record's number, from 1, as in Wireshark.
    pub number: u64,
    /// Nanoseconds since the capture's first record; 0 if the record's time is earlier.
    pub time: u64,
}

/// Receives packets, one after another, and ticks of the clock.
pub trait Wire {
    /// The type of its state in contracts.
    ghost State: { Type 0 };

    /// Its state in contracts.
    ghost state: { Self → Self.State };

    /// From a state, a packet that arrives or a tick may lead to that state.
    ghost may_go: { Self.State → Act → Self.State → Type 0 };

    /// Receives the packet of a record.
    fn rx(&mut self, place: RecordPlace, packet: &[u8])
        requires { length packet.now ≤ IP_MAX_PACKET }
        ensures { may_go (state self.old) (Arrives place packet.now) (state self.new) };

    /// Half a second passes.
    fn tick(&mut self)
        ensures { may_go (state self.old) Passes (state self.new) };
}
