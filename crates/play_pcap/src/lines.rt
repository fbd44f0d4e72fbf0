//! A capture as a script.
ghost use Rattle.std.specs.Prelude.{◌≡◌, ◌+◌, ◌≤◌, ◌++◌, Bool, true, List, ℕ, Option, length};
ghost use Rattle.play_pcap.specs.Traces.{SentAfter, act_lines, place_line};

use crate::trace::send;
use crate::wire::{RecordPlace, Wire};
use play_text::Piece::{Long, Text};
use play_text::{put, put_time};
use script_loop::{Buffer, LineBuffers, Sink, put_hex};
use std::marker::Model;

/// The size of a buffer for the longest line and the comment before it.
pub const LINE: usize = 131_200;

/// Writes events as lines of a script: for a packet that arrives, a comment with the number and the time of its record,
/// and then `rx` with its bytes; for a tick, `tick`. It must be consumed by `end`.
pub struct Lines<W: Sink> {
    sink: W,
    text: Buffer<LINE>,
    buffers: LineBuffers,
    whole: bool,
}

impl<W: Sink> Model for Lines<W> {
    ghost use Rattle.std.specs.Prelude.{Bool, List, ℕ, Option};

    ghost Value = { Bool × Option (List ℕ) };

    ghost view = { λ l. (l.whole, W.contents l.sink) };
}

impl<W: Sink> Lines<W> {
    /// Begins a script, of no line so far.
    pub fn begin(sink: W, text: Buffer<LINE>, buffers: LineBuffers) -> Lines<W>
        ensures { result ≡ (true, W.contents sink) }
    {
        Lines {
            sink,
            text,
            buffers,
            whole: true,
        }
    }

    /// Ends the script, and returns the writer and whether all lines were written.
    pub fn end(self) -> (W, bool)
        ensures { (result.1 ≡ self.0) × (W.contents result.0 ≡ self.1) }
    {
        let Lines {
            sink,
            text: _text,
            buffers: _buffers,
            whole,
        } = self;
        (sink, whole)
    }
}

/// Appends a comment that says which record a packet is from.
fn put_place(text: &mut Buffer<LINE>, place: RecordPlace)
    requires { length text.old + 64 ≤ LINE }
    ensures items { text.new ≡ text.old ++ place_line place }
    ensures len { length text.new ≤ length text.old + 64 }
{
    put(text, &[Text(b"# record "), Long(place.number), Text(b", ")]);
    put_time(text, place.time);
    text.append(b" s\n");
}

impl<W: Sink> Wire for Lines<W> {
    ghost State = { Bool × Option (List ℕ) };

    ghost state = { λ l. l };

    ghost may_go = { λ old act new. SentAfter old.0 new.0 old.1 new.1 (act_lines act) };

    fn rx(&mut self, place: RecordPlace, packet: &[u8]) {
        if !self.whole {
            return;
        }
        self.text.clear();
        put_place(&mut self.text, place);
        self.text.append(b"rx ");
        put_hex(&mut self.text, self.buffers.digits.as_mut_slice(), packet);
        self.text.append(b"\n");
        self.whole = send(&mut self.sink, self.text.as_slice());
    }

    fn tick(&mut self) {
        if !self.whole {
            return;
        }
        self.whole = send(&mut self.sink, b"tick\n");
    }
}
