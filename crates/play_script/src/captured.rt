//! A stack with the capture of its packets. A capture that is played gives its packets to the stack, and
//! the causes of drops are counted.
ghost use Rattle.std.specs.Prelude.{◌≡◌, replicate, vec_len};
ghost use Rattle.flat_model.specs.Machine.Event.{Done, Tick};
ghost use Rattle.params.specs.declared.TheConstants.{IP_MAX_PACKET};
ghost use Rattle.play_script.specs.Captures.{Captures};
ghost use Rattle.play_script.specs.Actions.{Does, turns_with};
ghost use Rattle.play_script.specs.Plays.{ComesTo, ReplayView, captured_of, replay_of};
ghost use Rattle.net_stack.specs.Stack.{state_of};
ghost use Rattle.stack_call.specs.Moves.{StackSteps};

use crate::action::tick_all;
use crate::capture_out::Capture;
use flat_model::Counters;
use net_stack::Stack;
use play_pcap::{RecordPlace, Trace, Wire};
use play_text::Table;
use script_loop::Sink;

/// A stack, and the capture of the packets that arrive and leave.
pub(crate) struct CapturedStack<T: Sink> {
    pub(crate) stack: Stack,
    pub(crate) capture: Capture<T>,
    /// The causes for which packets of the last played capture were dropped.
    pub(crate) causes: Table,
    /// A buffer for the bytes of a reply, or for those of a file that's read.
    pub(crate) buffer: Vec<u8>,
    ghost buffer_len: { vec_len buffer ≡ IP_MAX_PACKET },
}

impl<T: Sink> CapturedStack<T> {
    /// Lets this many ticks pass before the line.
    pub(crate) fn wait(&mut self, line: u64, ticks: u32)
        ensures does { Does StackSteps (state_of self.old.stack) (replicate ticks Tick) Done (state_of self.new.stack) }
        ensures captured { Captures line self.old.capture.trace (turns_with (replicate ticks Tick) Done)
            self.new.capture.trace }
    {
        tick_all(&mut self.stack, ticks);
        self.capture.line = line;
        self.capture.keep_action(None, ticks);
    }

    /// Frees the stack, and returns the capture.
    pub(crate) fn end(self) -> Trace<T>
        ensures { result ≡ self.capture.trace }
    {
        let CapturedStack {
            stack,
            capture,
            causes: _causes,
            buffer: _buffer,
        } = self;
        let _ = stack.end();
        let Capture { trace, line: _line } = capture;
        trace
    }
}

/// Returns the counters of a stack.
#[tactic(auto, unfolding(stack_call::specs::Moves::StackSteps))]
fn counted(stack: &Stack) -> Counters
    ensures { result ≡ (state_of stack.now).counters }
{
    stack.counters()
}

#[tactic(auto, unfolding(stack_call::specs::Moves::StackSteps))]
impl<T: Sink> Wire for CapturedStack<T> {
    ghost State = { ReplayView };

    ghost state = { λ s. replay_of (captured_of (state_of s.stack) s.capture.trace s.capture.line) s.causes };

    ghost may_go = { ComesTo StackSteps };

    fn rx(&mut self, place: RecordPlace, packet: &[u8]) {
        let before = counted(&self.stack);
        self.stack.rx(packet);
        self.capture.keep(packet);
        let after = counted(&self.stack);
        self.causes.count_record(place.number, &before, &after);
    }

    fn tick(&mut self) {
        self.stack.tick();
        self.capture.tick(1);
    }
}
