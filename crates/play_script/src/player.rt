//! The player of a script, line by line.
ghost use Rattle.std.specs.Prelude.{◌≡◌, ◌-◌, ◌≤◌, ◌++◌, List, length, vec_len, ℕ};
ghost use Rattle.flat_model.specs.Scripts.Grammar.{words};
ghost use Rattle.params.specs.declared.TheConstants.{IP_MAX_PACKET};
ghost use Rattle.play_script.specs.Lines.{reading_part};
ghost use Rattle.play_script.specs.Reports.{IsWaited, Play, Reports, ReportsAsked, ReportsReading, ReportsSettings, is_done};
ghost use Rattle.play_script.specs.Views.{expected_on, plain_line};
ghost use Rattle.stack_call.specs.Moves.{StackSteps};

use crate::captured::CapturedStack;
use crate::execute::{Executed, execute_line};
use crate::line::{Kind, Line, read_part, shift_column};
use crate::print::OUTPUT;
use crate::printer::{Printer, both};
use crate::replay::Files;
use crate::report::{Report, bytes_of};
use crate::settle::settled;
use flat_model::Config;
use play_forms::Player as Advised;
use play_line::{Timed, read_time};
use play_packet::LineReader;
use play_pcap::{Folder, Trace};
use script_loop::{Answers, Buffer, HELD, Sink};
use std::mem;

/// The player of a script.
pub(crate) struct Player<T: Sink, F> {
    pub(crate) files: Files<F>,
    /// The machine, with the capture of the packets that arrive and leave.
    pub(crate) captured: CapturedStack<T>,
    /// The configuration of the machine.
    pub(crate) config: Config,
    /// Whether settings are still accepted.
    pub(crate) head: bool,
    pub(crate) reader: LineReader,
    pub(crate) line: Line,
    /// A buffer for the bytes in a line.
    pub(crate) bytes: Vec<u8>,
    pub(crate) report: Report,
    pub(crate) printer: Printer,
    ghost bytes_len: { vec_len bytes ≡ IP_MAX_PACKET },
}

/// Returns whether the line didn't fail, or had an expectation.
fn is_done(line: &Line, failed: bool) -> bool
    ensures { result ≡ is_done (expected_on line.now) failed }
{
    line.expects || !failed
}

impl<T: Sink, F: Folder> Player<T, F> {
    ghost use Rattle.play_script.specs.Players.{play_now};

    /// Frees the player and its machine, and returns the capture.
    pub(crate) fn end(self) -> Trace<T>
        ensures { result ≡ self.captured.capture.trace }
    {
        let Player {
            files,
            captured,
            config: _config,
            head: _head,
            reader,
            line,
            bytes,
            report,
            printer,
        } = self;
        drop((files, reader, line, bytes, report, printer));
        captured.end()
    }

    /// Lets this many ticks pass before the line. After any tick, settings are no longer accepted.
    fn wait(&mut self, ticks: u32)
        ensures waited { IsWaited StackSteps ticks (play_now self.old) (play_now self.new) }
        ensures line { self.new.line ≡ self.old.line }
    {
        self.captured.wait(self.printer.number, ticks);
        self.head = both(self.head, ticks == 0);
    }

    /// Boots a new machine with the settings of the line, and prints `ok` or what is wrong with them.
    fn set_up(&mut self, text: &mut Buffer<OUTPUT>)
        requires { length text.old ≤ HELD }
        ensures { (added : List ℕ)
            × ReportsSettings (play_now self.old) self.old.line.shown (words self.old.line.words)
            (expected_on self.old.line) added (play_now self.new)
            × (text.new ≡ text.old ++ added) }
    {
        let outcome = settled(
            self.files.alloc,
            self.head,
            self.config,
            bytes_of(&self.line.words),
        );
        match outcome {
            Ok((stack, config)) => {
                let _ = mem::replace(&mut self.captured.stack, stack).end();
                self.config = config;
                self.report.set_ok();
                self.printer.put_reply_line(text, &self.line, &self.report);
            }
            Err(fault) => {
                self.printer.put_fault(text, fault.words().as_bytes());
                self.printer.note_lack(fault.is_lack());
            }
        }
    }

    /// Executes the line, and prints its reply.
    fn ask(&mut self, text: &mut Buffer<OUTPUT>)
        requires { length text.old ≤ HELD }
        ensures { (added : List ℕ)
            × ReportsAsked StackSteps F.may_have (play_now self.old) self.old.line.shown (plain_line self.old.line)
            (expected_on self.old.line) added (play_now self.new)
            × (text.new ≡ text.old ++ added) }
    {
        self.captured.capture.line = self.printer.number;
        self.report.quiet = self.printer.form.is_quiet();
        match execute_line(
            &mut self.captured,
            &self.files,
            &self.line,
            self.bytes.as_mut_slice(),
            &mut self.report,
        ) {
            Executed::Nothing => {
                self.report.set_advice(Advised::Machine, &mut self.line);
                self.printer.put_fault(text, bytes_of(&self.report.advice));
            }
            Executed::Settings => self.set_up(text),
            Executed::Done { stays, failed } => {
                self.printer.put_reply_line(text, &self.line, &self.report);
                let done = is_done(&self.line, failed);
                let sound = both(self.printer.sound, done);
                self.printer.sound = sound;
                let head = both(self.head, stays);
                self.head = head;
            }
        }
    }
}

impl<T: Sink, F: Folder> Player<T, F> {
    ghost use Rattle.play_script.specs.Players.{play_now};

    /// Executes a line with its time.
    fn execute_timed(&mut self, line: &[u8], timed: Timed<'_>, text: &mut Buffer<OUTPUT>)
        requires held { length text.old ≤ HELD }
        requires part { length timed.part.now ≤ length line.now }
        ensures { (added : List ℕ)
            × ReportsReading StackSteps F.may_have (play_now self.old) timed.entry.ticks
            (length line.now - length timed.entry.part.now) (reading_part line.now timed.entry.part.now) added
            (play_now self.new)
            × (text.new ≡ text.old ++ added) }
    {
        match read_part(line, timed.part, &mut self.reader, &mut self.line) {
            Kind::Nothing => {}
            Kind::TooLong => self.printer.put_too_long(text),
            Kind::Faulty(error) => {
                let before = (line.len() - timed.part.len()) as u64;
                self.printer.put_error(text, shift_column(error, before));
            }
            Kind::Asks => {
                self.wait(timed.ticks);
                self.ask(text);
            }
        }
    }
}

impl<T: Sink, F: Folder> Answers<OUTPUT> for Player<T, F> {
    ghost use Rattle.play_script.specs.Players.{play_now};

    ghost State = { Play };

    ghost state = { λ p. play_now p };

    ghost may_answer = { Reports StackSteps F.may_have };

    fn answer(&mut self, line: &[u8], text: &mut Buffer<OUTPUT>) {
        self.printer.next_line(line);
        match read_time(line) {
            Ok(timed) => self.execute_timed(line, timed, text),
            Err(error) => self.printer.put_error(text, error),
        }
    }
}
