//! The player of a script of many machines, line by line.
ghost use Rattle.std.specs.Prelude.{◌≡◌, ◌-◌, ◌≤◌, ◌++◌, [], IfSome, List, Option, Some, false, length, slice_get, ℕ};
ghost use Rattle.segment.specs.Inside.{view};
ghost use Rattle.segment.specs.Law.{Act};
ghost use Rattle.play_text.specs.Forms.{is_json};
ghost use Rattle.play_script.specs.Views.{expected_on, plain_line};
ghost use Rattle.play_script.specs.Lines.{reading_part};
ghost use Rattle.play_wire.specs.Inside.{outcome_of, named_by};
ghost use Rattle.play_wire.specs.Players.{wire_now};
ghost use Rattle.play_wire.specs.Reports.{WirePlay, has_objects, moves_packets, IsDone, IsParted, IsReason, Reports, ReportsAsked, ReportsPart};

use crate::fault::Fault;
use crate::host_line::execute_host;
use crate::hosts::Hosts;
use crate::log::Log;
use crate::names::place_of;
use crate::target::Target;
use play_forms::Player as Advised;
use play_line::{Timed, read_time};
use play_packet::LineReader;
use play_script::{Form, Kind, Line, OUTPUT, Printer, Report, bytes_of, read_part, shift_column};
use script_loop::{Answers, Buffer, HELD, Sink};

/// The player of a script.
pub(crate) struct Player<T: Sink + Drop> {
    pub(crate) hosts: Hosts<T>,
    pub(crate) reader: LineReader,
    pub(crate) target: Target,
    pub(crate) line: Line,
    pub(crate) report: Report,
    pub(crate) printer: Printer,
}

/// Returns the place of the host that a line names.
fn place_for<T: Sink + Drop>(hosts: &Hosts<T>, target: &Target) -> Option<usize>
    ensures { IfSome result (λ place. slice_get hosts.now.names.items place ≡ Some target.now.host) }
{
    place_of(hosts.names.as_slice(), target.host.as_slice())
}

/// Executes a line, and reports its reply.
fn execute_words<T: Sink + Drop>(
    hosts: &mut Hosts<T>,
    target: &Target,
    line: &Line,
    report: &mut Report,
) -> Result<(), Fault>
    ensures { (play : WirePlay) → play.segment ≡ view hosts.old.segment → play.names ≡ hosts.old.names.items
        → (acts : List Act) × IsDone play (named_by target.now) (plain_line line.now) acts
        (outcome_of result report.new.reply_line report.new.below) (view hosts.new.segment) hosts.new.names.items }
{
    if target.named {
        match place_for(hosts, target) {
            Some(place) => execute_host(&mut hosts.segment, &mut hosts.spare, place, line, report),
            None => Err(Fault::NoHost),
        }
    } else if line.named {
        Err(Fault::Nothing)
    } else {
        hosts.execute_wire(bytes_of(&line.words), report)
    }
}

/// Reports why a line did nothing; for a line without a request, what its author probably meant.
fn report_reason(report: &mut Report, target: &Target, line: &mut Line, fault: Fault)
    ensures { IsReason fault report.new.advice }
{
    let player = if target.named {
        Advised::Host
    } else {
        Advised::Wire
    };
    match fault {
        Fault::Nothing => report.set_advice(player, line),
        _ => {
            report.advice.clear();
            report.advice.append(fault.words().as_bytes());
        }
    }
}

/// Returns whether it's a form for programs.
fn is_json(form: Form) -> bool
    ensures { result ≡ is_json form }
{
    matches!(form, Form::Json)
}

/// Returns whether a line moves packets.
fn moves_packets(plain: &[u8]) -> bool
    ensures { result ≡ moves_packets plain.now }
{
    plain.starts_with(b"carry") || plain == b"collect".as_slice() || plain == b"deliver".as_slice()
}

/// Returns whether JSON objects are printed after that of a line.
fn has_objects(form: Form, target: &Target, line: &Line) -> bool
    ensures { result ≡ has_objects form (named_by target.now) (plain_line line.now) }
{
    if target.named {
        return false;
    }
    if line.named {
        return false;
    }
    let (json, moves) = (is_json(form), moves_packets(bytes_of(&line.words)));
    json && moves
}

/// Returns the objects that are printed after that of a line.
fn objects_of<'a>(form: Form, target: &Target, line: &Line, log: &'a Log) -> &'a [u8]
    ensures { has_objects form (named_by target.now) (plain_line line.now) ≡ false → result.now ≡ [] }
{
    if has_objects(form, target, line) {
        bytes_of(&log.objects)
    } else {
        &[]
    }
}

/// Appends bytes, if there is space for them.
fn put_fitting(text: &mut Buffer<OUTPUT>, bytes: &[u8])
    ensures { (added : List ℕ) × (bytes.now ≡ [] → added ≡ []) × (text.new ≡ text.old ++ added) }
{
    let fits = bytes.len() <= OUTPUT - text.len();
    if fits {
        text.append(bytes);
    }
}

impl<T: Sink + Drop> Player<T> {
    /// Executes the line, and prints its reply.
    fn ask(&mut self, text: &mut Buffer<OUTPUT>)
        requires { length text.old ≤ HELD }
        ensures { (acts : List Act) × (added : List ℕ)
            × ReportsAsked (wire_now self.old) (named_by self.old.target) self.old.line.shown
            (plain_line self.old.line) (expected_on self.old.line) acts added (wire_now self.new)
            × (text.new ≡ text.old ++ added) }
    {
        self.report.quiet = self.printer.form.is_quiet();
        match execute_words(&mut self.hosts, &self.target, &self.line, &mut self.report) {
            Ok(()) => {
                let log = &self.hosts.log;
                let objects = objects_of(self.printer.form, &self.target, &self.line, log);
                self.printer.put_reply_line(text, &self.line, &self.report);
                put_fitting(text, objects);
            }
            Err(fault) => {
                report_reason(&mut self.report, &self.target, &mut self.line, fault);
                self.printer.put_fault(text, bytes_of(&self.report.advice));
                self.printer.note_lack(fault.is_lack());
            }
        }
    }

    /// Executes a line with its time.
    fn execute_timed(&mut self, line: &[u8], timed: Timed<'_>, text: &mut Buffer<OUTPUT>)
        requires held { length text.old ≤ HELD }
        requires part { length timed.part.now ≤ length line.now }
        ensures { (acts : List Act) × (added : List ℕ) × (host : Option (List ℕ)) × (part : List ℕ)
            × IsParted timed.entry.part.now host part
            × ReportsPart (wire_now self.old) host timed.entry.ticks (length line.now - length part)
            (reading_part line.now part) acts added (wire_now self.new)
            × (text.new ≡ text.old ++ added) }
    {
        let part = self.target.take(timed.part);
        match read_part(line, part, &mut self.reader, &mut self.line) {
            Kind::Nothing => {}
            Kind::TooLong => self.printer.put_too_long(text),
            Kind::Faulty(error) => {
                let before = (line.len() - part.len()) as u64;
                self.printer.put_error(text, shift_column(error, before));
            }
            Kind::Asks => {
                self.hosts.wait(timed.ticks);
                self.ask(text);
            }
        }
    }

    /// Consumes the player with its hosts. Returns whether the whole capture was written.
    pub(crate) fn end(self) -> bool {
        let Player {
            hosts,
            reader,
            target,
            line,
            report,
            printer,
        } = self;
        drop((reader, target, line, report, printer));
        hosts.end()
    }
}

impl<T: Sink + Drop> Answers<OUTPUT> for Player<T> {
    ghost State = { WirePlay };

    ghost state = { λ p. wire_now p };

    ghost may_answer = { Reports };

    fn answer(&mut self, line: &[u8], text: &mut Buffer<OUTPUT>) {
        self.printer.next_line(line);
        self.hosts.capture.line = self.printer.number;
        let (number, form) = (self.printer.number, self.printer.form);
        self.hosts.log.set_line(number, form);
        match read_time(line) {
            Ok(timed) => self.execute_timed(line, timed, text),
            Err(error) => self.printer.put_error(text, error),
        }
    }
}
