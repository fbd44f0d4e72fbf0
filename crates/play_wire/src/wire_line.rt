//! The lines of the wire.
ghost use Rattle.std.specs.Prelude.{◌≡◌, ◌++◌, List, [], Some, codes};
ghost use Rattle.flat_model.specs.Amounts.Choice.{Choice};
ghost use Rattle.segment.specs.Inside.{view};
ghost use Rattle.segment.specs.Law.{Act, AreActs};
ghost use Rattle.play_wire.specs.Acts.{AreLedTo, Replied, Refused};
ghost use Rattle.play_wire.specs.Inside.{outcome_of, wire_asked};
ghost use Rattle.play_wire.specs.Reports.{DoesLine, DoesWire, IsWaited, ReportsHalf, ReportsLeft, added_by, left_text};
ghost use Rattle.play_wire.specs.declared.fault.Fault.TheVariants as fault;

use crate::add::add;
use crate::carries::{Bound, bring, carry, send};
use crate::fault::Fault;
use crate::hosts::Hosts;
use crate::passed::{add_all, take_counts};
use crate::show::report_wire;
use crate::summary::report_summary;
use crate::ticks::tick_all;
use crate::wire_ask::{WireAsk, wire_ask_of};
use play_script::{REPLY_LINE, Report, bytes_of};
use script_loop::{Buffer, Sink};
use segment::Segment;

/// Writes what is left on the wire into a buffer.
fn report_left(reply_line: &mut Buffer<REPLY_LINE>, segment: &Segment)
    ensures { reply_line.new ≡ left_text (view segment.now) }
{
    reply_line.clear();
    if segment.is_quiet() {
        reply_line.append(b"quiet");
        return;
    }
    let mut digits = itoa::Buffer::new();
    reply_line.append(b"left ");
    reply_line.append(digits.format(segment.flight_len() as u64).as_bytes());
    reply_line.append(b" under way");
}

/// Reports `ok` if all packets exist, and there was space for a copy.
fn report_there(there: bool, report: &mut Report) -> Result<(), Fault>
    ensures { Choice there (outcome_of result report.new.reply_line report.new.below ≡ Replied (codes "ok") [])
        (outcome_of result report.new.reply_line report.new.below ≡ Refused fault.NoPacket) }
{
    if !there {
        return Err(Fault::NoPacket);
    }
    report.set_ok();
    Ok(())
}

impl<T: Sink + Drop> Hosts<T> {
    /// Lets this many ticks pass at each host.
    fn tick(&mut self, count: u32)
        ensures moves { AreLedTo (view self.old.segment) (view self.new.segment) }
        ensures names { self.new.names ≡ self.old.names }
    {
        tick_all(&mut self.segment, &mut self.spare.counting.stack, count);
        self.capture.tick(count);
    }

    /// Lets this many ticks pass at each host before a line.
    pub(crate) fn wait(&mut self, ticks: u32)
        ensures waited { (acts : List Act) × IsWaited ticks (view self.old.segment) acts (view self.new.segment) }
        ensures names { self.new.names ≡ self.old.names }
    {
        if ticks == 0 {
            return;
        }
        self.tick(ticks);
    }

    /// Carries this often, and reports what happened to each packet, unless the report is quiet.
    fn pass(&mut self, bound: Bound, report: &mut Report)
        ensures moves { AreLedTo (view self.old.segment) (view self.new.segment) }
        ensures names { self.new.names ≡ self.old.names }
    {
        let names = self.names.as_slice();
        take_counts(
            &mut self.segment,
            &mut self.spare.counting.stack,
            self.counts.as_mut_slice(),
        );
        carry(
            &mut self.segment,
            bound,
            &mut self.capture,
            names,
            &mut self.log,
        );
        self.log.report_left(&self.segment, names);
        add_all(
            &mut self.log,
            &mut self.segment,
            &mut self.spare.counting,
            names,
            self.counts.as_slice(),
        );
        add(&mut report.below, bytes_of(&self.log.text));
    }

    /// `carry ..`: carries what waits for the links, and reports what is left.
    fn carry(&mut self, bound: Bound, report: &mut Report) -> Result<(), Fault>
        ensures carries { (acts : List Act) × AreActs (view self.old.segment) acts (view self.new.segment)
            × ReportsLeft acts (outcome_of result report.new.reply_line report.new.below) (view self.new.segment) }
        ensures names { self.new.names ≡ self.old.names }
    {
        if !self.wired {
            return Err(Fault::NoWire);
        }
        report.below.clear();
        self.pass(bound, report);
        report_left(&mut report.reply_line, &self.segment);
        Ok(())
    }

    /// `collect`: sends what waits for the links onto the wire.
    fn collect(&mut self, report: &mut Report) -> Result<(), Fault>
        ensures collects { (acts : List Act) × AreActs (view self.old.segment) acts (view self.new.segment)
            × ReportsHalf acts (outcome_of result report.new.reply_line report.new.below) }
        ensures names { self.new.names ≡ self.old.names }
    {
        if !self.wired {
            return Err(Fault::NoWire);
        }
        let names = self.names.as_slice();
        send(&mut self.segment, &mut self.capture, names, &mut self.log);
        self.log.report_left(&self.segment, names);
        report.set_ok();
        Ok(())
    }

    /// `deliver`: delivers what is due.
    fn deliver(&mut self, report: &mut Report) -> Result<(), Fault>
        ensures delivers { (acts : List Act) × AreActs (view self.old.segment) acts (view self.new.segment)
            × ReportsHalf acts (outcome_of result report.new.reply_line report.new.below) }
        ensures names { self.new.names ≡ self.old.names }
    {
        if !self.wired {
            return Err(Fault::NoWire);
        }
        let names = self.names.as_slice();
        bring(&mut self.segment, names, &mut self.log);
        self.log.report_left(&self.segment, names);
        report.set_ok();
        Ok(())
    }

    /// `show wire`: reports what is in flight.
    fn show_wire(&self, report: &mut Report) {
        report.reply_line.clear();
        report.below.clear();
        report_wire(
            &self.segment,
            self.names.as_slice(),
            &mut report.reply_line,
            &mut report.below,
        );
    }

    /// `summary`: reports the counters of each host.
    fn summary(&mut self, report: &mut Report)
        ensures moves { AreLedTo (view self.old.segment) (view self.new.segment) }
        ensures names { self.new.names ≡ self.old.names }
    {
        report.set_ok();
        report_summary(
            &mut self.segment,
            &mut self.spare.counting.stack,
            self.names.as_slice(),
            &mut report.below,
        );
    }

    /// Executes a request to the wire, and reports its reply.
    fn execute_ask(&mut self, ask: WireAsk<'_>, report: &mut Report) -> Result<(), Fault>
        ensures does { (acts : List Act) × AreActs (view self.old.segment) acts (view self.new.segment)
            × DoesWire (wire_asked ask.entry) (view self.old.segment) acts
            (outcome_of result report.new.reply_line report.new.below) (view self.new.segment) }
        ensures names { self.new.names.items ≡ self.old.names.items ++ added_by (Some (wire_asked ask.entry))
            (outcome_of result report.new.reply_line report.new.below) }
    {
        match ask {
            WireAsk::Host(name, words) => {
                report.set_ok();
                self.add(name, words)
            }
            WireAsk::Wire(names) => {
                report.set_ok();
                self.wire(names)
            }
            WireAsk::Carry(bound) => self.carry(bound, report),
            WireAsk::Collect => self.collect(report),
            WireAsk::Deliver => self.deliver(report),
            WireAsk::Tick(count) => {
                self.tick(count);
                report.set_ok();
                Ok(())
            }
            WireAsk::Seed(seed) => {
                self.segment.seed(seed);
                report.set_ok();
                Ok(())
            }
            WireAsk::Drop(at) => report_there(self.segment.lose(at), report),
            WireAsk::Repeat(at) => report_there(self.segment.repeat(at), report),
            WireAsk::Swap(at, other) => report_there(self.segment.swap(at, other), report),
            WireAsk::Impair(kind, words) => {
                report.set_ok();
                self.impair(kind, words)
            }
            WireAsk::Show => {
                self.show_wire(report);
                Ok(())
            }
            WireAsk::Summary => {
                self.summary(report);
                Ok(())
            }
        }
    }

    /// Executes a plain line that names no host, and reports its reply.
    pub(crate) fn execute_wire(&mut self, plain: &[u8], report: &mut Report) -> Result<(), Fault>
        ensures { (acts : List Act) × AreActs (view self.old.segment) acts (view self.new.segment)
            × DoesLine plain.now (view self.old.segment) acts (outcome_of result report.new.reply_line report.new.below)
            (view self.new.segment) self.old.names.items self.new.names.items }
    {
        match wire_ask_of(plain) {
            Some(ask) => self.execute_ask(ask, report),
            None => Err(Fault::Nothing),
        }
    }
}
