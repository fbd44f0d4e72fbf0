//! Hand-ins that are graded, by a key or by what they expect themselves.
use crate::difference::put_difference;
use crate::hand_in::{REFUSED, load, play_quietly, unmarked};
use crate::messages::{Shown, fail, fail_on};
use crate::screen::Screen;
use crate::sweep::first_fault;
use crate::{UNREAD, USAGE};
use clap::ArgMatches;
use csv::Writer;
use play_grade::{Marker, Marks, Verdict, first_line};
use play_script::{Form, Played, RunFault};
use std::io::{self, Write};

/// The status if a hand-in doesn't pass, or the key itself doesn't.
const FAILED: u8 = 1;

/// The status if there is no memory to play a hand-in or a key.
const NO_MEMORY: u8 = 3;

/// The report on a hand-in.
#[derive(Clone, Copy)]
struct Report<'a> {
    name: &'a str,
    /// `passed`, `failed`, `empty` or `unread`.
    word: &'static str,
    marks: Option<Marks>,
    /// The first fault, if there is one.
    note: &'a [u8],
}

/// Returns a verdict in one word.
fn word_of(verdict: &Verdict) -> &'static str {
    if verdict.is_passed() {
        "passed"
    } else if verdict.marks.right == 0 && verdict.marks.wrong == 0 {
        "empty"
    } else {
        "failed"
    }
}

/// Prints a report as a line of text.
fn print_line(out: &mut impl Write, report: &Report<'_>) -> io::Result<()> {
    write!(out, "{}: {}", Shown(report.name), report.word)?;
    if let Some(marks) = report.marks {
        write!(
            out,
            ", {} right, {} wrong, {} missing",
            marks.right, marks.wrong, marks.missing
        )?;
        if let Some(first) = marks.first {
            write!(out, ", first at line {first} of the key")?;
        }
    }
    if !report.note.is_empty() {
        out.write_all(b"; ")?;
        out.write_all(report.note)?;
    }
    writeln!(out)
}

/// The names of the fields.
const HEAD: [&[u8]; 7] = [
    b"file", b"verdict", b"right", b"wrong", b"missing", b"first", b"note",
];

/// Writes a number as a field; an empty field for `None`.
fn write_number<W: Write + Drop>(
    table: &mut Writer<W>,
    number: Option<u64>,
) -> Result<(), csv::Error> {
    let mut digits = itoa::Buffer::new();
    match number {
        Some(number) => table.write_field(digits.format(number).as_bytes()),
        None => table.write_field(b""),
    }
}

/// Returns the numbers of a record.
fn numbers_of(marks: Option<Marks>) -> [Option<u64>; 4] {
    match marks {
        Some(marks) => [
            Some(marks.right),
            Some(marks.wrong),
            Some(marks.missing),
            marks.first,
        ],
        None => [None; 4],
    }
}

/// Writes a report as a record.
fn write_record<W: Write + Drop>(
    table: &mut Writer<W>,
    report: &Report<'_>,
) -> Result<(), csv::Error> {
    table.write_field(report.name.as_bytes())?;
    table.write_field(report.word.as_bytes())?;
    for number in numbers_of(report.marks) {
        write_number(table, number)?;
    }
    table.write_field(report.note)?;
    table.end_record()
}

/// Where reports go.
#[derive(Drop)]
enum Reports<W: Write + Drop> {
    Lines(W),
    Table(Writer<W>),
}

impl<W: Write + Drop> Reports<W> {
    /// Adds a report. Whether it was written.
    fn add(&mut self, report: &Report<'_>) -> bool {
        match self {
            Reports::Lines(out) => print_line(out, report).is_ok(),
            Reports::Table(table) => write_record(table, report).is_ok() && table.flush().is_ok(),
        }
    }
}

/// The grader of hand-ins.
#[derive(Drop)]
struct Grader {
    marker: Marker,
    /// The output of a script.
    written: Vec<u8>,
}

impl Grader {
    /// Takes its memory.
    fn new(rt: &HostRuntime) -> io::Result<Grader> {
        Ok(Grader {
            marker: Marker::new(rt.alloc())?,
            written: Vec::new(rt.alloc()),
        })
    }

    /// Plays a hand-in and marks it by the key, if there is one.
    fn grade(
        &mut self,
        rt: &HostRuntime,
        key: Option<&[u8]>,
        name: &str,
        script: &[u8],
    ) -> Verdict {
        self.written.clear();
        let played = play_quietly(rt, script, name, &mut self.written);
        let marks = match key {
            Some(key) => self.marker.marks_by(key, script),
            None => self.marker.own_marks(script),
        };
        Verdict { played, marks }
    }
}

/// Writes why a key doesn't pass.
fn put_key_fault(
    out: &mut impl Write,
    name: &str,
    verdict: &Verdict,
    written: &[u8],
) -> io::Result<()> {
    let shown = Shown(name);
    if let Err(fault) = verdict.played.outcome {
        writeln!(out, "bsdplay: {shown}: {fault}")
    } else if !verdict.played.sound {
        out.write_all(first_fault(written, name.as_bytes()))?;
        writeln!(out)
    } else if let Some(first) = verdict.marks.first {
        writeln!(
            out,
            "{shown}:{first}: missing expected reply, or missing answer to a question"
        )
    } else {
        writeln!(out, "{shown}: it expects no reply")
    }
}

/// Whether host memory was refused while a script was played: to the player, or to a machine of its settings. Then its
/// replies aren't marked.
fn lacks_memory(played: &Played) -> bool {
    played.lacks || matches!(played.outcome, Err(RunFault::Memory))
}

/// Returns the status if a key doesn't pass itself, after saying why. `None`: it passes.
fn refused_key(
    rt: &HostRuntime,
    grader: &mut Grader,
    name: &str,
    key: &[u8],
) -> io::Result<Option<u8>> {
    let verdict = grader.grade(rt, None, name, key);
    if verdict.is_passed() {
        return Ok(None);
    }
    if lacks_memory(&verdict.played) {
        let status = fail_on(rt, name, "no memory: no hand-in was graded", NO_MEMORY)?;
        return Ok(Some(status));
    }
    let mut screen = Screen::over(rt.stderr(), Form::Plain, false);
    put_key_fault(&mut screen, name, &verdict, grader.written.as_slice())?;
    let text = "the key itself fails: no hand-in was graded";
    let status = fail_on(rt, name, text, FAILED)?;
    Ok(Some(status))
}

/// Says that a report can't be written, and returns the status.
fn report_unwritten(rt: &HostRuntime) -> io::Result<u8> {
    fail(rt, "write failed: some grades are missing", UNREAD)
}

/// Says that a hand-in isn't graded, and returns the status.
fn report_refused(rt: &HostRuntime, name: &str) -> io::Result<Option<u8>> {
    let status = fail_on(rt, name, "no memory: not graded", NO_MEMORY)?;
    Ok(Some(status))
}

/// Returns why the first answer that isn't right is wrong although each expected reply comes: it's one to a question,
/// or a reply without some words of the key.
fn reason_of(key: Option<&[u8]>, marks: Marks) -> &'static [u8] {
    let (Some(key), Some(first)) = (key, marks.first) else {
        return b"";
    };
    if marks.wrong == 0 || marks.missing != 0 {
        return b"";
    }
    let mut left = key;
    for _ in 1..first {
        match first_line(left) {
            (_, Some(more)) => left = more,
            (_, None) => break,
        }
    }
    if left.starts_with(b"#?") {
        b"the answer differs from the key's"
    } else {
        b"it matches the reply, but omits words that the key requires"
    }
}

/// Grades a hand-in, prints the report, and returns its status. `None`: the report can't be written.
fn grade_file<W: Write + Drop>(
    rt: &HostRuntime,
    grader: &mut Grader,
    key: Option<&[u8]>,
    reports: &mut Reports<W>,
    name: &str,
) -> io::Result<Option<u8>> {
    let file = match load(rt, name) {
        Ok(file) => file,
        Err(why) => {
            if why.as_bytes() == REFUSED.as_bytes() {
                return report_refused(rt, name);
            }
            let report = Report {
                name,
                word: "unread",
                marks: None,
                note: why.as_bytes(),
            };
            return Ok(if reports.add(&report) {
                Some(UNREAD)
            } else {
                None
            });
        }
    };
    let verdict = grader.grade(rt, key, name, unmarked(file.as_slice()));
    if lacks_memory(&verdict.played) {
        return report_refused(rt, name);
    }
    let fault = first_fault(grader.written.as_slice(), name.as_bytes());
    let mut note = Vec::new(rt.alloc());
    note.extend_from_slice(fault)?;
    put_difference(&mut note, fault)?;
    if fault.is_empty() {
        note.extend_from_slice(reason_of(key, verdict.marks))?;
    }
    let report = Report {
        name,
        word: word_of(&verdict),
        marks: Some(verdict.marks),
        note: note.as_slice(),
    };
    Ok(if !reports.add(&report) {
        None
    } else if verdict.is_passed() {
        Some(0)
    } else {
        Some(FAILED)
    })
}

/// Grades all hand-ins, and returns the greatest status.
fn grade_all<W: Write + Drop>(
    rt: &HostRuntime,
    grader: &mut Grader,
    key: Option<&[u8]>,
    reports: &mut Reports<W>,
    found: &ArgMatches<'_>,
) -> io::Result<u8> {
    let Some(names) = found.get_strs("FILE") else {
        return fail(rt, "--grade needs FILE, the hand-ins", USAGE);
    };
    let (mut worst, mut all, mut passed) = (0, 0u64, 0u64);
    for name in names {
        let Some(status) = grade_file(rt, grader, key, reports, name)? else {
            return report_unwritten(rt);
        };
        if status != NO_MEMORY {
            all = all.saturating_add(1);
        }
        if status == 0 {
            passed = passed.saturating_add(1);
        }
        if status > worst {
            worst = status;
        }
    }
    eprintln!(rt; "bsdplay: {passed} of {all} hand-ins pass")?;
    Ok(worst)
}

/// Grades by this key, after it has passed itself, or by the hand-ins' own expectations.
fn grade_with(
    rt: &HostRuntime,
    grader: &mut Grader,
    key: Option<(&str, &[u8])>,
    found: &ArgMatches<'_>,
) -> io::Result<u8> {
    if let Some((name, key)) = key {
        if let Some(status) = refused_key(rt, grader, name, key)? {
            return Ok(status);
        }
    }
    let key = key.map(|(_, key)| key);
    if !found.get_flag("csv") {
        let screen = Screen::over(rt.stdout(), Form::Plain, false);
        let mut reports = Reports::Lines(screen);
        return grade_all(rt, grader, key, &mut reports, found);
    }
    let screen = Screen::over(rt.stdout(), Form::Plain, false);
    let mut table = Writer::from_writer(screen);
    if table.write_fields(&HEAD).is_err() {
        return report_unwritten(rt);
    }
    grade_all(rt, grader, key, &mut Reports::Table(table), found)
}

/// Grades by this key, or without one. All memory is dropped in one place, because a proof covers each such place.
fn grade_by(
    rt: &HostRuntime,
    key: Option<(&str, &[u8])>,
    found: &ArgMatches<'_>,
) -> io::Result<u8> {
    let mut grader = Grader::new(rt)?;
    let status = grade_with(rt, &mut grader, key, found);
    drop(grader);
    status
}

/// Grades the hand-ins that the command line names.
pub(crate) fn grade(rt: &HostRuntime, found: &ArgMatches<'_>) -> io::Result<u8> {
    let Some(name) = found.get_str("KEY") else {
        return grade_by(rt, None, found);
    };
    match load(rt, name) {
        Ok(file) => grade_by(rt, Some((name, unmarked(file.as_slice()))), found),
        Err(why) => {
            let name = Shown(name);
            eprintln!(rt; "bsdplay: {name}: {why}: no hand-in was graded")?;
            Ok(if why.as_bytes() == REFUSED.as_bytes() {
                NO_MEMORY
            } else {
                UNREAD
            })
        }
    }
}
