//! The program that plays play scripts: it parses its command line, opens the scripts, and plays each with
//! `play_script` on a machine of its own, or with `play_wire` on many.
#![tactic(auto)]

mod choice;
mod copies;
mod difference;
mod ether;
mod ether_text;
mod first_reading;
mod flow;
mod folder;
mod form;
mod formats;
mod from_pcap;
mod grade;
mod hand_in;
mod help;
mod hosts;
mod kinds;
mod link_names;
mod messages;
mod one;
mod options;
mod pieces;
mod records;
mod screen;
mod strict;
mod sweep;
mod typed;
mod unsolved;
mod vlan;
mod why;

use choice::Ahead;
use clap::error::ErrorKind;
use clap::{Arg, ArgAction, ArgMatches, Command};
use form::form_of;
use from_pcap::print_capture;
use grade::grade;
use hand_in::unmarked;
use help::lines;
use hosts::{play_captured, play_uncaptured, status_of};
use messages::{Shown, fail, fail_on};
use one::play_one;
use options::{OPTIONS, with_options};
use play_script::{Form, Played, Style};
use screen::Screen;
use std::alloc::{AllocError, Global};
use std::io::{IsTerminal, Read};
use std::process::ExitCode;
use std::{env, fs, io};
use strict::{print_blank, print_lacks, print_open};
use sweep::{Seeds, seed_in, seeds_in, sweep};
use typed::{TYPED, Typed, is_typed};
use unsolved::{Open, Unsolved};
use why::{print_why, why_command};

/// The status if the command line can't be read.
const USAGE: u8 = 2;

/// The status if nothing is expected of a line, and `--strict` wants it, or if something is open in an exercise.
const LACKS: u8 = 1;

/// The status if no packet of a capture is for the host.
const NOTHING: u8 = 3;

/// The status if a script can't be opened, or something can't be printed.
const UNREAD: u8 = 4;

/// Returns the command line.
fn command<'a>(alloc: Global, lines: &'a str) -> Result<Command<'a>, AllocError> {
    let command = Command::new(alloc, "bsdplay")
        .version("0.5.0")
        .about("Plays scripts of socket calls, packets and ticks, and prints what each line does")
        .after_help(lines)
        .arg(
            Arg::new(alloc, "quiet")
                .short('q')
                .long("quiet")
                .help("Print only replies and differences, without the lines")
                .action(ArgAction::SetTrue),
        )?;
    with_options(alloc, command, &OPTIONS)?
        .arg(
            Arg::new(alloc, "FILE")
                .help("Scripts, each played on new hosts; '-' or none: standard input")
                .action(ArgAction::Append),
        )?
        .subcommand(why_command(alloc)?)
}

/// Prints why a script ended early.
pub(crate) fn report(rt: &HostRuntime, name: &str, played: &Played) -> io::Result<()> {
    if let Err(fault) = played.outcome {
        let name = Shown(name);
        eprintln!(rt; "bsdplay: {name}: {fault}")?;
    }
    Ok(())
}

/// How scripts are played.
#[derive(Clone, Copy)]
pub(crate) struct Manner<'a> {
    pub(crate) form: Form,
    seed: u64,
    /// Each of these seeds instead of one.
    seeds: Option<Seeds>,
    summary: bool,
    progress: bool,
    /// Whether each line with a request must have an expectation.
    strict: bool,
    /// The file to which the capture is written.
    pub(crate) capture: Option<&'a str>,
    /// Whether the lines are typed at a terminal.
    pub(crate) typed: bool,
}

/// Returns how the options say to play scripts. `None` if a seed isn't valid.
fn manner_of<'a>(found: &'a ArgMatches<'_>, form: Form) -> Option<Manner<'a>> {
    let seed = match found.get_str("N") {
        Some(word) => seed_in(word)?,
        None => 1,
    };
    let seeds = match found.get_str("A-B") {
        Some(word) => Some(seeds_in(word)?),
        None => None,
    };
    Some(Manner {
        form,
        seed,
        seeds,
        summary: found.get_flag("summary"),
        progress: found.get_flag("progress"),
        strict: found.get_flag("strict"),
        capture: found.get_str("PCAP"),
        typed: false,
    })
}

/// Plays a script for each of some seeds. It has to have many machines.
fn play_seeds<R: Read + Drop>(
    rt: &HostRuntime,
    reader: &mut Ahead<R>,
    name: &str,
    manner: Manner<'_>,
    seeds: Seeds,
) -> io::Result<u8> {
    if !reader.has_hosts() {
        return fail_on(rt, name, "--seeds needs a script with hosts", USAGE);
    }
    if manner.capture.is_some() {
        return fail(rt, "--pcap needs one seed: use --seed, not --seeds", USAGE);
    }
    if matches!(manner.form, Form::Json) {
        return fail(rt, "--json needs one seed: use --seed, not --seeds", USAGE);
    }
    let mut script = Vec::new(rt.alloc());
    reader.read_to_end(&mut script)?;
    let progress = manner.progress || rt.stderr().is_terminal();
    sweep(rt, script.as_slice(), name, seeds, progress)
}

/// Plays a script of many machines.
fn play_wired<R: Read + Drop>(
    rt: &HostRuntime,
    reader: &mut Ahead<R>,
    name: &str,
    manner: Manner<'_>,
) -> io::Result<u8> {
    if manner.summary {
        reader.ask_for_summary();
    }
    let mut screen = Screen::over(rt.stdout(), manner.form, manner.typed);
    let style = Style {
        form: manner.form,
        name: name.as_bytes(),
    };
    let done = match manner.capture {
        None => play_uncaptured(rt, style, manner.seed, reader, &mut screen),
        Some(path) => match play_captured(rt, style, (manner.seed, path), reader, &mut screen) {
            Some(done) => done,
            None => return fail_on(rt, path, "can't be written", UNREAD),
        },
    };
    report(rt, name, &done.played)?;
    status_of(rt, done.played.status(), done.kept)
}

/// Plays a script like [`play_source`], after it was read completely, and then prints the lines without an expectation.
fn play_strictly<R: Read + Drop>(
    rt: &HostRuntime,
    mut source: R,
    name: &str,
    manner: Manner<'_>,
) -> io::Result<u8> {
    let mut script = Vec::new(rt.alloc());
    source.read_to_end(&mut script)?;
    let status = play_source(rt, script.as_slice(), name, manner)?;
    let style = Style {
        form: manner.form,
        name: name.as_bytes(),
    };
    let lacks = print_lacks(rt, unmarked(script.as_slice()), style)?;
    Ok(if lacks && status == 0 { LACKS } else { status })
}

/// Plays a script: on many machines if it begins with a host, otherwise on one.
fn play_reader<R: Read + Drop>(
    rt: &HostRuntime,
    reader: &mut Ahead<R>,
    name: &str,
    manner: Manner<'_>,
) -> io::Result<u8> {
    if reader.is_capture() {
        return report_capture(rt, name);
    }
    if let Some(seeds) = manner.seeds {
        return play_seeds(rt, reader, name, manner, seeds);
    }
    if reader.has_hosts() {
        return play_wired(rt, reader, name, manner);
    }
    play_one(rt, reader, name, manner)
}

/// Prints what to do with a capture that was given as a script.
fn report_capture(rt: &HostRuntime, name: &str) -> io::Result<u8> {
    let name = Shown(name);
    eprintln!(rt;
        "bsdplay: {name}: it's a capture: `bsdplay why {name}` says what happens to each packet, and \
        `bsdplay --from-pcap {name}` makes a script of it"
    )?;
    Ok(USAGE)
}

/// Says what is open in an exercise, and returns whether anything is.
fn report_open(rt: &HostRuntime, name: &str, form: Form, open: Open) -> io::Result<bool> {
    let style = Style {
        form,
        name: name.as_bytes(),
    };
    let name = Shown(name);
    if let Some(first) = open.first {
        print_open(rt, first, style)?;
        eprintln!(rt; "bsdplay: {name}:{first}: missing expected reply: replace the ?")?;
    }
    if open.replies == 0 && open.questions == 0 {
        return Ok(false);
    }
    eprintln!(rt;
        "bsdplay: {name}: open replies: {}, open questions: {}",
        open.replies, open.questions
    )?;
    Ok(true)
}

/// Plays a script up to its first open line, and says what is open in it.
fn play_unsolved<R: Read + Drop>(
    rt: &HostRuntime,
    reader: &mut Ahead<Unsolved<R>>,
    name: &str,
    manner: Manner<'_>,
) -> io::Result<u8> {
    let status = play_reader(rt, reader, name, manner)?;
    let open = report_open(rt, name, manner.form, reader.inner().open())?;
    Ok(if open && status == 0 { LACKS } else { status })
}

/// Plays a script from a source like [`play_unsolved`].
// It drops the reader, which holds a marker, at one place alone, because each one is proved by itself.
fn play_source<R: Read + Drop>(
    rt: &HostRuntime,
    source: R,
    name: &str,
    manner: Manner<'_>,
) -> io::Result<u8> {
    let mut reader = Ahead::over(Unsolved::over(rt.alloc(), source)?);
    play_unsolved(rt, &mut reader, name, manner)
}

/// Plays a script, and checks that its lines have expectations if that is requested.
fn play_input<R: Read + Drop>(
    rt: &HostRuntime,
    source: R,
    name: &str,
    manner: Manner<'_>,
) -> io::Result<u8> {
    if manner.strict {
        play_strictly(rt, source, name, manner)
    } else {
        play_source(rt, source, name, manner)
    }
}

/// Plays the script from standard input, with a prompt if it's typed at a terminal.
fn play_stdin(rt: &HostRuntime, manner: Manner<'_>) -> io::Result<u8> {
    let for_people = matches!(manner.form, Form::Plain | Form::Coloured);
    if !for_people || manner.strict || manner.seeds.is_some() || !is_typed(rt) {
        return play_input(rt, rt.stdin(), "-", manner);
    }
    let typed = Manner {
        typed: true,
        ..manner
    };
    let mut reader = Ahead::over(Typed::begin(rt)?);
    play_reader(rt, &mut reader, TYPED, typed)
}

/// Plays the script in a file, or from standard input if the name is `-`.
fn play_file(rt: &HostRuntime, name: &str, manner: Manner<'_>) -> io::Result<u8> {
    if name == "-" {
        return play_stdin(rt, manner);
    }
    let Ok(file) = fs::open(rt, name) else {
        return fail_on(rt, name, "can't be opened", UNREAD);
    };
    play_input(rt, file, name, manner)
}

/// Plays all scripts, and returns the greatest status.
fn play_all(rt: &HostRuntime, found: &ArgMatches<'_>) -> io::Result<u8> {
    let form = match form_of(rt, found) {
        Ok(form) => form,
        Err(text) => return fail(rt, text, USAGE),
    };
    let Some(manner) = manner_of(found, form) else {
        let text = "--seed must be a number, and --seeds a range, such as 1-1000";
        return fail(rt, text, USAGE);
    };
    let Some(names) = found.get_strs("FILE") else {
        return play_stdin(rt, manner);
    };
    let mut captured = false;
    let mut worst = 0;
    for name in names {
        if captured {
            let text = "not played: --pcap needs one script";
            return fail_on(rt, name, text, USAGE);
        }
        captured = manner.capture.is_some();
        let status = play_file(rt, name, manner)?;
        if status > worst {
            worst = status;
        }
    }
    Ok(worst)
}

/// Returns what is wrong with the combination of options, or `None`.
fn misfit(found: &ArgMatches<'_>) -> Option<&'static str> {
    let graded = found.get_flag("grade");
    if !graded && (found.get_str("KEY").is_some() || found.get_flag("csv")) {
        return Some("--key and --csv need --grade");
    }
    if graded && (found.get_flag("json") || found.get_flag("strict")) {
        return Some("--grade can't be combined with --json or --strict");
    }
    if graded && (found.get_str("PCAP").is_some() || found.get_str("A-B").is_some()) {
        return Some("--grade can't be combined with --pcap or --seeds");
    }
    None
}

/// Does what the options request.
fn serve_found(rt: &HostRuntime, found: &ArgMatches<'_>) -> io::Result<u8> {
    if let Some(what) = misfit(found) {
        return fail(rt, what, USAGE);
    }
    if let Some(name) = found.get_str("CAPTURE") {
        return print_capture(rt, name, found);
    }
    if let Some(name) = found.get_str("SOLVED") {
        return print_blank(rt, name);
    }
    if found.get_flag("grade") {
        grade(rt, found)
    } else {
        play_all(rt, found)
    }
}

/// Returns the words that the program was called with, its name first.
fn words(rt: &HostRuntime) -> io::Result<Vec<String>> {
    Ok(env::args(rt)?.collect(rt.alloc())?)
}

/// Prints the help, or what is wrong with the command line, and returns the status.
fn report_usage(rt: &HostRuntime, error: &clap::Error) -> io::Result<u8> {
    if error.kind() == ErrorKind::OutOfMemory {
        return Err(AllocError.into());
    }
    error.print(rt)?;
    Ok(error.exit_code() as u8)
}

/// Does what the words of the command line request.
fn serve_words(rt: &HostRuntime, words: &[String], lines: &str) -> io::Result<u8> {
    match command(rt.alloc(), lines)?.try_get_matches_from(words) {
        Ok(found) => match found.subcommand() {
            Some((_, chosen)) => print_why(rt, chosen),
            None => serve_found(rt, &found),
        },
        Err(error) => report_usage(rt, &error),
    }
}

/// Does what the command line requests, and returns the status.
fn serve(rt: &HostRuntime) -> io::Result<u8> {
    match words(rt) {
        Ok(words) => serve_words(rt, words.as_slice(), lines(rt.alloc())?.as_str()),
        Err(error) if error.kind() == io::ErrorKind::OutOfMemory => Err(error),
        Err(_) => fail(rt, "the command line can't be read", USAGE),
    }
}

fn main(rt: HostRuntime) -> ExitCode {
    match serve(&rt) {
        Ok(status) => ExitCode::from(status),
        Err(error) => {
            let _ = eprintln!(rt; "bsdplay: {error}");
            ExitCode::from(UNREAD)
        }
    }
}
