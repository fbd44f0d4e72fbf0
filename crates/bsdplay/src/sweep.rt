//! One script of many machines, played for each seed of a range.
use crate::hosts::play_uncaptured;
use crate::messages::Shown;
use crate::screen::Screen;
use memchr::memchr;
use play_script::{Form, Played, Style};
use std::io::{self, Write};

/// The number of seeds between two messages of progress.
const STRIDE: u64 = 100;

/// Some seeds, from the first to the last one.
#[derive(Clone, Copy)]
pub(crate) struct Seeds {
    pub(crate) first: u64,
    pub(crate) last: u64,
}

/// Returns the seed that a word writes.
pub(crate) fn seed_in(word: &str) -> Option<u64> {
    word.parse::<u64>().ok()
}

/// Returns the seeds that a word writes: `1-1000`.
pub(crate) fn seeds_in(word: &str) -> Option<Seeds> {
    let (first, last) = word.split_once('-')?;
    let (first, last) = (seed_in(first)?, seed_in(last)?);
    if first <= last {
        Some(Seeds { first, last })
    } else {
        None
    }
}

/// Returns the first of these lines that begins with a script's name and a colon: what was wrong with one of its lines.
pub(crate) fn first_fault<'a>(written: &'a [u8], name: &[u8]) -> &'a [u8] {
    let mut rest = written;
    for _ in 0..written.len() {
        let Some(at) = memchr(b'\n', rest) else {
            break;
        };
        let line = rest.get(..at).unwrap_or_default();
        if line.starts_with(name) && line.get(name.len()) == Some(&b':') {
            return line;
        }
        rest = rest.get(at.saturating_add(1)..).unwrap_or_default();
    }
    b""
}

/// Prints the first fault of a seed.
fn report_seed(
    out: &mut impl Write,
    seed: u64,
    played: &Played,
    written: &[u8],
    name: &str,
) -> io::Result<()> {
    match played.outcome {
        Ok(()) => {
            write!(out, "seed {seed}: ")?;
            out.write_all(first_fault(written, name.as_bytes()))?;
            writeln!(out)
        }
        Err(fault) => writeln!(out, "seed {seed}: {fault}"),
    }
}

/// Plays the script for each seed. If all expectations are met for a seed, nothing is printed for it; otherwise the
/// first fault is. The last line says for how many seeds they are met. Returns the greatest status. Progress is printed
/// to standard error.
pub(crate) fn sweep(
    rt: &HostRuntime,
    script: &[u8],
    name: &str,
    seeds: Seeds,
    progress: bool,
) -> io::Result<u8> {
    let style = Style {
        form: Form::Quiet,
        name: name.as_bytes(),
    };
    let mut out = Screen::over(rt.stdout(), style.form, false);
    let (mut worst, mut met) = (0, 0u64);
    let mut seed = seeds.first;
    for _ in 0..u64::MAX {
        let (mut reader, mut written) = (script, Vec::new(rt.alloc()));
        let played = play_uncaptured(rt, style, seed, &mut reader, &mut written).played;
        let status = played.status();
        if status == 0 {
            met = met.saturating_add(1);
        } else {
            report_seed(&mut out, seed, &played, written.as_slice(), name)?;
        }
        if status > worst {
            worst = status;
        }
        if progress && seed % STRIDE == 0 {
            let name = Shown(name);
            eprintln!(rt; "bsdplay: {name}: seed {seed} of {}", seeds.last)?;
        }
        if seed >= seeds.last {
            break;
        }
        seed = seed.saturating_add(1);
    }
    let all = seeds.last.saturating_sub(seeds.first).saturating_add(1);
    writeln!(out, "{met} of {all} seeds passed")?;
    Ok(worst)
}
