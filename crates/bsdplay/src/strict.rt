//! Scripts in which each line with a request must have an expectation, and exercises that are made from keys.
use crate::UNREAD;
use crate::hand_in::{load, unmarked};
use crate::messages::fail_on;
use crate::screen::Screen;
use play_grade::{Marker, first_line};
use play_script::{Form, OUTPUT, Printer, Style};
use script_loop::Buffer;
use std::alloc::{AllocError, Global};
use std::io::{self, Write};

/// Prints each line of a script that makes a request without an expectation.
fn print_each(
    screen: &mut impl Write,
    script: &[u8],
    marker: &mut Marker,
    printer: &mut Printer,
    text: &mut Buffer<OUTPUT>,
) -> io::Result<()> {
    let mut left = script;
    for _ in 0..script.len().saturating_add(1) {
        let (line, more) = first_line(left);
        printer.next_line(line);
        if marker.lacks(line) {
            text.clear();
            printer.put_fault(text, b"missing expected reply: --strict needs one after =>");
            screen.write_all(text.as_slice())?;
        }
        let Some(more) = more else {
            break;
        };
        left = more;
    }
    Ok(())
}

/// Prints each line of a script that makes a request without an expectation. Returns whether there is one.
pub(crate) fn print_lacks(rt: &HostRuntime, script: &[u8], style: Style<'_>) -> io::Result<bool> {
    let mut text: Buffer<OUTPUT> = Buffer::new(rt.alloc())?;
    let mut printer = Printer::new(rt.alloc(), style)?;
    let mut marker = Marker::new(rt.alloc())?;
    let mut screen = Screen::over(rt.stdout(), style.form, false);
    let result = print_each(&mut screen, script, &mut marker, &mut printer, &mut text);
    let lacks = !printer.sound;
    drop(marker);
    result.map(|()| lacks)
}

/// Prints an object for the first line that expects `?`, the one with this number, if objects are printed.
pub(crate) fn print_open(rt: &HostRuntime, number: u64, style: Style<'_>) -> io::Result<()> {
    if !matches!(style.form, Form::Json) {
        return Ok(());
    }
    let mut text: Buffer<OUTPUT> = Buffer::new(rt.alloc())?;
    let mut printer = Printer::new(rt.alloc(), style)?;
    for _ in 0..number {
        printer.next_line(b"");
    }
    printer.put_fault(&mut text, b"missing expected reply: replace the ?");
    rt.stdout().write_all(text.as_slice())
}

/// Adds a key as an exercise has it.
fn put_blank(marker: &mut Marker, key: &[u8], text: &mut Vec<u8>) -> Result<(), AllocError> {
    let mut left = key;
    for _ in 0..key.len() {
        if left.is_empty() {
            break;
        }
        let (line, more) = first_line(left);
        marker.put_blank(line, text)?;
        left = more.unwrap_or_default();
    }
    Ok(())
}

/// Returns a key as an exercise has it.
fn blank(alloc: Global, key: &[u8]) -> Result<Vec<u8>, AllocError> {
    let mut marker = Marker::new(alloc)?;
    let mut text = Vec::new(alloc);
    let put = put_blank(&mut marker, key, &mut text);
    drop(marker);
    match put {
        Ok(()) => Ok(text),
        Err(lacking) => Err(lacking),
    }
}

/// Prints the exercise that belongs to a key.
pub(crate) fn print_blank(rt: &HostRuntime, name: &str) -> io::Result<u8> {
    match load(rt, name) {
        Ok(file) => {
            let exercise = blank(rt.alloc(), unmarked(file.as_slice()))?;
            rt.stdout().write_all(exercise.as_slice())?;
            Ok(0)
        }
        Err(why) => fail_on(rt, name, why, UNREAD),
    }
}
