//! The advice on a line without a request, as text. No contract pins its words.
use crate::advice::Advice;
use crate::command::{Command, wire_commands};
use crate::nearest::named;
use script_loop::Buffer;

/// The most bytes of the advice on a line.
pub const ADVICE: usize = 160;

/// The most bytes that are printed of a word.
const SHOWN: usize = 32;

/// Appends bytes, as far as there is space for them.
fn add(text: &mut Buffer<ADVICE>, bytes: &[u8]) {
    let space = ADVICE - text.len();
    text.append(&bytes[..bytes.len().min(space)]);
}

/// Appends a word in quotes, at most its first 32 bytes.
fn add_word(text: &mut Buffer<ADVICE>, word: &[u8]) {
    let shown = word.len().min(SHOWN);
    add(text, b"`");
    add(text, &word[..shown]);
    add(
        text,
        if shown < word.len() {
            b"..".as_slice()
        } else {
            b""
        },
    );
    add(text, b"`");
}

/// Appends the form of a command's lines, after the bytes `front`.
fn add_form(text: &mut Buffer<ADVICE>, front: &[u8], asked: Command) {
    add(text, front);
    add(text, asked.row().form.as_bytes());
    add(text, b"`");
}

/// Appends what may be meant by a word that isn't a command of the line's player: one of many hosts, or one that it's
/// near to.
fn add_unknown(text: &mut Buffer<ADVICE>, word: &[u8], near: Option<Command>) {
    if named(word, &wire_commands()).is_some() {
        add_word(text, word);
        add(text, b" needs hosts: begin the script with `host NAME`");
        return;
    }
    add(text, b"unknown command ");
    add_word(text, word);
    if let Some(near) = near {
        add(text, b" (`");
        add(text, near.row().name.as_bytes());
        add(text, b"`?)");
    }
}

/// Writes the advice on a line into a buffer: the word that is wrong, the form of its command, and the command that was
/// meant.
pub fn put_advice(text: &mut Buffer<ADVICE>, advice: &Advice<'_>) {
    text.clear();
    match *advice {
        Advice::Empty => add(text, b"missing command before `=>`"),
        Advice::Unknown(word, near) => add_unknown(text, word, near),
        Advice::OfHost(asked) => {
            add_word(text, asked.row().name.as_bytes());
            add_form(text, b" needs a host: `NAME: ", asked);
        }
        Advice::Wrong(word, wanted, asked) => {
            add(text, b"expected ");
            add(text, wanted.label().as_bytes());
            add(text, b", got ");
            add_word(text, word);
            add_form(text, b": `", asked);
        }
        Advice::Missing(wanted, asked) => {
            add(text, b"missing ");
            add(text, wanted.label().as_bytes());
            add_form(text, b": `", asked);
        }
        Advice::More(word, asked) => {
            add(text, b"unexpected ");
            add_word(text, word);
            add_form(text, b": `", asked);
        }
        Advice::Otherwise(asked) => add_form(text, b"expected `", asked),
    }
}
