//! The output for a line.
ghost use Rattle.std.specs.Prelude.{◌≡◌, ◌+◌, ◌*◌, ◌≤◌, ◌++◌, length};
ghost use Rattle.play_text.specs.Texts.{expected_text, if_there, line_text, lines_text, outcome_object, outcome_text};

use crate::colour::{ENDED, RED, put_coloured_reply};
use crate::form::Form;
use crate::piece::Piece::{Apart, Either, Long, Quoted, Reply, Text};
use crate::piece::put;
use script_loop::Buffer;

/// The output for a line, and its context.
#[derive(Clone, Copy)]
pub struct Outcome<'a> {
    /// The line's number.
    pub number: u64,
    /// The line as it is written.
    pub line: &'a [u8],
    /// Its reply, and why packets were dropped.
    pub reply: &'a [u8],
    /// The notes below it.
    pub below: &'a [u8],
    /// Whether the script has used a text, so that bytes of replies may be printed as texts.
    pub texts: bool,
    /// Whether the line has an expectation, and its text.
    pub expects: bool,
    pub wanted: &'a [u8],
    /// Whether the reply met it.
    pub met: bool,
}

/// Appends a line and its output.
fn put_line<const N: usize>(text: &mut Buffer<N>, form: Form, outcome: &Outcome<'_>)
    requires { length text.old + (length outcome.now.line.now + length outcome.now.reply.now + 49) ≤ N }
    ensures items { text.new ≡ text.old ++ line_text form outcome.now.texts outcome.now.number outcome.now.line.now
        outcome.now.reply.now }
    ensures len { length text.new
        ≤ length text.old + (length outcome.now.line.now + length outcome.now.reply.now + 49) }
{
    if !form.is_quiet() {
        put(
            text,
            &[
                Long(outcome.number),
                Text(b"  "),
                Text(outcome.line),
                Text(b" => "),
            ],
        );
    }
    put_coloured_reply(
        text,
        form.is_coloured(),
        form.byte_form(outcome.texts),
        outcome.reply,
    );
    text.append(b"\n");
}

/// Appends a line and its output in readable form, with the notes below it and the difference.
fn put_lines<'a, const N: usize>(
    text: &mut Buffer<N>,
    form: Form,
    name: &'a [u8],
    outcome: &'a Outcome<'a>,
)
    requires { length text.old + (length name.now + length outcome.now.line.now + length outcome.now.below.now
        + length outcome.now.wanted.now + 2 * length outcome.now.reply.now + 256) ≤ N }
    ensures { text.new ≡ text.old ++ lines_text form outcome.now.texts name.now outcome.now.number outcome.now.line.now
        (if_there outcome.now.expects outcome.now.wanted.now) outcome.now.met
        outcome.now.reply.now outcome.now.below.now }
{
    put_line(text, form, outcome);
    text.append(outcome.below);
    if outcome.expects && !outcome.met {
        let colours = form.is_coloured();
        let bytes = form.byte_form(outcome.texts);
        put(
            text,
            &[
                Either(colours, RED, b""),
                Text(name),
                Text(b":"),
                Long(outcome.number),
                Text(b": expected "),
                Reply(bytes, outcome.wanted),
                Text(b", got "),
                Reply(bytes, outcome.reply),
                Apart(bytes, outcome.wanted, outcome.reply),
                Either(colours, ENDED, b""),
                Text(b"\n"),
            ],
        );
    }
}

/// Appends the expectation and whether it was met, as members of a JSON object.
fn put_expected<const N: usize>(text: &mut Buffer<N>, outcome: &Outcome<'_>)
    requires { length text.old + (6 * length outcome.now.wanted.now + 40) ≤ N }
    ensures { text.new ≡ text.old
        ++ expected_text (if_there outcome.now.expects outcome.now.wanted.now) outcome.now.met }
{
    if outcome.expects {
        put(
            text,
            &[
                Text(b",\"expected\":"),
                Quoted(outcome.wanted),
                Text(b",\"met\":"),
                Either(outcome.met, b"true", b"false"),
                Text(b"}\n"),
            ],
        );
    } else {
        text.append(b",\"expected\":null,\"met\":null}\n");
    }
}

/// Appends a line and its output as a JSON object.
fn put_object<'a, const N: usize>(text: &mut Buffer<N>, name: &'a [u8], outcome: &'a Outcome<'a>)
    requires { length text.old + (6 * (length name.now + length outcome.now.line.now + length outcome.now.reply.now
        + length outcome.now.below.now + length outcome.now.wanted.now) + 128) ≤ N }
    ensures { text.new ≡ text.old ++ outcome_object name.now outcome.now.number outcome.now.line.now
        (if_there outcome.now.expects outcome.now.wanted.now) outcome.now.met
        outcome.now.reply.now outcome.now.below.now }
{
    put(
        text,
        &[
            Text(b"{\"number\":"),
            Long(outcome.number),
            Text(b",\"file\":"),
            Quoted(name),
            Text(b",\"line\":"),
            Quoted(outcome.line),
            Text(b",\"reply\":"),
            Quoted(outcome.reply),
            Text(b",\"below\":"),
            Quoted(outcome.below),
        ],
    );
    put_expected(text, outcome);
}

/// Appends a line and its output, in this format. The readable formats print the line with its number and its reply, or
/// only the reply; then the notes below it; and if an expectation wasn't met, the difference under the script's name.
/// The format for programs prints a JSON object. There must be space for six bytes for each byte of the texts, and for
/// 256 more.
pub fn put_outcome<const N: usize>(
    text: &mut Buffer<N>,
    form: Form,
    name: &[u8],
    outcome: &Outcome<'_>,
)
    requires { length text.old + (6 * (length name.now + length outcome.now.line.now + length outcome.now.reply.now
        + length outcome.now.below.now + length outcome.now.wanted.now) + 256) ≤ N }
    ensures { text.new ≡ text.old ++ outcome_text form outcome.now.texts name.now outcome.now.number
        outcome.now.line.now (if_there outcome.now.expects outcome.now.wanted.now) outcome.now.met
        outcome.now.reply.now outcome.now.below.now }
{
    if form.is_json() {
        put_object(text, name, outcome);
    } else {
        put_lines(text, form, name, outcome);
    }
}
