//! Lines that are typed at a terminal: a prompt before each, and words that aren't lines of a script.
use crate::help::forms;
use std::io::{self, IsTerminal, Read, Stdin, Write};

/// The name of the script in messages: `line:3: ..`.
pub(crate) const TYPED: &str = "line";

const GREETING: &[u8] =
    b"bsdplay 0.5.0 plays each line that you type. `help` lists the lines, `quit` ends.\n";

const PROMPT: &[u8] = b"> ";

const HELP: &[u8] = b"help, or ?: these lines\nquit, or Ctrl-D: the end\n";

/// What a typed line requests of the program itself.
#[derive(Clone, Copy)]
enum Word {
    Help,
    Quit,
    Nothing,
}

/// Returns what a line requests of the program itself.
fn word_of(line: &[u8]) -> Word {
    match line {
        b"help\n" | b"?\n" => Word::Help,
        b"quit\n" | b"exit\n" => Word::Quit,
        _ => Word::Nothing,
    }
}

/// Standard input, if it's a terminal.
#[derive(Drop)]
pub(crate) struct Typed<'a> {
    rt: &'a HostRuntime,
    stdin: Stdin,
    /// Whether the next byte begins a line.
    at_front: bool,
    ended: bool,
}

/// Returns whether lines are typed and their replies are read at a terminal.
pub(crate) fn is_typed(rt: &HostRuntime) -> bool {
    rt.stdin().is_terminal() && rt.stdout().is_terminal()
}

impl<'a> Typed<'a> {
    /// Greets, and returns a reader of the lines.
    pub(crate) fn begin(rt: &'a HostRuntime) -> io::Result<Typed<'a>> {
        rt.stdout().write_all(GREETING)?;
        Ok(Typed {
            rt,
            stdin: rt.stdin(),
            at_front: true,
            ended: false,
        })
    }

    /// Prints the forms of all lines.
    fn print_help(&self) -> io::Result<()> {
        let text = forms(self.rt.alloc())?;
        self.rt.stdout().write_all(text.as_bytes())?;
        self.rt.stdout().write_all(HELP)
    }

    /// Reads once, after a prompt at the beginning of a line. Returns the number of bytes, and what they request.
    fn read_line(&mut self, buf: &mut [u8]) -> io::Result<(usize, Word)> {
        let was_front = self.at_front;
        if was_front {
            self.rt.stdout().write_all(PROMPT)?;
        }
        let count = self.stdin.read(buf)?;
        let line = buf.get(..count).unwrap_or_default();
        self.at_front = line.last() == Some(&b'\n');
        if line.is_empty() {
            self.rt.stdout().write_all(b"\n")?;
            return Ok((count, Word::Quit));
        }
        Ok((
            count,
            if was_front {
                word_of(line)
            } else {
                Word::Nothing
            },
        ))
    }
}

impl Read for Typed<'_> {
    fn read(&mut self, buf: &mut [u8]) -> io::Result<usize> {
        for _ in 0..u64::MAX {
            if self.ended || buf.is_empty() {
                return Ok(0);
            }
            match self.read_line(buf)? {
                (count, Word::Nothing) => return Ok(count.min(buf.len())),
                (_, Word::Help) => self.print_help()?,
                (_, Word::Quit) => self.ended = true,
            }
        }
        Ok(0)
    }
}
