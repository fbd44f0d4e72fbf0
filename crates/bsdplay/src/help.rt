//! The end of the help: statuses, and the forms of all lines, which are those that lines are read by.
use play_forms::{Command, host_commands, wire_commands};
use std::alloc::{AllocError, Global};

const FRONT: &str =
    "Status: 0 if all is well; 1 if a line is wrong, a reply differs from the expected one, or
a capture can't be played; 2 for a wrong command line; 3 without memory; 4 if a file
can't be read, or writing fails.

On a terminal it prompts for lines; `rlwrap bsdplay` adds a history. bsdudp, for programs,
prints no help: its options and replies are in man bsdudp.

";

const LINES: &str =
    "Lines, also after a time (+0.5s tx); docs/scripts.md and man bsdplay explain them:
";

/// Appends the form of a command, as a line.
fn add_form(text: &mut String, command: Command) -> Result<(), AllocError> {
    text.push_str("  ")?;
    text.push_str(command.row().form)?;
    text.push_str("\n")
}

/// Appends the forms of commands, a line for each.
fn add_forms(text: &mut String, commands: &[Command]) -> Result<(), AllocError> {
    for command in commands {
        add_form(text, *command)?;
        for other in other_forms(*command) {
            add_form(text, *other)?;
        }
    }
    Ok(())
}

/// Returns the further forms of a command, which have words of their own.
fn other_forms(command: Command) -> &'static [Command] {
    match command {
        Command::SetSockOpt => &[Command::SetRcvBuf],
        Command::Rx => &[Command::RxPcap, Command::RxUdp, Command::RxRaw],
        _ => &[],
    }
}

/// Returns the statuses, and the forms of all lines.
pub(crate) fn lines(alloc: Global) -> Result<String, AllocError> {
    let mut text = String::new(alloc);
    text.push_str(FRONT)?;
    add_all_forms(&mut text)?;
    Ok(text)
}

/// Returns the forms of all lines.
pub(crate) fn forms(alloc: Global) -> Result<String, AllocError> {
    let mut text = String::new(alloc);
    add_all_forms(&mut text)?;
    Ok(text)
}

/// Appends the forms of all lines, those that docs/scripts.md has.
fn add_all_forms(text: &mut String) -> Result<(), AllocError> {
    text.push_str(LINES)?;
    add_forms(text, &host_commands())?;
    text.push_str("Lines of a host on an Ethernet, after its NAME:\n")?;
    add_forms(text, &[Command::Frame, Command::LastError])?;
    text.push_str("Lines of many hosts, with those above after a host's NAME:\n")?;
    add_forms(text, &wire_commands())
}
