//! How scripts are printed: by the options, and by whether the output is a terminal.
use clap::ArgMatches;
use play_script::Form;
use std::env::{self, VarError};
use std::io::IsTerminal;

/// Returns whether the variable `NO_COLOR` is there and isn't empty.
fn declines_colours(rt: &HostRuntime) -> bool {
    match env::var(rt, "NO_COLOR") {
        Ok(value) => !value.is_empty(),
        Err(VarError::NotPresent) => false,
        Err(VarError::NotUnicode | VarError::OutOfMemory) => true,
    }
}

/// Whether there are colours. `None` if the option has another word than those that it takes.
fn has_colours(rt: &HostRuntime, when: Option<&str>) -> Option<bool> {
    match when {
        Some("always") => Some(true),
        Some("never") => Some(false),
        None | Some("auto") => Some(rt.stdout().is_terminal() && !declines_colours(rt)),
        Some(_) => None,
    }
}

/// Returns the form that the options say, or what is wrong with them.
pub(crate) fn form_of(rt: &HostRuntime, found: &ArgMatches<'_>) -> Result<Form, &'static str> {
    let quiet = found.get_flag("quiet");
    let Some(colours) = has_colours(rt, found.get_str("WHEN")) else {
        return Err("--color must be auto, always or never");
    };
    if found.get_flag("json") {
        return if quiet {
            Err("--json can't be combined with --quiet")
        } else {
            Ok(Form::Json)
        };
    }
    Ok(match (quiet, colours) {
        (false, false) => Form::Plain,
        (true, false) => Form::Quiet,
        (false, true) => Form::Coloured,
        (true, true) => Form::QuietColoured,
    })
}
