//! Parsing the words of the command line.
ghost use Rattle.std.specs.Prelude.{◌≡◌, ◌≢◌, ◌⊎◌, ℕ, [], codes, false, map, option_map, MatchOption, MatchResult, IfOk};
ghost use Rattle.std.specs.String.{string_bytes};
ghost use Rattle.clap.specs.Words.{app_of, rule_of, found_of, first_value, fault_of, kind_of};
ghost use Rattle.clap.specs.declared.error.kind.ErrorKind.TheVariants.{OutOfMemory};
ghost use Rattle.flat_model.specs.declared.config.Config.{Config};
ghost use Rattle.mbuf_pool.specs.declared.sizes.Sizes.{Sizes};
ghost use Rattle.link_script.specs.declared.options.Task.{Task};
ghost use Rattle.link_script.specs.Options.{option_rule, whole_app, HasNumber, HasAddress, Names, NamesSizes, NamesTask, IsCommand};
ghost use Rattle.link_script.specs.Program.{defaults, IsWordsFault};

use crate::command_line::{DEFAULTS, Failure};
use chain_script::Sizes;
use clap::error::ErrorKind;
use clap::{Arg, ArgMatches, Command, Error as ClapError};
use flat_model::Config;
use request::address_of;
use script_loop::{RunFault, number};
use std::alloc::{AllocError, Global};

/// The greatest 16-bit number.
const U16_MAX: u32 = u16::MAX as u32;

/// The task that the words request.
#[derive(Clone, Copy)]
pub(crate) enum Task {
    /// `run`: the script of calls on sockets, on a stack with this configuration.
    Run(Config),
    /// `chain`: the script of calls on chains, over a pool of these sizes.
    Chain(Sizes),
}

/// Returns the number of an option, or the default if the option isn't given.
fn number_or(text: Option<&str>, most: u32, default: u32) -> Option<u32>
    ensures { MatchOption result ((n : ℕ) → HasNumber most default (option_map (λ s. s.now) text.entry) n → ⊥)
        (λ n. HasNumber most default (option_map (λ s. s.now) text.entry) n) }
{
    match text {
        Some(text) => number(text.as_bytes(), most),
        None => Some(default),
    }
}

/// Returns the address of an option: 0.0.0.0 if its text isn't an address, or the default if the option isn't given.
fn address_or(text: Option<&str>, default: u32) -> u32
    ensures { HasAddress default (option_map (λ s. s.now) text.entry) result }
{
    match text {
        Some(text) => address_of(text.as_bytes()).unwrap_or(0),
        None => default,
    }
}

/// Returns the configuration of the options of `run`.
fn config_of(found: &ArgMatches<'_>) -> Option<Config>
    ensures { MatchOption result ((c : Config) → Names defaults (first_value (found_of found.now)) c → ⊥)
        (Names defaults (first_value (found_of found.now))) }
{
    let mtu = number_or(found.get_str("mtu"), U16_MAX, u32::from(DEFAULTS.mtu))?;
    let mbufs = number_or(found.get_str("mbufs"), u32::MAX, DEFAULTS.mbufs)?;
    let clusters = number_or(found.get_str("clusters"), u32::MAX, DEFAULTS.clusters)?;
    let first_id = number_or(found.get_str("id"), U16_MAX, u32::from(DEFAULTS.first_id))?;
    Some(Config {
        addr: address_or(found.get_str("addr"), DEFAULTS.addr),
        bcast: address_or(found.get_str("bcast"), DEFAULTS.bcast),
        mtu: mtu as u16,
        mbufs,
        clusters,
        first_id: first_id as u16,
    })
}

/// Returns the sizes of the options of `chain`.
fn sizes_of(found: &ArgMatches<'_>) -> Option<Sizes>
    ensures { MatchOption result ((z : Sizes) → NamesSizes defaults (first_value (found_of found.now)) z → ⊥)
        (NamesSizes defaults (first_value (found_of found.now))) }
{
    let mbufs = number_or(found.get_str("mbufs"), u32::MAX, DEFAULTS.mbufs)?;
    let clusters = number_or(found.get_str("clusters"), u32::MAX, DEFAULTS.clusters)?;
    Some(Sizes { mbufs, clusters })
}

/// Returns the task of a subcommand with this name and these options.
fn task_of(name: &str, found: &ArgMatches<'_>) -> Option<Task>
    ensures { MatchOption result ((t : Task) → NamesTask defaults name.now (first_value (found_of found.now)) t → ⊥)
        (NamesTask defaults name.now (first_value (found_of found.now))) }
{
    if name == "run" {
        Some(Task::Run(config_of(found)?))
    } else if name == "chain" {
        Some(Task::Chain(sizes_of(found)?))
    } else {
        None
    }
}

/// Defines an option with a value.
fn option<'a>(alloc: Global, name: &'a str) -> Arg<'a>
    ensures rule { rule_of result ≡ option_rule name.entry.now }
    ensures local { result.global ≡ false }
{
    Arg::new(alloc, name).long(name)
}

/// Defines the command, with its subcommands and their options. None of them has help or a version of its own.
fn command<'a>(alloc: Global) -> Result<Command<'a>, AllocError>
    ensures { IfOk result (λ r. app_of r ≡ whole_app) }
{
    let run = Command::new(alloc, "run")
        .disable_help_flag(true)
        .disable_version_flag(true)
        .arg(option(alloc, "addr"))?
        .arg(option(alloc, "bcast"))?
        .arg(option(alloc, "mtu"))?
        .arg(option(alloc, "mbufs"))?
        .arg(option(alloc, "clusters"))?
        .arg(option(alloc, "id"))?;
    let chain = Command::new(alloc, "chain")
        .disable_help_flag(true)
        .disable_version_flag(true)
        .arg(option(alloc, "mbufs"))?
        .arg(option(alloc, "clusters"))?;
    Command::new(alloc, "bsdudp")
        .disable_help_flag(true)
        .disable_version_flag(true)
        .disable_help_subcommand(true)
        .subcommand_required(true)
        .subcommand(run)?
        .subcommand(chain)
}

/// Returns the task of the words, if they are a command, as parsed by the crate clap.
fn named(alloc: Global, words: &[String]) -> Result<Option<Task>, ClapError>
    ensures { MatchResult result
        (λ r. MatchOption r ((t : Task) → IsCommand defaults (map string_bytes words.now) t → ⊥)
        (IsCommand defaults (map string_bytes words.now)))
        (λ e. (kind_of e ≡ OutOfMemory) ⊎ (fault_of whole_app (map string_bytes words.now) ≢ [])) }
{
    let matches = command(alloc)?.try_get_matches_from(words)?;
    match matches.subcommand() {
        Some((name, found)) => Ok(task_of(name, found)),
        None => Ok(None),
    }
}

/// Parses the words, the first of which is the program's name.
///
/// # Errors
///
/// `Usage` if the words aren't a subcommand with its options, each given at most once, or if a number is malformed or
/// out of range. `Memory` if the host refuses memory.
pub(crate) fn read_words(alloc: Global, words: &[String]) -> Result<Task, Failure>
    ensures { MatchResult result (IsCommand defaults (map string_bytes words.now))
        (IsWordsFault (IsCommand defaults (map string_bytes words.now))) }
{
    match named(alloc, words) {
        Ok(Some(task)) => Ok(task),
        Ok(None) => Err(Failure::Usage),
        Err(error) if error.kind() == ErrorKind::OutOfMemory => Err(Failure::Run(RunFault::Memory)),
        Err(_) => Err(Failure::Usage),
    }
}
