//! Options of the command line, as tables in the order in which the help has them.
use clap::{Arg, ArgAction, Command};
use std::alloc::{AllocError, Global};

/// An option with a long name.
#[derive(Clone, Copy)]
pub(crate) struct LongOption {
    /// The key of an option, and the name of its value in the help.
    pub(crate) id: &'static str,
    pub(crate) long: &'static str,
    pub(crate) help: &'static str,
    pub(crate) action: ArgAction,
}

/// Adds options to a command. Each is made as it's added, so that none is dropped if memory is refused.
pub(crate) fn with_options<'a>(
    alloc: Global,
    command: Command<'a>,
    options: &[LongOption],
) -> Result<Command<'a>, AllocError> {
    let mut command = command;
    for option in options {
        let arg = Arg::new(alloc, option.id)
            .long(option.long)
            .help(option.help)
            .action(option.action);
        command = command.arg(arg)?;
    }
    Ok(command)
}

/// The options for scripts, captures and teachers.
pub(crate) static OPTIONS: [LongOption; 15] = [
    LongOption {
        id: "json",
        long: "json",
        help: "Print each line as a JSON object, for programs",
        action: ArgAction::SetTrue,
    },
    LongOption {
        id: "WHEN",
        long: "color",
        help: "Colours: always, never, or auto (on a terminal, unless NO_COLOR is set)",
        action: ArgAction::Set,
    },
    LongOption {
        id: "N",
        long: "seed",
        help: "The wire's seed, if the script sets none (default: 1)",
        action: ArgAction::Set,
    },
    LongOption {
        id: "A-B",
        long: "seeds",
        help: "Play the script for each seed from A to B, and list those that fail",
        action: ArgAction::Set,
    },
    LongOption {
        id: "summary",
        long: "summary",
        help: "Print the counts of each host at the end",
        action: ArgAction::SetTrue,
    },
    LongOption {
        id: "progress",
        long: "progress",
        help: "Print progress to stderr every 100 seeds, even if stderr isn't a terminal",
        action: ArgAction::SetTrue,
    },
    LongOption {
        id: "PCAP",
        long: "pcap",
        help: "Write a capture of the packets received and sent, or of those on the wire, to this file",
        action: ArgAction::Set,
    },
    LongOption {
        id: "strict",
        long: "strict",
        help: "Report each call and each question without an expected reply",
        action: ArgAction::SetTrue,
    },
    LongOption {
        id: "grade",
        long: "grade",
        help: "Print one verdict for each FILE: passed, failed, empty or unread",
        action: ArgAction::SetTrue,
    },
    LongOption {
        id: "KEY",
        long: "key",
        help: "With --grade: the key, whose expected replies count",
        action: ArgAction::Set,
    },
    LongOption {
        id: "csv",
        long: "csv",
        help: "With --grade: a table in CSV, for spreadsheets",
        action: ArgAction::SetTrue,
    },
    LongOption {
        id: "SOLVED",
        long: "blank",
        help: "Print this solved script as an exercise, with ? for each expected reply",
        action: ArgAction::Set,
    },
    LongOption {
        id: "CAPTURE",
        long: "from-pcap",
        help: "Print the IPv4 packets of this capture as a script; '-': standard input",
        action: ArgAction::Set,
    },
    LongOption {
        id: "N-M",
        long: "records",
        help: "With --from-pcap: only the records from number N to M",
        action: ArgAction::Set,
    },
    LongOption {
        id: "ticks",
        long: "ticks",
        help: "With --from-pcap: a tick for each half second between packets",
        action: ArgAction::SetTrue,
    },
];

/// The options of `why`.
pub(crate) static WHY_OPTIONS: [LongOption; 13] = [
    LongOption {
        id: "A",
        long: "addr",
        help: "The host's address (default: the one that most datagrams go to)",
        action: ArgAction::Set,
    },
    LongOption {
        id: "B",
        long: "bcast",
        help: "The broadcast address of its network (default: that of a network of 256 addresses)",
        action: ArgAction::Set,
    },
    LongOption {
        id: "PORT",
        long: "port",
        help: "The only port that is bound (default: each port that a datagram goes to)",
        action: ArgAction::Set,
    },
    LongOption {
        id: "VLAN",
        long: "vlan",
        help: "The host's VLAN: 100, 100.7, or 0 for none (default: that of most packets for the host)",
        action: ArgAction::Set,
    },
    LongOption {
        id: "N-M",
        long: "records",
        help: "Print only the records from number N to M; earlier ones are still played",
        action: ArgAction::Set,
    },
    LongOption {
        id: "all",
        long: "all",
        help: "Also play packets for other hosts, which are dropped",
        action: ArgAction::SetTrue,
    },
    LongOption {
        id: "offload",
        long: "offload",
        help: "Fill in checksums that were left to the sender's card, and go on with the later checks",
        action: ArgAction::SetTrue,
    },
    LongOption {
        id: "ether",
        long: "ether",
        help: "Judge as a host on an Ethernet: hardware addresses, ARP and ICMP too",
        action: ArgAction::SetTrue,
    },
    LongOption {
        id: "MAC",
        long: "mac",
        help: "With --ether: the host's hardware address (default: the source address of its first frame)",
        action: ArgAction::Set,
    },
    LongOption {
        id: "dropped",
        long: "dropped",
        help: "Print only packets that were dropped, refused or never completed",
        action: ArgAction::SetTrue,
    },
    LongOption {
        id: "A:P",
        long: "flow",
        help: "Print only packets from or to this address and port",
        action: ArgAction::Set,
    },
    LongOption {
        id: "WHAT",
        long: "fail-on",
        help: "End with status 1 for packet, stack, offload, cut or unfinished, or several with commas",
        action: ArgAction::Set,
    },
    LongOption {
        id: "json",
        long: "json",
        help: "Print a JSON object for each record, and one for the summary",
        action: ArgAction::SetTrue,
    },
];
