//! The commands, and the one table of their lines.
ghost use Rattle.std.specs.Prelude.{◌≡◌, None, Some, option_map};
ghost use Rattle.play_forms.specs.Table as table;
ghost use Rattle.play_forms.specs.Table.{arguments_of, name_of};

use crate::argument::Argument;
use crate::argument::Argument::{
    Addr, Bytes, Count, Fd, HostTopic, Len, Option as Opt, Port, Switch, Topic,
};

/// A command: what a line begins with.
#[derive(Clone, Copy)]
pub enum Command {
    Socket,
    Bind,
    Connect,
    SendTo,
    Send,
    RecvFrom,
    Close,
    SetSockOpt,
    SetRcvBuf,
    Rx,
    RxPcap,
    RxUdp,
    RxRaw,
    Tx,
    Tick,
    Stat,
    MbStat,
    Show,
    Frame,
    LastError,
    ShowOfHost,
    Host,
    Wire,
    Carry,
    Collect,
    Deliver,
    Loss,
    Repeat,
    Reorder,
    Delay,
    Seed,
    Drop,
    Swap,
    ShowWire,
    Summary,
}

/// A row of the table of all lines.
#[derive(Clone, Copy)]
pub struct Row {
    /// The word that a line begins with.
    pub name: &'static str,
    /// How it's written: lower-case words are typed as they are; what is in brackets is optional.
    pub form: &'static str,
    /// Its arguments, one by one. `None` if they aren't checked one by one.
    pub(crate) arguments: Option<&'static [Argument]>,
}

/// Returns the row of a command whose arguments are checked one by one.
fn by_words(name: &'static str, form: &'static str, arguments: &'static [Argument]) -> Row
    ensures name { result.name.now ≡ name.now }
    ensures arguments { option_map (λ a. a.now) result.arguments ≡ Some arguments.now }
{
    Row {
        name,
        form,
        arguments: Some(arguments),
    }
}

/// Returns a line with a form of its own.
fn otherwise(name: &'static str, form: &'static str) -> Row
    ensures name { result.name.now ≡ name.now }
    ensures arguments { option_map (λ a. a.now) result.arguments ≡ None }
{
    Row {
        name,
        form,
        arguments: None,
    }
}

impl Command {
    /// Returns its row. Lines are parsed by it, `bsdplay --help` prints it, and advice is given by it.
    pub fn row(self) -> Row
        ensures name { result.name.now ≡ name_of self }
        ensures arguments { option_map (λ a. a.now) result.arguments ≡ arguments_of self }
    {
        match self {
            Command::Socket => by_words("socket", "socket", &[]),
            Command::Bind => by_words("bind", "bind FD ADDR PORT", &[Fd, Addr, Port]),
            Command::Connect => by_words("connect", "connect FD ADDR PORT", &[Fd, Addr, Port]),
            Command::SendTo => by_words(
                "sendto",
                "sendto FD ADDR PORT BYTES",
                &[Fd, Addr, Port, Bytes],
            ),
            Command::Send => by_words("send", "send FD BYTES", &[Fd, Bytes]),
            Command::RecvFrom => by_words("recvfrom", "recvfrom FD LEN", &[Fd, Len]),
            Command::Close => by_words("close", "close FD", &[Fd]),
            Command::SetSockOpt => by_words(
                "setsockopt",
                "setsockopt FD OPT ON",
                &[Fd, Opt, Switch],
            ),
            Command::SetRcvBuf => by_words(
                "setsockopt",
                "setsockopt FD rcvbuf N",
                &[Fd, Opt, Count],
            ),
            Command::Rx => by_words("rx", "rx BYTES", &[Bytes]),
            Command::RxPcap => otherwise("rx", "rx pcap FILE [N-M] [ticks]"),
            Command::RxUdp => otherwise("rx", "rx udp ADDR:PORT > ADDR:PORT BYTES [FIELDS]"),
            Command::RxRaw => otherwise("rx", "rx raw ADDR > ADDR BYTES [FIELDS]"),
            Command::Tx => by_words("tx", "tx", &[]),
            Command::Tick => by_words("tick", "tick [N]", &[Count]),
            Command::Stat => by_words("stat", "stat", &[]),
            Command::MbStat => by_words("mbstat", "mbstat", &[]),
            Command::Show => by_words("show", "show WHAT", &[Topic]),
            Command::Frame => by_words("frame", "frame BYTES", &[Bytes]),
            Command::LastError => by_words("error", "error FD", &[Fd]),
            Command::ShowOfHost => by_words("show", "show WHAT", &[HostTopic]),
            Command::Host => otherwise("host", "host NAME [ether LINK ..] [--SETTING VALUE ..]"),
            Command::Wire => otherwise("wire", "wire NAME .."),
            Command::Carry => otherwise("carry", "carry [all] [N]"),
            Command::Collect => otherwise("collect", "collect"),
            Command::Deliver => otherwise("deliver", "deliver"),
            Command::Loss => otherwise("loss", "loss CHANCE [from NAME]"),
            Command::Repeat => otherwise("repeat", "repeat PLACE or repeat CHANCE [from NAME]"),
            Command::Reorder => otherwise("reorder", "reorder CHANCE [from NAME]"),
            Command::Delay => otherwise("delay", "delay A-B [from NAME]"),
            Command::Seed => otherwise("seed", "seed N"),
            Command::Drop => otherwise("drop", "drop PLACE"),
            Command::Swap => otherwise("swap", "swap PLACE PLACE"),
            Command::ShowWire => otherwise("show", "show wire"),
            Command::Summary => otherwise("summary", "summary"),
        }
    }
}

/// Returns the commands for a machine.
pub fn host_commands() -> [Command; 14]
    ensures { result ≡ table.host_commands }
{
    [
        Command::Socket,
        Command::Bind,
        Command::Connect,
        Command::SendTo,
        Command::Send,
        Command::RecvFrom,
        Command::Close,
        Command::SetSockOpt,
        Command::Rx,
        Command::Tx,
        Command::Tick,
        Command::Stat,
        Command::MbStat,
        Command::Show,
    ]
}

/// Returns the commands for all hosts and their wire.
pub fn wire_commands() -> [Command; 15]
    ensures { result ≡ table.wire_commands }
{
    [
        Command::Host,
        Command::Wire,
        Command::Carry,
        Command::Collect,
        Command::Deliver,
        Command::Tick,
        Command::Loss,
        Command::Repeat,
        Command::Reorder,
        Command::Delay,
        Command::Seed,
        Command::Drop,
        Command::Swap,
        Command::ShowWire,
        Command::Summary,
    ]
}
