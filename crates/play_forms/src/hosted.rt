//! The commands for one host of many.
ghost use Rattle.std.specs.Prelude.{◌≡◌};
ghost use Rattle.play_forms.specs.Table as table;

use crate::command::Command;

/// Returns the commands for one host of many: those of a machine, and those for hosts on an Ethernet only.
pub fn hosted_commands() -> [Command; 16]
    ensures { result ≡ table.hosted_commands }
{
    // The first 13 are those of `host_commands`. Arrays can't be joined without a copy, so both are written out.
    [
        Command::Socket,
        Command::Bind,
        Command::Connect,
        Command::SendTo,
        Command::Send,
        Command::RecvFrom,
        Command::Close,
        Command::SetSockOpt,
        Command::Rx,
        Command::Tx,
        Command::Tick,
        Command::Stat,
        Command::MbStat,
        Command::ShowOfHost,
        Command::Frame,
        Command::LastError,
    ]
}
