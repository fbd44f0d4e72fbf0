//! Laws of lines and scripts. Each is a function that does nothing, and its contract is the law.
ghost use Rattle.std.specs.Prelude.{◌≡◌, ℕ, List};
ghost use Rattle.flat_model.specs.Machine.Step.{Step};
ghost use Rattle.script_loop.specs.Printed.{Prints};
ghost use Rattle.play_script.specs.Asks.{Ask, Writes};
ghost use Rattle.play_script.specs.Runs.{IsRunOf};
ghost use Rattle.play_script.specs.Reports.{Play, Reports};

use play_pcap::{Folder, trace_law};
use request::lines_law;

/// A plain line makes at most one request.
pub fn asks_law()
    ensures { (plain : List ℕ) (a b : Ask) → Writes plain a → Writes plain b → a ≡ b }
{
    lines_law();
}

/// What is printed line by line is one run of the machine: each line has its turns, in order, and together they lead
/// the machine from the state before the first line to the state after the last. A line that plays a capture has a turn
/// for each packet of the records that it requests, and for each tick between them; `F` says which bytes a file may
/// have. What the lines add to a capture are the packets that these turns move, in order.
pub fn runs_law<F: Folder>()
    ensures { (old new : Play) (lines : List (List ℕ)) (printed : List ℕ)
        → Prints (Reports Step F.may_have) old lines printed new → IsRunOf F.may_have old lines new }
{
    trace_law();
}
