//! Laws of the lines. Each is a function that does nothing; its contract is the law.
ghost use Rattle.std.specs.Prelude.{ℕ, List};
ghost use Rattle.flat_model.specs.Machine.State.{State, boot};
ghost use Rattle.flat_model.specs.Machine.Step.{Step};
ghost use Rattle.flat_model.specs.Scripts.Script as script;
ghost use Rattle.flat_model.specs.Scripts.Script.{PrintsRun, all_events};
ghost use Rattle.flat_model.specs.declared.config.Config.{Config};
ghost use Rattle.script_loop.specs.Printed.{Prints};
ghost use Rattle.link_script.specs.Says.{SaysBy};

/// If each line's text is that of a reply of the machine with exact accounts, then all texts together are what the
/// definition prints for all lines together. From boot a single run determines the output: each line that requests an
/// event takes one step, in order, and the output consists of the replies of these steps.
pub fn prints_law()
    ensures all { (old new : State) (lines : List (List ℕ)) (printed : List ℕ)
        → Prints (SaysBy Step) old lines printed new → script.Prints all_events Step old lines printed new }
    ensures run { (config : Config) (new : State) (lines : List (List ℕ)) (printed : List ℕ)
        → Prints (SaysBy Step) (boot config) lines printed new → PrintsRun config lines printed new }
{}
