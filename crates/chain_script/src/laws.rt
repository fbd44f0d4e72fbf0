//! Laws of the script. Each is a function that does nothing; its contract is the law.
ghost use Rattle.std.specs.Prelude.{◌≡◌, ℕ, List, None, length, replicate};
ghost use Rattle.script_loop.specs.Printed.{Prints};
ghost use Rattle.chain_script.specs.declared.caller.TheConstants.{SLOTS};
ghost use Rattle.chain_script.specs.Lines.{Request};
ghost use Rattle.chain_script.specs.Machines.{Machine, booted};
ghost use Rattle.chain_script.specs.Steps.{ChainReply, ChainStep, Says};
ghost use Rattle.chain_script.specs.Strings.{strings_of, StringStep, StringSays};

/// The slots' strings are determined by the lines and by which of the lines lack buffers or write to a shared cluster.
/// The same holds for all replies except two: of the reply to `show` only the length is determined, and the reply to
/// `mbstat` isn't. The replies are those of list operations on strings.
pub fn strings_law()
    // There are 64 slots.
    ensures slots { (mbufs clusters : ℕ) → length (booted mbufs clusters).slots ≡ 64 }
    // At boot there are no strings.
    ensures boot { (mbufs clusters : ℕ) → strings_of (booted mbufs clusters) ≡ replicate SLOTS None }
    // A step of the machine is one of its strings.
    ensures step { (old new : Machine) (request : Request) (reply : ChainReply)
        → ChainStep old request reply new → StringStep (strings_of old) request reply (strings_of new) }
    // The strings print what the machine prints for the lines.
    ensures prints { (old new : Machine) (lines : List (List ℕ)) (printed : List ℕ)
        → Prints Says old lines printed new → Prints StringSays (strings_of old) lines printed (strings_of new) }
{}
