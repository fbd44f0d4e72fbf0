//! The machine with the configuration of a line of settings.
ghost use Rattle.std.specs.Prelude.{◌≡◌, Err, MatchResult, Ok};
ghost use Rattle.flat_model.specs.Machine.State.{boot};
ghost use Rattle.flat_model.specs.Scripts.Grammar.{words};
ghost use Rattle.flat_model.specs.declared.config.Config.{Config};
ghost use Rattle.link_script.specs.Boots.{IsRunUnbooted};
ghost use Rattle.net_stack.specs.Stack.{state_of};
ghost use Rattle.play_script.specs.Reports.{IsSettingRefused, IsSettled};

use crate::fault::SettingFault;
use crate::settings::settings_of;
use flat_model::Config;
use link_script::booted;
use net_stack::Stack;
use script_loop::RunFault;
use std::alloc::Global;

/// Returns the setting fault for a machine that doesn't boot.
fn refusal_of(fault: RunFault) -> SettingFault
    ensures { (c : Config) → IsRunUnbooted c fault → IsSettingRefused c result }
{
    match fault {
        RunFault::BadSizes => SettingFault::BadSizes,
        RunFault::BadConfig => SettingFault::BadConfig,
        RunFault::Memory | RunFault::Read | RunFault::Write | RunFault::TooManyLines =>
            SettingFault::Memory,
    }
}

/// Boots a new machine with the settings of a line, and returns it with its configuration. `head` says whether settings
/// are still accepted.
pub(crate) fn settled(
    alloc: Global,
    head: bool,
    config: Config,
    plain: &[u8],
) -> Result<(Stack, Config), SettingFault>
    ensures { MatchResult result
        (λ r. IsSettled head config (words plain.now) (Ok r.1) × (state_of r.0 ≡ boot r.1))
        (λ fault. IsSettled head config (words plain.now) (Err fault)) }
{
    if !head {
        return Err(SettingFault::Late);
    }
    let config = settings_of(plain, config)?;
    match booted(alloc, config) {
        Ok(machine) => Ok((machine, config)),
        Err(fault) => Err(refusal_of(fault)),
    }
}
