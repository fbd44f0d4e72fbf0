//! The settings of a line.
ghost use Rattle.std.specs.Prelude.{◌≡◌};
ghost use Rattle.flat_model.specs.Scripts.Grammar.{words};
ghost use Rattle.play_script.specs.Settings.{has_dashes, IsSet};

use crate::draft::{draft_of, fault_alone, finish, with_setting};
use crate::fault::SettingFault;
use flat_model::Config;
use script_loop::first_word;

/// Returns whether a plain line has settings: it begins with two dashes.
pub(crate) fn is_settings(plain: &[u8]) -> bool
    ensures { result ≡ has_dashes plain.now }
{
    plain.len() >= 2 && plain[0] == b'-' && plain[1] == b'-'
}

/// Applies the settings of a plain line to a configuration. Each setting is a name and a value; if a name is repeated,
/// the last value counts. This doesn't check whether a host can have the resulting configuration.
///
/// # Errors
///
/// `Unknown`, `NoValue`, `NotAddress` or `NotNumber` at the first word that is wrong. Otherwise `OtherNetwork` if the
/// line sets an address, but no broadcast address, and the first three octets of the two differ.
pub fn settings_of(plain: &[u8], config: Config) -> Result<Config, SettingFault>
    ensures { IsSet config (words plain.now) result }
{
    let mut draft = draft_of(config);
    let mut text = plain;
    'pairs: loop {
        let (name, more) = first_word(text);
        let Some(more) = more else {
            return Err(fault_alone(name));
        };
        let (value, after) = first_word(more);
        draft = with_setting(draft, name, value)?;
        match after {
            Some(next) => text = next,
            None => return finish(draft),
        }
    }
}
