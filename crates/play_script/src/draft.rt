//! A configuration while the settings of a line are parsed.
ghost use Rattle.std.specs.Prelude.{◌≡◌, ◌<◌};
ghost use Rattle.play_script.specs.Settings.{Sets, SetsNamed, alone_fault, drafted, finished, setting_named};
ghost use Rattle.play_script.specs.declared.setting.Setting.TheVariants as setting;

use crate::fault::SettingFault;
use crate::setting::{Setting, setting_of};
use flat_model::Config;
use request::address_of;
use script_loop::number;

/// A configuration, and which of its addresses the line has set.
#[derive(Clone, Copy)]
pub(crate) struct Draft {
    pub(crate) config: Config,
    pub(crate) addr: bool,
    pub(crate) bcast: bool,
}

/// Returns the draft before the first setting of a line.
pub(crate) fn draft_of(config: Config) -> Draft
    ensures { result ≡ drafted config }
{
    Draft {
        config,
        addr: false,
        bcast: false,
    }
}

fn with_addr(old: Draft, value: &[u8]) -> Result<Draft, SettingFault>
    ensures { Sets old setting.Addr value.now result }
{
    let Some(addr) = address_of(value) else {
        return Err(SettingFault::NotAddress);
    };
    Ok(Draft {
        config: Config { addr, ..old.config },
        addr: true,
        bcast: old.bcast,
    })
}

fn with_bcast(old: Draft, value: &[u8]) -> Result<Draft, SettingFault>
    ensures { Sets old setting.Bcast value.now result }
{
    let Some(bcast) = address_of(value) else {
        return Err(SettingFault::NotAddress);
    };
    Ok(Draft {
        config: Config {
            bcast,
            ..old.config
        },
        addr: old.addr,
        bcast: true,
    })
}

fn with_mtu(old: Draft, value: &[u8]) -> Result<Draft, SettingFault>
    ensures { Sets old setting.Mtu value.now result }
{
    let Some(mtu) = number(value, u32::from(u16::MAX)) else {
        return Err(SettingFault::NotNumber);
    };
    Ok(Draft {
        config: Config {
            mtu: mtu as u16,
            ..old.config
        },
        addr: old.addr,
        bcast: old.bcast,
    })
}

fn with_mbufs(old: Draft, value: &[u8]) -> Result<Draft, SettingFault>
    ensures { Sets old setting.Mbufs value.now result }
{
    let Some(mbufs) = number(value, u32::MAX) else {
        return Err(SettingFault::NotNumber);
    };
    Ok(Draft {
        config: Config {
            mbufs,
            ..old.config
        },
        addr: old.addr,
        bcast: old.bcast,
    })
}

fn with_clusters(old: Draft, value: &[u8]) -> Result<Draft, SettingFault>
    ensures { Sets old setting.Clusters value.now result }
{
    let Some(clusters) = number(value, u32::MAX) else {
        return Err(SettingFault::NotNumber);
    };
    Ok(Draft {
        config: Config {
            clusters,
            ..old.config
        },
        addr: old.addr,
        bcast: old.bcast,
    })
}

fn with_first_id(old: Draft, value: &[u8]) -> Result<Draft, SettingFault>
    ensures { Sets old setting.FirstId value.now result }
{
    let Some(first_id) = number(value, u32::from(u16::MAX)) else {
        return Err(SettingFault::NotNumber);
    };
    Ok(Draft {
        config: Config {
            first_id: first_id as u16,
            ..old.config
        },
        addr: old.addr,
        bcast: old.bcast,
    })
}

/// Returns the draft with this setting; `value` is the word with its value.
pub(crate) fn with_setting(old: Draft, name: &[u8], value: &[u8]) -> Result<Draft, SettingFault>
    ensures { SetsNamed (setting_named name.now) old value.now result }
{
    let Some(setting) = setting_of(name) else {
        return Err(SettingFault::Unknown);
    };
    match setting {
        Setting::Addr => with_addr(old, value),
        Setting::Bcast => with_bcast(old, value),
        Setting::Mtu => with_mtu(old, value),
        Setting::Mbufs => with_mbufs(old, value),
        Setting::Clusters => with_clusters(old, value),
        Setting::FirstId => with_first_id(old, value),
    }
}

/// Returns the fault for a name without a value.
pub(crate) fn fault_alone(name: &[u8]) -> SettingFault
    ensures { result ≡ alone_fault (setting_named name.now) }
{
    match setting_of(name) {
        Some(_) => SettingFault::NoValue,
        None => SettingFault::Unknown,
    }
}

/// Returns the configuration after the last setting of a line.
pub(crate) fn finish(draft: Draft) -> Result<Config, SettingFault>
    ensures { result ≡ finished draft }
{
    let config = draft.config;
    if draft.addr && !draft.bcast && config.addr / 256 != config.bcast / 256 {
        return Err(SettingFault::OtherNetwork);
    }
    Ok(config)
}
