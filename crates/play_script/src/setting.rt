//! The names of settings.
ghost use Rattle.std.specs.Prelude.{◌≡◌};
ghost use Rattle.play_script.specs.Settings.{setting_named};

/// A setting of a configuration: the options of `bsdudp run`.
#[derive(Clone, Copy)]
pub(crate) enum Setting {
    Addr,
    Bcast,
    Mtu,
    Mbufs,
    Clusters,
    FirstId,
}

/// Returns the setting with this name.
pub(crate) fn setting_of(word: &[u8]) -> Option<Setting>
    ensures { result ≡ setting_named word.now }
{
    if word == b"--addr".as_slice() {
        return Some(Setting::Addr);
    }
    if word == b"--bcast".as_slice() {
        return Some(Setting::Bcast);
    }
    if word == b"--mtu".as_slice() {
        return Some(Setting::Mtu);
    }
    if word == b"--mbufs".as_slice() {
        return Some(Setting::Mbufs);
    }
    if word == b"--clusters".as_slice() {
        return Some(Setting::Clusters);
    }
    if word == b"--id".as_slice() {
        return Some(Setting::FirstId);
    }
    None
}
