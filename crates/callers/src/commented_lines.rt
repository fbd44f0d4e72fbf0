//! A script with a comment and an expected reply.
use flat_model::Config;
use play_script::{Form, Style, play};
use std::alloc::Global;

/// The host 10.0.0.1 of the network 10.0.0.0/24.
const HOST: Config = Config {
    addr: 0x0a00_0001,
    bcast: 0x0a00_00ff,
    mtu: 1500,
    mbufs: 512,
    clusters: 64,
    first_id: 1,
};

/// Returns whether all expectations of the script are met.
pub fn holds(alloc: Global, script: &[u8]) -> bool {
    let style = Style {
        form: Form::Quiet,
        name: b"script",
    };
    let mut reader = script;
    let mut written = Vec::new(alloc);
    let played = play(alloc, HOST, style, &mut reader, &mut written);
    played.status() == 0
}
