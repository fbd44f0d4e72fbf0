//! Values from outside sources, and texts that no contract mentions. A failing row of a table is reported by its name.
use flat_model::{Config, ConfigFault, Counter, Counters, Errno, Lack, Why, fold};

/// Bytes, and their folded sum: the numerical example of RFC 1071, section 3, the header of a packet that Wikipedia's
/// article "Internet checksum" works out, and sums that are obvious.
static SUMS: [(&str, &[u8], u16); 6] = [
    (
        "RFC 1071",
        &[0x00, 0x01, 0xf2, 0x03, 0xf4, 0xf5, 0xf6, 0xf7],
        0xddf2,
    ),
    (
        "RFC 1071, without its last byte",
        &[0x00, 0x01, 0xf2, 0x03, 0xf4, 0xf5, 0xf6],
        0xdcfb,
    ),
    (
        "a header without its checksum, which is 0xb861",
        &[
            0x45, 0x00, 0x00, 0x73, 0x00, 0x00, 0x40, 0x00, 0x40, 0x11, 0x00, 0x00, 0xc0, 0xa8,
            0x00, 0x01, 0xc0, 0xa8, 0x00, 0xc7,
        ],
        0x479e,
    ),
    (
        "a word and its complement",
        &[0x12, 0x34, 0xed, 0xcb],
        0xffff,
    ),
    ("one byte", &[0x01], 0x0100),
    ("no bytes", &[], 0),
];

#[test]
fn folds_outside_vectors(rt: HostRuntime) {
    for (case, bytes, folded) in SUMS {
        assert!(rt; fold(bytes) == folded, "{case}");
    }
}

const PLAIN: Config = Config {
    addr: 0x0a00_0001,
    bcast: 0x0a00_00ff,
    mtu: 1500,
    mbufs: 512,
    clusters: 64,
    first_id: 1,
};

/// Configurations, and the first fault of each.
static CONFIGS: [(&str, Config, Result<(), ConfigFault>); 7] = [
    ("a plain one", PLAIN, Ok(())),
    (
        "the least sizes and MTU",
        Config {
            mbufs: 1,
            clusters: 0,
            mtu: 68,
            ..PLAIN
        },
        Ok(()),
    ),
    (
        "the greatest sizes, and a large MTU",
        Config {
            mbufs: 65_535,
            clusters: 4_096,
            mtu: 4352,
            ..PLAIN
        },
        Ok(()),
    ),
    (
        "no mbuf, and a small MTU",
        Config {
            mbufs: 0,
            mtu: 67,
            ..PLAIN
        },
        Err(ConfigFault::BadSizes),
    ),
    (
        "too many clusters",
        Config {
            clusters: 4_097,
            ..PLAIN
        },
        Err(ConfigFault::BadSizes),
    ),
    (
        "a loopback address",
        Config {
            addr: 0x7f00_0001,
            ..PLAIN
        },
        Err(ConfigFault::BadConfig),
    ),
    (
        "a broadcast address that is the machine's own",
        Config {
            bcast: 0x0a00_0001,
            ..PLAIN
        },
        Err(ConfigFault::BadConfig),
    ),
];

#[test]
fn reports_the_first_fault(rt: HostRuntime) {
    for (case, config, outcome) in CONFIGS {
        assert!(rt; config.check() == outcome, "{case}");
    }
}

/// The texts of 4.4BSD's `sys_errlist`, and what was lacking.
static TEXTS: [(Errno, &str); 3] = [
    (Errno::BadDescriptor, "bad file descriptor"),
    (
        Errno::NoBufs(Lack::Queue),
        "no buffer space available (queue)",
    ),
    (Errno::HostUnreachable, "no route to host"),
];

#[test]
fn displays_the_words_of_the_book(rt: HostRuntime) {
    for (errno, text) in TEXTS {
        let shown = format!(in rt.alloc(); "{errno}").expect(&rt, "memory");
        assert!(rt; shown.as_str() == text, "{text}");
    }
}

#[test]
fn the_greatest_value_stays(rt: HostRuntime) {
    let mut counters = Counters::none();
    counters.count_more(Counter::Nobufs, u64::MAX - 1);
    for _ in 0..3 {
        counters.count_ended(Why::NoBufs);
    }
    assert!(rt;
        counters.value(Counter::Nobufs) == u64::MAX && counters.value(Counter::IpTotal) == 0
    );
}

#[test]
fn a_counter_has_its_name(rt: HostRuntime) {
    assert!(rt; Counter::all()[25].name() == "nobufs");
}
