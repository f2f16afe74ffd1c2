use net_base::{Addr, Field, Ip, Settings, Targets};
use node_settings::{Config, ConfigRefusal, read_config};
use std::alloc::Global;
use std::process::Abort;
use std::test::Fail;

// 127.0.0.1:3001.
const OWN: Addr = Addr {
    ip: Ip::V4(0x7f00_0001),
    port: 3001,
};

fn defaults() -> Config {
    Config {
        settings: Settings::usual(OWN),
        targets: Targets {
            root: 10,
            known: 20,
            established: 10,
            active: 5,
        },
        rootttl: 3_600_000,
        tick: 1_000,
        seed: 0,
        announce: true,
    }
}

fn answer_to(alloc: Global, text: &[u8]) -> Result<Config, ConfigRefusal> {
    read_config(alloc, text)
}

// A file that has an own address and these lines is answered so.
fn expect_with(
    rt: &impl Abort,
    alloc: Global,
    lines: &str,
    wanted: Result<Config, ConfigRefusal>,
) -> Result<(), Fail> {
    let text = format!(in alloc; "own = \"127.0.0.1:3001\"\n{lines}\n")?;
    assert!(rt; answer_to(alloc, text.as_bytes()) == wanted, "{lines}");
    Ok(())
}

#[test]
fn what_a_file_does_not_set_has_a_default(rt: HostRuntime) -> Result<(), Fail> {
    let alloc = rt.alloc();
    expect_with(&rt, alloc, "", Ok(defaults()))?;
    let mut few = defaults();
    few.settings.hard = 100;
    few.settings.soft = 100;
    expect_with(&rt, alloc, "hard = 100", Ok(few))?;
    let mut other = defaults();
    other.seed = 9_223_372_036_854_775_807;
    other.announce = false;
    other.targets.known = 10_000;
    let lines = "seed = 9223372036854775807\nannounce = false\nknown = 1_0000 # most\n";
    expect_with(&rt, alloc, lines, Ok(other))
}

// Whether a file is read with this own address, or none is read of it.
fn is_own(answer: &Result<Config, ConfigRefusal>, ip: Option<Ip>) -> bool {
    match (answer, ip) {
        (Ok(config), Some(ip)) => config.settings.own.ip == ip,
        (Err(refusal), None) => *refusal == ConfigRefusal::BadSetting(Field::Own),
        _ => false,
    }
}

const OWN_ADDRESSES: [(&[u8], Option<Ip>); 8] = [
    (b"own = \"127.0.0.1:3001\"", Some(Ip::V4(0x7f00_0001))),
    (
        b"\xef\xbb\xbfown = '127.0.0.1:3001'",
        Some(Ip::V4(0x7f00_0001)),
    ),
    (b"own = \"[0:0:0:0:0:0:0:1]:3001\"", Some(Ip::V6(1))),
    (b"own = \"[::1]:3001\"", None),
    (b"own = \"127.0.0.1:03001\"", None),
    (b"own = \"127.0.0.1\"", None),
    (b"own = 5", None),
    (b"", None),
];

#[test]
fn an_own_address_is_spelled_as_in_a_trace(rt: HostRuntime) {
    for &(text, ip) in &OWN_ADDRESSES {
        assert!(rt; is_own(&answer_to(rt.alloc(), text), ip), "{text:?}");
    }
}

// A file that has an own address and these lines is refused, and this is named of it.
fn expect_named(rt: &impl Abort, alloc: Global, rows: &[(&str, Field)]) -> Result<(), Fail> {
    for (lines, field) in rows {
        let refusal = ConfigRefusal::BadSetting(*field);
        expect_with(rt, alloc, *lines, Err(refusal))?;
    }
    Ok(())
}

const WRONG_SETTINGS: [(&str, Field); 19] = [
    ("hard = 0", Field::Hard),
    ("hard = 0\ncolour = 1", Field::Unknown),
    ("version = 2", Field::Unknown),
    ("magic = 4294967296", Field::Magic),
    ("magic = -1", Field::Magic),
    ("magic = 42.0", Field::Magic),
    ("initiatoronly = true", Field::InitiatorOnly),
    ("sharing = 2", Field::Sharing),
    ("hard = '512'\nsoft = 600", Field::Hard),
    ("soft = 513", Field::Soft),
    ("hard = 100\nsoft = 101", Field::Soft),
    ("delay = 0", Field::Delay),
    ("idle = 86400001", Field::Idle),
    ("timewait = []", Field::Timewait),
    ("handshake = 0", Field::Handshake),
    ("reply = 0", Field::Reply),
    ("backoff = 0", Field::Backoff),
    ("sharegap = 0", Field::Sharegap),
    ("shares = 9\nroot = 21", Field::Shares),
];

#[test]
fn the_first_wrong_setting_is_named(rt: HostRuntime) -> Result<(), Fail> {
    expect_named(&rt, rt.alloc(), &WRONG_SETTINGS)
}

const WRONG_TARGETS: [(&str, Field); 15] = [
    ("root = 21", Field::Root),
    ("known = 9", Field::Root),
    ("root = 'x'\nknown = 'x'", Field::Root),
    ("root = 30000\nknown = 'x'", Field::Known),
    ("known = 10001", Field::Known),
    ("established = 21", Field::Established),
    ("known = 5000\nestablished = 1001", Field::Established),
    ("active = 11", Field::Active),
    ("active = 1e0\nrootttl = 0", Field::Active),
    ("rootttl = 0\ntick = 0", Field::Rootttl),
    ("tick = 86400001", Field::Tick),
    ("seed = -1", Field::Seed),
    ("seed = 1979-05-27", Field::Seed),
    ("announce = 1", Field::Announce),
    ("[announce]", Field::Announce),
];

#[test]
fn the_first_wrong_target_is_named(rt: HostRuntime) -> Result<(), Fail> {
    expect_named(&rt, rt.alloc(), &WRONG_TARGETS)
}

const NO_TOML: [&[u8]; 6] = [
    b"own =",
    b"colour = 1\nown",
    b"own = \"127.0.0.1:3001\"\nown = \"127.0.0.1:3001\"",
    b"own = \"127.0.0.1:3001\" # \xff",
    b"seed = 9223372036854775808",
    b"{}",
];

#[test]
fn what_is_no_toml_is_refused_before_all_else(rt: HostRuntime) {
    for &text in &NO_TOML {
        let answer = answer_to(rt.alloc(), text);
        assert!(rt; answer == Err(ConfigRefusal::BadToml), "{text:?}");
    }
}
