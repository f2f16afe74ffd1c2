use net_base::{Addr, Field, Ip, Settings};
use std::process::Abort;

const USUAL: Settings = Settings {
    version: 2,
    own: Addr {
        ip: Ip::V4(0x7f00_0001),
        port: 3001,
    },
    magic: 42,
    initiator_only: 0,
    sharing: 1,
    hard: 512,
    soft: 384,
    delay: 5000,
    idle: 5000,
    timewait: 60_000,
    handshake: 10_000,
    reply: 10_000,
    backoff: 5000,
    sharegap: 900_000,
    shares: 2,
};

const DAY: u64 = 86_400_000;

fn is_judged(settings: &Settings, field: Field) -> bool {
    settings.check() == Some(field)
}

// The usual settings, but for one.
fn with(field: Field, value: u64) -> Settings {
    let mut settings = USUAL;
    match field {
        Field::Version => settings.version = value,
        Field::Magic => settings.magic = value,
        Field::InitiatorOnly => settings.initiator_only = value,
        Field::Sharing => settings.sharing = value,
        Field::Hard => settings.hard = value,
        Field::Soft => settings.soft = value,
        Field::Delay => settings.delay = value,
        Field::Idle => settings.idle = value,
        Field::Timewait => settings.timewait = value,
        Field::Handshake => settings.handshake = value,
        Field::Reply => settings.reply = value,
        Field::Backoff => settings.backoff = value,
        Field::Sharegap => settings.sharegap = value,
        Field::Shares => settings.shares = value,
        _ => {}
    }
    settings
}

// Values that are out of range.
const OUT_OF_RANGE: [(Field, u64); 15] = [
    (Field::Version, 3),
    (Field::Magic, 4_294_967_296),
    (Field::InitiatorOnly, 2),
    (Field::Sharing, 2),
    (Field::Hard, 0),
    (Field::Hard, 10_001),
    (Field::Soft, 513),
    (Field::Delay, 0),
    (Field::Idle, DAY + 1),
    (Field::Timewait, 0),
    (Field::Handshake, 0),
    (Field::Reply, DAY + 1),
    (Field::Backoff, 0),
    (Field::Sharegap, 0),
    (Field::Shares, 9),
];

#[test]
fn each_range_is_named_by_its_field(rt: HostRuntime) {
    assert!(rt; Settings::usual(USUAL.own) == USUAL);
    assert!(rt; USUAL.check().is_none());
    for &(field, value) in &OUT_OF_RANGE {
        assert!(rt; is_judged(&with(field, value), field), "at {value}");
    }
}

#[test]
fn the_version_is_judged_first(rt: HostRuntime) {
    let version = Settings {
        version: 0,
        shares: 9,
        ..USUAL
    };
    assert!(rt; is_judged(&version, Field::Version));
    let hard = Settings {
        hard: 0,
        shares: 9,
        ..USUAL
    };
    assert!(rt; is_judged(&hard, Field::Hard));
}
