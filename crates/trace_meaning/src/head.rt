ghost use Rattle.std.specs.Prelude.{◌≡◌};
ghost use Rattle.trace_meaning.specs.Settings.{settings_in, version_in, own_in, set_in, set_or};

use net_base::{Addr, Ip, Settings};
use trace_text::HeadLine;

/// The settings that the lines of a head give, with the usual value for each that they do not set.
pub fn settings_of(heads: &[HeadLine]) -> Settings
    ensures { result ≡ settings_in heads.now }
{
    let own = own_of(heads);
    let usual = Settings::usual(own);
    let hard = set_or(4, usual.hard, heads);
    Settings {
        version: version_of(heads),
        own,
        magic: set_or(1, usual.magic, heads),
        initiator_only: set_or(2, usual.initiator_only, heads),
        sharing: set_or(3, usual.sharing, heads),
        hard,
        soft: set_or(5, hard.min(usual.soft), heads),
        delay: set_or(6, usual.delay, heads),
        idle: set_or(7, usual.idle, heads),
        timewait: set_or(8, usual.timewait, heads),
        handshake: set_or(9, usual.handshake, heads),
        reply: set_or(10, usual.reply, heads),
        backoff: set_or(11, usual.backoff, heads),
        sharegap: set_or(12, usual.sharegap, heads),
        shares: set_or(13, usual.shares, heads),
    }
}

// The version that line 1 gives.
fn version_of(heads: &[HeadLine]) -> u64
    ensures { result ≡ version_in heads.now }
{
    for head in heads {
        if let HeadLine::Trace(version) = head {
            return *version;
        }
    }
    1
}

// The address that line 2 gives.
fn own_of(heads: &[HeadLine]) -> Addr
    ensures { result ≡ own_in heads.now }
{
    for head in heads {
        if let HeadLine::Own(address) = head {
            return *address;
        }
    }
    Addr {
        ip: Ip::V4(0),
        port: 0,
    }
}

// The value of the setting at a place, or the usual one.
fn set_or(place: u8, usual: u64, heads: &[HeadLine]) -> u64
    ensures { result ≡ set_or place usual heads.now }
{
    set_at(place, heads).unwrap_or(usual)
}

fn set_at(place: u8, heads: &[HeadLine]) -> Option<u64>
    ensures { result ≡ set_in place heads.now }
{
    for head in heads {
        match head {
            HeadLine::Set(other, value) if *other == place => return Some(*value),
            _ => {}
        }
    }
    None
}
