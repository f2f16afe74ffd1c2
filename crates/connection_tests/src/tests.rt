ghost use Rattle.std.specs.Prelude.{◌≡◌};
ghost use Rattle.net_base.specs.Bounds.{AreSound};
ghost use Rattle.net_base.specs.declared.address.Ip.TheVariants.{V4};

use net_base::{Addr, Agreed, Ip, Responders, Settings};

mod chunks;
mod gate;
mod least;
mod link_rows;
mod order;
mod plain;
mod pruning;
mod shared;
mod states;
mod table;
mod threads;
mod timers;

const LOOPBACK: Ip = Ip::V4(2_130_706_433);

// Settings with the usual limits.
fn settings() -> Settings
    ensures sound { AreSound result }
    ensures hard { result.hard ≡ 512 }
{
    Settings::usual(local(3001))
}

// 127.0.0.1 with a port.
fn local(port: u16) -> Addr
    ensures { result ≡ record { ip = V4 2130706433; port = port } }
{
    Addr { ip: LOOPBACK, port }
}

const AT_3002: Addr = Addr {
    ip: LOOPBACK,
    port: 3002,
};

const AT_3003: Addr = Addr {
    ip: LOOPBACK,
    port: 3003,
};

const AT_3004: Addr = Addr {
    ip: LOOPBACK,
    port: 3004,
};

const AT_3005: Addr = Addr {
    ip: LOOPBACK,
    port: 3005,
};

const AT_3006: Addr = Addr {
    ip: LOOPBACK,
    port: 3006,
};

const BOTH_WAYS: Agreed = Agreed {
    version: 14,
    initiator_only: false,
    sharing: true,
};

const NONE_RUNNING: Responders = Responders {
    chain_sync: false,
    block_fetch: false,
    tx_submission: false,
    keep_alive: false,
    peer_sharing: false,
};

// A number that follows another in no order that shows.
fn next_word(word: u64) -> u64 {
    word.wrapping_mul(6_364_136_223_846_793_005)
        .wrapping_add(1_442_695_040_888_963_407)
}
