ghost use Rattle.std.specs.Prelude.{◌≡◌};
ghost use Rattle.net_base.specs.Bounds.{settings_fault, first_failing, within, usual};

use crate::{Addr, INTERVAL_MOST};

/// A member of `Settings`, or a name of the settings file or the topology file.
#[derive(Clone, Copy, Debug, PartialEq, Eq)]
pub enum Field {
    Version,
    Own,
    Magic,
    InitiatorOnly,
    Sharing,
    Hard,
    Soft,
    Delay,
    Idle,
    Timewait,
    Handshake,
    Reply,
    Backoff,
    Sharegap,
    Shares,
    Root,
    Known,
    Established,
    Active,
    Rootttl,
    Tick,
    Seed,
    Announce,
    LocalRoots,
    AccessPoints,
    Address,
    Port,
    Advertise,
    HotValency,
    Valency,
    WarmValency,
    PublicRoots,
    Unknown,
}

/// What an operator sets. Times are milliseconds.
#[derive(Clone, Copy, PartialEq, Eq)]
pub struct Settings {
    /// The version of the trace format, 1 or 2. Version 1 has no IPv6 and no big ledger peers.
    pub version: u64,
    /// The node's own address.
    pub own: Addr,
    /// The network magic.
    pub magic: u64,
    /// 1 where the node runs no responder for those that it dials, else 0.
    pub initiator_only: u64,
    /// 1 where the node takes part in peer sharing, else 0.
    pub sharing: u64,
    /// How many counted connections there may be.
    pub hard: u64,
    /// Above how many of them accepting is slowed down.
    pub soft: u64,
    /// The longest pause in accepting.
    pub delay: u64,
    /// How long an unused connection is kept.
    pub idle: u64,
    /// How long a closed connection is kept.
    pub timewait: u64,
    /// How long a handshake may take.
    pub handshake: u64,
    /// How long a reply may take.
    pub reply: u64,
    /// How long a peer is left alone after its first failure.
    pub backoff: u64,
    /// How long a peer is not asked again for addresses.
    pub sharegap: u64,
    /// How many peers are asked for addresses at once.
    pub shares: u64,
}

impl Settings {
    /// What a node with an address of its own has where its operator sets nothing: the newest version of the trace
    /// format, and this project's own limits and times.
    pub const fn usual(own: Addr) -> Settings
        ensures { result ≡ usual own }
    {
        Settings {
            version: 2,
            own,
            magic: 42,
            initiator_only: 0,
            sharing: 1,
            hard: 512,
            soft: 384,
            delay: 5_000,
            idle: 5_000,
            timewait: 60_000,
            handshake: 10_000,
            reply: 10_000,
            backoff: 5_000,
            sharegap: 900_000,
            shares: 2,
        }
    }

    /// The first field out of its range, in the order of the fields. `own` has no range.
    pub fn check(&self) -> Option<Field>
        ensures { result ≡ settings_fault self.now }
    {
        let tests = [
            (Field::Version, is_within(1, 2, self.version)),
            (Field::Magic, self.magic <= 4_294_967_295),
            (Field::InitiatorOnly, self.initiator_only <= 1),
            (Field::Sharing, self.sharing <= 1),
            (Field::Hard, is_within(1, 10_000, self.hard)),
            (Field::Soft, self.soft <= self.hard),
            (Field::Delay, is_interval(self.delay)),
            (Field::Idle, is_interval(self.idle)),
            (Field::Timewait, is_interval(self.timewait)),
            (Field::Handshake, is_interval(self.handshake)),
            (Field::Reply, is_interval(self.reply)),
            (Field::Backoff, is_interval(self.backoff)),
            (Field::Sharegap, is_interval(self.sharegap)),
            (Field::Shares, self.shares <= 8),
        ];
        first_of(&tests)
    }
}

fn is_within(least: u64, most: u64, number: u64) -> bool
    ensures { result ≡ within least most number }
{
    least <= number && number <= most
}

fn is_interval(number: u64) -> bool
    ensures { result ≡ within 1 86_400_000 number }
{
    is_within(1, INTERVAL_MOST, number)
}

// The first field whose test failed.
fn first_of(tests: &[(Field, bool)]) -> Option<Field>
    ensures { result ≡ first_failing tests.now }
{
    for (field, holds) in tests {
        if !*holds {
            return Some(*field);
        }
    }
    None
}
