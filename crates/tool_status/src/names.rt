ghost use Rattle.std.specs.Prelude.{◌≡◌};
ghost use Rattle.tool_status.specs.Status.{field_name, what_name, which_name};

use crate::{What, Which};
use net_base::Field;

impl Which {
    /// The file, as statuses name it.
    pub fn name(self) -> &'static str
        ensures { result.now ≡ which_name self }
    {
        match self {
            Which::Conf => "settings",
            Which::Topo => "topology",
        }
    }
}

impl What {
    /// What is refused, as statuses name it.
    pub fn name(self) -> &'static str
        ensures { result.now ≡ what_name self }
    {
        match self {
            What::Toml => "toml",
            What::Json => "json",
            What::Named(field) => field_name(field),
        }
    }
}

// The name of a setting, or of a member of one of the files.
fn field_name(field: Field) -> &'static str
    ensures { result.now ≡ field_name field }
{
    match field {
        Field::Version => "version",
        Field::Own => "own",
        Field::Magic => "magic",
        Field::InitiatorOnly => "initiatoronly",
        Field::Sharing => "sharing",
        Field::Hard => "hard",
        Field::Soft => "soft",
        Field::Delay => "delay",
        Field::Idle => "idle",
        Field::Timewait => "timewait",
        Field::Handshake => "handshake",
        Field::Reply => "reply",
        Field::Backoff => "backoff",
        Field::Sharegap => "sharegap",
        Field::Shares => "shares",
        Field::Root => "root",
        Field::Known => "known",
        Field::Established => "established",
        Field::Active => "active",
        Field::Rootttl => "rootttl",
        Field::Tick => "tick",
        Field::Seed => "seed",
        Field::Announce => "announce",
        Field::LocalRoots => "localRoots",
        Field::AccessPoints => "accessPoints",
        Field::Address => "address",
        Field::Port => "port",
        Field::Advertise => "advertise",
        Field::HotValency => "hotValency",
        Field::Valency => "valency",
        Field::WarmValency => "warmValency",
        Field::PublicRoots => "publicRoots",
        Field::Unknown => "unknown",
    }
}
