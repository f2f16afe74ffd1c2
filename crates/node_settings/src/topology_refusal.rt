use net_base::{Field, OutOfMemory};
use thiserror::Error;

/// Why bytes are no topology file.
#[derive(Clone, Copy, Debug, PartialEq, Eq, Error)]
pub enum TopologyRefusal {
    /// They are no UTF-8, no JSON text, or another JSON value than an object.
    #[error("no JSON object")]
    BadJson,
    /// The first member that is wrong: it is missing, of another type or out of its range.
    #[error("the field {0:?} is wrong")]
    BadSetting(Field),
    #[error("out of memory")]
    OutOfMemory,
}

impl From<OutOfMemory> for TopologyRefusal {
    ghost use Rattle.std.specs.Prelude.{◌≡◌};
    ghost use Rattle.node_settings.specs.declared.topology_refusal.TopologyRefusal.TheVariants.{OutOfMemory as NoMemory};

    ghost from_gives = { λ _ refusal. refusal ≡ NoMemory };

    fn from(_: OutOfMemory) -> Self {
        TopologyRefusal::OutOfMemory
    }
}

impl From<Field> for TopologyRefusal {
    ghost use Rattle.std.specs.Prelude.{◌≡◌};
    ghost use Rattle.node_settings.specs.declared.topology_refusal.TopologyRefusal.TheVariants.{BadSetting};

    ghost from_gives = { λ field refusal. refusal ≡ BadSetting field };

    fn from(field: Field) -> Self {
        TopologyRefusal::BadSetting(field)
    }
}
