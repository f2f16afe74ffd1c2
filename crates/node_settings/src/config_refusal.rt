use net_base::Field;
use thiserror::Error;

/// Why bytes are no settings file.
#[derive(Clone, Copy, Debug, PartialEq, Eq, Error)]
pub enum ConfigRefusal {
    /// They are no UTF-8, or no TOML document.
    #[error("no TOML document")]
    BadToml,
    /// The first field that is wrong: it is unknown, missing, of another type or out of its range.
    #[error("the field {0:?} is wrong")]
    BadSetting(Field),
    #[error("out of memory")]
    OutOfMemory,
}
