use net_base::Field;

/// Why no engine is made.
#[derive(Clone, Copy, PartialEq, Eq)]
pub enum NewRefusal {
    /// A setting is out of its range.
    BadSetting(Field),
    OutOfMemory,
}
