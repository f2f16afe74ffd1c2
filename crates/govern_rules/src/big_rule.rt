/// The rules for big ledger peers, numbered as the rules for ordinary peers that they go with.
#[derive(Clone, Copy, PartialEq, Eq)]
pub enum BigRule {
    /// Forgets where more are known than wanted.
    B3,
    /// Promotes where fewer are established than wanted.
    B5,
    /// Releases where more are established than wanted.
    B6,
    /// Activates where fewer are active than wanted.
    B8,
    /// Deactivates where more are active than wanted.
    B9,
}
