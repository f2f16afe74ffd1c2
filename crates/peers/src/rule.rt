use govern_rules::BigRule;

/// The rules that give orders: those for ordinary peers by their numbers, and those for big ledger peers.
#[derive(Clone, Copy, PartialEq, Eq)]
pub enum Rule {
    /// Asks peers for addresses.
    G2,
    /// Forgets peers.
    G3,
    /// Promotes members of groups.
    G4,
    /// Promotes other peers.
    G5,
    /// Releases peers.
    G6,
    /// Activates members of groups.
    G7,
    /// Activates other peers.
    G8,
    /// Deactivates peers.
    G9,
    Big(BigRule),
}
