use net_base::{Settings, Targets};

/// What a node of a kind does.
#[derive(Clone, Copy)]
pub enum Role {
    /// It is an engine.
    Honest,
    /// An attacker's: it answers all, and questions for addresses with the attacker's own.
    Answering,
    /// An attacker's: it agrees with whoever comes, and answers nothing.
    Silent,
}

/// The local roots of a node: some of a kind.
#[derive(Clone, Copy)]
pub struct Friends {
    /// How many each node draws.
    pub count: u64,
    /// The place of the kind that they are of.
    pub kind: usize,
    pub hot: u64,
    pub warm: u64,
    pub advertise: bool,
}

/// Nodes that are alike. Times are milliseconds.
#[derive(Drop)]
pub struct Kind {
    pub name: String,
    pub role: Role,
    pub count: u64,
    /// The time within which they begin.
    pub within: u64,
    /// Nobody reaches them: they dial alone.
    pub hidden: bool,
    /// How many of them the root provider knows.
    pub public: u64,
    /// The time between two looks of the governor, or of an attacker for slots to take.
    pub tick: u64,
    /// How many connections an attacker's node tries to hold that it dialed.
    pub holds: u64,
    /// Their settings but for the address, which is that of nobody here.
    pub settings: Settings,
    pub targets: Targets,
    pub friends: Option<Friends>,
}
