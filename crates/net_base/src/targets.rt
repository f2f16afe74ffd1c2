ghost use Rattle.std.specs.Prelude.{◌≡◌};
ghost use Rattle.net_base.specs.Bounds.{targets_fault, big_targets_fault};

use crate::Field;

/// How many ordinary peers the node is to know, keep connected and use, and how many public roots it asks for.
#[derive(Clone, Copy, PartialEq, Eq)]
pub struct Targets {
    pub root: u64,
    pub known: u64,
    pub established: u64,
    pub active: u64,
}

/// The same for big ledger peers, which have no root target.
#[derive(Clone, Copy, PartialEq, Eq)]
pub struct BigTargets {
    pub known: u64,
    pub established: u64,
    pub active: u64,
}

impl Targets {
    /// The first field that breaks a bound: at most 10,000 known, 1,000 established and 100 active, the active
    /// at most the established, those at most the known, and the roots at most the known.
    pub fn check(&self) -> Option<Field>
        ensures { result ≡ targets_fault self.now }
    {
        if self.root > self.known {
            return Some(Field::Root);
        }
        BigTargets {
            known: self.known,
            established: self.established,
            active: self.active,
        }
        .check()
    }
}

impl BigTargets {
    /// The first field that breaks a bound. The bounds are those of the ordinary targets.
    pub fn check(&self) -> Option<Field>
        ensures { result ≡ big_targets_fault self.now }
    {
        if self.known > 10_000 {
            Some(Field::Known)
        } else if self.established > 1_000 || self.established > self.known {
            Some(Field::Established)
        } else if self.active > 100 || self.active > self.established {
            Some(Field::Active)
        } else {
            None
        }
    }
}
