use net_base::{Addr, Ip};
use std::hash::{Hash, Hasher};

// An address as the key of a map.
#[derive(Clone, Copy, PartialEq, Eq)]
pub struct Hashed(pub Addr);

impl Hash for Hashed {
    ghost use Rattle.std.proofs.Common.{rules};
    ghost use Rattle.std.specs.Cmp.Rules.{hashing};
    ghost use Rattle.clean_groups.specs.Hashing.{written};

    ghost hash_input = { λ key. written key.0 };

    ghost respects_eq = { Prim.search (hashing, rules) };

    fn hash<H: Hasher>(&self, state: &mut H) {
        match self.0.ip {
            Ip::V4(ip) => ip.hash(state),
            Ip::V6(ip) => ip.hash(state),
        }
        self.0.port.hash(state);
    }
}
