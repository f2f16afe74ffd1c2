ghost use Rattle.std.specs.Prelude.{◌≡◌};
ghost use Rattle.peers.specs.State.{nobody};

mod changes;
mod coming;
mod rules;
mod telling;

use net_base::{AddrList, BigTargets, Targets};
use peer_book::PeerBook;
use root_groups::{Groups, Roots};
use std::alloc::Global;
use std::marker::Model;

/// What is known of peers, and what is wanted of them.
pub struct Peers {
    alloc: Global,
    targets: Targets,
    big_targets: BigTargets,
    groups: Groups,
    roots: Roots,
    book: PeerBook,
    // what may be told to anyone, from the first request for addresses on until that may be another
    tellable: Option<AddrList>,
}

impl Model for Peers {
    ghost use Rattle.std.specs.Prelude.{IfSome};
    ghost use Rattle.peers.specs.State.{PeerState};
    ghost use Rattle.share_rounds.specs.Rounds.{AreTellable};

    ghost Value = { PeerState };

    ghost view = { λ p. record {
      targets = p.targets;
      big_targets = p.big_targets;
      groups = p.groups;
      roots = p.roots;
      peers = p.book;
    } };

    ghost invariant = { λ p. IfSome p.tellable (λ addrs. AreTellable addrs p.book p.groups p.roots.publics) };
}

// By hand, so that it is a function, and not said anew in each function that may let them go.
impl Drop for Peers {
    fn drop(self) {
        let Peers {
            alloc: _,
            targets: _,
            big_targets: _,
            groups: _,
            roots: _,
            book: _,
            tellable: _,
        } = self;
    }
}

impl Peers {
    /// Nobody is known, and nobody is wanted. Takes no memory.
    pub fn new(alloc: Global) -> Peers
        ensures { result ≡ nobody }
    {
        Peers {
            alloc,
            targets: Targets {
                root: 0,
                known: 0,
                established: 0,
                active: 0,
            },
            big_targets: BigTargets {
                known: 0,
                established: 0,
                active: 0,
            },
            groups: Groups::new(alloc),
            roots: Roots::new(alloc),
            book: PeerBook::new(alloc),
            tellable: None,
        }
    }

    /// The peers that are known.
    pub fn book(&self) -> &PeerBook
        ensures { result.now ≡ self.now.peers }
    {
        &self.book
    }

    /// The targets are set.
    pub fn set_targets(&mut self, targets: Targets)
        ensures { self.new ≡ record self.old { targets = targets } }
    {
        self.targets = targets;
    }

    /// Those for big ledger peers are.
    pub fn set_big_targets(&mut self, targets: BigTargets)
        ensures { self.new ≡ record self.old { big_targets = targets } }
    {
        self.big_targets = targets;
    }
}
