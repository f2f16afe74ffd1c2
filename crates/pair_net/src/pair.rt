ghost use Rattle.std.specs.Prelude.{◌≡◌, false, IfOk};
ghost use Rattle.pair_net.specs.Law.{AgreesAlike};
ghost use Rattle.pair_net.specs.Pair.{fresh_pair, end_of};
ghost use Rattle.pair_net.specs.Steps.{IsTurn, stepped};

use crate::both_ends::BothEnds;
use crate::{End, EndPhase, NoteList, PairStep};
use hs_message::VersionInfo;
use net_base::OutOfMemory;
use std::alloc::Global;
use std::marker::Model;

/// Two ends that shake hands, and between them two pipes that lose nothing and keep the order of the bytes. Every pair is
/// one that some steps lead to.
#[derive(Drop)]
pub struct Pair {
    alloc: Global,
    ends: BothEnds,
}

// What an end says of itself of which nothing is known.
const NOBODY: VersionInfo = VersionInfo {
    magic: 0,
    initiator_only: false,
    sharing: false,
    query: false,
};

impl Model for Pair {
    ghost use Rattle.pair_net.specs.Law.{IsReached};
    ghost use Rattle.pair_net.specs.Pair.{PairState};

    ghost Value = { PairState };

    ghost view = { λ p. p.ends };

    ghost invariant = { λ p. IsReached p.ends };
}

impl Pair {
    /// Two fresh ends that say this of themselves, and empty pipes. Takes no memory.
    pub fn new(alloc: Global, left: VersionInfo, right: VersionInfo) -> Self
        requires left_offers { left.query ≡ false }
        requires right_offers { right.query ≡ false }
        ensures { result ≡ fresh_pair left right }
    {
        Pair {
            alloc,
            ends: BothEnds::new(alloc, left, right),
        }
    }

    /// How far an end has come. Where both have agreed, they have agreed on the same version, flow and sharing.
    pub fn phase(&self, end: End) -> EndPhase
        ensures phase { result ≡ (end_of end self.now).phase }
        ensures alike { AgreesAlike self.now }
    {
        self.ends.phase(end)
    }

    /// The pair after a step, and what is told of it. Where memory is refused the pair is gone.
    pub fn step(self, step: PairStep) -> Result<(Pair, NoteList), OutOfMemory>
        ensures turn { IfOk result (λ turned. IsTurn (stepped step self) turned.0 turned.1) }
        ensures alike { IfOk result (λ turned. AgreesAlike turned.0) }
    {
        let mut pair = self;
        let notes = pair.advance(step)?;
        Ok((pair, notes))
    }

    /// The same where the pair stands. Where memory is refused another pair stands there, of two fresh ends.
    pub(crate) fn advance(&mut self, step: PairStep) -> Result<NoteList, OutOfMemory>
        ensures turn { IfOk result (IsTurn (stepped step self.old) self.new) }
        ensures alike { AgreesAlike self.new }
    {
        match self.ends.step(step) {
            Ok(notes) => Ok(notes),
            Err(refused) => {
                self.ends = BothEnds::new(self.alloc, NOBODY, NOBODY);
                Err(refused)
            }
        }
    }
}
