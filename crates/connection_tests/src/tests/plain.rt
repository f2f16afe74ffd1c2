use super::NONE_RUNNING;
use net_base::{Addr, Cid, Facts, Grace, OutOfMemory, Phase, Provenance, Responders, Settings};
use std::alloc::Global;

pub(super) mod calls;

// The table as a plain list, through which every look-up goes.
#[derive(Drop)]
pub struct PlainTable {
    pub settings: Settings,
    pub facts: Vec<Facts>,
    pub given: u64,
}

impl PlainTable {
    pub fn new(alloc: Global, settings: &Settings) -> PlainTable {
        PlainTable {
            settings: *settings,
            facts: Vec::new(alloc),
            given: 0,
        }
    }

    pub fn enter(
        &mut self,
        addr: Addr,
        provenance: Provenance,
        phase: Phase,
    ) -> Result<Cid, OutOfMemory> {
        let cid = Cid(self.given.saturating_add(1));
        self.facts.push(Facts {
            cid,
            addr,
            provenance,
            phase,
            agreed: None,
            local: false,
            running: NONE_RUNNING,
            grace: Grace::Off,
        })?;
        self.given = cid.0;
        Ok(cid)
    }

    pub fn drop_conn(&mut self, cid: Cid) {
        self.facts.retain(|facts| facts.cid != cid);
    }

    pub fn facts(&self, cid: Cid) -> Option<Facts> {
        for facts in &self.facts {
            if facts.cid == cid {
                return Some(*facts);
            }
        }
        None
    }

    pub fn live_facts(&self, addr: Addr) -> Option<Facts> {
        for facts in &self.facts {
            if facts.addr == addr && is_live(facts) {
                return Some(*facts);
            }
        }
        None
    }

    pub fn live_of(&self, addr: Addr) -> Option<Cid> {
        Some(self.live_facts(addr)?.cid)
    }

    pub fn any_of(&self, addr: Addr) -> bool {
        for facts in &self.facts {
            if facts.addr == addr {
                return true;
            }
        }
        false
    }

    pub fn counted(&self) -> u64 {
        let mut counted: u64 = 0;
        for facts in &self.facts {
            if is_counted(facts) {
                counted = counted.saturating_add(1);
            }
        }
        counted
    }

    // Puts new facts in the place of those with their id.
    pub fn replace(&mut self, new: Facts) {
        for facts in self.facts.iter_mut() {
            if facts.cid == new.cid {
                *facts = new;
            }
        }
    }
}

fn is_live(facts: &Facts) -> bool {
    !matches!(facts.phase, Phase::Closing(_))
}

fn is_counted(facts: &Facts) -> bool {
    match facts.phase {
        Phase::Dialing | Phase::Closing(_) => false,
        Phase::Greeting(_) => facts.provenance == Provenance::FromRemote,
        Phase::Negotiated => some_runs(facts.running)
            || (!facts.local && matches!(facts.grace, Grace::ForRemote(_))),
    }
}

fn some_runs(running: Responders) -> bool {
    running != NONE_RUNNING
}
