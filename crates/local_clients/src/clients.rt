ghost use Rattle.std.specs.Prelude.{◌≡◌, ℕ, ◌+◌, ◌≤◌, ◌<◌, IfOk, OnOk, Some};
ghost use Rattle.local_clients.specs.Law.{LeavesOpen, TurnsAway};
ghost use Rattle.local_clients.specs.Rules.{AreInRange, CanHappen};
ghost use Rattle.local_clients.specs.Clients.{no_clients, live, open_version, stepped};

use crate::table::Table;
use crate::{ClientActions, ClientEvent, ClientRules};
use net_base::OutOfMemory;
use std::alloc::Global;
use std::marker::Model;

/// The clients of a node on the same machine.
#[derive(Drop)]
pub struct Clients {
    rules: ClientRules,
    taken: u64,
    table: Table,
}

impl Model for Clients {
    ghost use Rattle.local_clients.specs.Clients.{ClientsState};
    ghost use Rattle.local_clients.specs.Kept.{AreKept};

    ghost Value = { ClientsState };

    ghost view = { λ c. record { rules = c.rules; taken = c.taken; table = c.table } };

    ghost invariant = { λ c. AreKept (record { rules = c.rules; taken = c.taken; table = c.table }) };
}

impl Clients {
    /// Nobody connected yet, at moment 0. Takes no memory.
    pub fn new(alloc: Global, rules: ClientRules) -> Self
        requires { AreInRange rules }
        ensures { result ≡ record { rules = rules; taken = 0; table = no_clients } }
    {
        Clients {
            rules,
            taken: 0,
            table: Table::new(alloc),
        }
    }

    /// How many events there were.
    pub fn taken(&self) -> u64
        ensures taken { result ≡ self.now.taken }
        ensures few { result ≤ 1000000 }
    {
        self.taken
    }

    /// How many clients there are.
    pub fn live(&self) -> u64
        ensures live { result ≡ live self.now.table }
        ensures few { result ≤ self.now.rules.limit }
    {
        self.table.live()
    }

    /// The version that a client agreed on. None where there is no such client, or it still shakes hands.
    pub fn open(&self, id: u64) -> Option<u64>
        ensures { result ≡ open_version id self.now.table }
    {
        self.table.open_version(id)
    }

    /// The clients after an event, and what is done. There are never more than the limit, somebody is turned away exactly there,
    /// and an open client goes only where it says so, or by a fault of its own bytes. Where memory is refused the clients are gone.
    pub fn step(self, event: ClientEvent) -> Result<(Clients, ClientActions), OutOfMemory>
        requires few { self.taken < 1000000 }
        requires event { CanHappen event }
        ensures clients { IfOk result (λ done. done.0 ≡ record {
          rules = self.rules;
          taken = self.taken + 1;
          table = (stepped self.rules event self.table).table;
        }) }
        ensures actions { IfOk result (λ done. done.1 ≡ (stepped self.rules event self.table).actions) }
        ensures few { IfOk result (λ done. live done.0.table ≤ done.0.rules.limit) }
        ensures turned_away { IfOk result (λ done. TurnsAway self.rules event self.table done.1) }
        ensures stays { IfOk result (λ done. (id version : ℕ) → open_version id self.table ≡ Some version → LeavesOpen event id version done.0.table done.1) }
    {
        let mut clients = self;
        let actions = clients.take(&event)?;
        Ok((clients, actions))
    }

    /// An event happens in place. Gives what is done. Where memory is refused nobody is there any more.
    pub(crate) fn take(&mut self, event: &ClientEvent) -> Result<ClientActions, OutOfMemory>
        requires few { self.old.taken < 1000000 }
        requires event { CanHappen event.now }
        ensures clients { OnOk result (self.new ≡ record {
          rules = self.old.rules;
          taken = self.old.taken + 1;
          table = (stepped self.old.rules event.now self.old.table).table;
        }) }
        ensures actions { IfOk result (λ actions. actions ≡ (stepped self.old.rules event.now self.old.table).actions) }
        ensures few { OnOk result (live self.new.table ≤ self.new.rules.limit) }
        ensures turned_away { IfOk result (λ actions. TurnsAway self.old.rules event.now self.old.table actions) }
        ensures stays { IfOk result (λ actions. (id version : ℕ) → open_version id self.old.table ≡ Some version → LeavesOpen event.now id version self.new.table actions) }
    {
        match self.table.take(&self.rules, event) {
            Ok(actions) => {
                self.taken += 1;
                Ok(actions)
            }
            Err(error) => {
                self.table.clear();
                Err(error)
            }
        }
    }
}
