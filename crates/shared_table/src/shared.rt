ghost use Rattle.std.specs.Prelude.{◌≡◌, [], ◌∷◌, ◌++◌, IfOk, OnOk, OnErr};
ghost use Rattle.conn_table.specs.Table.{empty_table};
ghost use Rattle.net_base.specs.Bounds.{AreSound};
ghost use Rattle.shared_table.specs.Asks.{Asks, Tells};
ghost use Rattle.shared_table.specs.Calls.{is_met, reply_to, table_after};
ghost use Rattle.shared_table.specs.Entries.{entry_of};
ghost use Rattle.shared_table.specs.Replay.{IsReplayed};

use crate::leased::LeasedTable;
use crate::{Entry, History, Log, TableCall, TableReply};
use conn_table::ConnTable;
use net_base::{OutOfMemory, Settings};
use std::alloc::Global;
use std::marker::Model;

/// A table of connections with the leases that it gave and the history of its calls. Contracts see the table and the
/// history, which leads from no connection to this table.
#[derive(Drop)]
pub struct Shared {
    leased: LeasedTable,
    history: History,
}

impl Model for Shared {
    ghost use Rattle.conn_table.specs.Table.{empty_table};
    ghost use Rattle.shared_table.specs.Replay.{Recorded, Replays};

    ghost Value = { Recorded };

    ghost view = { λ s. record { table = s.leased; history = s.history.items } };

    ghost invariant = { λ s. Replays s.history.items (empty_table s.leased.settings) s.leased };
}

impl Shared {
    /// No connection, no lease and no call yet. Takes no memory.
    pub fn new(alloc: Global, settings: &Settings) -> Shared
        requires { AreSound settings.now }
        ensures { result ≡ record { table = empty_table settings.now; history = [] } }
    {
        Shared {
            leased: LeasedTable::new(alloc, settings),
            history: Log::new(alloc),
        }
    }

    /// Makes a call and enters it with its reply. A refusal changes nothing, and then no call is entered.
    pub fn apply(&mut self, call: TableCall) -> Result<TableReply, OutOfMemory>
        ensures reply { IfOk result (λ reply. reply ≡ reply_to call self.old.table) }
        ensures table { OnOk result (self.new.table ≡ table_after call self.old.table) }
        ensures asked { Tells (is_met call self.old.table) (Asks call self.old.table) }
        ensures history { IfOk result (λ reply. self.new.history ≡ self.old.history ++ entry_of call reply ∷ []) }
        ensures replayed { IsReplayed self.old }
        ensures err { OnErr result (self.new ≡ self.old) }
    {
        self.history.make_room()?;
        let reply = self.leased.make(call)?;
        self.history.put(Entry {
            who: call.who(),
            call,
            reply,
        });
        Ok(reply)
    }

    /// The table as it is.
    pub fn table(&self) -> &ConnTable
        ensures { result.now ≡ self.now.table }
    {
        self.leased.table()
    }

    /// The calls so far.
    pub fn history(&self) -> &History
        ensures history { result.now.items ≡ self.now.history }
        ensures replayed { IsReplayed self.now }
    {
        &self.history
    }

    /// The table and the calls on it. The leases go.
    pub fn into_parts(self) -> (ConnTable, History)
        ensures table { result.0 ≡ self.table }
        ensures history { result.1.items ≡ self.history }
        ensures replayed { IsReplayed self }
    {
        let Shared { leased, history } = self;
        (leased.into_table(), history)
    }
}
