//! What the leases of one table are to each other, whatever is called in what order.
//!
//! The function does nothing. It carries a law as its contract, and the law is proved.
#![tactic(auto)]

ghost use Rattle.conn_table.specs.Table.{Table};
ghost use Rattle.lease_law.specs.Leases.{Held, Call, CanCall, CanRun, TableAsks, GivesHeld, AreApart, at_first, after_run};
ghost use Rattle.net_base.specs.declared.settings.Settings.{Settings};
ghost use Rattle.std.specs.Prelude.{List};

pub use conn_table::{ConnTable, LocalLease};

/// As long as each lease is given back only to the table that gave it, no two leases of a table are of one connection, and
/// each is of a connection in local use, so it may be given back. What is asked of the calls is no more than the table itself asks.
pub fn leases_are_apart()
    ensures asked { (call : Call) (held : Held) → TableAsks call held.table → GivesHeld call held.leases → CanCall call held }
    ensures apart { (settings : Settings) (calls : List Call) → CanRun calls (at_first settings) → AreApart (after_run calls (at_first settings)) }
{}
