ghost use Rattle.std.specs.Prelude.{◌≡◌, ◌+◌, ◌<◌, ◌∷◌, ◌++◌, [], IfOk, OnOk, OnErr};
ghost use Rattle.conn_table.specs.Table.{empty_table};
ghost use Rattle.net_base.specs.Bounds.{AreSound};
ghost use Rattle.shared_table.specs.Calls.{reply_to, table_after};
ghost use Rattle.shared_table.specs.Entries.{count_of, entry_of};
ghost use Rattle.shared_table.specs.Replay.{IsReplayed};
ghost use Rattle.shared_table.specs.declared.call.TableCall.TheVariants as calls;
ghost use Rattle.shared_table.specs.declared.who.Who.TheVariants.{Out, In};

use crate::place::Recording;
use crate::{InCall, OutCall, Shared, TableCall, TableReply};
use net_base::{OutOfMemory, Settings};
use std::alloc::Global;
use std::sync::ledger::{Book, Ledger, Share};

// What lies under the lock: the table with its history, and the books in which each governor's calls are counted.
#[derive(Drop)]
pub struct Locked<L: Ledger, M: Ledger> {
    pub shared: Shared,
    outs: Book<L>,
    ins: Book<M>,
    ghost outs_counted: { outs.total ≡ count_of Out shared.history },
    ghost ins_counted: { ins.total ≡ count_of In shared.history },
}

impl<L: Ledger, M: Ledger> Recording for Locked<L, M> {
    ghost history = { λ l. l.shared.history };

    ghost settings = { λ l. l.shared.table.settings };
}

impl<L: Ledger, M: Ledger> Locked<L, M> {
    pub fn new(alloc: Global, settings: &Settings, outs: Book<L>, ins: Book<M>) -> Locked<L, M>
        requires settings { AreSound settings.now }
        requires outs { outs.total ≡ 0 }
        requires ins { ins.total ≡ 0 }
        ensures { result.shared ≡ record { table = empty_table settings.now; history = [] } }
    {
        Locked {
            shared: Shared::new(alloc, settings),
            outs,
            ins,
        }
    }

    // Makes a call of the outbound governor, and counts it. Its share has every part of the ledger, so it knows how many
    // calls that governor has made. A refusal changes nothing.
    pub fn call_out(
        &mut self,
        share: &mut Share<L>,
        call: OutCall,
    ) -> Result<TableReply, OutOfMemory>
        requires { (0 < share.old.parts) × (share.old.parts ≡ L.parts) }
        ensures reply { IfOk result (λ reply. reply ≡ reply_to (calls.Out call) self.old.shared.table) }
        ensures table { OnOk result (self.new.shared.table ≡ table_after (calls.Out call) self.old.shared.table) }
        ensures history { IfOk result (λ reply. self.new.shared.history ≡ self.old.shared.history ++ entry_of (calls.Out call) reply ∷ []) }
        ensures replayed { OnOk result (IsReplayed self.old.shared) }
        ensures settings { self.new.shared.table.settings ≡ self.old.shared.table.settings }
        ensures known { share.old.amount ≡ count_of Out self.old.shared.history }
        ensures counted { OnOk result (share.new.amount ≡ share.old.amount + 1) }
        ensures parts { share.new.parts ≡ share.old.parts }
        ensures err { OnErr result ((self.new.shared ≡ self.old.shared) × (share.new.amount ≡ share.old.amount)) }
    {
        self.outs.audit(share);
        let reply = self.shared.apply(TableCall::Out(call))?;
        self.outs.add(share, 1);
        Ok(reply)
    }

    // Makes a call of the inbound governor, and counts it. Its share has every part of the ledger, so it knows how many
    // calls that governor has made. A refusal changes nothing.
    pub fn call_in(&mut self, share: &mut Share<M>, call: InCall) -> Result<TableReply, OutOfMemory>
        requires { (0 < share.old.parts) × (share.old.parts ≡ M.parts) }
        ensures reply { IfOk result (λ reply. reply ≡ reply_to (calls.In call) self.old.shared.table) }
        ensures table { OnOk result (self.new.shared.table ≡ table_after (calls.In call) self.old.shared.table) }
        ensures history { IfOk result (λ reply. self.new.shared.history ≡ self.old.shared.history ++ entry_of (calls.In call) reply ∷ []) }
        ensures replayed { OnOk result (IsReplayed self.old.shared) }
        ensures settings { self.new.shared.table.settings ≡ self.old.shared.table.settings }
        ensures known { share.old.amount ≡ count_of In self.old.shared.history }
        ensures counted { OnOk result (share.new.amount ≡ share.old.amount + 1) }
        ensures parts { share.new.parts ≡ share.old.parts }
        ensures err { OnErr result ((self.new.shared ≡ self.old.shared) × (share.new.amount ≡ share.old.amount)) }
    {
        self.ins.audit(share);
        let reply = self.shared.apply(TableCall::In(call))?;
        self.ins.add(share, 1);
        Ok(reply)
    }

    // The table with its history. Each share has every part of its ledger, so it knows all calls of its governor.
    pub fn into_shared(self, out: &mut Share<L>, inn: &mut Share<M>) -> Shared
        requires out { out.old.parts ≡ L.parts }
        requires inn { inn.old.parts ≡ M.parts }
        ensures same { result ≡ self.shared }
        ensures out { out.old.amount ≡ count_of Out self.shared.history }
        ensures inn { inn.old.amount ≡ count_of In self.shared.history }
    {
        let Locked {
            shared,
            mut outs,
            mut ins,
        } = self;
        outs.audit(out);
        ins.audit(inn);
        shared
    }
}
