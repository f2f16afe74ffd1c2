ghost use Rattle.std.specs.Prelude.{◌≡◌, ◌==◌, true, position, IfOk, OnOk, OnErr};
ghost use Rattle.conn_table.specs.Table.{empty_table};
ghost use Rattle.net_base.specs.Bounds.{AreSound};
ghost use Rattle.shared_table.specs.Calls.{is_met, met_reply, after_met, out_is_met, in_is_met, out_reply, in_reply, after_out, after_in, reply_to, table_after};
ghost use Rattle.shared_table.specs.Leases.{is_kept, OthersStay};
ghost use Rattle.shared_table.specs.declared.call.OutCall.TheVariants as outs;
ghost use Rattle.shared_table.specs.declared.call.InCall.TheVariants as ins;

use crate::conditions::is_met;
use crate::{InCall, OutCall, TableCall, TableReply};
use conn_table::{Acquire, ConnTable, LocalLease};
use net_base::{Addr, Agreed, Cid, OutOfMemory, Settings};
use std::alloc::Global;
use std::marker::Model;

// A table, and the leases that it gave. Contracts see the table.
#[derive(Drop)]
pub struct LeasedTable {
    table: ConnTable,
    leases: Vec<LocalLease>,
}

impl Model for LeasedTable {
    ghost use Rattle.conn_table.specs.Table.{Table};
    ghost use Rattle.shared_table.specs.Leases.{AreKept};

    ghost Value = { Table };

    ghost view = { λ t. t.table };

    ghost invariant = { λ t. AreKept t.leases.items t.table.facts };
}

impl LeasedTable {
    pub fn new(alloc: Global, settings: &Settings) -> LeasedTable
        requires { AreSound settings.now }
        ensures { result ≡ empty_table settings.now }
    {
        LeasedTable {
            table: ConnTable::new(alloc, settings),
            leases: Vec::new(alloc),
        }
    }

    pub fn table(&self) -> &ConnTable
        ensures { result.now ≡ self.now }
    {
        &self.table
    }

    pub fn into_table(self) -> ConnTable
        ensures { result ≡ self }
    {
        self.table
    }

    // Makes the move of a call where what it asks for holds. A refusal changes nothing.
    pub fn make(&mut self, call: TableCall) -> Result<TableReply, OutOfMemory>
        ensures reply { IfOk result (λ reply. reply ≡ reply_to call self.old) }
        ensures table { OnOk result (self.new ≡ table_after call self.old) }
        ensures err { OnErr result (self.new ≡ self.old) }
    {
        if !is_met(call, &self.table) {
            return Ok(TableReply::Unmet);
        }
        match call {
            TableCall::Out(call) => self.make_out(call),
            TableCall::In(call) => self.make_in(call),
        }
    }

    fn make_out(&mut self, call: OutCall) -> Result<TableReply, OutOfMemory>
        requires { out_is_met call self.old ≡ true }
        ensures reply { IfOk result (λ reply. reply ≡ out_reply call self.old) }
        ensures table { OnOk result (self.new ≡ after_out call self.old) }
        ensures err { OnErr result (self.new ≡ self.old) }
    {
        match call {
            OutCall::Dial(addr) => self.dial(addr),
            OutCall::Connected(cid, now) => Ok(self.connected(cid, now)),
            OutCall::Agreed(cid, agreed, now) => self.agreed_out(cid, agreed, now),
            OutCall::Acquire(addr) => self.acquire(addr),
            OutCall::Release(cid, now) => Ok(self.release(cid, now)),
            OutCall::DropOut(cid) => Ok(self.drop_conn(cid)),
        }
    }

    fn make_in(&mut self, call: InCall) -> Result<TableReply, OutOfMemory>
        requires { in_is_met call self.old ≡ true }
        ensures reply { IfOk result (λ reply. reply ≡ in_reply call self.old) }
        ensures table { OnOk result (self.new ≡ after_in call self.old) }
        ensures err { OnErr result (self.new ≡ self.old) }
    {
        match call {
            InCall::Admit(addr, now) => self.admit(addr, now),
            InCall::Agreed(cid, agreed, now) => Ok(self.agreed_in(cid, agreed, now)),
            InCall::Awake(cid, protocol) => Ok(self.awake(cid, protocol)),
            InCall::Idle(cid, protocol, now) => Ok(self.idle(cid, protocol, now)),
            InCall::GraceOver(cid, now) => Ok(self.grace_over(cid, now)),
            InCall::DropIn(cid) => Ok(self.drop_conn(cid)),
        }
    }

    fn dial(&mut self, addr: Addr) -> Result<TableReply, OutOfMemory>
        requires { out_is_met (outs.Dial addr) self.old ≡ true }
        ensures reply { IfOk result (λ reply. reply ≡ out_reply (outs.Dial addr) self.old) }
        ensures table { OnOk result (self.new ≡ after_out (outs.Dial addr) self.old) }
        ensures err { OnErr result (self.new ≡ self.old) }
    {
        let cid = self.table.dial(addr)?;
        Ok(TableReply::Made(cid))
    }

    fn admit(&mut self, addr: Addr, now: u64) -> Result<TableReply, OutOfMemory>
        requires { in_is_met (ins.Admit addr now) self.old ≡ true }
        ensures reply { IfOk result (λ reply. reply ≡ in_reply (ins.Admit addr now) self.old) }
        ensures table { OnOk result (self.new ≡ after_in (ins.Admit addr now) self.old) }
        ensures err { OnErr result (self.new ≡ self.old) }
    {
        let cid = self.table.admit(addr, now)?;
        Ok(TableReply::Made(cid))
    }

    fn connected(&mut self, cid: Cid, now: u64) -> TableReply
        requires { out_is_met (outs.Connected cid now) self.old ≡ true }
        ensures reply { result ≡ out_reply (outs.Connected cid now) self.old }
        ensures table { self.new ≡ after_out (outs.Connected cid now) self.old }
    {
        self.table.connected(cid, now);
        TableReply::Done
    }

    fn agreed_out(&mut self, cid: Cid, agreed: Agreed, now: u64) -> Result<TableReply, OutOfMemory>
        requires { out_is_met (outs.Agreed cid agreed now) self.old ≡ true }
        ensures reply { IfOk result (λ reply. reply ≡ out_reply (outs.Agreed cid agreed now) self.old) }
        ensures table { OnOk result (self.new ≡ after_out (outs.Agreed cid agreed now) self.old) }
        ensures err { OnErr result (self.new ≡ self.old) }
    {
        self.leases.reserve(1)?;
        let Some(lease) = self.table.negotiated(cid, agreed, now) else {
            unreachable!()
        };
        self.leases.push_reserved(lease);
        Ok(TableReply::Leased(cid))
    }

    fn agreed_in(&mut self, cid: Cid, agreed: Agreed, now: u64) -> TableReply
        requires { in_is_met (ins.Agreed cid agreed now) self.old ≡ true }
        ensures reply { result ≡ in_reply (ins.Agreed cid agreed now) self.old }
        ensures table { self.new ≡ after_in (ins.Agreed cid agreed now) self.old }
    {
        let _none = self.table.negotiated(cid, agreed, now);
        TableReply::Done
    }

    fn acquire(&mut self, addr: Addr) -> Result<TableReply, OutOfMemory>
        ensures reply { IfOk result (λ reply. reply ≡ out_reply (outs.Acquire addr) self.old) }
        ensures table { OnOk result (self.new ≡ after_out (outs.Acquire addr) self.old) }
        ensures err { OnErr result (self.new ≡ self.old) }
    {
        self.leases.reserve(1)?;
        Ok(match self.table.acquire(addr) {
            Acquire::Leased(lease) => {
                let cid = lease.cid();
                self.leases.push_reserved(lease);
                TableReply::Leased(cid)
            }
            Acquire::NoSuch => TableReply::NoSuch,
            Acquire::NotReusable(name) => TableReply::NotReusable(name),
        })
    }

    fn release(&mut self, cid: Cid, now: u64) -> TableReply
        requires { out_is_met (outs.Release cid now) self.old ≡ true }
        ensures reply { result ≡ out_reply (outs.Release cid now) self.old }
        ensures table { self.new ≡ after_out (outs.Release cid now) self.old }
    {
        let lease = taken(&mut self.leases, cid);
        self.table.release(lease, now);
        TableReply::Done
    }

    fn awake(&mut self, cid: Cid, protocol: u16) -> TableReply
        requires { in_is_met (ins.Awake cid protocol) self.old ≡ true }
        ensures reply { result ≡ in_reply (ins.Awake cid protocol) self.old }
        ensures table { self.new ≡ after_in (ins.Awake cid protocol) self.old }
    {
        self.table.awake(cid, protocol);
        TableReply::Done
    }

    fn idle(&mut self, cid: Cid, protocol: u16, now: u64) -> TableReply
        requires { in_is_met (ins.Idle cid protocol now) self.old ≡ true }
        ensures reply { result ≡ in_reply (ins.Idle cid protocol now) self.old }
        ensures table { self.new ≡ after_in (ins.Idle cid protocol now) self.old }
    {
        self.table.idle(cid, protocol, now);
        TableReply::Done
    }

    fn grace_over(&mut self, cid: Cid, now: u64) -> TableReply
        requires { in_is_met (ins.GraceOver cid now) self.old ≡ true }
        ensures reply { result ≡ in_reply (ins.GraceOver cid now) self.old }
        ensures table { self.new ≡ after_in (ins.GraceOver cid now) self.old }
    {
        TableReply::Grace(self.table.grace_over(cid, now))
    }

    // The lease of a connection in local use goes with it.
    fn drop_conn(&mut self, cid: Cid) -> TableReply
        requires { out_is_met (outs.DropOut cid) self.old ≡ true }
        ensures reply { result ≡ out_reply (outs.DropOut cid) self.old }
        ensures table { self.new ≡ after_out (outs.DropOut cid) self.old }
    {
        if self.table.facts(cid).is_some_and(|facts| facts.local) {
            let lease = taken(&mut self.leases, cid);
            self.table.drop_leased(lease);
        } else {
            self.table.drop_conn(cid);
        }
        TableReply::Done
    }
}

// Takes out the lease of a connection, which is there.
fn taken(leases: &mut Vec<LocalLease>, cid: Cid) -> LocalLease
    requires { is_kept cid.0 leases.old.items ≡ true }
    ensures lease { result ≡ cid }
    ensures others { OthersStay cid.0 leases.old.items leases.new.items }
{
    let Some(place) = place_of(leases.as_slice(), cid) else {
        unreachable!()
    };
    leases.swap_remove(place)
}

fn place_of(leases: &[LocalLease], cid: Cid) -> Option<usize>
    ensures { result ≡ position (λ lease. lease.0 == cid.0) leases.now }
{
    leases.iter().position(|lease| lease.cid().0 == cid.0)
}
