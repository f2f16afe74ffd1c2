ghost use Rattle.std.specs.Prelude.{◌≡◌, ◌≤◌, ◌^◌, IfOk, OnOk, OnErr, IsTrue, Some, None, if◌then◌else◌};
ghost use Rattle.net_base.specs.Shared.{first_roots};
ghost use Rattle.root_groups.specs.Cleaned.{is_listed};
ghost use Rattle.root_groups.specs.RootAsk.{may_ask, asked, awaits, publics_of, found, failed};

use crate::publics::Publics;
use net_base::{Addr, AddrList, Job, OutOfMemory, backoff_delay};
use std::alloc::Global;
use std::marker::Model;

/// The public root peers, and the ask for them.
#[derive(Drop)]
pub struct Roots {
    alloc: Global,
    publics: Publics,
    pending: Option<Job>,
    failures: u64,
    next_moment: u64,
    next_job: u64,
}

impl Model for Roots {
    ghost use Rattle.net_base.specs.Shared.{RootState};
    ghost use Rattle.root_groups.specs.RootAsk.{job_number};

    ghost Value = { RootState };

    ghost view = { λ r. record {
      publics = r.publics;
      pending = job_number r.pending;
      failures = r.failures;
      next_moment = r.next_moment;
      next_job = r.next_job;
    } };
}

impl Roots {
    /// No public roots, and no ask yet. Takes no memory.
    pub fn new(alloc: Global) -> Roots
        ensures { result ≡ first_roots }
    {
        Roots {
            alloc,
            publics: Publics::new(alloc),
            pending: None,
            failures: 0,
            next_moment: 0,
            next_job: 1,
        }
    }

    /// The public roots in the order in which they were found.
    pub fn publics(&self) -> &AddrList
        ensures { result.now ≡ self.now.publics }
    {
        self.publics.list()
    }

    pub fn is_public(&self, addr: Addr) -> bool
        ensures { result ≡ is_listed addr self.now.publics }
    {
        self.publics.has(addr)
    }

    /// The next job, where there are fewer public roots than the target, no ask is pending and its time has come.
    /// Jobs are given from 1 on, and fewer than 2^48 may have been given.
    pub fn ask(&mut self, now: u64, target: u64) -> Option<Job>
        requires { self.old.next_job ≤ 2 ^ 48 }
        ensures job { result ≡ (if may_ask now target self.old then Some (record { 0 = self.old.next_job }) else None) }
        ensures state { self.new ≡ (if may_ask now target self.old then asked self.old else self.old) }
    {
        if self.publics.list().as_slice().len() as u64 >= target
            || self.pending.is_some()
            || now < self.next_moment
        {
            return None;
        }
        let job = Job(self.next_job);
        self.pending = Some(job);
        self.next_job += 1;
        Some(job)
    }

    /// Takes an answer with its addresses, which serves for `ttl`. False where the job isn't pending: then nothing
    /// changes, and no memory is asked for. A refusal changes nothing.
    pub fn found(
        &mut self,
        job: Job,
        ttl: u64,
        addrs: &AddrList,
        own: Addr,
        target: u64,
        now: u64,
    ) -> Result<bool, OutOfMemory>
        requires moment { now ≤ 2 ^ 48 }
        requires interval { ttl ≤ 86_400_000 }
        ensures answer { IfOk result (λ taken. taken ≡ awaits job.0 self.old) }
        ensures state { OnOk result (self.new ≡ (if awaits job.0 self.old then found now ttl (publics_of own target addrs.now) self.old else self.old)) }
        ensures unchanged { OnErr result (self.new ≡ self.old) }
        ensures only_awaited { OnErr result (IsTrue (awaits job.0 self.old)) }
    {
        if !self.is_pending(job) {
            return Ok(false);
        }
        let publics = Publics::first_of(self.alloc, addrs.as_slice(), own, target)?;
        self.serve(publics, now + ttl);
        Ok(true)
    }

    /// Takes an answer that there is none, after which the provider is left alone for the back-off. False where the
    /// job isn't pending: then nothing changes.
    pub fn failed(&mut self, job: Job, now: u64, base: u64) -> bool
        requires moment { now ≤ 2 ^ 48 }
        requires interval { base ≤ 86_400_000 }
        ensures answer { result ≡ awaits job.0 self.old }
        ensures state { self.new ≡ (if awaits job.0 self.old then failed now base self.old else self.old) }
    {
        if !self.is_pending(job) {
            return false;
        }
        self.pending = None;
        self.failures = self.failures.saturating_add(1).min(65_535);
        self.next_moment = now + backoff_delay(base, self.failures);
        true
    }

    fn serve(&mut self, publics: Publics, next_moment: u64)
        ensures { self.new ≡ record self.old { publics = publics; pending = None; failures = 0; next_moment = next_moment } }
    {
        self.publics = publics;
        self.pending = None;
        self.failures = 0;
        self.next_moment = next_moment;
    }

    fn is_pending(&self, job: Job) -> bool
        ensures { result ≡ awaits job.0 self.now }
    {
        match self.pending {
            Some(pending) => job == pending,
            None => false,
        }
    }
}
