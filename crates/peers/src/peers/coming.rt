ghost use Rattle.std.specs.Prelude.{◌≡◌, ◌≤◌, ◌^◌, true, [], filter, IfOk, OnOk, OnErr, Some, None, if◌then◌else◌};
ghost use Rattle.peer_book.specs.Book.{all_entered, newcomers};
ghost use Rattle.root_groups.specs.Cleaned.{cleaned, members_of};
ghost use Rattle.root_groups.specs.RootAsk.{may_ask, asked, awaits, publics_of, failed};
ghost use Rattle.peers.specs.Changes.{all_come, all_ordinary, coming, is_stranger, taken_of, wanted_big, with_groups, with_roots};

use super::Peers;
use crate::entering::{enter, make_ordinary, members_of};
use churn_clock::{effective, effective_big};
use net_base::{Addr, AddrList, GroupList, Job, OutOfMemory};
use peer_book::MOST_PEERS;
use root_groups::Groups;
use share_rounds::fresh;
use warm_messages::PeerItems;

impl Peers {
    /// The local groups are set. Each member is an ordinary peer of the book. Gives the addresses that are new there. A
    /// refusal changes the book alone.
    pub fn set_groups(&mut self, groups: &GroupList, own: Addr) -> Result<AddrList, OutOfMemory>
        ensures kept { OnOk result (self.new ≡ with_groups (cleaned own groups.now) self.old) }
        ensures new { IfOk result (λ new. new
            ≡ coming (members_of (cleaned own groups.now)) (all_ordinary (members_of (cleaned own groups.now)) self.old.peers)) }
        ensures refused { OnErr result (self.new ≡ record self.old { peers = self.new.peers }) }
    {
        let kept = Groups::replace(self.alloc, groups, own)?;
        let members = members_of(self.alloc, &kept)?;
        make_ordinary(&mut self.book, members.as_slice());
        let new = enter(
            &mut self.book,
            &mut self.tellable,
            false,
            members.as_slice(),
            MOST_PEERS,
        )?;
        self.groups = kept;
        Ok(new)
    }

    /// Big ledger peers come into the book, but for the own address and members of groups, while fewer are known than are
    /// wanted at a moment. Gives the addresses that are new there. A refusal changes nothing.
    pub fn add_big_peers(
        &mut self,
        addrs: &[Addr],
        own: Addr,
        now: u64,
    ) -> Result<AddrList, OutOfMemory>
        ensures come { OnOk result (self.new ≡ record self.old {
          peers = all_entered (wanted_big now self.old) true (filter (is_stranger own self.old.groups) addrs.now) self.old.peers;
        }) }
        ensures new { IfOk result (λ new. new
            ≡ newcomers (wanted_big now self.old) true (filter (is_stranger own self.old.groups) addrs.now) self.old.peers) }
        ensures unchanged { OnErr result (self.new ≡ self.old) }
    {
        let strangers = self.strangers(addrs, own)?;
        let wanted = effective_big(&self.big_targets, now).known;
        enter(
            &mut self.book,
            &mut self.tellable,
            true,
            strangers.as_slice(),
            wanted,
        )
    }

    /// The addresses that a peer told come into the book, as far as they are taken. Gives those that are new there. A
    /// refusal changes nothing.
    pub fn take_told(
        &mut self,
        told: &PeerItems,
        own: Addr,
        version: u64,
        now: u64,
    ) -> Result<AddrList, OutOfMemory>
        ensures come { OnOk result (self.new ≡ record self.old {
          peers = all_come (taken_of own version now told.now self.old) self.old.peers;
        }) }
        ensures new { IfOk result (λ new. new ≡ coming (taken_of own version now told.now self.old) self.old.peers) }
        ensures unchanged { OnErr result (self.new ≡ self.old) }
    {
        let target = effective(&self.targets, now).known;
        let taken = fresh(self.alloc, &self.book, own, told, target, version)?;
        if taken.as_slice().is_empty() {
            return Ok(taken);
        }
        enter(
            &mut self.book,
            &mut self.tellable,
            false,
            taken.as_slice(),
            MOST_PEERS,
        )
    }

    // ---- public root peers

    /// The next question for public root peers, where there are too few, none is pending and its time has come.
    pub fn ask_roots(&mut self, now: u64) -> Option<Job>
        requires { self.old.roots.next_job ≤ 2 ^ 48 }
        ensures job { result ≡ (if may_ask now self.old.targets.root self.old.roots then Some (record { 0 = self.old.roots.next_job }) else None) }
        ensures state { self.new ≡ (if may_ask now self.old.targets.root self.old.roots
            then record self.old { roots = asked self.old.roots } else self.old) }
    {
        self.roots.ask(now, self.targets.root)
    }

    /// The question is answered, where it is pending: the public roots are the first of the answer, and come into the book.
    /// Gives the addresses that are new there. A refusal changes the public roots alone.
    pub fn roots_found(
        &mut self,
        job: Job,
        ttl: u64,
        addrs: &AddrList,
        own: Addr,
        now: u64,
    ) -> Result<AddrList, OutOfMemory>
        requires moment { now ≤ 2 ^ 48 }
        requires interval { ttl ≤ 86_400_000 }
        ensures found { OnOk result (self.new ≡ (if awaits job.0 self.old.roots
            then with_roots now ttl (publics_of own self.old.targets.root addrs.now) self.old else self.old)) }
        ensures new { IfOk result (λ new. new ≡ (if awaits job.0 self.old.roots
            then coming (publics_of own self.old.targets.root addrs.now) self.old.peers else [])) }
        ensures refused { OnErr result (self.new ≡ record self.old { roots = self.new.roots }) }
    {
        if !self
            .roots
            .found(job, ttl, addrs, own, self.targets.root, now)?
        {
            return Ok(AddrList::new(self.alloc));
        }
        enter(
            &mut self.book,
            &mut self.tellable,
            false,
            self.roots.publics().as_slice(),
            MOST_PEERS,
        )
    }

    /// It can't be answered: where it is pending, the provider is left alone for the back-off.
    pub fn roots_failed(&mut self, job: Job, now: u64, base: u64)
        requires moment { now ≤ 2 ^ 48 }
        requires interval { base ≤ 86_400_000 }
        ensures { self.new ≡ (if awaits job.0 self.old.roots
            then record self.old { roots = failed now base self.old.roots } else self.old) }
    {
        self.roots.failed(job, now, base);
    }

    // Those of some addresses that are neither the own one nor local.
    fn strangers(&self, addrs: &[Addr], own: Addr) -> Result<AddrList, OutOfMemory>
        ensures { IfOk result (λ strangers. strangers ≡ filter (is_stranger own self.now.groups) addrs.now) }
    {
        let mut strangers = AddrList::new(self.alloc);
        for addr in addrs {
            if self.is_stranger(*addr, own) {
                strangers.push(*addr)?;
            }
        }
        Ok(strangers)
    }

    fn is_stranger(&self, addr: Addr, own: Addr) -> bool
        ensures { result ≡ is_stranger own self.now.groups addr }
    {
        !addr.is_same(&own) && self.groups.group_of(addr).is_none()
    }
}
