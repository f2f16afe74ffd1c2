ghost use Rattle.std.specs.Prelude.{◌≡◌, ◌≤◌, ◌<◌, ◌^◌, ◌++◌, not, map, filter, IfOk, OnOk, Some, IsTrue};
ghost use Rattle.local_clients.specs.Clients.{no_clients, live, open_version, is_due, waited_too_long, clock_shows, joins, admitted, leaves, hears, bytes_come, nothing_done, put_back, stepped};
ghost use Rattle.local_clients.specs.Kept.{AreApart, IdsRise, RiseInTime, TakesLate};
ghost use Rattle.local_clients.specs.declared.rules.ClientRules.{ClientRules};

use crate::client::{GreetingClient, OpenClient};
use crate::context::Context;
use crate::phase::Phase;
use crate::stream::{are_passed_over, hear};
use crate::{ClientAction, ClientActions, ClientCause, ClientEvent, ClientRules};
use mux_segment::Waiting;
use net_base::{FaultKind, Octets, OutOfMemory};
use std::alloc::Global;
use std::collections::BTreeMap;
use std::marker::Model;

/// The clients by id, and the moment. Those that still greet stand in order of their deadlines too, since all have the
/// same time.
#[derive(Drop)]
pub(crate) struct Table {
    alloc: Global,
    moment: u64,
    next_id: u64,
    greeting: BTreeMap<u64, GreetingClient>,
    opened: BTreeMap<u64, OpenClient>,
}

impl Model for Table {
    ghost use Rattle.local_clients.specs.Clients.{ClientTable};

    ghost Value = { ClientTable };

    ghost view = { λ t. record {
      moment = t.moment;
      next_id = t.next_id;
      greeting = t.greeting.entries;
      opened = t.opened.entries;
    } };
}

impl Table {
    /// Nobody connected yet. Takes no memory.
    pub fn new(alloc: Global) -> Self
        ensures { result ≡ no_clients }
    {
        Table {
            alloc,
            moment: 0,
            next_id: 1,
            greeting: BTreeMap::new(alloc),
            opened: BTreeMap::new(alloc),
        }
    }

    pub fn live(&self) -> u64
        ensures { result ≡ live self.now }
    {
        self.greeting.len() as u64 + self.opened.len() as u64
    }

    pub fn open_version(&self, id: u64) -> Option<u64>
        ensures { result ≡ open_version id self.now }
    {
        self.opened.get(&id).map(|client| client.version)
    }

    /// Nobody is connected any more, and nobody ever was.
    pub fn clear(&mut self)
        ensures { self.new ≡ no_clients }
    {
        *self = Table::new(self.alloc);
    }

    /// An event happens. Gives what is done.
    pub fn take(
        &mut self,
        rules: &ClientRules,
        event: &ClientEvent,
    ) -> Result<ClientActions, OutOfMemory>
        requires rise { RiseInTime self.old.greeting }
        requires opened_rise { IdsRise self.old.opened }
        requires apart { AreApart self.old }
        requires id { self.old.next_id < 2 ^ 48 }
        requires moment { self.old.moment ≤ 2 ^ 48 }
        requires wait { rules.now.wait ≤ 86400000 }
        ensures table { OnOk result (self.new ≡ (stepped rules.now event.now self.old).table) }
        ensures actions { IfOk result (λ actions. actions ≡ (stepped rules.now event.now self.old).actions) }
    {
        match event {
            ClientEvent::Now(moment) => self.clock_shows(*moment),
            ClientEvent::Joined => self.joins(rules),
            ClientEvent::Bytes(id, bytes) => self.bytes_come(rules, *id, bytes.as_slice()),
            ClientEvent::Gone(id) => {
                self.leaves(*id);
                Ok(ClientActions::new(self.alloc))
            }
        }
    }

    // The clock shows a moment.
    fn clock_shows(&mut self, moment: u64) -> Result<ClientActions, OutOfMemory>
        requires { RiseInTime self.old.greeting }
        ensures table { OnOk result (self.new ≡ (clock_shows moment self.old).table) }
        ensures actions { IfOk result (λ actions. actions ≡ (clock_shows moment self.old).actions) }
    {
        let mut actions = ClientActions::new(self.alloc);
        if moment <= self.moment {
            return Ok(actions);
        }
        self.moment = moment;
        close_late(&mut self.greeting, moment, &mut actions)?;
        Ok(actions)
    }

    // One more client connects.
    fn joins(&mut self, rules: &ClientRules) -> Result<ClientActions, OutOfMemory>
        requires id { self.old.next_id < 2 ^ 48 }
        requires moment { self.old.moment ≤ 2 ^ 48 }
        requires wait { rules.now.wait ≤ 86400000 }
        ensures table { OnOk result (self.new ≡ (joins rules.now self.old).table) }
        ensures actions { IfOk result (λ actions. actions ≡ (joins rules.now self.old).actions) }
    {
        let mut actions = ClientActions::new(self.alloc);
        if rules.limit <= self.live() {
            actions.push(ClientAction::Turnaway)?;
            return Ok(actions);
        }
        let id = self.admit(rules.wait)?;
        actions.push(ClientAction::Admit(id))?;
        Ok(actions)
    }

    // Lets a client in under the next id.
    fn admit(&mut self, wait: u64) -> Result<u64, OutOfMemory>
        requires id { self.old.next_id < 2 ^ 48 }
        requires moment { self.old.moment ≤ 2 ^ 48 }
        requires wait { wait ≤ 86400000 }
        ensures table { OnOk result (self.new ≡ admitted wait self.old) }
        ensures id { IfOk result (λ id. id ≡ self.old.next_id) }
    {
        let id = self.next_id;
        let client = GreetingClient {
            until: self.moment + wait,
            rest: Octets::new(self.alloc),
            part: Waiting::new(self.alloc),
        };
        self.greeting.insert(id, client)?;
        self.next_id = id + 1;
        Ok(id)
    }

    // The client with an id is gone, if there was one.
    fn leaves(&mut self, id: u64)
        ensures { self.new ≡ leaves id self.old }
    {
        self.greeting.remove(&id);
        self.opened.remove(&id);
    }

    // Bytes come from a client, if there is one with the id.
    fn bytes_come(
        &mut self,
        rules: &ClientRules,
        id: u64,
        bytes: &[u8],
    ) -> Result<ClientActions, OutOfMemory>
        requires opened_rise { IdsRise self.old.opened }
        requires apart { AreApart self.old }
        ensures table { OnOk result (self.new ≡ (bytes_come rules.now id bytes.now self.old).table) }
        ensures actions { IfOk result (λ actions. actions ≡ (bytes_come rules.now id bytes.now self.old).actions) }
    {
        if self.passes_over(id, bytes) {
            return Ok(ClientActions::new(self.alloc));
        }
        self.bytes_change(rules, id, bytes)
    }

    // The client with an id is open, nothing of it waits, and these bytes of it are passed over.
    fn passes_over(&self, id: u64, bytes: &[u8]) -> bool
        requires opened_rise { IdsRise self.now.opened }
        requires apart { AreApart self.now }
        ensures { IsTrue result → (rules : ClientRules) → bytes_come rules id bytes.now self.now ≡ nothing_done self.now }
    {
        match self.opened.get(&id) {
            Some(client) => client.rest.as_slice().is_empty() && are_passed_over(bytes),
            None => false,
        }
    }

    // The client with these bytes is taken out, if there is one, and put back.
    fn bytes_change(
        &mut self,
        rules: &ClientRules,
        id: u64,
        bytes: &[u8],
    ) -> Result<ClientActions, OutOfMemory>
        ensures table { OnOk result (self.new ≡ (bytes_come rules.now id bytes.now self.old).table) }
        ensures actions { IfOk result (λ actions. actions ≡ (bytes_come rules.now id bytes.now self.old).actions) }
    {
        let greeting = self.greeting.remove(&id);
        let opened = self.opened.remove(&id);
        match (greeting, opened) {
            (Some(client), _) => {
                let phase = Phase::Greeting(client.until, client.part);
                self.hears(rules, id, phase, client.rest, bytes)
            }
            (None, Some(client)) => {
                self.hears(rules, id, Phase::Open(client.version), client.rest, bytes)
            }
            (None, None) => Ok(ClientActions::new(self.alloc)),
        }
    }

    // Bytes come from a client that was taken out, and it is put back as far as it has come.
    fn hears(
        &mut self,
        rules: &ClientRules,
        id: u64,
        phase: Phase,
        rest: Octets,
        bytes: &[u8],
    ) -> Result<ClientActions, OutOfMemory>
        ensures table { OnOk result (self.new ≡ (hears rules.now id phase (rest ++ bytes.now) self.old).table) }
        ensures actions { IfOk result (λ actions. actions ≡ (hears rules.now id phase (rest ++ bytes.now) self.old).actions) }
    {
        let mut actions = ClientActions::new(self.alloc);
        let context = Context {
            client: id,
            magic: rules.magic,
            moment: self.moment,
        };
        let read = hear(self.alloc, &context, phase, rest, bytes, &mut actions)?;
        self.put_back(id, read)?;
        Ok(actions)
    }

    // Puts a client back, if it is not closed.
    fn put_back(&mut self, id: u64, read: Option<(Phase, Octets)>) -> Result<(), OutOfMemory>
        ensures { OnOk result (self.new ≡ put_back id read self.old) }
    {
        match read {
            None => Ok(()),
            Some((phase, rest)) => self.put(id, phase, rest),
        }
    }

    fn put(&mut self, id: u64, phase: Phase, rest: Octets) -> Result<(), OutOfMemory>
        ensures { OnOk result (self.new ≡ put_back id (Some (phase, rest)) self.old) }
    {
        match phase {
            Phase::Greeting(until, part) => {
                self.greeting
                    .insert(id, GreetingClient { until, rest, part })?;
            }
            Phase::Open(version) => {
                self.opened.insert(id, OpenClient { version, rest })?;
            }
        }
        Ok(())
    }
}

// Closes those whose time is over.
fn close_late(
    greeting: &mut BTreeMap<u64, GreetingClient>,
    now: u64,
    actions: &mut ClientActions,
) -> Result<(), OutOfMemory>
    requires { RiseInTime greeting.old.entries }
    ensures greeting { OnOk result (greeting.new.entries ≡ filter (λ entry. not (is_due now entry)) greeting.old.entries) }
    ensures actions { OnOk result (actions.new ≡ actions.old ++ map waited_too_long (filter (is_due now) greeting.old.entries)) }
{
    while let Some(id) = take_late(greeting, now) {
        let cause = ClientCause::Fault(FaultKind::HandshakeWait);
        actions.push(ClientAction::Close(id, cause))?;
    }
    Ok(())
}

// Takes the first client out, where its time is over.
fn take_late(greeting: &mut BTreeMap<u64, GreetingClient>, now: u64) -> Option<u64>
    ensures { TakesLate now greeting.old.entries result greeting.new.entries }
{
    let (_, first) = greeting.first_key_value()?;
    if now < first.until {
        return None;
    }
    let (id, _) = greeting.pop_first()?;
    Some(id)
}
