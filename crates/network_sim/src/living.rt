//! How nodes begin and look at their targets.

use crate::addresses::address_of;
use crate::ground::Ground;
use crate::happening::Happening;
use crate::task::{After, Beginning, Task};
use net_base::{AddrList, Event, Group, GroupList, Job, OutOfMemory, RootAnswer, Settings};
use network_scenario::{Friends, Words};

impl Ground {
    /// A node begins, where it isn't up already.
    pub(crate) fn begin(&mut self, index: usize) -> Result<(), OutOfMemory> {
        match self.nodes.get_mut(index) {
            Some(node) if !node.is_up => node.begin(self.alloc, self.agenda.now),
            _ => return Ok(()),
        }
        if self.nodes.is_honest(index) {
            self.begin_engine(index)?;
        }
        self.foresee_tick(index, true)
    }

    fn begin_engine(&mut self, index: usize) -> Result<(), OutOfMemory> {
        let (Some(node), Some(kind)) = (self.nodes.get(index), self.kind_of(index)) else {
            return Ok(());
        };
        let (life, targets, friends) = (node.life, kind.targets, kind.friends);
        let settings = Settings {
            own: node.addr,
            ..kind.settings
        };
        let roots = match friends {
            Some(friends) => Some(self.draw_group(&friends)?),
            None => None,
        };
        self.task = Some(Task::Begin(Beginning {
            node: index,
            life,
            settings,
            targets,
            roots,
        }));
        Ok(())
    }

    // The local roots of a node.
    fn draw_group(&mut self, friends: &Friends) -> Result<Event, OutOfMemory> {
        let mut members = AddrList::new(self.alloc);
        self.draw_friends(friends, &mut members)?;
        let mut groups = GroupList::new(self.alloc);
        groups.push(Group {
            hot: friends.hot,
            warm: friends.warm,
            advertise: friends.advertise,
            members,
        })?;
        Ok(Event::Locals(groups))
    }

    fn draw_friends(
        &mut self,
        friends: &Friends,
        members: &mut AddrList,
    ) -> Result<(), OutOfMemory> {
        let (Some(first), Some(kind)) = (
            self.firsts.get(friends.kind),
            self.scenario.kinds.get(friends.kind),
        ) else {
            return Ok(());
        };
        for _ in 0..friends.count {
            if let Some(place) = self.draws.place(kind.count as usize) {
                members.push(address_of(first.saturating_add(place)))?;
            }
        }
        Ok(())
    }

    /// The next look comes after the time between two, and the first one within it.
    pub(crate) fn foresee_tick(&mut self, index: usize, is_first: bool) -> Result<(), OutOfMemory> {
        let (Some(node), Some(kind)) = (self.nodes.get(index), self.kind_of(index)) else {
            return Ok(());
        };
        let (life, mut time) = (node.life, kind.tick);
        if is_first {
            time = self.draws.between(1, time);
        }
        self.agenda.later(time, Happening::Tick(index, life))
    }

    /// The word that decides between peers that are as good.
    pub(crate) fn govern_word(&mut self) -> u64 {
        match self.scenario.words {
            Words::Wide => self.draws.word(),
            Words::Near => match self.draws.place(self.nodes.all.len()) {
                Some(place) => 0_u64.wrapping_sub(address_of(place).key()),
                None => 0,
            },
        }
    }

    /// Notes what of its targets a node has reached. The next look comes.
    pub(crate) fn look(&mut self, index: usize) -> Result<(), OutOfMemory> {
        self.after = After::Nothing;
        if let Some(kind) = self.kind_of(index) {
            let targets = kind.targets;
            if let Some(node) = self.nodes.get_mut(index) {
                node.look(self.agenda.now, &targets);
            }
        }
        self.foresee_tick(index, false)
    }

    /// The provider of root peers answers a question, where it was asked in this life of the node.
    pub(crate) fn answer_roots(
        &mut self,
        node: usize,
        life: u64,
        job: Job,
    ) -> Result<(), OutOfMemory> {
        if !self.nodes.lives(node, life) {
            return Ok(());
        }
        let mut told = AddrList::new(self.alloc);
        self.tell_publics(&mut told)?;
        let answer = RootAnswer::Found(self.scenario.provider.serves, told);
        self.give(node, Event::Roots(job, answer));
        Ok(())
    }

    // As many of the addresses that the provider knows as it tells, drawn anew.
    fn tell_publics(&mut self, told: &mut AddrList) -> Result<(), OutOfMemory> {
        let count = self.publics.len();
        for place in 0..count.min(self.scenario.provider.told as usize) {
            self.draw_public(place);
            if let Some(node) = self.publics.get(place) {
                told.push(address_of(*node))?;
            }
        }
        Ok(())
    }

    // Brings one of those from a place on to that place.
    fn draw_public(&mut self, place: usize) {
        let count = self.publics.len();
        if let Some(further) = self.draws.place(count.saturating_sub(place)) {
            let other = place.saturating_add(further);
            if place < count && other < count {
                self.publics.swap(place, other);
            }
        }
    }
}
