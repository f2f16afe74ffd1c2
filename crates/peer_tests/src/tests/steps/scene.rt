use super::addresses::A1;
use super::book::{Step, take_all};
use net_base::{Addr, AddrList, Group, GroupList, Job, OutOfMemory};
use peer_book::PeerBook;
use root_groups::{Groups, Roots};
use std::alloc::Global;
use std::process::Abort;

/// What a node knows of peers: how its book came about, its local groups and its public roots.
#[derive(Drop)]
pub struct Setting {
    pub book: &'static [Step],
    pub groups: &'static [Members],
    pub publics: &'static [Addr],
}

/// A local group.
pub struct Members {
    pub hot: u64,
    pub warm: u64,
    pub advertise: bool,
    pub addrs: &'static [Addr],
}

/// Nobody is known.
pub const NOBODY: Setting = Setting {
    book: &[],
    groups: &[],
    publics: &[],
};

/// A group of nobody, of which nobody is told.
pub const GROUP: Members = Members {
    hot: 0,
    warm: 0,
    advertise: false,
    addrs: &[],
};

#[derive(Drop)]
pub struct Scene {
    pub book: PeerBook,
    pub groups: Groups,
    pub roots: Roots,
}

fn group(alloc: Global, members: &Members) -> Result<Group, OutOfMemory> {
    Ok(Group {
        hot: members.hot,
        warm: members.warm,
        advertise: members.advertise,
        members: AddrList::from_slice(alloc, members.addrs)?,
    })
}

fn push_all(alloc: Global, list: &mut GroupList, groups: &[Members]) -> Result<(), OutOfMemory> {
    for members in groups {
        list.push(group(alloc, members)?)?;
    }
    Ok(())
}

/// These groups, cleaned.
pub fn groups(alloc: Global, groups: &[Members]) -> Result<Groups, OutOfMemory> {
    let mut list = GroupList::new(alloc);
    push_all(alloc, &mut list, groups)?;
    Groups::replace(alloc, &list, A1)
}

// The answer to an ask for public roots.
fn find(alloc: Global, roots: &mut Roots, job: Job, publics: &[Addr]) -> Result<(), OutOfMemory> {
    let publics = AddrList::from_slice(alloc, publics)?;
    roots.found(job, 3_600_000, &publics, A1, 10, 0)?;
    Ok(())
}

fn roots(alloc: Global, publics: &[Addr]) -> Result<Roots, OutOfMemory> {
    let mut roots = Roots::new(alloc);
    if let Some(job) = roots.ask(0, 10) {
        find(alloc, &mut roots, job, publics)?;
    }
    Ok(roots)
}

impl Scene {
    /// A node that knows nobody.
    pub fn new(alloc: Global) -> Scene {
        Scene {
            book: PeerBook::new(alloc),
            groups: Groups::new(alloc),
            roots: Roots::new(alloc),
        }
    }

    /// It comes to know this much.
    pub fn set(
        &mut self,
        rt: &impl Abort,
        alloc: Global,
        setting: &Setting,
    ) -> Result<(), OutOfMemory> {
        take_all(rt, alloc, &mut self.book, setting.book)?;
        self.groups = groups(alloc, setting.groups)?;
        self.roots = roots(alloc, setting.publics)?;
        Ok(())
    }
}
