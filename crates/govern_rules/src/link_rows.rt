ghost use Rattle.std.specs.Prelude.{◌≡◌, false, IfOk, IsTrue};
ghost use Rattle.std.specs.List.Sorted.{IsPermutation};
ghost use Rattle.govern_rules.specs.SortedLinks.{IsInOrder, is_above_next, link_below};

use crate::{Link, LinkList};
use chunked_list::ChunkedList;
use net_base::OutOfMemory;
use std::alloc::Global;
use std::marker::Model;

/// Links in order of address and then id, to be lent. Contracts see the list of them.
#[derive(Drop)]
pub struct LinkRows {
    links: ChunkedList<Link>,
}

impl Model for LinkRows {
    ghost use Rattle.std.specs.Prelude.{List};
    ghost use Rattle.govern_rules.specs.declared.link.Link.{Link};
    ghost use Rattle.govern_rules.specs.SortedLinks.{IsInOrder};

    ghost Value = { List Link };

    ghost view = { λ l. l.links };

    ghost invariant = { λ l. IsInOrder l.links };
}

impl LinkRows {
    /// The links of a vector. They are sorted only where they don't stand in order yet.
    pub fn from_vec(alloc: Global, links: Vec<Link>) -> Result<LinkRows, OutOfMemory>
        ensures { IfOk result (λ sorted. IsPermutation links.items sorted) }
    {
        let links = ordered(links)?;
        let links = ChunkedList::from_slice(alloc, &links)?;
        Ok(LinkRows { links })
    }

    /// They are lent.
    pub fn list(&self) -> LinkList<'_>
        ensures { result ≡ self.now }
    {
        LinkList::lent(&self.links, &self.links)
    }
}

fn ordered(mut links: Vec<Link>) -> Result<Vec<Link>, OutOfMemory>
    ensures ordered { IfOk result (λ sorted. IsInOrder sorted.items) }
    ensures same { IfOk result (λ sorted. IsPermutation links.items sorted.items) }
{
    if is_in_order(&links) {
        return Ok(links);
    }
    links.sort_by_key(|link| (link.addr, link.cid))?;
    Ok(links)
}

// Whether no link is below the one before it.
fn is_in_order(links: &[Link]) -> bool
    ensures { IsTrue result → IsInOrder links.now }
{
    let mut rest = links;
    while let Some((link, after)) = rest.split_first() {
        if is_above_next(link, after) {
            return false;
        }
        rest = after;
    }
    true
}

fn is_above_next(link: &Link, rest: &[Link]) -> bool
    ensures { result ≡ is_above_next link.now rest.now }
{
    match rest {
        [] => false,
        [next, ..] => is_below(next, link),
    }
}

// By the address, and then by the id.
fn is_below(link: &Link, than: &Link) -> bool
    ensures { result ≡ link_below link.now than.now }
{
    link.addr.is_before_with(link.cid, &than.addr, than.cid)
}
