ghost use Rattle.std.specs.Prelude.{◌≡◌, ◌∷◌, ◌++◌, ◌<◌, [], length, take, drop, slice_get, Some, IfOk, OnOk};
ghost use Rattle.mux_segment.specs.Lent.{lent};
ghost use Rattle.mux_segment.specs.Packed.{packed_items};
ghost use Rattle.mux_segment.specs.Stream.{item_of};

use crate::{Item, ItemList, LentItem};
use net_base::{Octets, OutOfMemory};
use std::alloc::Global;
use std::marker::Model;

// An item, and where its body stands among all bodies.
#[derive(Clone, Copy)]
pub(crate) struct Head {
    pub side: u8,
    pub id: u16,
    pub from: usize,
    pub size: usize,
}

/// Items one after another, whose bodies stand together, so that an item takes no memory of its own. Contracts see the
/// list of them.
#[derive(Drop)]
pub struct PackedItems {
    heads: Vec<Head>,
    bodies: Vec<u8>,
}

impl Model for PackedItems {
    ghost use Rattle.std.specs.Prelude.{List};
    ghost use Rattle.mux_segment.specs.declared.item.Item.{Item};
    ghost use Rattle.mux_segment.specs.Packed.{packed_items, AreWithin};

    ghost Value = { List Item };

    ghost view = { λ p. packed_items p.bodies.items p.heads.items };

    ghost invariant = { λ p. AreWithin p.bodies.items p.heads.items };
}

impl PackedItems {
    /// No items. Takes no memory.
    pub fn new(alloc: Global) -> Self
        ensures { result ≡ [] }
    {
        PackedItems {
            heads: Vec::new(alloc),
            bodies: Vec::new(alloc),
        }
    }

    pub fn len(&self) -> usize
        ensures { result ≡ length self.now }
    {
        self.heads.len()
    }

    /// The item at a place.
    pub fn at(&self, place: usize) -> LentItem<'_>
        requires { place < length self.now }
        ensures { slice_get self.now place ≡ Some (lent result) }
    {
        lent_by(&self.bodies, self.heads[place])
    }

    /// Puts an item at the end, with a copy of its body.
    pub fn push(&mut self, side: u8, id: u16, body: &[u8]) -> Result<(), OutOfMemory>
        ensures { OnOk result (self.new ≡ self.old ++ item_of side id body.now ∷ []) }
    {
        let head = Head {
            side,
            id,
            from: self.bodies.len(),
            size: body.len(),
        };
        self.bodies.extend_from_slice(body)?;
        self.heads.push(head)?;
        Ok(())
    }

    /// Takes them all away. Their memory is used again.
    pub fn clear(&mut self)
        ensures { self.new ≡ [] }
    {
        self.heads.clear();
        self.bodies.clear();
    }

    /// A copy of them, each with memory of its own.
    pub fn to_list(&self, alloc: Global) -> Result<ItemList, OutOfMemory>
        ensures { IfOk result (λ items. items ≡ self.now) }
    {
        copied(alloc, &self.bodies, &self.heads)
    }
}

// A copy of items whose bodies stand among others, each with memory of its own.
fn copied(alloc: Global, bodies: &[u8], heads: &[Head]) -> Result<ItemList, OutOfMemory>
    ensures { IfOk result (λ items. items ≡ packed_items bodies.now heads.now) }
{
    let mut items = ItemList::new(alloc);
    for head in heads {
        items.push(owned(alloc, &lent_by(bodies, *head))?)?;
    }
    Ok(items)
}

// The item whose body stands among others.
fn lent_by(bodies: &[u8], head: Head) -> LentItem<'_>
    ensures { lent result ≡ item_of head.side head.id (take head.size (drop head.from bodies.now)) }
{
    let (_, behind) = bodies.split_at(head.from.min(bodies.len()));
    let (body, _) = behind.split_at(head.size.min(behind.len()));
    LentItem {
        side: head.side,
        id: head.id,
        body,
    }
}

// A copy of an item, with memory of its own.
fn owned(alloc: Global, item: &LentItem<'_>) -> Result<Item, OutOfMemory>
    ensures { IfOk result (λ owned. owned ≡ lent item.now) }
{
    Ok(Item {
        side: item.side,
        id: item.id,
        body: Octets::from_slice(alloc, item.body)?,
    })
}
