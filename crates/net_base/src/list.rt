ghost use Rattle.std.specs.Prelude.{◌≡◌, [], ◌∷◌, ◌++◌, IfOk, OnOk, OnErr};
ghost use Rattle.std.specs.Cmp.Lexicographic.{pointwise, lists_per};

use crate::OutOfMemory;
use std::alloc::Global;
use std::marker::Model;

/// Items one after another. Contracts see the list of them.
#[derive(Drop)]
pub struct Sequence<T> {
    items: Vec<T>,
}

/// Bytes.
pub type Octets = Sequence<u8>;

/// Numbers, such as connection ids, versions or the numbers of calls.
pub type NumberList = Sequence<u64>;

impl<T> Model for Sequence<T> {
    ghost use Rattle.std.specs.Prelude.{List};

    ghost Value = { List T };

    ghost view = { λ s. s.items.items };
}

impl<T: PartialEq> PartialEq for Sequence<T> {
    ghost eq = { pointwise T.eq };

    ghost laws = { lists_per T.laws };

    fn eq(&self, other: &Self) -> bool {
        self.items == other.items
    }
}

impl<T> Sequence<T> {
    /// No items yet. Takes no memory.
    pub fn new(alloc: Global) -> Self
        ensures { result ≡ [] }
    {
        Sequence {
            items: Vec::new(alloc),
        }
    }

    /// The items of a vector. Takes no memory.
    pub fn from_vec(items: Vec<T>) -> Self
        ensures { result ≡ items.items }
    {
        Sequence { items }
    }

    /// The vector of the items. Takes no memory.
    pub fn into_vec(self) -> Vec<T>
        ensures { result.items ≡ self }
    {
        self.items
    }

    pub fn as_slice(&self) -> &[T]
        ensures { result.now ≡ self.now }
    {
        &self.items
    }
}

impl<T: Drop> Sequence<T> {
    /// Puts an item at the end. A refusal changes nothing.
    pub fn push(&mut self, item: T) -> Result<(), OutOfMemory>
        ensures ok { OnOk result (self.new ≡ self.old ++ item ∷ []) }
        ensures err { OnErr result (self.new ≡ self.old) }
    {
        self.items.push(item)?;
        Ok(())
    }
}

impl<T: Copy + Drop> Sequence<T> {
    /// A copy of some items.
    pub fn from_slice(alloc: Global, items: &[T]) -> Result<Self, OutOfMemory>
        ensures { IfOk result (λ copy. copy ≡ items.now) }
    {
        Ok(Sequence {
            items: Vec::from_slice(alloc, items)?,
        })
    }

    /// Puts items at the end. A refusal changes nothing.
    pub fn extend_from_slice(&mut self, items: &[T]) -> Result<(), OutOfMemory>
        ensures ok { OnOk result (self.new ≡ self.old ++ items.now) }
        ensures err { OnErr result (self.new ≡ self.old) }
    {
        self.items.extend_from_slice(items)?;
        Ok(())
    }
}
