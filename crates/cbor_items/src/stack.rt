ghost use Rattle.std.specs.Prelude.{◌≡◌, ◌∷◌, [], ◌-◌, ◌<◌, ◌≤◌, ◌+◌, List, ℕ, IsTrue, false, length, reverse, OnOk, OnErr, Ok};
ghost use Rattle.cbor_items.specs.declared.level.Level.TheVariants.{Items};
ghost use Rattle.cbor_items.specs.Item.{level_limit};
ghost use Rattle.cbor_items.specs.Scan.{skip_pair, skip_item};
ghost use Rattle.cbor_items.specs.Level.{skip_level, skip_open};
ghost use Rattle.cbor_items.specs.Steps.{levels_of};

use crate::item::LEVEL_LIMIT;
use crate::level::Level;
use net_base::OutOfMemory;
use std::alloc::Global;

/// The levels that are open.
#[derive(Drop)]
pub(crate) struct Levels {
    /// The innermost.
    pub here: Level,
    /// Those around it, the outermost first.
    pub around: Vec<Level>,
}

impl Levels {
    /// An item is to come. Takes no memory.
    pub fn new(alloc: Global) -> Self
        ensures { levels_of result ≡ Items 1 ∷ [] }
    {
        Levels {
            here: Level::Items(1),
            around: Vec::new(alloc),
        }
    }

    /// Nothing is to come any more.
    pub fn are_done(&self) -> bool
        ensures done { IsTrue result → (bytes : List ℕ) → skip_open (levels_of self.now) bytes ≡ Ok bytes }
        ensures more { result ≡ false → self.now.here ≡ Items 0 → 0 < length self.now.around.items }
    {
        self.here.is_done() && self.around.is_empty()
    }

    /// How many levels may be inside the innermost one.
    pub fn depth(&self) -> u8
        ensures { result ≡ level_limit - length (reverse self.now.around.items) }
    {
        usize::from(LEVEL_LIMIT).saturating_sub(self.around.len()) as u8
    }

    /// Opens a level inside the innermost one, of which `after` is still to come then. A refusal changes nothing.
    pub fn open(&mut self, after: Level, inner: Level) -> Result<(), OutOfMemory>
        ensures opened { OnOk result ((bytes : List ℕ) → (let around = reverse self.old.around.items in
            skip_pair (skip_level (skip_item (level_limit - length around - 1)) inner) (skip_open (after ∷ around)) bytes) ≡ skip_open (levels_of self.new) bytes) }
        ensures one_more { length self.new.around.items ≤ length self.old.around.items + 1 }
        ensures err { OnErr result (levels_of self.new ≡ levels_of self.old) }
    {
        if inner.is_done() {
            self.here = after;
            return Ok(());
        }
        self.around.push(after)?;
        self.here = inner;
        Ok(())
    }

    /// Goes out of the innermost level.
    pub fn leave(&mut self)
        requires done { self.old.here ≡ Items 0 }
        requires around { 0 < length self.old.around.items }
        ensures left { (bytes : List ℕ) → skip_open (levels_of self.old) bytes ≡ skip_open (levels_of self.new) bytes }
        ensures one_less { length self.new.around.items < length self.old.around.items }
    {
        if let Some(level) = self.around.pop() {
            self.here = level;
        }
    }
}
