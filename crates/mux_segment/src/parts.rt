ghost use Rattle.std.specs.Prelude.{◌≡◌, [], length, nat_eq, OnOk, slice_get};
ghost use Rattle.mux_segment.specs.PartView.{parts_view};
ghost use Rattle.mux_segment.specs.Parts.{place_of, is_of, part_bytes, without_part, with_part};

use crate::part::Part;
use crate::waiting::Waiting;
use net_base::OutOfMemory;
use std::alloc::Global;
use std::marker::Model;

/// Parts in order of side and protocol.
#[derive(Drop)]
pub(crate) struct Parts {
    parts: Vec<Part>,
}

impl Model for Parts {
    ghost use Rattle.std.specs.Prelude.{List};
    ghost use Rattle.net_base.specs.Shared.{Part};
    ghost use Rattle.mux_segment.specs.PartView.{parts_view};

    ghost Value = { List Part };

    ghost view = { λ p. parts_view p.parts.items };
}

impl Parts {
    /// No parts. Takes no memory.
    pub fn new(alloc: Global) -> Self
        ensures { result ≡ [] }
    {
        Parts {
            parts: Vec::new(alloc),
        }
    }

    pub fn are_none(&self) -> bool
        ensures { result ≡ nat_eq (length self.now) 0 }
    {
        self.parts.is_empty()
    }

    /// Takes a part out: its bytes, none where there is no such part. Takes no memory.
    pub fn take(&mut self, alloc: Global, side: u8, id: u16) -> Waiting
        ensures bytes { result ≡ part_bytes side id self.old }
        ensures parts { self.new ≡ without_part side id self.old }
    {
        let place = place(&self.parts, side, id);
        if !is_at(&self.parts, place, side, id) {
            return Waiting::new(alloc);
        }
        let Part {
            side: _,
            id: _,
            bytes,
        } = self.parts.remove(place);
        bytes
    }

    /// Puts bytes as a part in its place, where they are some.
    pub fn put(&mut self, side: u8, id: u16, bytes: Waiting) -> Result<(), OutOfMemory>
        ensures { OnOk result (self.new ≡ with_part side id bytes self.old) }
    {
        if bytes.as_slice().is_empty() {
            return Ok(());
        }
        let place = place(&self.parts, side, id);
        self.parts.insert(place, Part { side, id, bytes })?;
        Ok(())
    }
}

// How many parts come before the one of a side and protocol.
fn place(parts: &[Part], side: u8, id: u16) -> usize
    ensures { result ≡ place_of side id (parts_view parts.now) }
{
    for (place, part) in parts.iter().enumerate() {
        if !part.comes_before(side, id) {
            return place;
        }
    }
    parts.len()
}

// The part of a side and protocol stands at a place.
fn is_at(parts: &[Part], place: usize, side: u8, id: u16) -> bool
    ensures { result ≡ is_of side id (slice_get (parts_view parts.now) place) }
{
    match parts.get(place) {
        Some(part) => part.is_of(side, id),
        None => false,
    }
}
