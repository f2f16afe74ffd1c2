ghost use Rattle.std.specs.Prelude.{◌≡◌, Some};
ghost use Rattle.mux_segment.specs.PartView.{part_view};
ghost use Rattle.mux_segment.specs.Parts.{comes_before, is_of};

use crate::waiting::Waiting;

/// The bytes of one side and protocol that are no whole item yet.
#[derive(Drop)]
pub(crate) struct Part {
    pub side: u8,
    pub id: u16,
    pub bytes: Waiting,
}

impl Part {
    /// The part comes before the one of a side and protocol.
    pub fn comes_before(&self, side: u8, id: u16) -> bool
        ensures { result ≡ comes_before side id (part_view self.now) }
    {
        self.side < side || (self.side == side && self.id < id)
    }

    /// The part is the one of a side and protocol.
    pub fn is_of(&self, side: u8, id: u16) -> bool
        ensures { result ≡ is_of side id (Some (part_view self.now)) }
    {
        self.side == side && self.id == id
    }
}
