ghost use Rattle.std.specs.Prelude.{◌≡◌};
ghost use Rattle.mux_segment.specs.Lent.{lent};

use crate::LentItem;
use net_base::{Octets, Sequence};

/// A whole item that came in.
#[derive(Drop)]
pub struct Item {
    /// 0 from the initiator, 1 from the responder.
    pub side: u8,
    /// The number of the protocol.
    pub id: u16,
    pub body: Octets,
}

/// Items one after another.
pub type ItemList = Sequence<Item>;

impl Item {
    /// The same, lent.
    pub fn as_lent(&self) -> LentItem<'_>
        ensures { lent result ≡ self.now }
    {
        LentItem {
            side: self.side,
            id: self.id,
            body: self.body.as_slice(),
        }
    }
}
