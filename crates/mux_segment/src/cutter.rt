ghost use Rattle.std.specs.Prelude.{◌≡◌, IfOk, IfSome, None, Some, slice_get};
ghost use Rattle.mux_segment.specs.Lent.{lent};
ghost use Rattle.mux_segment.specs.Protocols.{node_limits};
ghost use Rattle.mux_segment.specs.Stream.{nothing_fed, ended_with, fed_by};
ghost use Rattle.mux_segment.specs.Given.{IsGiven, IsPut};

use crate::parts::Parts;
use crate::segments::{limit_of, split_segment, take_stream};
use crate::{CutFault, Fed, LentItem, PackedItems, next_item};
use cbor_items::first_item;
use net_base::{Octets, OutOfMemory};
use std::alloc::Global;
use std::marker::Model;

/// Cuts a stream that comes in pieces into segments, and gives the items of each protocol as they become whole.
#[derive(Drop)]
pub struct Cutter {
    alloc: Global,
    rest: Octets,
    parts: Parts,
    fault: Option<CutFault>,
}

impl Model for Cutter {
    ghost use Rattle.mux_segment.specs.Stream.{CutterState};
    ghost use Rattle.mux_segment.specs.Protocols.{node_limits};
    ghost use Rattle.mux_segment.specs.Kept.{AreKept};

    ghost Value = { CutterState };

    ghost view = { λ c. record { undecoded = record { rest = c.rest; parts = c.parts }; fault = c.fault } };

    ghost invariant = { λ c. AreKept node_limits c.parts };
}

impl Cutter {
    /// Nothing was fed yet. Takes no memory.
    pub fn new(alloc: Global) -> Self
        ensures { result ≡ nothing_fed }
    {
        Cutter {
            alloc,
            rest: Octets::new(alloc),
            parts: Parts::new(alloc),
            fault: None,
        }
    }

    /// Takes the next piece of the stream, and gives the items that it makes whole, up to the first fault. After
    /// a fault every piece gives that fault and no item.
    pub fn feed(self, bytes: &[u8]) -> Result<(Cutter, Fed), OutOfMemory>
        ensures { IfOk result (λ fed. IsGiven (fed_by node_limits self bytes.now) fed.0 fed.1) }
    {
        let alloc = self.alloc;
        let mut packed = PackedItems::new(alloc);
        let (cutter, fault) = self.feed_into(bytes, &mut packed)?;
        let items = packed.to_list(alloc)?;
        Ok((cutter, Fed { items, fault }))
    }

    /// The same, with the items put behind others, and the fault alone told.
    pub fn feed_into(
        self,
        bytes: &[u8],
        items: &mut PackedItems,
    ) -> Result<(Cutter, Option<CutFault>), OutOfMemory>
        ensures { IfOk result (λ fed. IsPut (fed_by node_limits self bytes.now) fed.0 items.old items.new fed.1) }
    {
        if self.fault.is_some() {
            let fault = self.fault;
            return Ok((self, fault));
        }
        self.read_on(bytes, items)
    }

    /// The first item that a piece would make whole, lent, without the rest of the piece being looked at: where nothing of
    /// the stream waits before it, and it stands at the front of the first segment. Takes no memory.
    pub fn first<'a>(&self, bytes: &'a [u8]) -> Option<LentItem<'a>>
        ensures { IfSome result (λ item. slice_get (fed_by node_limits self.now bytes.now).items 0 ≡ Some (lent item)) }
    {
        if self.fault.is_some() || !self.rest.as_slice().is_empty() || !self.parts.are_none() {
            return None;
        }
        let (header, payload, _) = split_segment(bytes)?;
        let limit = limit_of(header.id)?;
        match next_item(limit, payload, first_item(payload)) {
            Ok(Some(size)) => {
                let (body, _) = payload.split_at(size);
                Some(LentItem {
                    side: header.side,
                    id: header.id,
                    body,
                })
            }
            Ok(None) | Err(_) => None,
        }
    }

    // Takes the next piece of a stream that has not ended.
    fn read_on(
        self,
        bytes: &[u8],
        items: &mut PackedItems,
    ) -> Result<(Cutter, Option<CutFault>), OutOfMemory>
        requires { self.fault ≡ None }
        ensures { IfOk result (λ fed. IsPut (fed_by node_limits self bytes.now) fed.0 items.old items.new fed.1) }
    {
        let Cutter {
            alloc,
            rest,
            mut parts,
            fault,
        } = self;
        match take_stream(alloc, rest, bytes, &mut parts, items) {
            Ok(rest) => Ok((
                Cutter {
                    alloc,
                    rest,
                    parts,
                    fault,
                },
                fault,
            )),
            Err(stopped) => Ok(ended(alloc, stopped.fault()?)),
        }
    }
}

// A cutter after a fault, and the fault.
fn ended(alloc: Global, fault: CutFault) -> (Cutter, Option<CutFault>)
    ensures cutter { result.0 ≡ ended_with fault }
    ensures told { result.1 ≡ Some fault }
{
    let fault = Some(fault);
    let cutter = Cutter {
        alloc,
        rest: Octets::new(alloc),
        parts: Parts::new(alloc),
        fault,
    };
    (cutter, fault)
}
