ghost use Rattle.std.specs.Prelude.{◌≡◌, ◌++◌, [], IfOk, OnOk};
ghost use Rattle.cbor_items.specs.Scan.{scan_of};

use cbor_items::{ItemScan, Scan};
use net_base::{Octets, OutOfMemory};
use std::alloc::Global;
use std::marker::Model;

/// Bytes that are no whole item yet, and where their scan stopped. Contracts see the bytes.
#[derive(Drop)]
pub struct Waiting {
    bytes: Octets,
    scan: ItemScan,
}

impl Model for Waiting {
    ghost use Rattle.std.specs.Prelude.{ℕ, List};
    ghost use Rattle.cbor_items.specs.Resume.{HasSeen};

    ghost Value = { List ℕ };

    ghost view = { λ w. w.bytes };

    ghost invariant = { λ w. HasSeen w.scan w.bytes };
}

impl Waiting {
    /// No bytes. Takes no memory.
    pub fn new(alloc: Global) -> Self
        ensures { result ≡ [] }
    {
        Waiting {
            bytes: Octets::new(alloc),
            scan: ItemScan::new(alloc),
        }
    }

    /// A copy of some bytes, scanned.
    pub fn from_slice(alloc: Global, bytes: &[u8]) -> Result<Self, OutOfMemory>
        ensures { IfOk result (λ waiting. waiting ≡ bytes.now) }
    {
        let mut waiting = Waiting::new(alloc);
        // mostly there are none, and nothing is to be scanned
        if bytes.is_empty() {
            return Ok(waiting);
        }
        waiting.extend(bytes)?;
        Ok(waiting)
    }

    pub fn as_slice(&self) -> &[u8]
        ensures { result.now ≡ self.now }
    {
        self.bytes.as_slice()
    }

    /// Puts bytes at the end, and goes on with the scan of the first item.
    pub fn extend(&mut self, bytes: &[u8]) -> Result<Scan, OutOfMemory>
        ensures bytes { OnOk result (self.new ≡ self.old ++ bytes.now) }
        ensures scan { IfOk result (λ scan. scan ≡ scan_of (self.old ++ bytes.now)) }
    {
        self.bytes.extend_from_slice(bytes)?;
        self.scan.resume(self.bytes.as_slice())
    }
}
