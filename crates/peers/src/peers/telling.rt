ghost use Rattle.std.specs.Prelude.{◌≡◌, IfOk};
ghost use Rattle.share_rounds.specs.Rounds.{served_to};

use super::Peers;
use net_base::{Addr, AddrList, OutOfMemory};
use share_rounds::{served_among, tellable};

impl Peers {
    /// The peers that are told to one that asks for so many. What may be told to anyone is looked up once.
    pub fn served_to(&mut self, asker: Addr, n: u64) -> Result<AddrList, OutOfMemory>
        ensures told { IfOk result (λ told. told ≡ served_to asker n self.old.peers self.old.groups self.old.roots.publics) }
        ensures same { self.new ≡ self.old }
    {
        if let Some(addrs) = &self.tellable {
            return served_among(self.alloc, addrs.as_slice(), asker, n);
        }
        let addrs = tellable(self.alloc, &self.book, &self.groups, &self.roots)?;
        let served = served_among(self.alloc, addrs.as_slice(), asker, n);
        self.tellable = Some(addrs);
        served
    }
}
