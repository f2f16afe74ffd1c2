ghost use Rattle.std.specs.Prelude.{◌≡◌, [], ◌∷◌, IfOk, OnOk};
ghost use Rattle.root_groups.specs.Cleaned.{is_listed};
ghost use Rattle.root_groups.specs.RootAsk.{publics_of, with_other};
ghost use Rattle.root_groups.specs.Sorted.{HasSame};

use net_base::{Addr, AddrList, OutOfMemory};
use std::alloc::Global;
use std::collections::BTreeSet;
use std::marker::Model;

// Public roots in the order in which they were found, and the same in address order.
#[derive(Drop)]
pub struct Publics {
    list: AddrList,
    sorted: BTreeSet<Addr>,
}

impl Model for Publics {
    ghost use Rattle.std.specs.Prelude.{List};
    ghost use Rattle.net_base.specs.declared.address.Addr.{Addr};
    ghost use Rattle.root_groups.specs.Sorted.{HasSame};

    ghost Value = { List Addr };

    ghost view = { λ p. p.list };

    ghost invariant = { λ p. HasSame p.list p.sorted.keys };
}

impl Publics {
    pub fn new(alloc: Global) -> Publics
        ensures { result ≡ [] }
    {
        Publics {
            list: AddrList::new(alloc),
            sorted: BTreeSet::new(alloc),
        }
    }

    pub fn list(&self) -> &AddrList
        ensures { result.now ≡ self.now }
    {
        &self.list
    }

    pub fn has(&self, addr: Addr) -> bool
        ensures { result ≡ is_listed addr self.now }
    {
        self.sorted.contains(&addr)
    }

    // The first distinct addresses but the own one, at most as many as the target.
    pub fn first_of(
        alloc: Global,
        addrs: &[Addr],
        own: Addr,
        target: u64,
    ) -> Result<Publics, OutOfMemory>
        ensures { IfOk result (λ publics. publics ≡ publics_of own target addrs.now) }
    {
        let mut list = AddrList::new(alloc);
        let mut sorted = BTreeSet::new(alloc);
        for addr in addrs {
            if list.as_slice().len() as u64 >= target {
                break;
            }
            put(&mut list, &mut sorted, own, *addr)?;
        }
        Ok(Publics { list, sorted })
    }
}

// Puts an address at the end, where it is neither the own one nor there yet.
fn put(
    list: &mut AddrList,
    sorted: &mut BTreeSet<Addr>,
    own: Addr,
    addr: Addr,
) -> Result<(), OutOfMemory>
    requires { HasSame list.old sorted.old.keys }
    ensures listed { OnOk result (list.new ≡ with_other own addr list.old) }
    ensures same { OnOk result (HasSame list.new sorted.new.keys) }
{
    if is_taken(sorted, own, addr) {
        return Ok(());
    }
    sorted.insert(addr)?;
    list.push(addr)?;
    Ok(())
}

// An address is the own one or there already.
fn is_taken(sorted: &BTreeSet<Addr>, own: Addr, addr: Addr) -> bool
    ensures { result ≡ is_listed addr (own ∷ sorted.now.keys) }
{
    addr.is_same(&own) || sorted.contains(&addr)
}
