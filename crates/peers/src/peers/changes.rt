ghost use Rattle.std.specs.Prelude.{◌≡◌, ◌≤◌, ◌^◌, IsSomeAnd};
ghost use Rattle.net_base.specs.Peer.{failed_peer};
ghost use Rattle.peer_book.specs.Book.{peer_at, without_peer};
ghost use Rattle.peers.specs.Changes.{turned, other_temp, temp_told};

use super::Peers;
use net_base::{Addr, Temp};

impl Peers {
    /// The peer with an address fails, where there is one: it is cold, and left alone for the back-off. Gives its
    /// temperature, where it is another one than before.
    pub fn fail(&mut self, addr: Addr, now: u64, base: u64) -> Option<Temp>
        requires moment { now ≤ 2 ^ 48 }
        requires interval { base ≤ 86_400_000 }
        ensures peers { self.new ≡ record self.old { peers = turned addr (failed_peer now base) self.old.peers } }
        ensures told { result ≡ temp_told addr (failed_peer now base) self.old.peers }
    {
        let peer = self.book.get(addr)?;
        self.book.fail(addr, now, base);
        other_temp(peer.temp, Temp::Cold)
    }

    /// A connection with the peer is in use: it is warm, and its failures are forgotten. Gives its temperature, where it
    /// is another one than before.
    pub fn succeed(&mut self, addr: Addr) -> Option<Temp>
        ensures peers { self.new ≡ record self.old { peers = turned addr (λ p. record p { temp = Temp.Warm; failures = 0 }) self.old.peers } }
        ensures told { result ≡ temp_told addr (λ p. record p { temp = Temp.Warm; failures = 0 }) self.old.peers }
    {
        let peer = self.book.get(addr)?;
        self.book.succeed(addr);
        other_temp(peer.temp, Temp::Warm)
    }

    /// The peer with an address has a temperature from now on, where there is one. Gives that, where it is another one
    /// than before.
    pub fn set_temp(&mut self, addr: Addr, temp: Temp) -> Option<Temp>
        ensures peers { self.new ≡ record self.old { peers = turned addr (λ p. record p { temp = temp }) self.old.peers } }
        ensures told { result ≡ temp_told addr (λ p. record p { temp = temp }) self.old.peers }
    {
        let peer = self.book.get(addr)?;
        self.book.set_temp(addr, temp);
        other_temp(peer.temp, temp)
    }

    /// The peer with an address was asked for addresses, and is not asked again before a moment.
    pub fn asked(&mut self, addr: Addr, next: u64)
        ensures { self.new ≡ record self.old { peers = turned addr (λ p. record p { share_next = next }) self.old.peers } }
    {
        if self.book.get(addr).is_some() {
            self.book.asked(addr, next);
        }
    }

    /// A cold peer is forgotten.
    pub fn forget(&mut self, addr: Addr)
        requires { IsSomeAnd (peer_at addr self.old.peers) (λ p. p.temp ≡ Temp.Cold) }
        ensures { self.new ≡ record self.old { peers = without_peer addr self.old.peers } }
    {
        self.tellable = None;
        self.book.forget(addr);
    }
}

// A temperature, where it is another one than before.
fn other_temp(old: Temp, new: Temp) -> Option<Temp>
    ensures { result ≡ other_temp old new }
{
    (old != new).then_some(new)
}
