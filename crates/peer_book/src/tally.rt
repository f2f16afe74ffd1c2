ghost use Rattle.std.specs.Prelude.{◌≡◌, ◌+◌, ◌≤◌, length};
ghost use Rattle.peer_book.specs.Book.{most_peers};

use net_base::{Peer, Temp};

// How many peers of one class there are.
#[derive(Clone, Copy, PartialEq, Eq)]
pub struct Counts {
    pub known: u64,
    // warm and hot ones
    pub established: u64,
    // hot ones
    pub active: u64,
}

// The counts of both classes.
#[derive(Clone, Copy, PartialEq, Eq)]
pub struct Tally {
    pub ordinary: Counts,
    pub big: Counts,
}

impl Counts {
    ghost use Rattle.peer_book.specs.declared.tally.Counts.{Counts};
    ghost use Rattle.peer_book.specs.Tallies.{one_more, AreWithin};

    fn enter(&mut self, temp: Temp)
        requires { AreWithin most_peers self.old }
        ensures { self.new ≡ one_more temp self.old }
    {
        self.known += 1;
        self.established += u64::from(temp != Temp::Cold);
        self.active += u64::from(temp == Temp::Hot);
    }

    fn leave(&mut self, temp: Temp)
        requires { (rest : Counts) × (self.old ≡ one_more temp rest) }
        ensures { self.old ≡ one_more temp self.new }
    {
        self.known -= 1;
        self.established -= u64::from(temp != Temp::Cold);
        self.active -= u64::from(temp == Temp::Hot);
    }
}

impl Tally {
    ghost use Rattle.peer_book.specs.declared.tally.Tally.{Tally};
    ghost use Rattle.peer_book.specs.Tallies.{tally_of, tallied, known_in, more_cold, IsTallyWithin};
    ghost use Rattle.std.specs.Prelude.{[]};

    pub fn new() -> Tally
        ensures { result ≡ tally_of [] }
    {
        let none = Counts {
            known: 0,
            established: 0,
            active: 0,
        };
        Tally {
            ordinary: none,
            big: none,
        }
    }

    // The counts of some peers.
    pub fn of(peers: &[Peer]) -> Tally
        requires { length peers.now ≤ most_peers }
        ensures { result ≡ tally_of peers.now }
    {
        let mut tally = Tally::new();
        for peer in peers {
            tally.enter(peer);
        }
        tally
    }

    pub fn enter(&mut self, peer: &Peer)
        requires { IsTallyWithin most_peers self.old }
        ensures { self.new ≡ tallied peer.now self.old }
    {
        if peer.big {
            self.big.enter(peer.temp);
        } else {
            self.ordinary.enter(peer.temp);
        }
    }

    // So many cold peers of a class come in.
    pub fn enter_cold(&mut self, big: bool, count: u64)
        requires { known_in big self.old + count ≤ most_peers }
        ensures { self.new ≡ more_cold big count self.old }
    {
        if big {
            self.big.known += count;
        } else {
            self.ordinary.known += count;
        }
    }

    pub fn leave(&mut self, peer: &Peer)
        requires { (rest : Tally) × (self.old ≡ tallied peer.now rest) }
        ensures { self.old ≡ tallied peer.now self.new }
    {
        if peer.big {
            self.big.leave(peer.temp);
        } else {
            self.ordinary.leave(peer.temp);
        }
    }
}
