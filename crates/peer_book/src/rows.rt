ghost use Rattle.std.specs.Prelude.{◌≡◌, ◌<◌, ◌≤◌, [], false, length, IsTrue, IfOk, OnOk, OnErr, if◌then◌else◌};
ghost use Rattle.net_base.specs.declared.peer.Temp.{Temp};
ghost use Rattle.net_base.specs.declared.peer.Temp.TheVariants.{Cold};
ghost use Rattle.peer_book.specs.Book.{listed_at, same_temp};
ghost use Rattle.peer_book.specs.Order.{IsRising};
ghost use Rattle.peer_book.specs.Addresses.{has_address, with_address, without_address};
ghost use Rattle.peer_book.specs.Row.{addresses_in};

use crate::merge::row_at;
use crate::row::Row;
use net_base::{Addr, OutOfMemory, Peer, Temp};
use std::alloc::{AllocError, Global};

// The addresses of each temperature, in order.
pub struct Rows {
    pub cold: Row,
    pub warm: Row,
    pub hot: Row,
}

// By hand, so that it is a call where rows may be let go.
impl Drop for Rows {
    fn drop(self) {
        let Rows {
            cold: _,
            warm: _,
            hot: _,
        } = self;
    }
}

impl Rows {
    ghost use Rattle.peer_book.specs.Rows.{row_of, room_of, moved};

    pub fn new(alloc: Global) -> Rows
        ensures { (temp : Temp) → row_of temp result ≡ [] }
    {
        Rows {
            cold: Row::new(alloc),
            warm: Row::new(alloc),
            hot: Row::new(alloc),
        }
    }

    // The rows of some peers, with room for each of them at each temperature.
    pub fn of(alloc: Global, peers: &[Peer]) -> Result<Rows, OutOfMemory>
        ensures lists { IfOk result (λ rows. (temp : Temp) → row_of temp rows ≡ listed_at temp peers.now) }
        ensures made { IfOk result (λ rows. (temp : Temp) → length peers.now ≤ room_of temp rows) }
    {
        let mut rows = Rows {
            cold: Row::of(alloc, &row_at(alloc, peers, Temp::Cold)?)?,
            warm: Row::of(alloc, &row_at(alloc, peers, Temp::Warm)?)?,
            hot: Row::of(alloc, &row_at(alloc, peers, Temp::Hot)?)?,
        };
        rows.reserve(peers.len())?;
        Ok(rows)
    }

    pub fn list(&self, temp: Temp) -> &Row
        ensures { addresses_in result.now ≡ row_of temp self.now }
    {
        match temp {
            Temp::Cold => &self.cold,
            Temp::Warm => &self.warm,
            Temp::Hot => &self.hot,
        }
    }

    // Makes room for so many addresses at each temperature.
    pub fn reserve(&mut self, room: usize) -> Result<(), AllocError>
        ensures lists { (temp : Temp) → row_of temp self.new ≡ row_of temp self.old }
        ensures kept { (temp : Temp) → room_of temp self.old ≤ room_of temp self.new }
        ensures made { OnOk result ((temp : Temp) → room ≤ room_of temp self.new) }
    {
        self.cold.reserve(room)?;
        self.warm.reserve(room)?;
        self.hot.reserve(room)?;
        Ok(())
    }

    // Takes another row of the cold ones, and makes room for so many addresses at each temperature.
    pub fn renew_cold(&mut self, mut cold: Row, room: usize) -> Result<(), AllocError>
        ensures lists { OnOk result ((temp : Temp) → row_of temp self.new ≡ (if same_temp Cold temp then addresses_in cold else row_of temp self.old)) }
        ensures made { OnOk result ((temp : Temp) → room ≤ room_of temp self.new) }
        ensures unchanged { OnErr result ((temp : Temp) → row_of temp self.new ≡ row_of temp self.old) }
        ensures kept { OnErr result ((temp : Temp) → room_of temp self.old ≤ room_of temp self.new) }
    {
        cold.reserve(room)?;
        self.warm.reserve(room)?;
        self.hot.reserve(room)?;
        self.cold = cold;
        Ok(())
    }

    // There has to be room.
    pub fn insert(&mut self, temp: Temp, addr: Addr)
        requires rising { IsRising (λ a. a) (row_of temp self.old) }
        requires room { length (row_of temp self.old) < room_of temp self.old }
        ensures lists { (other : Temp) → row_of other self.new ≡ (if same_temp temp other then with_address addr (row_of other self.old) else row_of other self.old) }
        ensures kept { (other : Temp) → room_of other self.old ≤ room_of other self.new }
    {
        match temp {
            Temp::Cold => self.cold.insert(addr),
            Temp::Warm => self.warm.insert(addr),
            Temp::Hot => self.hot.insert(addr),
        }
    }

    pub fn remove(&mut self, temp: Temp, addr: Addr)
        requires rising { IsRising (λ a. a) (row_of temp self.old) }
        requires room { length (row_of temp self.old) ≤ room_of temp self.old }
        requires there { IsTrue (has_address addr (row_of temp self.old)) }
        ensures lists { (other : Temp) → row_of other self.new ≡ (if same_temp temp other then without_address addr (row_of other self.old) else row_of other self.old) }
        ensures kept { (other : Temp) → room_of other self.old ≤ room_of other self.new }
    {
        match temp {
            Temp::Cold => self.cold.remove(addr),
            Temp::Warm => self.warm.remove(addr),
            Temp::Hot => self.hot.remove(addr),
        }
    }

    // Moves an address from one row to another. There has to be room in that one.
    pub fn turn(&mut self, addr: Addr, from: Temp, to: Temp)
        requires rising { (temp : Temp) → IsRising (λ a. a) (row_of temp self.old) }
        requires roomy { length (row_of from self.old) ≤ room_of from self.old }
        requires there { IsTrue (has_address addr (row_of from self.old)) }
        requires room { same_temp from to ≡ false → length (row_of to self.old) < room_of to self.old }
        ensures lists { (temp : Temp) → row_of temp self.new ≡ moved from to addr temp (row_of temp self.old) }
        ensures kept { (temp : Temp) → room_of temp self.old ≤ room_of temp self.new }
    {
        if from != to {
            self.remove(from, addr);
            self.insert(to, addr);
        }
    }
}
