ghost use Rattle.std.specs.Prelude.{◌≡◌, ◌+◌, ℕ, eqb, Some, None, if◌then◌else◌, IfOk, OnOk, OnErr};
ghost use Rattle.std.specs.Option.{option_copied};
ghost use Rattle.socket_flow.specs.Table.{socket_at, key_at, Puts, HasSame, NamesSame, is_of};

use crate::id::Id;
use crate::socket::{Socket, Stage};
use net_base::{Cid, OutOfMemory};
use std::alloc::Global;
use std::collections::HashMap;

/// The sockets under their keys, and the keys of those that are connections. A key is never given again.
#[derive(Drop)]
pub(crate) struct SocketTable {
    pub(crate) sockets: HashMap<usize, Socket>,
    keys: HashMap<u64, usize>,
    next_key: usize,
}

impl SocketTable {
    pub(crate) fn new(alloc: Global) -> SocketTable
        ensures sockets { (key : ℕ) → socket_at result key ≡ None }
        ensures keys { (cid : ℕ) → key_at result cid ≡ None }
    {
        SocketTable {
            sockets: HashMap::new(alloc),
            keys: HashMap::new(alloc),
            next_key: 0,
        }
    }

    pub(crate) fn len(&self) -> usize {
        self.sockets.len()
    }

    /// The key that the next socket is given.
    pub(crate) fn next_key(&self) -> usize
        ensures { result ≡ self.now.next_key }
    {
        self.next_key
    }

    /// Takes a socket in, under a key of its own.
    pub(crate) fn insert(&mut self, socket: Socket) -> Result<usize, OutOfMemory>
        ensures key { IfOk result (λ key. key ≡ self.old.next_key) }
        ensures next { OnOk result (self.new.next_key ≡ self.old.next_key + 1) }
        ensures sockets { IfOk result (λ key. Puts self.old self.new key (Some socket)) }
        ensures names { NamesSame self.old self.new }
        ensures err { OnErr result (HasSame self.old self.new) }
    {
        let key = self.next_key;
        if key == usize::MAX {
            return Err(OutOfMemory);
        }
        self.sockets.insert(key, socket)?;
        self.next_key += 1;
        Ok(key)
    }

    /// From now on the socket is the connection of this id.
    pub(crate) fn name(&mut self, id: Id, key: usize) -> Result<(), OutOfMemory>
        ensures names { OnOk result ((cid : ℕ) → key_at self.new cid ≡ (if eqb id.cid.0 cid then Some key else key_at self.old cid)) }
        ensures sockets { HasSame self.old self.new }
        ensures next { self.new.next_key ≡ self.old.next_key }
        ensures err { OnErr result (NamesSame self.old self.new) }
    {
        self.keys.insert(id.cid.0, key)?;
        Ok(())
    }

    pub(crate) fn key_of(&self, cid: Cid) -> Option<usize>
        ensures { result ≡ key_at self.now cid.0 }
    {
        self.keys.get(&cid.0).copied()
    }

    pub(crate) fn get(&self, key: usize) -> Option<&Socket>
        ensures { option_copied result ≡ socket_at self.now key }
    {
        self.sockets.get(&key)
    }

    /// The connection of this id has no socket from now on.
    pub(crate) fn forget(&mut self, id: u64)
        ensures names { (cid : ℕ) → key_at self.new cid ≡ (if eqb id cid then None else key_at self.old cid) }
        ensures sockets { HasSame self.old self.new }
        ensures next { self.new.next_key ≡ self.old.next_key }
    {
        self.keys.remove(&id);
    }

    /// Takes a socket out. Its id, if it has one, has no socket from then on.
    pub(crate) fn remove(&mut self, key: usize) -> Option<Socket>
        ensures value { result ≡ socket_at self.old key }
        ensures sockets { Puts self.old self.new key None }
        ensures names { (cid : ℕ) → key_at self.new cid ≡ (if is_of result cid then None else key_at self.old cid) }
        ensures next { self.new.next_key ≡ self.old.next_key }
    {
        let socket = self.sockets.remove(&key)?;
        if let Stage::Dialing(id) | Stage::Open(id) = socket.stage {
            self.forget(id.cid.0);
        }
        Some(socket)
    }
}
