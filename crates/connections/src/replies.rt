ghost use Rattle.std.specs.Prelude.{◌≡◌, [], find, ◌==◌, true};
ghost use Rattle.std.specs.Option.{option_map};
ghost use Rattle.machine.specs.Replies.{with_reply, without_reply, is_owed_on};
ghost use Rattle.connections.specs.Owed.{reply_of, owed_by};

use crate::Reply;
use net_base::protocol::{CHAIN_SYNC, KEEP_ALIVE, PEER_SHARING};
use std::marker::Model;

/// The replies that are owed on a connection, at most one on each protocol. Contracts see the list of them, in order
/// of protocol.
#[derive(Drop)]
pub struct Replies {
    chain_sync: Option<Reply>,
    keep_alive: Option<Reply>,
    peer_sharing: Option<Reply>,
}

impl Model for Replies {
    ghost use Rattle.std.specs.Prelude.{List};
    ghost use Rattle.machine.specs.Machine.{Owed};
    ghost use Rattle.connections.specs.Owed.{owed_by};

    ghost Value = { List Owed };

    ghost view = { λ r. owed_by r.chain_sync r.keep_alive r.peer_sharing };
}

impl Replies {
    /// Nothing is owed.
    pub fn new() -> Replies
        ensures { result ≡ [] }
    {
        Replies {
            chain_sync: None,
            keep_alive: None,
            peer_sharing: None,
        }
    }

    /// The reply that is owed on a protocol. None where there is none.
    pub fn on(&self, protocol: u16) -> Option<Reply>
        ensures { result ≡ option_map reply_of (find (λ o. o.protocol == protocol) self.now) }
    {
        match protocol {
            CHAIN_SYNC => self.chain_sync,
            KEEP_ALIVE => self.keep_alive,
            PEER_SHARING => self.peer_sharing,
            _ => None,
        }
    }

    /// Those on chain-sync, keep-alive and peer-sharing.
    pub fn by_protocol(&self) -> (Option<Reply>, Option<Reply>, Option<Reply>)
        ensures { self.now ≡ owed_by result.0 result.1 result.2 }
    {
        (self.chain_sync, self.keep_alive, self.peer_sharing)
    }

    /// A reply comes to be owed on a protocol, in place of the one before.
    pub fn owe(&mut self, protocol: u16, reply: Reply)
        requires { is_owed_on protocol ≡ true }
        ensures { self.new ≡ with_reply
            (record { protocol = protocol; until = reply.until; asked = reply.asked }) self.old }
    {
        match protocol {
            CHAIN_SYNC => self.chain_sync = Some(reply),
            KEEP_ALIVE => self.keep_alive = Some(reply),
            PEER_SHARING => self.peer_sharing = Some(reply),
            _ => unreachable!(),
        }
    }

    /// The reply on a protocol is owed no more.
    pub fn pay(&mut self, protocol: u16)
        ensures { self.new ≡ without_reply protocol self.old }
    {
        match protocol {
            CHAIN_SYNC => self.chain_sync = None,
            KEEP_ALIVE => self.keep_alive = None,
            PEER_SHARING => self.peer_sharing = None,
            _ => {}
        }
    }
}
