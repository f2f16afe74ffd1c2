ghost use Rattle.std.specs.Prelude.{◌≡◌, IfOk};
ghost use Rattle.remote_watch.specs.Replies.{reply_bytes_of};

use net_base::{Addr, Octets, OutOfMemory};
use std::alloc::Global;
use warm_messages::{Alive, write_alive, write_peers};

/// What a responder answers. It behaves as one of an empty chain.
#[derive(Clone, Copy, PartialEq, Eq)]
pub enum Reply {
    Nothing,
    /// Keep-alive: the cookie comes back.
    Alive(u16),
    /// Peer sharing: addresses, at most so many.
    Share(u64),
    /// Chain-sync: the chains meet nowhere.
    NoIntersect,
    /// Chain-sync: there is no next block yet.
    Await,
    /// Block-fetch: there are no such blocks.
    NoBlocks,
}

/// The canonical spelling of a reply, and nothing for `Nothing`. The peers are told where addresses were asked for, all of
/// them.
pub fn reply_bytes(alloc: Global, reply: &Reply, peers: &[Addr]) -> Result<Octets, OutOfMemory>
    ensures { IfOk result (λ bytes. bytes ≡ reply_bytes_of reply.now peers.now) }
{
    match *reply {
        Reply::Nothing => Ok(Octets::new(alloc)),
        Reply::Alive(cookie) => write_alive(alloc, &Alive::Reply(cookie)),
        Reply::Share(_) => write_peers(alloc, peers),
        // [6, [[], 0]]
        Reply::NoIntersect => Octets::from_slice(alloc, &[0x82, 0x06, 0x82, 0x80, 0x00]),
        // [1]
        Reply::Await => Octets::from_slice(alloc, &[0x81, 0x01]),
        // [3]
        Reply::NoBlocks => Octets::from_slice(alloc, &[0x81, 0x03]),
    }
}
