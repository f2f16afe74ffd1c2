ghost use Rattle.std.specs.Prelude.{◌≡◌, ◌≤◌, IfOk};
ghost use Rattle.node_world.specs.Town.{peer, some_peer, local_peers, root_peers};

use net_base::{Addr, AddrList, Ip, OutOfMemory};
use std::alloc::Global;

// 10.0.0.NUMBER:3001.
const fn peer(number: u32) -> Addr
    requires { number ≤ 255 }
    ensures { result ≡ peer number }
{
    Addr {
        ip: Ip::V4(0x0a00_0000 + number),
        port: 3001,
    }
}

/// One of the sixty peers.
pub(crate) fn some_peer(number: u64) -> Addr
    ensures { result ≡ some_peer number }
{
    peer(1 + (number % 60) as u32)
}

/// The peers that are kept connected.
pub(crate) fn local_peers(alloc: Global) -> Result<AddrList, OutOfMemory>
    ensures { IfOk result (λ peers. peers ≡ local_peers) }
{
    AddrList::from_slice(alloc, &[peer(1), peer(2), peer(3)])
}

/// The peers that the root peer provider knows.
pub(crate) fn root_peers(alloc: Global) -> Result<AddrList, OutOfMemory>
    ensures { IfOk result (λ peers. peers ≡ root_peers) }
{
    AddrList::from_slice(
        alloc,
        &[
            peer(11),
            peer(12),
            peer(13),
            peer(14),
            peer(15),
            peer(16),
            peer(17),
            peer(18),
        ],
    )
}
