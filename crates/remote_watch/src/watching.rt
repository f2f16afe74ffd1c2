ghost use Rattle.std.specs.Prelude.{◌≡◌, ◌≢◌, Some, None, IfErr, MatchResult};
ghost use Rattle.net_base.specs.declared.action.FaultKind.{FaultKind};
ghost use Rattle.remote_watch.specs.Refusal.{Answers};
ghost use Rattle.remote_watch.specs.Watch.{watched, chain_sync_seen, block_fetch_seen, tx_submission_seen, keep_alive_seen, peer_sharing_seen};
ghost use Rattle.warm_messages.specs.First.{item_number_of};
ghost use Rattle.warm_messages.specs.Reading.{alive_of, share_of, first_peer_at};
ghost use Rattle.remote_watch.specs.declared.refusal.WatchRefusal.{WatchRefusal};

use crate::{Reply, Seen, WatchRefusal};
use net_base::{FaultKind, protocol};
use std::alloc::Global;
use warm_messages::{Alive, Share, item_number, message, read_alive, read_share};

/// What an item of the initiator's side is, by the number of its mini-protocol, where the handshake is over. Peer sharing has
/// its number only where both ends agreed on it. Memory is taken for peer sharing alone. The item is one that a cutter gave:
/// that it is whole is not tested again.
pub fn watch(alloc: Global, id: u16, sharing: bool, item: &[u8]) -> Result<Seen, WatchRefusal>
    ensures answer { Answers result (watched id sharing item.now) }
    ensures memory { IfErr result (λ refusal. refusal ≡ WatchRefusal.OutOfMemory → (id ≡ 10) × (first_peer_at item.now ≢ None)) }
{
    match id {
        protocol::HANDSHAKE => Err(WatchRefusal::Fault(FaultKind::Protocol)),
        protocol::CHAIN_SYNC => Ok(chain_sync(numbered(item)?)),
        protocol::BLOCK_FETCH => Ok(block_fetch(numbered(item)?)),
        protocol::TX_SUBMISSION => Ok(tx_submission(numbered(item)?)),
        protocol::KEEP_ALIVE => Ok(keep_alive(item)?),
        protocol::PEER_SHARING if sharing => peer_sharing(alloc, item),
        _ => Err(WatchRefusal::Fault(FaultKind::UnknownId)),
    }
}

// The first number of an item, which each one of chain-sync, block-fetch and tx-submission has.
fn numbered(item: &[u8]) -> Result<u64, FaultKind>
    ensures { MatchResult result (λ n. item_number_of item.now ≡ Some n) (λ fault. (fault ≡ FaultKind.Protocol) × (item_number_of item.now ≡ None)) }
{
    item_number(item).ok_or(FaultKind::Protocol)
}

fn chain_sync(number: u64) -> Seen
    ensures { result ≡ chain_sync_seen number }
{
    match number {
        message::FIND_INTERSECT => Seen::goes_on(Reply::NoIntersect),
        message::REQUEST_NEXT => Seen::goes_on(Reply::Await),
        message::CHAIN_SYNC_DONE => Seen::done(),
        _ => Seen::goes_on(Reply::Nothing),
    }
}

fn block_fetch(number: u64) -> Seen
    ensures { result ≡ block_fetch_seen number }
{
    match number {
        message::REQUEST_RANGE => Seen::goes_on(Reply::NoBlocks),
        message::BLOCK_FETCH_DONE => Seen::done(),
        _ => Seen::goes_on(Reply::Nothing),
    }
}

fn tx_submission(number: u64) -> Seen
    ensures { result ≡ tx_submission_seen number }
{
    match number {
        message::TX_SUBMISSION_DONE => Seen::done(),
        _ => Seen::goes_on(Reply::Nothing),
    }
}

fn keep_alive(item: &[u8]) -> Result<Seen, FaultKind>
    ensures { result ≡ keep_alive_seen (alive_of item.now) }
{
    match read_alive(item) {
        Some(Alive::Ask(cookie)) => Ok(Seen::goes_on(Reply::Alive(cookie))),
        Some(Alive::Done) => Ok(Seen::done()),
        Some(Alive::Reply(_)) | None => Err(FaultKind::Protocol),
    }
}

fn peer_sharing(alloc: Global, item: &[u8]) -> Result<Seen, WatchRefusal>
    ensures answer { Answers result (peer_sharing_seen (share_of item.now)) }
    ensures memory { IfErr result (λ refusal. refusal ≡ WatchRefusal.OutOfMemory → first_peer_at item.now ≢ None) }
{
    let message = read_share(alloc, item)?;
    Ok(shared(message)?)
}

fn shared(message: Option<Share>) -> Result<Seen, FaultKind>
    ensures { result ≡ peer_sharing_seen message }
{
    match message {
        Some(Share::Request(number)) => Ok(Seen::goes_on(Reply::Share(number))),
        Some(Share::Done) => Ok(Seen::done()),
        Some(Share::Peers(_)) | None => Err(FaultKind::Protocol),
    }
}
