ghost use Rattle.std.specs.Prelude.{◌≡◌, ◌≢◌, ◌++◌, List, ℕ, IfOk, OnOk, OnErr, MatchOption, None, Err};
ghost use Rattle.cbor_items.specs.Front.{FindsBy, whole};
ghost use Rattle.warm_messages.specs.declared.share.Share.{Share};
ghost use Rattle.warm_messages.specs.Message.{SpellsShare};
ghost use Rattle.warm_messages.specs.Reading.{UnreadSays, first_in, first_peer_at, addresses_at, peers_in, peers_at, share_of_numbers, share_of};
ghost use Rattle.warm_messages.specs.Writing.{written_addresses, written_request, written_peers};

use crate::PeerItems;
use crate::address::{split_address, write_address};
use crate::array::{open_array, write_number, write_numbers, write_opening};
use crate::numbers::only_numbers;
use crate::unread::Unread;
use cbor_items::split_number;
use net_base::{Addr, Octets, OutOfMemory};
use std::alloc::Global;

/// The canonical spelling of `Share::Done`.
pub const SHARE_DONE: [u8; 2] = [0x81, 0x02];

/// A message of peer sharing.
#[derive(PartialEq, Drop)]
pub enum Share {
    /// At most how many addresses are asked for.
    Request(u64),
    Peers(PeerItems),
    Done,
}

/// The peer-sharing message that the bytes are, all of them. `Ok(None)` exactly where they are none. Memory is asked for
/// address by address, whatever number of them is announced.
#[tactic(auto, unfolding(crate::specs::Reading::share_of))]
pub fn read_share(alloc: Global, bytes: &[u8]) -> Result<Option<Share>, OutOfMemory>
    ensures value { IfOk result (λ answer. answer ≡ share_of bytes.now) }
    ensures spelled { IfOk result (λ answer. MatchOption answer ((message : Share) → SpellsShare message bytes.now → ⊥) (λ message. SpellsShare message bytes.now)) }
    // Want of memory comes only behind the first address of a peers message.
    ensures memory { OnErr result (first_peer_at bytes.now ≢ None) }
{
    if let Some(numbers) = only_numbers(bytes) {
        return Ok(share_of_numbers(numbers.as_slice()));
    }
    match only_peers(alloc, bytes) {
        Ok(peers) => Ok(Some(Share::Peers(peers))),
        Err(Unread::NoMessage) => Ok(None),
        Err(Unread::OutOfMemory) => Err(OutOfMemory),
    }
}

fn share_of_numbers(numbers: &[u64]) -> Option<Share>
    ensures { result ≡ share_of_numbers numbers.now }
{
    match numbers {
        [2] => Some(Share::Done),
        [0, number] => Some(Share::Request(*number)),
        _ => None,
    }
}

fn only_peers(alloc: Global, bytes: &[u8]) -> Result<PeerItems, Unread>
    ensures reading { FindsBy UnreadSays (λ peers. peers) result (whole (peers_at bytes.now)) }
    ensures memory { result ≡ Err Unread.OutOfMemory → first_peer_at bytes.now ≢ None }
{
    let (peers, rest) = split_peers(alloc, bytes)?;
    if rest.is_empty() {
        Ok(peers)
    } else {
        Err(Unread::NoMessage)
    }
}

// The addresses of the peers message at the front of the bytes, and the bytes behind it.
#[tactic(auto, unfolding(crate::specs::Reading::peers_at))]
fn split_peers(alloc: Global, bytes: &[u8]) -> Result<(PeerItems, &[u8]), Unread>
    ensures reading { FindsBy UnreadSays (λ read. (read.0, read.1.now)) result (peers_at bytes.now) }
    ensures memory { result ≡ Err Unread.OutOfMemory → first_peer_at bytes.now ≢ None }
{
    let (length, rest) = open_array(bytes).ok_or(Unread::NoMessage)?;
    let (kind, rest) = split_number(rest)?;
    if kind != 1 {
        return Err(Unread::NoMessage);
    }
    let (peers, rest) = split_addresses(alloc, rest)?;
    let rest = length.end(2, rest).ok_or(Unread::NoMessage)?;
    Ok((peers, rest))
}

// The addresses of the array at the front of the bytes, and the bytes behind it.
#[tactic(auto, unfolding(crate::specs::Reading::addresses_at))]
fn split_addresses(alloc: Global, bytes: &[u8]) -> Result<(PeerItems, &[u8]), Unread>
    ensures reading { FindsBy UnreadSays (λ read. (read.0, read.1.now)) result (addresses_at bytes.now) }
    ensures memory { result ≡ Err Unread.OutOfMemory → first_in bytes.now ≢ None }
{
    let (length, mut rest) = open_array(bytes).ok_or(Unread::NoMessage)?;
    let mut peers = PeerItems::new(alloc);
    // each address takes a byte at least
    for count in 0..bytes.len() {
        if let Some(behind) = length.end(count as u64, rest) {
            return Ok((peers, behind));
        }
        let (addr, after) = split_address(rest).ok_or(Unread::NoMessage)?;
        peers.push(addr)?;
        rest = after;
    }
    let behind = length
        .end(bytes.len() as u64, rest)
        .ok_or(Unread::NoMessage)?;
    Ok((peers, behind))
}

/// The canonical spelling of a request for at most so many addresses.
pub fn write_request(alloc: Global, number: u64) -> Result<Octets, OutOfMemory>
    ensures { IfOk result (λ bytes. bytes ≡ written_request number) }
{
    let mut out = Octets::new(alloc);
    write_numbers(&mut out, &[0, number])?;
    Ok(out)
}

/// The canonical spelling of a peers message. IPv6 addresses have six elements.
pub fn write_peers(alloc: Global, peers: &[Addr]) -> Result<Octets, OutOfMemory>
    ensures { IfOk result (λ bytes. bytes ≡ written_peers peers.now) }
{
    let mut out = Octets::new(alloc);
    write_opening(&mut out, 2)?;
    write_number(&mut out, 1)?;
    write_addresses(&mut out, peers)?;
    Ok(out)
}

fn write_addresses(out: &mut Octets, peers: &[Addr]) -> Result<(), OutOfMemory>
    ensures { OnOk result (out.new ≡ out.old ++ written_addresses peers.now) }
{
    write_opening(out, peers.len() as u64)?;
    for addr in peers {
        write_address(out, *addr)?;
    }
    Ok(())
}
