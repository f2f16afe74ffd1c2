ghost use Rattle.std.specs.Prelude.{◌≡◌, ◌&&◌, ◌==◌};
ghost use Rattle.node_world.specs.Segments.{question_of, is_from, begins_asking, asks_intersection};

use mux_segment::{Header, INITIATOR};
use net_base::protocol::{CHAIN_SYNC, HANDSHAKE, KEEP_ALIVE, PEER_SHARING};

/// What the node asks a peer as initiator.
#[derive(Clone, Copy, PartialEq, Eq)]
pub(crate) enum Question {
    Proposes,
    AsksAlive,
    AsksIntersection,
    AsksPeers,
    /// Nothing, or something that the town knows no answer to.
    AsksNothing,
}

/// What a segment asks.
pub(crate) fn question_of(header: Header, payload: &[u8]) -> Question
    ensures { result ≡ question_of (record { header = header; payload = payload.now }) }
{
    if header.side != INITIATOR {
        return Question::AsksNothing;
    }
    match header.id {
        HANDSHAKE => Question::Proposes,
        KEEP_ALIVE if begins_asking(payload) => Question::AsksAlive,
        CHAIN_SYNC if asks_intersection(payload) => Question::AsksIntersection,
        PEER_SHARING if begins_asking(payload) => Question::AsksPeers,
        _ => Question::AsksNothing,
    }
}

// An array of two that begins with 0.
fn begins_asking(payload: &[u8]) -> bool
    ensures { result ≡ begins_asking payload.now }
{
    matches!(payload, [0x82, 0x00, ..])
}

fn asks_intersection(payload: &[u8]) -> bool
    ensures { result ≡ asks_intersection payload.now }
{
    matches!(payload, [0x82, 0x04, 0x80])
}
