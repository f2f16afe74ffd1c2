ghost use Rattle.std.specs.Prelude.{◌≡◌};
ghost use Rattle.local_clients.specs.Hearing.{is_client_protocol, header_fault};

use mux_segment::{Header, RESPONDER};
use net_base::FaultKind;
use net_base::protocol::HANDSHAKE;

// The mini-protocols of local clients, by their numbers in the Ouroboros network specification.
const LOCAL_CHAIN_SYNC: u16 = 5;

const LOCAL_TX_SUBMISSION: u16 = 6;

const LOCAL_STATE_QUERY: u16 = 7;

const LOCAL_TX_MONITOR: u16 = 9;

/// What is wrong with a segment by its header alone.
pub(crate) fn header_fault(header: &Header) -> Option<FaultKind>
    ensures { result ≡ header_fault header.now }
{
    if !is_client_protocol(header.id) {
        Some(FaultKind::UnknownId)
    } else if header.side == RESPONDER {
        Some(FaultKind::Protocol)
    } else {
        None
    }
}

fn is_client_protocol(id: u16) -> bool
    ensures { result ≡ is_client_protocol id }
{
    matches!(
        id,
        HANDSHAKE | LOCAL_CHAIN_SYNC | LOCAL_TX_SUBMISSION | LOCAL_STATE_QUERY | LOCAL_TX_MONITOR
    )
}
