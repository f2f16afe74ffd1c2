ghost use Rattle.std.specs.Prelude.{◌≡◌};
ghost use Rattle.hs_receive.specs.Receiving.{is_awaited, fits_side};

use hs_decide::Role;
use hs_message::Message;
use mux_segment::{INITIATOR, RESPONDER};

/// An acceptor awaits the initiator's side, whatever comes there. A dialer awaits both: on the initiator's comes the proposal of a
/// peer that dialed at once.
pub fn is_awaited(role: Role, side: u8) -> bool
    ensures { result ≡ is_awaited role side }
{
    match role {
        Role::Acceptor => side == INITIATOR,
        Role::Dialer => true,
    }
}

/// A dialer takes a proposal on the initiator's side, where both have dialed at once, and every other message on the responder's.
pub fn fits_side(role: Role, side: u8, message: &Message) -> bool
    ensures { result ≡ fits_side role side message.now }
{
    match (role, message) {
        (Role::Acceptor, _) => true,
        (Role::Dialer, Message::Propose(_)) => side == INITIATOR,
        (Role::Dialer, _) => side == RESPONDER,
    }
}
