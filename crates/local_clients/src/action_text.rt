ghost use Rattle.std.specs.Prelude.{◌≡◌};
ghost use Rattle.local_clients.specs.Texts.{cause_words, printed_action};

use crate::{ClientAction, ClientCause};
use net_base::OutOfMemory;
use std::alloc::Global;
use trace_text::{PrintedLine, fault_words, push_hex, push_number, push_text};

impl PrintedLine for ClientAction {
    ghost text = { printed_action };

    fn print(&self, _: Global, bytes: &mut Vec<u8>) -> Result<(), OutOfMemory> {
        match self {
            ClientAction::Admit(id) => {
                bytes.extend_from_slice(b"> admit ")?;
                push_number(*id, bytes)
            }
            ClientAction::Turnaway => push_text("> turnaway", bytes),
            ClientAction::Send(id, piece) => {
                bytes.extend_from_slice(b"> send ")?;
                push_number(*id, bytes)?;
                bytes.push(b' ')?;
                push_hex(piece.as_slice(), bytes)
            }
            ClientAction::Open(id, version) => {
                bytes.extend_from_slice(b"> open ")?;
                push_number(*id, bytes)?;
                bytes.push(b' ')?;
                push_number(*version, bytes)
            }
            ClientAction::Close(id, cause) => {
                bytes.extend_from_slice(b"> close ")?;
                push_number(*id, bytes)?;
                bytes.push(b' ')?;
                push_text(cause_words(*cause), bytes)
            }
        }
    }
}

fn cause_words(cause: ClientCause) -> &'static str
    ensures { result.now ≡ cause_words cause }
{
    match cause {
        ClientCause::Refused => "refused",
        ClientCause::Query => "query",
        ClientCause::Fault(kind) => fault_words(kind),
    }
}
