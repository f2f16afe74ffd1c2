ghost use Rattle.std.specs.Prelude.{◌≡◌, IfOk};
ghost use Rattle.std.specs.String.{string_bytes};
ghost use Rattle.pair_net.specs.Texts.{end_word, role_word, flow_word, sharing_word, cause_words, printed_note};

use crate::{End, EndCause, PairNote};
use hs_decide::Role;
use net_base::OutOfMemory;
use std::alloc::{AllocError, Global};
use trace_text::{PrintedLine, fault_words};

impl PrintedLine for PairNote {
    ghost text = { printed_note };

    fn print(&self, alloc: Global, bytes: &mut Vec<u8>) -> Result<(), OutOfMemory> {
        let text = note_text(alloc, self)?;
        bytes.extend_from_slice(text.as_bytes())?;
        Ok(())
    }
}

fn note_text(alloc: Global, note: &PairNote) -> Result<String, AllocError>
    ensures { IfOk result (λ text. string_bytes text ≡ printed_note note.now) }
{
    match note {
        PairNote::Waits(end, role) => {
            format!(in alloc; "> {} {}", end_word(*end), role_word(*role))
        }
        PairNote::Sent(end, bytes) => {
            let digits = hex::encode(alloc, bytes.as_slice())?;
            format!(in alloc; "> {} send {digits}", end_word(*end))
        }
        PairNote::Agrees(end, agreed) => {
            let flow = flow_word(agreed.initiator_only);
            let sharing = sharing_word(agreed.sharing);
            format!(in alloc;
                "> {} agreed {} {flow} {sharing}",
                end_word(*end),
                agreed.version
            )
        }
        PairNote::Ends(end, cause) => {
            format!(in alloc; "> {} ended {}", end_word(*end), cause_words(*cause))
        }
    }
}

fn end_word(end: End) -> &'static str
    ensures { result.now ≡ end_word end }
{
    match end {
        End::Left => "left",
        End::Right => "right",
    }
}

fn role_word(role: Role) -> &'static str
    ensures { result.now ≡ role_word role }
{
    match role {
        Role::Dialer => "dialing",
        Role::Acceptor => "accepting",
    }
}

fn flow_word(initiator_only: bool) -> &'static str
    ensures { result.now ≡ flow_word initiator_only }
{
    if initiator_only { "uni" } else { "duplex" }
}

fn sharing_word(sharing: bool) -> &'static str
    ensures { result.now ≡ sharing_word sharing }
{
    if sharing { "sharing" } else { "alone" }
}

fn cause_words(cause: EndCause) -> &'static str
    ensures { result.now ≡ cause_words cause }
{
    match cause {
        EndCause::Refused => "refused",
        EndCause::Query => "query",
        EndCause::Timeout => "timeout",
        EndCause::Closed => "closed",
        EndCause::Fault(kind) => fault_words(kind),
    }
}
