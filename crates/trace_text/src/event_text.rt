ghost use Rattle.std.specs.Prelude.{◌≡◌, ℕ, Ok, IfOk};
ghost use Rattle.std.specs.String.{string_bytes};
ghost use Rattle.net_base.specs.Limits.{IsWithinLimits};
ghost use Rattle.net_base.specs.declared.event.Event.TheVariants.{Roots};
ghost use Rattle.trace_text.specs.declared.line.Line.TheVariants.{Happen};
ghost use Rattle.trace_text.specs.EventTexts.{event_of, printed_event, outcome_word, IsEventIn};

use crate::group_text::GroupTexts;
use crate::piece::bytes_text;
use crate::text::{AddressText, AddressTexts};
use net_base::{Event, Job, Octets, OutOfMemory, RootAnswer};
use std::alloc::{AllocError, Global};

/// The line of an event, without a line feed.
pub fn print_event(alloc: Global, event: &Event) -> Result<Octets, OutOfMemory>
    ensures printed { IfOk result (λ line. line ≡ printed_event event.now) }
    ensures read { IfOk result (λ line. (version : ℕ) → IsWithinLimits event.now → IsEventIn version event.now
        → event_of version line ≡ Ok (Happen event.now)) }
{
    let text = event_text(alloc, event)?;
    Ok(Octets::from_vec(text.into_bytes()))
}

fn event_text(alloc: Global, event: &Event) -> Result<String, AllocError>
    ensures { IfOk result (λ text. string_bytes text ≡ printed_event event.now) }
{
    match event {
        Event::Now(moment) => format!(in alloc; "now {moment}"),
        Event::Govern(word) => format!(in alloc; "govern {word}"),
        Event::Accepted(address) => format!(in alloc; "accepted {}", AddressText(*address)),
        Event::Dialed(cid, opened) => {
            format!(in alloc; "dialed {} {}", cid.0, outcome_word(*opened))
        }
        Event::Bytes(cid, bytes) => { bytes_text(alloc, "bytes", cid.0, bytes.as_slice()) }
        Event::Closed(cid) => format!(in alloc; "closed {}", cid.0),
        Event::Aims(aims) => {
            format!(in alloc;
                "targets {} {} {} {}",
                aims.root, aims.known, aims.established, aims.active
            )
        }
        Event::Locals(groups) => format!(in alloc; "locals{}", GroupTexts(groups.as_slice())),
        Event::Roots(job, answer) => roots_text(alloc, *job, answer),
        Event::BigAims(aims) => {
            format!(in alloc;
                "bigtargets {} {} {}",
                aims.known, aims.established, aims.active
            )
        }
        Event::Bigs(addresses) => format!(in alloc; "bigs{}", AddressTexts(addresses.as_slice())),
    }
}

fn roots_text(alloc: Global, job: Job, answer: &RootAnswer) -> Result<String, AllocError>
    ensures { IfOk result (λ text. string_bytes text ≡ printed_event (Roots job answer.now)) }
{
    match answer {
        RootAnswer::Found(ttl, addresses) => {
            format!(in alloc;
                "roots {} ok {ttl}{}",
                job.0,
                AddressTexts(addresses.as_slice())
            )
        }
        RootAnswer::Failed => format!(in alloc; "roots {} failed", job.0),
    }
}

fn outcome_word(opened: bool) -> &'static str
    ensures { result.now ≡ outcome_word opened }
{
    if opened { "ok" } else { "failed" }
}
