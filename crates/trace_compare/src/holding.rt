//! A trace of version 2 can hold every address and event that there is in the code. The functions do nothing: their
//! clauses tell what the types of an event's numbers say.

ghost use Rattle.std.specs.Prelude.{◌<◌, ◌^◌, All};
ghost use Rattle.trace_text.specs.EventTexts.{IsEventIn, IsKnownIn, AreKnownIn, IsAnswerIn};

use net_base::{Addr, Event, Group, Ip, RootAnswer};

pub fn hold_event(event: &Event)
    ensures { IsEventIn 2 event.now }
{
    match event {
        Event::Now(_)
        | Event::Dialed(_, _)
        | Event::Closed(_)
        | Event::Aims(_)
        | Event::BigAims(_) => {}
        Event::Govern(word) => hold_word(*word),
        Event::Accepted(address) => hold_address(*address),
        Event::Bytes(_, bytes) => hold_bytes(bytes.as_slice()),
        Event::Locals(groups) => hold_groups(groups.as_slice()),
        Event::Roots(_, answer) => hold_answer(answer),
        Event::Bigs(addresses) => hold_addresses(addresses.as_slice()),
    }
}

pub fn hold_address(address: Addr)
    ensures { IsKnownIn 2 address }
{
    match address.ip {
        Ip::V4(_) | Ip::V6(_) => {}
    }
}

fn hold_word(_word: u64)
    ensures { _word < 2 ^ 64 }
{}

// The type says it, so no byte is looked at.
fn hold_bytes(bytes: &[u8])
    ensures { All (λ b. b < 256) bytes.now }
{
    let _bytes = bytes;
}

fn hold_addresses(addresses: &[Addr])
    ensures { AreKnownIn 2 addresses.now }
{
    for address in addresses {
        hold_address(*address);
    }
}

fn hold_groups(groups: &[Group])
    ensures { All (λ group. AreKnownIn 2 group.members) groups.now }
{
    for group in groups {
        hold_addresses(group.members.as_slice());
    }
}

fn hold_answer(answer: &RootAnswer)
    ensures { IsAnswerIn 2 answer.now }
{
    match answer {
        RootAnswer::Found(_, addresses) => hold_addresses(addresses.as_slice()),
        RootAnswer::Failed => {}
    }
}
