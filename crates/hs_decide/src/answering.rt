ghost use Rattle.std.specs.Prelude.{◌≡◌, IfOk, Ok, Some, None};
ghost use Rattle.hs_message.specs.Canonical.{node_spelling, CanWrite};
ghost use Rattle.hs_decide.specs.Answers.{own_table, agreed_info, refusal_of, message_for, answer_of, proposal_of, CanAnswer};

use crate::{Verdict, Why};
use hs_message::{Info, Message, Offer, Reason, Table, VersionInfo, write_message};
use net_base::{Agreed, NumberList, Octets, OutOfMemory};
use std::alloc::Global;

/// What an acceptor sends. A dialer's verdict, and one that ends the connection without a word, sends nothing and takes no
/// memory. A version that is accepted has to be 13 or 14.
pub fn answer(
    alloc: Global,
    verdict: &Verdict,
    own: &VersionInfo,
) -> Result<Option<Octets>, OutOfMemory>
    requires { CanAnswer verdict.now }
    ensures answer { IfOk result (λ octets. octets ≡ answer_of verdict.now own.now) }
    ensures silent { message_for verdict.now own.now ≡ None → result ≡ Ok None }
{
    match verdict {
        Verdict::Accept(agreed) => say(
            alloc,
            &Message::Accept(agreed.version, Info::Known(agreed_info(own, agreed))),
        ),
        Verdict::Refuse(why) => say(alloc, &refusal(alloc, *why)?),
        Verdict::Query => say(alloc, &Message::QueryReply(own_table(alloc, own)?)),
        Verdict::Agree(_) | Verdict::Refused | Verdict::Wrong => Ok(None),
    }
}

/// The proposal of 13 and 14, each with what the node says of itself.
pub fn proposal(alloc: Global, own: &VersionInfo) -> Result<Octets, OutOfMemory>
    ensures { IfOk result (λ octets. octets ≡ proposal_of own.now) }
{
    write_message(alloc, &Message::Propose(own_table(alloc, own)?))
}

fn say(alloc: Global, message: &Message) -> Result<Option<Octets>, OutOfMemory>
    requires { CanWrite message.now }
    ensures { IfOk result (λ octets. octets ≡ Some (node_spelling message.now)) }
{
    Ok(Some(write_message(alloc, message)?))
}

fn own_table(alloc: Global, own: &VersionInfo) -> Result<Table, OutOfMemory>
    ensures { IfOk result (λ table. table ≡ own_table own.now) }
{
    let info = Info::Known(*own);
    let offers = [Offer { version: 13, info }, Offer { version: 14, info }];
    Table::from_slice(alloc, &offers)
}

fn agreed_info(own: &VersionInfo, agreed: &Agreed) -> VersionInfo
    ensures { result ≡ agreed_info own.now agreed.now }
{
    VersionInfo {
        magic: own.magic,
        initiator_only: agreed.initiator_only,
        sharing: agreed.sharing,
        query: false,
    }
}

fn refusal(alloc: Global, why: Why) -> Result<Message, OutOfMemory>
    ensures { IfOk result (λ message. message ≡ refusal_of why) }
{
    let reason = match why {
        Why::NoCommon => Reason::NoCommon(NumberList::from_slice(alloc, &[13, 14])?),
        Why::NotDecoded(version) => {
            Reason::NotDecoded(version, text(alloc, "version data not understood")?)
        }
        Why::Magic(version) => Reason::Declined(version, text(alloc, "network magic differs")?),
    };
    Ok(Message::Refuse(reason))
}

fn text(alloc: Global, text: &str) -> Result<Octets, OutOfMemory>
    ensures { IfOk result (λ octets. octets ≡ text.now) }
{
    Octets::from_slice(alloc, text.as_bytes())
}
