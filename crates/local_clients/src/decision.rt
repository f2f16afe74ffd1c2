ghost use Rattle.std.specs.Prelude.{◌≡◌, IfOk};
ghost use Rattle.local_clients.specs.Agreement.{offer_of, common_in, decides_info, decision_of, own_info, own_table, answer_to, answer_bytes, CanAnswer};

use hs_message::{Info, Message, Offer, Reason, Table, VersionInfo, write_client_message};
use net_base::{NumberList, Octets, OutOfMemory};
use std::alloc::Global;

/// What a proposal comes to.
#[derive(Clone, Copy, PartialEq, Eq)]
pub(crate) enum Decision {
    /// The client takes none of the node's versions.
    NoCommon,
    /// The info beside the greatest common version is foreign.
    NotUnderstood(u64),
    /// The greatest common version is of another network.
    OtherMagic(u64),
    /// The client only asks for the versions.
    Asked,
    Agreed(u64),
}

pub(crate) fn decide(magic: u32, table: &[Offer]) -> Decision
    ensures decision { result ≡ decision_of magic table.now }
    ensures answerable { CanAnswer result }
{
    match common_in(table) {
        None => Decision::NoCommon,
        Some(offer) => decide_info(magic, offer.version, offer.info),
    }
}

// The offer of the greatest version that the node takes.
fn common_in(table: &[Offer]) -> Option<Offer>
    ensures { result ≡ common_in table.now }
{
    offer_of(32785, table).or(offer_of(32784, table))
}

fn offer_of(version: u64, table: &[Offer]) -> Option<Offer>
    ensures { result ≡ offer_of version table.now }
{
    let found = table.iter().find(|offer| offer.version == version);
    found.copied()
}

fn decide_info(magic: u32, version: u64, info: Info) -> Decision
    ensures { result ≡ decides_info magic version info }
{
    match info {
        Info::Foreign => Decision::NotUnderstood(version),
        Info::Known(theirs) => {
            if magic != theirs.magic {
                Decision::OtherMagic(version)
            } else if theirs.query {
                Decision::Asked
            } else {
                Decision::Agreed(version)
            }
        }
    }
}

/// The message that answers a proposal, as it is written.
pub(crate) fn answer(alloc: Global, magic: u32, decision: Decision) -> Result<Octets, OutOfMemory>
    requires { CanAnswer decision }
    ensures { IfOk result (λ octets. octets ≡ answer_bytes magic decision) }
{
    write_client_message(alloc, &answer_to(alloc, magic, decision)?)
}

fn answer_to(alloc: Global, magic: u32, decision: Decision) -> Result<Message, OutOfMemory>
    ensures { IfOk result (λ message. message ≡ answer_to magic decision) }
{
    match decision {
        Decision::NoCommon => no_common(alloc),
        Decision::NotUnderstood(version) => {
            let text = text(alloc, "version data not understood")?;
            Ok(Message::Refuse(Reason::NotDecoded(version, text)))
        }
        Decision::OtherMagic(version) => {
            let text = text(alloc, "network magic differs")?;
            Ok(Message::Refuse(Reason::Declined(version, text)))
        }
        Decision::Asked => Ok(Message::QueryReply(own_table(alloc, magic)?)),
        Decision::Agreed(version) => Ok(Message::Accept(version, Info::Known(own_info(magic)))),
    }
}

fn no_common(alloc: Global) -> Result<Message, OutOfMemory>
    ensures { IfOk result (λ message. message ≡ answer_to 0 Decision.NoCommon) }
{
    let versions = NumberList::from_slice(alloc, &[32784, 32785])?;
    Ok(Message::Refuse(Reason::NoCommon(versions)))
}

fn own_table(alloc: Global, magic: u32) -> Result<Table, OutOfMemory>
    ensures { IfOk result (λ table. table ≡ own_table magic) }
{
    let info = Info::Known(own_info(magic));
    let offers = [
        Offer {
            version: 32784,
            info,
        },
        Offer {
            version: 32785,
            info,
        },
    ];
    Table::from_slice(alloc, &offers)
}

fn own_info(magic: u32) -> VersionInfo
    ensures { result ≡ own_info magic }
{
    VersionInfo {
        magic,
        initiator_only: true,
        sharing: false,
        query: false,
    }
}

fn text(alloc: Global, text: &str) -> Result<Octets, OutOfMemory>
    ensures { IfOk result (λ octets. octets ≡ text.now) }
{
    Octets::from_slice(alloc, text.as_bytes())
}
