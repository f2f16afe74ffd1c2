ghost use Rattle.std.specs.Prelude.{◌≡◌};
ghost use Rattle.hs_message.specs.Info.{is_node_version};
ghost use Rattle.hs_decide.specs.Agreement.{offer_of, common_in, joined, same_magic, accepts_info, accepts_offer, agrees_info, agrees_on, meets_joined, meets_info, meets_offer, verdict_of};

use crate::{Role, Verdict, Why};
use hs_message::{Info, Message, Offer, VersionInfo};
use net_base::Agreed;

/// What a message comes to for a node on this side of the handshake that says this of itself.
pub fn decide(role: Role, own: &VersionInfo, message: &Message) -> Verdict
    ensures { result ≡ verdict_of role own.now message.now }
{
    match role {
        Role::Acceptor => decide_as_acceptor(own, message),
        Role::Dialer => decide_as_dialer(own, message),
    }
}

fn decide_as_acceptor(own: &VersionInfo, message: &Message) -> Verdict
    ensures { result ≡ verdict_of Role.Acceptor own.now message.now }
{
    match message {
        Message::Propose(table) => accept_offer(own, common_in(table.as_slice())),
        Message::Accept(..) | Message::Refuse(_) | Message::QueryReply(_) => Verdict::Wrong,
    }
}

fn decide_as_dialer(own: &VersionInfo, message: &Message) -> Verdict
    ensures { result ≡ verdict_of Role.Dialer own.now message.now }
{
    match message {
        Message::Propose(table) => meet_offer(own, common_in(table.as_slice())),
        Message::Accept(version, info) => agree_on(own, *version, *info),
        Message::Refuse(_) => Verdict::Refused,
        Message::QueryReply(_) => Verdict::Wrong,
    }
}

// The offer of the greatest version that both ends take.
fn common_in(table: &[Offer]) -> Option<Offer>
    ensures { result ≡ common_in table.now }
{
    offer_of(14, table).or(offer_of(13, table))
}

fn offer_of(version: u64, table: &[Offer]) -> Option<Offer>
    ensures { result ≡ offer_of version table.now }
{
    let found = table.iter().find(|offer| offer.version == version);
    found.copied()
}

fn accept_offer(own: &VersionInfo, common: Option<Offer>) -> Verdict
    ensures { result ≡ accepts_offer own.now common }
{
    match common {
        None => Verdict::Refuse(Why::NoCommon),
        Some(offer) => accept_info(own, offer.version, offer.info),
    }
}

fn accept_info(own: &VersionInfo, version: u64, info: Info) -> Verdict
    ensures { result ≡ accepts_info own.now version info }
{
    match info {
        Info::Foreign => Verdict::Refuse(Why::NotDecoded(version)),
        Info::Known(theirs) => {
            if own.magic != theirs.magic {
                Verdict::Refuse(Why::Magic(version))
            } else if theirs.query {
                Verdict::Query
            } else {
                Verdict::Accept(joined(version, own, &theirs))
            }
        }
    }
}

fn agree_on(own: &VersionInfo, version: u64, info: Info) -> Verdict
    ensures { result ≡ agrees_on own.now version info }
{
    match (version, info) {
        (13 | 14, Info::Known(theirs)) if own.magic == theirs.magic => {
            Verdict::Agree(joined(version, own, &theirs))
        }
        _ => Verdict::Wrong,
    }
}

// Both ends have dialed at once.
fn meet_offer(own: &VersionInfo, common: Option<Offer>) -> Verdict
    ensures { result ≡ meets_offer own.now common }
{
    match common {
        None => Verdict::Refused,
        Some(offer) => meet_info(own, offer.version, offer.info),
    }
}

fn meet_info(own: &VersionInfo, version: u64, info: Info) -> Verdict
    ensures { result ≡ meets_info own.now version info }
{
    match info {
        Info::Foreign => Verdict::Refused,
        Info::Known(theirs) => {
            if own.magic != theirs.magic {
                Verdict::Refused
            } else if theirs.query {
                Verdict::Wrong
            } else {
                meet(joined(version, own, &theirs))
            }
        }
    }
}

fn meet(agreed: Agreed) -> Verdict
    ensures { result ≡ meets_joined agreed }
{
    if agreed.initiator_only {
        Verdict::Refused
    } else {
        Verdict::Agree(agreed)
    }
}

fn joined(version: u64, own: &VersionInfo, theirs: &VersionInfo) -> Agreed
    ensures { result ≡ joined version own.now theirs.now }
{
    Agreed {
        version,
        initiator_only: own.initiator_only || theirs.initiator_only,
        sharing: own.sharing && theirs.sharing,
    }
}
