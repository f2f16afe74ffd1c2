ghost use Rattle.std.specs.Prelude.{◌≡◌, ◌++◌, ◌<◌, ◌≤◌, IsTrue, IfOk, OnOk, length, if◌then◌else◌};
ghost use Rattle.std.specs.List.{flat_map, AllByRecursion};
ghost use Rattle.hs_message.specs.Canonical.{number_spelling, text_spelling, flag_spelling, array_spelling, map_spelling, info_spelling, offer_spelling, table_spelling, noted_spelling, reason_spelling, message_spelling, version_info_spelling, node_spelling, client_info_spelling, client_spelling, info_spelling_in, CanWrite, CanWriteToClient};

use crate::message_code::MessageCode;
use crate::reason_code::ReasonCode;
use crate::tag::Tag;
use crate::{Info, Message, Offer, Profile, Reason, VersionInfo};
use cbor_items::{ARRAY, FALSE, MAP, NUMBER, TEXT, TRUE, write_head};
use net_base::{Octets, OutOfMemory};
use std::alloc::Global;

// Most messages have no more bytes.
const MOSTLY: usize = 32;

/// The one spelling of a message between nodes. Each info has to be known and to stand with version 13 or 14, and the
/// versions of a table have to rise strictly.
#[tactic(auto, unfolding(crate::specs::Canonical::node_spelling))]
pub fn write_message(alloc: Global, message: &Message) -> Result<Octets, OutOfMemory>
    requires { CanWrite message.now }
    ensures { IfOk result (λ octets. octets ≡ node_spelling message.now) }
{
    let mut out = Octets::from_vec(Vec::with_capacity(alloc, MOSTLY)?);
    put_message(&mut out, Profile::NodeToNode, message)?;
    Ok(out)
}

/// The one spelling of a message between a node and a local client. Each info has to be known, to stand with version
/// 32784 or 32785, and to say that a local client runs no responder and shares no peers. The versions of a table have to
/// rise strictly.
#[tactic(auto, unfolding(crate::specs::Canonical::client_spelling))]
pub fn write_client_message(alloc: Global, message: &Message) -> Result<Octets, OutOfMemory>
    requires { CanWriteToClient message.now }
    ensures { IfOk result (λ octets. octets ≡ client_spelling message.now) }
{
    let mut out = Octets::from_vec(Vec::with_capacity(alloc, MOSTLY)?);
    put_message(&mut out, Profile::NodeToClient, message)?;
    Ok(out)
}

fn put_message(out: &mut Octets, profile: Profile, message: &Message) -> Result<(), OutOfMemory>
    ensures { OnOk result (out.new ≡ out.old ++ message_spelling (info_spelling_in profile) message.now) }
{
    match message {
        Message::Propose(table) => {
            put_tag(out, MessageCode::Propose.tag())?;
            put_table(out, profile, table.as_slice())
        }
        Message::Accept(version, info) => {
            put_tag(out, MessageCode::Accept.tag())?;
            put_number(out, *version)?;
            put_info(out, profile, info)
        }
        Message::Refuse(reason) => {
            put_tag(out, MessageCode::Refuse.tag())?;
            put_reason(out, reason)
        }
        Message::QueryReply(table) => {
            put_tag(out, MessageCode::QueryReply.tag())?;
            put_table(out, profile, table.as_slice())
        }
    }
}

fn put_table(out: &mut Octets, profile: Profile, table: &[Offer]) -> Result<(), OutOfMemory>
    ensures { OnOk result (out.new ≡ out.old ++ table_spelling (info_spelling_in profile) table.now) }
{
    write_head(out, MAP, table.len() as u64)?;
    for offer in table {
        put_number(out, offer.version)?;
        put_info(out, profile, &offer.info)?;
    }
    Ok(())
}

// A foreign info is never written: nothing tells which item it was.
fn put_info(out: &mut Octets, profile: Profile, info: &Info) -> Result<(), OutOfMemory>
    ensures { OnOk result (out.new ≡ out.old ++ info_spelling (info_spelling_in profile) info.now) }
{
    match info {
        Info::Known(known) => put_known(out, profile, known),
        Info::Foreign => Ok(()),
    }
}

fn put_known(out: &mut Octets, profile: Profile, info: &VersionInfo) -> Result<(), OutOfMemory>
    ensures { OnOk result (out.new ≡ out.old ++ info_spelling_in profile info.now) }
{
    match profile {
        Profile::NodeToNode => put_version_info(out, info),
        Profile::NodeToClient => put_client_info(out, info),
    }
}

fn put_client_info(out: &mut Octets, info: &VersionInfo) -> Result<(), OutOfMemory>
    ensures { OnOk result (out.new ≡ out.old ++ client_info_spelling info.now) }
{
    write_head(out, ARRAY, 2)?;
    put_number(out, u64::from(info.magic))?;
    put_flag(out, info.query)
}

fn put_version_info(out: &mut Octets, info: &VersionInfo) -> Result<(), OutOfMemory>
    ensures { OnOk result (out.new ≡ out.old ++ version_info_spelling info.now) }
{
    write_head(out, ARRAY, 4)?;
    put_number(out, u64::from(info.magic))?;
    put_flag(out, info.initiator_only)?;
    put_number(out, u64::from(info.sharing))?;
    put_flag(out, info.query)
}

fn put_reason(out: &mut Octets, reason: &Reason) -> Result<(), OutOfMemory>
    ensures { OnOk result (out.new ≡ out.old ++ reason_spelling reason.now) }
{
    match reason {
        Reason::NoCommon(versions) => {
            put_tag(out, ReasonCode::NoCommon.tag())?;
            put_numbers(out, versions.as_slice())
        }
        Reason::NotDecoded(version, text) => {
            put_tag(out, ReasonCode::NotDecoded.tag())?;
            put_noted(out, *version, text.as_slice())
        }
        Reason::Declined(version, text) => {
            put_tag(out, ReasonCode::Declined.tag())?;
            put_noted(out, *version, text.as_slice())
        }
    }
}

fn put_tag(out: &mut Octets, tag: Tag) -> Result<(), OutOfMemory>
    ensures { OnOk result (out.new ≡ out.old ++ array_spelling tag.elements (number_spelling tag.number)) }
{
    write_head(out, ARRAY, tag.elements)?;
    put_number(out, tag.number)
}

fn put_numbers(out: &mut Octets, numbers: &[u64]) -> Result<(), OutOfMemory>
    ensures { OnOk result (out.new ≡ out.old
        ++ array_spelling (length numbers.now) (flat_map number_spelling numbers.now)) }
{
    write_head(out, ARRAY, numbers.len() as u64)?;
    for number in numbers {
        put_number(out, *number)?;
    }
    Ok(())
}

fn put_noted(out: &mut Octets, version: u64, text: &[u8]) -> Result<(), OutOfMemory>
    ensures { OnOk result (out.new ≡ out.old ++ noted_spelling version text.now) }
{
    put_number(out, version)?;
    write_head(out, TEXT, text.len() as u64)?;
    out.extend_from_slice(text)
}

fn put_number(out: &mut Octets, number: u64) -> Result<(), OutOfMemory>
    ensures { OnOk result (out.new ≡ out.old ++ number_spelling number) }
{
    write_head(out, NUMBER, number)
}

fn put_flag(out: &mut Octets, flag: bool) -> Result<(), OutOfMemory>
    ensures { OnOk result (out.new ≡ out.old ++ flag_spelling flag) }
{
    out.push(if flag { TRUE } else { FALSE })
}
