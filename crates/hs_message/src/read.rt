ghost use Rattle.std.specs.Prelude.{◌≡◌, ◌≢◌, true, false, IfOk, MatchResult, Err, length};
ghost use Rattle.cbor_items.specs.Scan.{is_one_item};
ghost use Rattle.cbor_items.specs.Front.{Finds, FindsBy, number_at};
ghost use Rattle.hs_message.specs.declared.message.Message.{Message as AnyMessage};
ghost use Rattle.hs_message.specs.Info.{is_node_version, is_client_version};
ghost use Rattle.hs_message.specs.Spelling.{is_below_next, rises, NodeSpells, ClientSpells};
ghost use Rattle.hs_message.specs.Reading.{RefusalSays, magic_at, version_info_at, known_of, client_version_info_at, client_known_of, known_in, info_of, offer_at, row_at, row_to_break_at, table_at, version_row_at, version_list_at, reason_behind, reason_at, message_behind, message_at, message_with, message_of, client_message_of};

use crate::message_code::MessageCode;
use crate::part::{split_array, split_flag, split_item, split_noted, split_sharing, split_tag};
use crate::reason_code::ReasonCode;
use crate::{Info, Message, Offer, Profile, ReadRefusal, Reason, Table, VersionInfo};
use cbor_items::{
    ARRAY, Absent, BREAK, Head, MAP, Scan, first_item, split_definite, split_head, split_number,
};
use net_base::{NumberList, Octets, OutOfMemory};
use std::alloc::Global;

/// The message between nodes that the bytes spell, all of them. `NotAMessage` comes exactly where they spell none. No more
/// memory is asked for than what was read so far takes, whatever lengths are announced.
#[tactic(auto, unfolding(crate::specs::Reading::message_of))]
pub fn read_message(alloc: Global, bytes: &[u8]) -> Result<Message, ReadRefusal>
    ensures reading { FindsBy RefusalSays (λ message. message) result (message_of bytes.now) }
    // What is read is spelled by the bytes.
    ensures found { IfOk result (λ message. NodeSpells message bytes.now) }
    ensures none { result ≡ Err ReadRefusal.NotAMessage →
        (message : AnyMessage) → NodeSpells message bytes.now → ⊥ }
    // Memory is asked for only where the bytes are one item.
    ensures memory { result ≡ Err ReadRefusal.OutOfMemory → is_one_item bytes.now ≡ true }
{
    read_whole(alloc, Profile::NodeToNode, bytes)
}

/// As `read_message`, between a node and a local client.
#[tactic(auto, unfolding(crate::specs::Reading::client_message_of))]
pub fn read_client_message(alloc: Global, bytes: &[u8]) -> Result<Message, ReadRefusal>
    ensures reading { FindsBy RefusalSays (λ message. message) result (client_message_of bytes.now) }
    // What is read is spelled by the bytes.
    ensures found { IfOk result (λ message. ClientSpells message bytes.now) }
    ensures none { result ≡ Err ReadRefusal.NotAMessage →
        (message : AnyMessage) → ClientSpells message bytes.now → ⊥ }
    ensures memory { result ≡ Err ReadRefusal.OutOfMemory → is_one_item bytes.now ≡ true }
{
    read_whole(alloc, Profile::NodeToClient, bytes)
}

#[tactic(auto, unfolding(crate::specs::Reading::message_with))]
fn read_whole(alloc: Global, profile: Profile, bytes: &[u8]) -> Result<Message, ReadRefusal>
    ensures reading { FindsBy RefusalSays (λ message. message) result (message_with (known_in profile) bytes.now) }
    ensures memory { result ≡ Err ReadRefusal.OutOfMemory → is_one_item bytes.now ≡ true }
{
    one_item(bytes)?;
    let (message, _) = read_front(alloc, profile, bytes)?;
    Ok(message)
}

// The bytes are one item, and no more.
fn one_item(bytes: &[u8]) -> Result<(), Absent>
    ensures { MatchResult result (λ done. is_one_item bytes.now ≡ true) (λ absent. is_one_item bytes.now ≡ false) }
{
    if first_item(bytes) == Scan::Whole(bytes.len()) {
        Ok(())
    } else {
        Err(Absent)
    }
}

#[tactic(auto, unfolding(crate::specs::Reading::message_at))]
fn read_front(
    alloc: Global,
    profile: Profile,
    bytes: &[u8],
) -> Result<(Message, &[u8]), ReadRefusal>
    ensures { FindsBy RefusalSays (λ read. (read.0, read.1.now)) result (message_at (known_in profile) bytes.now) }
{
    let (tag, rest) = split_tag(bytes)?;
    read_message_behind(alloc, profile, MessageCode::of(tag)?, rest)
}

// What stands behind the tag of a message.
fn read_message_behind(
    alloc: Global,
    profile: Profile,
    code: MessageCode,
    bytes: &[u8],
) -> Result<(Message, &[u8]), ReadRefusal>
    ensures { FindsBy RefusalSays (λ read. (read.0, read.1.now)) result (message_behind (known_in profile) code bytes.now) }
{
    match code {
        MessageCode::Propose => {
            let (table, rest) = read_table(alloc, profile, bytes)?;
            Ok((Message::Propose(table), rest))
        }
        MessageCode::Accept => {
            let (offer, rest) = split_offer(profile, bytes)?;
            Ok((Message::Accept(offer.version, offer.info), rest))
        }
        MessageCode::Refuse => {
            let (reason, rest) = read_reason(alloc, bytes)?;
            Ok((Message::Refuse(reason), rest))
        }
        MessageCode::QueryReply => {
            let (table, rest) = read_table(alloc, profile, bytes)?;
            Ok((Message::QueryReply(table), rest))
        }
    }
}

#[tactic(auto, unfolding(crate::specs::Reading::table_at))]
fn read_table(alloc: Global, profile: Profile, bytes: &[u8]) -> Result<(Table, &[u8]), ReadRefusal>
    ensures { FindsBy RefusalSays (λ read. (read.0, read.1.now)) result (table_at (known_in profile) bytes.now) }
{
    let (count, rest) = split_definite(MAP, bytes)?;
    let (table, rest) = read_offers(alloc, profile, count, rest)?;
    in_order(table.as_slice())?;
    Ok((table, rest))
}

// The versions rise strictly.
fn in_order(offers: &[Offer]) -> Result<(), Absent>
    ensures { MatchResult result (λ done. rises offers.now ≡ true) (λ absent. rises offers.now ≡ false) }
{
    if rises(offers) { Ok(()) } else { Err(Absent) }
}

fn read_offers(
    alloc: Global,
    profile: Profile,
    count: u64,
    bytes: &[u8],
) -> Result<(Table, &[u8]), ReadRefusal>
    ensures { FindsBy RefusalSays (λ read. (read.0, read.1.now)) result (row_at (offer_at (known_in profile)) count bytes.now) }
{
    let mut table = Table::new(alloc);
    let mut rest = bytes;
    for _ in 0..count {
        let (offer, after) = split_offer(profile, rest)?;
        table.push(offer)?;
        rest = after;
    }
    Ok((table, rest))
}

// Whether the versions rise strictly.
fn rises(offers: &[Offer]) -> bool
    ensures { result ≡ rises offers.now }
{
    let mut rest = offers;
    while let Some((first, after)) = rest.split_first() {
        if !is_below_next(first, after) {
            return false;
        }
        rest = after;
    }
    true
}

fn is_below_next(offer: &Offer, rest: &[Offer]) -> bool
    ensures { result ≡ is_below_next offer.now rest.now }
{
    match rest {
        [] => true,
        [next, ..] => offer.version < next.version,
    }
}

#[tactic(auto, unfolding(crate::specs::Reading::offer_at))]
fn split_offer(profile: Profile, bytes: &[u8]) -> Result<(Offer, &[u8]), Absent>
    ensures { Finds (λ read. (read.0, read.1.now)) result (offer_at (known_in profile) bytes.now) }
{
    let (version, rest) = split_number(bytes)?;
    let (item, rest) = split_item(rest)?;
    let info = read_info(profile, version, item);
    Ok((Offer { version, info }, rest))
}

fn read_info(profile: Profile, version: u64, item: &[u8]) -> Info
    ensures { result ≡ info_of (known_in profile) version item.now }
{
    match read_known(profile, version, item) {
        Some(known) => Info::Known(known),
        None => Info::Foreign,
    }
}

fn read_known(profile: Profile, version: u64, item: &[u8]) -> Option<VersionInfo>
    ensures { result ≡ known_in profile version item.now }
{
    match profile {
        Profile::NodeToNode => read_node_info(version, item),
        Profile::NodeToClient => read_client_info(version, item),
    }
}

#[tactic(auto, unfolding(crate::specs::Reading::known_of))]
fn read_node_info(version: u64, item: &[u8]) -> Option<VersionInfo>
    ensures { result ≡ known_of version item.now }
{
    if !is_node_version(version) {
        return None;
    }
    match split_version_info(item) {
        Ok((info, [])) => Some(info),
        _ => None,
    }
}

#[tactic(auto, unfolding(crate::specs::Reading::client_known_of))]
fn read_client_info(version: u64, item: &[u8]) -> Option<VersionInfo>
    ensures { result ≡ client_known_of version item.now }
{
    if !is_client_version(version) {
        return None;
    }
    match split_client_version_info(item) {
        Ok((info, [])) => Some(info),
        _ => None,
    }
}

fn is_node_version(version: u64) -> bool
    ensures { result ≡ is_node_version version }
{
    matches!(version, 13 | 14)
}

fn is_client_version(version: u64) -> bool
    ensures { result ≡ is_client_version version }
{
    matches!(version, 32784 | 32785)
}

#[tactic(auto, unfolding(crate::specs::Reading::magic_at))]
fn split_magic(bytes: &[u8]) -> Result<(u32, &[u8]), Absent>
    ensures { Finds (λ read. (read.0, read.1.now)) result (magic_at bytes.now) }
{
    let (magic, rest) = split_number(bytes)?;
    let Ok(magic) = u32::try_from(magic) else {
        return Err(Absent);
    };
    Ok((magic, rest))
}

#[tactic(auto, unfolding(crate::specs::Reading::version_info_at))]
fn split_version_info(bytes: &[u8]) -> Result<(VersionInfo, &[u8]), Absent>
    ensures { Finds (λ read. (read.0, read.1.now)) result (version_info_at bytes.now) }
{
    let rest = split_array(4, bytes)?;
    let (magic, rest) = split_magic(rest)?;
    let (initiator_only, rest) = split_flag(rest)?;
    let (sharing, rest) = split_sharing(rest)?;
    let (query, rest) = split_flag(rest)?;
    let info = VersionInfo {
        magic,
        initiator_only,
        sharing,
        query,
    };
    Ok((info, rest))
}

#[tactic(auto, unfolding(crate::specs::Reading::client_version_info_at))]
fn split_client_version_info(bytes: &[u8]) -> Result<(VersionInfo, &[u8]), Absent>
    ensures { Finds (λ read. (read.0, read.1.now)) result (client_version_info_at bytes.now) }
{
    let rest = split_array(2, bytes)?;
    let (magic, rest) = split_magic(rest)?;
    let (query, rest) = split_flag(rest)?;
    let info = VersionInfo {
        magic,
        initiator_only: true,
        sharing: false,
        query,
    };
    Ok((info, rest))
}

#[tactic(auto, unfolding(crate::specs::Reading::reason_at))]
fn read_reason(alloc: Global, bytes: &[u8]) -> Result<(Reason, &[u8]), ReadRefusal>
    ensures { FindsBy RefusalSays (λ read. (read.0, read.1.now)) result (reason_at bytes.now) }
{
    let (tag, rest) = split_tag(bytes)?;
    read_reason_behind(alloc, ReasonCode::of(tag)?, rest)
}

// What stands behind the tag of a reason.
fn read_reason_behind(
    alloc: Global,
    code: ReasonCode,
    bytes: &[u8],
) -> Result<(Reason, &[u8]), ReadRefusal>
    ensures { FindsBy RefusalSays (λ read. (read.0, read.1.now)) result (reason_behind code bytes.now) }
{
    match code {
        ReasonCode::NoCommon => {
            let (versions, rest) = read_version_list(alloc, bytes)?;
            Ok((Reason::NoCommon(versions), rest))
        }
        ReasonCode::NotDecoded => {
            let ((version, text), rest) = split_noted(bytes)?;
            Ok((
                Reason::NotDecoded(version, Octets::from_slice(alloc, text)?),
                rest,
            ))
        }
        ReasonCode::Declined => {
            let ((version, text), rest) = split_noted(bytes)?;
            Ok((
                Reason::Declined(version, Octets::from_slice(alloc, text)?),
                rest,
            ))
        }
    }
}

#[tactic(auto, unfolding(crate::specs::Reading::version_list_at))]
fn read_version_list(alloc: Global, bytes: &[u8]) -> Result<(NumberList, &[u8]), ReadRefusal>
    ensures { FindsBy RefusalSays (λ read. (read.0, read.1.now)) result (version_list_at bytes.now) }
{
    let (head, rest) = split_head(bytes)?;
    of_array(&head)?;
    read_version_row(alloc, &head, rest)
}

fn of_array(head: &Head) -> Result<(), Absent>
    ensures { MatchResult result (λ done. head.now.major ≡ 4) (λ absent. head.now.major ≢ 4) }
{
    if head.major == ARRAY {
        Ok(())
    } else {
        Err(Absent)
    }
}

fn read_version_row<'a>(
    alloc: Global,
    head: &Head,
    bytes: &'a [u8],
) -> Result<(NumberList, &'a [u8]), ReadRefusal>
    ensures { FindsBy RefusalSays (λ read. (read.0, read.1.now)) result (version_row_at head.now bytes.now) }
{
    if head.indefinite {
        read_numbers_to_break(alloc, bytes)
    } else {
        read_numbers(alloc, head.value, bytes)
    }
}

fn read_numbers(alloc: Global, count: u64, bytes: &[u8]) -> Result<(NumberList, &[u8]), ReadRefusal>
    ensures { FindsBy RefusalSays (λ read. (read.0, read.1.now)) result (row_at number_at count bytes.now) }
{
    let mut numbers = NumberList::new(alloc);
    let mut rest = bytes;
    for _ in 0..count {
        let (number, after) = split_number(rest)?;
        numbers.push(number)?;
        rest = after;
    }
    Ok((numbers, rest))
}

fn read_numbers_to_break(alloc: Global, bytes: &[u8]) -> Result<(NumberList, &[u8]), ReadRefusal>
    ensures { FindsBy RefusalSays (λ read. (read.0, read.1.now)) result (row_to_break_at number_at (length bytes.now) bytes.now) }
{
    let mut numbers = NumberList::new(alloc);
    let mut rest = bytes;
    // each number takes a byte at least
    for _ in 0..bytes.len() {
        let Some((first, after)) = rest.split_first() else {
            return Err(ReadRefusal::NotAMessage);
        };
        if *first == BREAK {
            return Ok((numbers, after));
        }
        let (number, after) = split_number(rest)?;
        numbers.push(number)?;
        rest = after;
    }
    Err(ReadRefusal::NotAMessage)
}
