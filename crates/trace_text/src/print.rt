ghost use Rattle.std.specs.Prelude.{◌≡◌, ◌≤◌, ◌∷◌, ◌++◌, length, take, codes, decimal, Contains, IfOk, OnOk};
ghost use Rattle.net_base.specs.declared.action.Action.TheVariants.{Admit, Turnaway, Dial, Send, Close, Pause, AskRoots, State, Peer};
ghost use Rattle.trace_text.specs.declared.line.Line.TheVariants.{Acted};
ghost use Rattle.trace_text.specs.declared.stage.Stage.{Stage};
ghost use Rattle.trace_text.specs.Lines.{line_of};
ghost use Rattle.trace_text.specs.Actions.{printed_action, away_word, fault_words, cause_words, note_word, state_word};

use crate::PrintedLine;
use crate::pushing::{push_address, push_hex, push_number, push_text};
use net_base::{
    Action, Addr, Away, Cid, CloseCause, FaultKind, Job, Octets, OutOfMemory, PeerNote, StateName,
};
use std::alloc::Global;

/// The line of an action, with its `> ` and without a line feed.
pub fn print_action(alloc: Global, action: &Action) -> Result<Octets, OutOfMemory>
    ensures printed { IfOk result (λ line. line ≡ printed_action action.now) }
    ensures one_line { IfOk result (λ line. ¬ (Contains line 10)) }
    ensures acted { IfOk result (λ line. (stage : Stage) → 2 ≤ stage.seen → line_of stage line ≡ Ok Acted) }
{
    let mut bytes = Vec::new(alloc);
    push_action(alloc, action, &mut bytes)?;
    Ok(Octets::from_vec(bytes))
}

impl PrintedLine for Action {
    ghost text = { printed_action };

    fn print(&self, alloc: Global, bytes: &mut Vec<u8>) -> Result<(), OutOfMemory> {
        push_action(alloc, self, bytes)
    }
}

// The line of an action, behind some bytes. A part of it may come where memory is wanting.
fn push_action(alloc: Global, action: &Action, bytes: &mut Vec<u8>) -> Result<(), OutOfMemory>
    ensures ok { OnOk result (bytes.new.items ≡ bytes.old.items ++ printed_action action.now) }
    ensures more { length bytes.old.items ≤ length bytes.new.items }
    ensures front { take (length bytes.old.items) bytes.new.items ≡ bytes.old.items }
{
    match action {
        Action::Admit(cid, address) => push_admit(alloc, *cid, address, bytes),
        Action::Turnaway(away) => push_turnaway(*away, bytes),
        Action::Dial(cid, address) => push_dial(alloc, *cid, address, bytes),
        Action::Send(cid, piece) => push_send(*cid, piece.as_slice(), bytes),
        Action::Close(cid, cause) => push_close(*cid, *cause, bytes),
        Action::Pause(time) => push_pause(*time, bytes),
        Action::AskRoots(job) => push_ask(*job, bytes),
        Action::State(cid, name) => push_state(*cid, *name, bytes),
        Action::Peer(address, note) => push_peer(alloc, address, *note, bytes),
    }
}

fn push_admit(
    alloc: Global,
    cid: Cid,
    address: &Addr,
    bytes: &mut Vec<u8>,
) -> Result<(), OutOfMemory>
    ensures ok { OnOk result (bytes.new.items ≡ bytes.old.items ++ printed_action (Admit cid address.now)) }
    ensures more { length bytes.old.items ≤ length bytes.new.items }
    ensures front { take (length bytes.old.items) bytes.new.items ≡ bytes.old.items }
{
    push_text("> admit ", bytes)?;
    push_id(cid, bytes)?;
    push_address(alloc, address, bytes)
}

fn push_turnaway(away: Away, bytes: &mut Vec<u8>) -> Result<(), OutOfMemory>
    ensures ok { OnOk result (bytes.new.items ≡ bytes.old.items ++ printed_action (Turnaway away)) }
    ensures more { length bytes.old.items ≤ length bytes.new.items }
    ensures front { take (length bytes.old.items) bytes.new.items ≡ bytes.old.items }
{
    push_text("> turnaway ", bytes)?;
    push_text(away_word(away), bytes)
}

fn push_dial(
    alloc: Global,
    cid: Cid,
    address: &Addr,
    bytes: &mut Vec<u8>,
) -> Result<(), OutOfMemory>
    ensures ok { OnOk result (bytes.new.items ≡ bytes.old.items ++ printed_action (Dial cid address.now)) }
    ensures more { length bytes.old.items ≤ length bytes.new.items }
    ensures front { take (length bytes.old.items) bytes.new.items ≡ bytes.old.items }
{
    push_text("> dial ", bytes)?;
    push_id(cid, bytes)?;
    push_address(alloc, address, bytes)
}

fn push_send(cid: Cid, piece: &[u8], bytes: &mut Vec<u8>) -> Result<(), OutOfMemory>
    ensures ok { OnOk result (bytes.new.items ≡ bytes.old.items ++ printed_action (Send cid piece.now)) }
    ensures more { length bytes.old.items ≤ length bytes.new.items }
    ensures front { take (length bytes.old.items) bytes.new.items ≡ bytes.old.items }
{
    push_text("> send ", bytes)?;
    push_id(cid, bytes)?;
    push_hex(piece, bytes)
}

fn push_close(cid: Cid, cause: CloseCause, bytes: &mut Vec<u8>) -> Result<(), OutOfMemory>
    ensures ok { OnOk result (bytes.new.items ≡ bytes.old.items ++ printed_action (Close cid cause)) }
    ensures more { length bytes.old.items ≤ length bytes.new.items }
    ensures front { take (length bytes.old.items) bytes.new.items ≡ bytes.old.items }
{
    push_text("> close ", bytes)?;
    push_id(cid, bytes)?;
    push_text(cause_words(cause), bytes)
}

fn push_pause(time: u64, bytes: &mut Vec<u8>) -> Result<(), OutOfMemory>
    ensures ok { OnOk result (bytes.new.items ≡ bytes.old.items ++ printed_action (Pause time)) }
    ensures more { length bytes.old.items ≤ length bytes.new.items }
    ensures front { take (length bytes.old.items) bytes.new.items ≡ bytes.old.items }
{
    push_text("> pause ", bytes)?;
    push_number(time, bytes)
}

fn push_ask(job: Job, bytes: &mut Vec<u8>) -> Result<(), OutOfMemory>
    ensures ok { OnOk result (bytes.new.items ≡ bytes.old.items ++ printed_action (AskRoots job)) }
    ensures more { length bytes.old.items ≤ length bytes.new.items }
    ensures front { take (length bytes.old.items) bytes.new.items ≡ bytes.old.items }
{
    push_text("> askroots ", bytes)?;
    push_number(job.0, bytes)
}

fn push_state(cid: Cid, name: StateName, bytes: &mut Vec<u8>) -> Result<(), OutOfMemory>
    ensures ok { OnOk result (bytes.new.items ≡ bytes.old.items ++ printed_action (State cid name)) }
    ensures more { length bytes.old.items ≤ length bytes.new.items }
    ensures front { take (length bytes.old.items) bytes.new.items ≡ bytes.old.items }
{
    push_text("> state ", bytes)?;
    push_id(cid, bytes)?;
    push_text(state_word(name), bytes)
}

fn push_peer(
    alloc: Global,
    address: &Addr,
    note: PeerNote,
    bytes: &mut Vec<u8>,
) -> Result<(), OutOfMemory>
    ensures ok { OnOk result (bytes.new.items ≡ bytes.old.items ++ printed_action (Peer address.now note)) }
    ensures more { length bytes.old.items ≤ length bytes.new.items }
    ensures front { take (length bytes.old.items) bytes.new.items ≡ bytes.old.items }
{
    push_text("> peer ", bytes)?;
    push_address(alloc, address, bytes)?;
    push_noted(note, bytes)
}

// A space and what is noted of a peer.
fn push_noted(note: PeerNote, bytes: &mut Vec<u8>) -> Result<(), OutOfMemory>
    ensures ok { OnOk result (bytes.new.items ≡ bytes.old.items ++ (32 ∷ note_word note)) }
    ensures more { length bytes.old.items ≤ length bytes.new.items }
    ensures front { take (length bytes.old.items) bytes.new.items ≡ bytes.old.items }
{
    bytes.push(b' ')?;
    push_text(note_word(note), bytes)
}

// An id and a space.
fn push_id(cid: Cid, bytes: &mut Vec<u8>) -> Result<(), OutOfMemory>
    ensures ok { OnOk result (bytes.new.items ≡ bytes.old.items ++ (decimal cid.0 ++ codes " ")) }
    ensures more { length bytes.old.items ≤ length bytes.new.items }
    ensures front { take (length bytes.old.items) bytes.new.items ≡ bytes.old.items }
{
    push_number(cid.0, bytes)?;
    bytes.push(b' ')?;
    Ok(())
}

fn away_word(away: Away) -> &'static str
    ensures { result.now ≡ away_word away }
{
    match away {
        Away::Full => "full",
        Away::OwnAddr => "self",
        Away::Crossed => "crossed",
        Away::Present => "present",
    }
}

fn cause_words(cause: CloseCause) -> &'static str
    ensures { result.now ≡ cause_words cause }
{
    match cause {
        CloseCause::Unused => "unused",
        CloseCause::Pruned => "pruned",
        CloseCause::Overwritten => "overwritten",
        CloseCause::Refused => "refused",
        CloseCause::Query => "query",
        CloseCause::Fault(kind) => fault_words(kind),
    }
}

/// The words of a fault: `fault` and its kind.
pub fn fault_words(kind: FaultKind) -> &'static str
    ensures { result.now ≡ fault_words kind }
{
    match kind {
        FaultKind::Malformed => "fault malformed",
        FaultKind::Deep => "fault deep",
        FaultKind::TooLong => "fault toolong",
        FaultKind::Protocol => "fault protocol",
        FaultKind::UnknownId => "fault unknownid",
        FaultKind::HandshakeWait => "fault handshakewait",
        FaultKind::ReplyWait => "fault replywait",
    }
}

fn note_word(note: PeerNote) -> &'static str
    ensures { result.now ≡ note_word note }
{
    match note {
        PeerNote::Known => "known",
        PeerNote::Cold => "cold",
        PeerNote::Warm => "warm",
        PeerNote::Hot => "hot",
        PeerNote::Forgotten => "forgotten",
    }
}

fn state_word(name: StateName) -> &'static str
    ensures { result.now ≡ state_word name }
{
    match name {
        StateName::ReservedOutbound => "ReservedOutbound",
        StateName::UnnegotiatedInbound => "UnnegotiatedInbound",
        StateName::UnnegotiatedOutbound => "UnnegotiatedOutbound",
        StateName::Duplex => "Duplex",
        StateName::OutboundUni => "OutboundUni",
        StateName::OutboundDupTicking => "OutboundDupTicking",
        StateName::OutboundDupExpired => "OutboundDupExpired",
        StateName::Inbound => "Inbound",
        StateName::InboundIdle => "InboundIdle",
        StateName::OutboundIdle => "OutboundIdle",
        StateName::Terminating => "Terminating",
        StateName::Terminated => "Terminated",
    }
}
