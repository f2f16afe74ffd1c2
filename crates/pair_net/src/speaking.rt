ghost use Rattle.std.specs.Prelude.{◌≡◌, ◌++◌, IfOk, OnOk};
ghost use Rattle.hs_decide.specs.Answers.{CanAnswer};
ghost use Rattle.hs_receive.specs.Receiving.{CanBeAnswered};
ghost use Rattle.pair_net.specs.Ends.{answered};
ghost use Rattle.pair_net.specs.Notes.{sent_notes};
ghost use Rattle.pair_net.specs.Speaking.{proposal_frame, answer_frame, answer_after, HasDialed};

use crate::end_state::EndState;
use crate::note::tell;
use crate::{End, EndPhase, NoteList, PairNote};
use hs_decide::{Role, Verdict, answer, proposal};
use hs_message::VersionInfo;
use hs_receive::Received;
use mux_segment::{INITIATOR, RESPONDER, frame};
use net_base::protocol::HANDSHAKE;
use net_base::{Octets, OutOfMemory};
use std::alloc::Global;

/// An end dials the other one: it waits for an answer, and its proposal is on the way.
pub(crate) fn dial(
    alloc: Global,
    end: End,
    near: &mut EndState,
    far: &mut EndState,
    notes: &mut NoteList,
) -> Result<(), OutOfMemory>
    ensures { OnOk result (HasDialed end near.old far.old notes.old near.new far.new notes.new) }
{
    near.phase = EndPhase::Waiting(Role::Dialer);
    tell(notes, end, near.phase)?;
    let bytes = proposal_frame(alloc, &near.info)?;
    say(end, Some(bytes), far, notes)
}

/// Puts bytes into the pipe towards the other end, where there are some to say, and tells so.
pub(crate) fn say(
    end: End,
    bytes: Option<Octets>,
    far: &mut EndState,
    notes: &mut NoteList,
) -> Result<(), OutOfMemory>
    ensures pipe { OnOk result (far.new ≡ answered bytes far.old) }
    ensures notes { OnOk result (notes.new ≡ notes.old ++ sent_notes end bytes) }
{
    match bytes {
        Some(bytes) => {
            far.reach(bytes.as_slice())?;
            notes.push(PairNote::Sent(end, bytes))?;
            Ok(())
        }
        None => Ok(()),
    }
}

fn proposal_frame(alloc: Global, own: &VersionInfo) -> Result<Octets, OutOfMemory>
    ensures { IfOk result (λ bytes. bytes ≡ proposal_frame own.now) }
{
    let message = proposal(alloc, own)?;
    frame(alloc, INITIATOR, HANDSHAKE, 0, message.as_slice())
}

/// What an end says to what it has received, if anything.
pub(crate) fn answer_after(
    alloc: Global,
    received: &Received,
    own: &VersionInfo,
) -> Result<Option<Octets>, OutOfMemory>
    requires { CanBeAnswered received.now }
    ensures { IfOk result (λ bytes. bytes ≡ answer_after received.now own.now) }
{
    match received {
        Received::Decided(verdict) => answer_frame(alloc, verdict, own),
        Received::Fault(_) => Ok(None),
    }
}

fn answer_frame(
    alloc: Global,
    verdict: &Verdict,
    own: &VersionInfo,
) -> Result<Option<Octets>, OutOfMemory>
    requires { CanAnswer verdict.now }
    ensures { IfOk result (λ bytes. bytes ≡ answer_frame verdict.now own.now) }
{
    match answer(alloc, verdict, own)? {
        Some(message) => Ok(Some(frame(alloc, RESPONDER, HANDSHAKE, 0, message.as_slice())?)),
        None => Ok(None),
    }
}
