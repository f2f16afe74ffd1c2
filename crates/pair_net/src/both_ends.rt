ghost use Rattle.std.specs.Prelude.{◌≡◌, IfOk, Some};
ghost use Rattle.hs_receive.specs.Receiving.{CanBeAnswered};
ghost use Rattle.pair_net.specs.Ends.{hearing};
ghost use Rattle.pair_net.specs.Hearing.{heard};
ghost use Rattle.pair_net.specs.Pair.{fresh_pair, end_of, pair_of};
ghost use Rattle.pair_net.specs.Steps.{IsTurn, are_fresh, meets, concludes, delivers, ends_by, stepped};

use crate::end_state::EndState;
use crate::hearing::{hear, phase_after};
use crate::note::tell;
use crate::speaking::{answer_after, dial, say};
use crate::{End, EndCause, EndPhase, NoteList, PairStep};
use hs_decide::Role;
use hs_message::VersionInfo;
use hs_receive::Received;
use mux_segment::Cutter;
use net_base::OutOfMemory;
use std::alloc::Global;
use std::marker::Model;

/// Two ends and the pipes between them, however they came to be. A step changes them where they stand.
#[derive(Drop)]
pub(crate) struct BothEnds {
    alloc: Global,
    left: EndState,
    right: EndState,
}

impl Model for BothEnds {
    ghost use Rattle.pair_net.specs.Pair.{PairState};

    ghost Value = { PairState };

    ghost view = { λ p. record { left = p.left; right = p.right } };
}

impl BothEnds {
    pub fn new(alloc: Global, left: VersionInfo, right: VersionInfo) -> Self
        ensures { result ≡ fresh_pair left right }
    {
        BothEnds {
            alloc,
            left: EndState::new(alloc, left),
            right: EndState::new(alloc, right),
        }
    }

    pub fn phase(&self, end: End) -> EndPhase
        ensures { result ≡ (end_of end self.now).phase }
    {
        match end {
            End::Left => self.left.phase,
            End::Right => self.right.phase,
        }
    }

    pub fn step(&mut self, step: PairStep) -> Result<NoteList, OutOfMemory>
        ensures { IfOk result (IsTurn (stepped step self.old) self.new) }
    {
        match step {
            PairStep::Meet(end) => self.meet(end),
            PairStep::Cross => self.cross(),
            PairStep::Deliver(end, count) => self.deliver(end, count),
            PairStep::Timeout(end) => self.time_out(end),
            PairStep::Close(end) => self.close(end),
        }
    }

    fn meet(&mut self, end: End) -> Result<NoteList, OutOfMemory>
        ensures { IfOk result (IsTurn (stepped (PairStep.Meet end) self.old) self.new) }
    {
        if !self.is_fresh() {
            return Ok(NoteList::new(self.alloc));
        }
        match end {
            End::Left => meet(self.alloc, End::Left, &mut self.left, &mut self.right),
            End::Right => meet(self.alloc, End::Right, &mut self.right, &mut self.left),
        }
    }

    fn cross(&mut self) -> Result<NoteList, OutOfMemory>
        ensures { IfOk result (IsTurn (stepped PairStep.Cross self.old) self.new) }
    {
        let mut notes = NoteList::new(self.alloc);
        if !self.is_fresh() {
            return Ok(notes);
        }
        let (left, right) = (&mut self.left, &mut self.right);
        dial(self.alloc, End::Left, left, right, &mut notes)?;
        dial(self.alloc, End::Right, right, left, &mut notes)?;
        Ok(notes)
    }

    fn deliver(&mut self, end: End, count: u64) -> Result<NoteList, OutOfMemory>
        ensures { IfOk result (IsTurn (stepped (PairStep.Deliver end count) self.old) self.new) }
    {
        match end {
            End::Left => deliver(
                self.alloc,
                End::Left,
                count,
                &mut self.left,
                &mut self.right,
            ),
            End::Right => deliver(
                self.alloc,
                End::Right,
                count,
                &mut self.right,
                &mut self.left,
            ),
        }
    }

    fn time_out(&mut self, end: End) -> Result<NoteList, OutOfMemory>
        ensures { IfOk result (IsTurn (stepped (PairStep.Timeout end) self.old) self.new) }
    {
        match self.phase(end) {
            EndPhase::Waiting(_) => self.end_by(end, EndCause::Timeout),
            EndPhase::Fresh | EndPhase::Agreed(_) | EndPhase::Ended(_) => {
                Ok(NoteList::new(self.alloc))
            }
        }
    }

    fn close(&mut self, end: End) -> Result<NoteList, OutOfMemory>
        ensures { IfOk result (IsTurn (stepped (PairStep.Close end) self.old) self.new) }
    {
        match self.phase(end) {
            EndPhase::Ended(_) => Ok(NoteList::new(self.alloc)),
            EndPhase::Fresh | EndPhase::Waiting(_) | EndPhase::Agreed(_) => {
                self.end_by(end, EndCause::Closed)
            }
        }
    }

    fn end_by(&mut self, end: End, cause: EndCause) -> Result<NoteList, OutOfMemory>
        ensures { IfOk result (IsTurn (ends_by cause end self.old) self.new) }
    {
        let phase = EndPhase::Ended(cause);
        match end {
            End::Left => self.left.phase = phase,
            End::Right => self.right.phase = phase,
        }
        let mut notes = NoteList::new(self.alloc);
        tell(&mut notes, end, phase)?;
        Ok(notes)
    }

    fn is_fresh(&self) -> bool
        ensures { result ≡ are_fresh self.now }
    {
        self.left.phase.is_fresh() && self.right.phase.is_fresh()
    }
}

// An end dials the other one. Both are fresh.
fn meet(
    alloc: Global,
    end: End,
    near: &mut EndState,
    far: &mut EndState,
) -> Result<NoteList, OutOfMemory>
    ensures { IfOk result (IsTurn (meets end near.old far.old) (pair_of end near.new far.new)) }
{
    let mut notes = NoteList::new(alloc);
    dial(alloc, end, near, far, &mut notes)?;
    far.phase = EndPhase::Waiting(Role::Acceptor);
    tell(&mut notes, end.other(), far.phase)?;
    Ok(notes)
}

// So many bytes come out of the pipe towards an end.
fn deliver(
    alloc: Global,
    end: End,
    count: u64,
    near: &mut EndState,
    far: &mut EndState,
) -> Result<NoteList, OutOfMemory>
    ensures { IfOk result (IsTurn (delivers count end near.old far.old) (pair_of end near.new far.new)) }
{
    let bytes = near.take(alloc, count)?;
    match near.phase {
        EndPhase::Waiting(role) => listen(alloc, role, end, bytes.as_slice(), near, far),
        EndPhase::Fresh | EndPhase::Agreed(_) | EndPhase::Ended(_) => Ok(NoteList::new(alloc)),
    }
}

// An end that waits receives bytes.
fn listen(
    alloc: Global,
    role: Role,
    end: End,
    bytes: &[u8],
    near: &mut EndState,
    far: &mut EndState,
) -> Result<NoteList, OutOfMemory>
    ensures { let h = heard role near.old.info near.old.stream bytes.now in
        IfOk result (IsTurn (concludes h end (hearing bytes.now near.old) far.old) (pair_of end near.new far.new)) }
{
    match hear(alloc, role, bytes, near)? {
        Some(received) => conclude(alloc, received, end, near, far),
        None => Ok(NoteList::new(alloc)),
    }
}

// An end that waited has received what decides.
fn conclude(
    alloc: Global,
    received: Received,
    end: End,
    near: &mut EndState,
    far: &mut EndState,
) -> Result<NoteList, OutOfMemory>
    requires { CanBeAnswered received }
    ensures { IfOk result (IsTurn (concludes (Some received) end near.old far.old) (pair_of end near.new far.new)) }
{
    let mut notes = NoteList::new(alloc);
    let said = answer_after(alloc, &received, &near.info)?;
    say(end, said, far, &mut notes)?;
    near.phase = phase_after(received);
    near.stream = Cutter::new(alloc);
    tell(&mut notes, end, near.phase)?;
    Ok(notes)
}
