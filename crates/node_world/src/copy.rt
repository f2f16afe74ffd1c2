ghost use Rattle.std.specs.Prelude.{◌≡◌, IfOk};

use net_base::{Action, Octets, OutOfMemory};
use std::alloc::Global;

/// A copy of an action.
pub(crate) fn copy_of(alloc: Global, action: &Action) -> Result<Action, OutOfMemory>
    ensures { IfOk result (λ copy. copy ≡ action.now) }
{
    Ok(match action {
        Action::Admit(cid, addr) => Action::Admit(*cid, *addr),
        Action::Turnaway(away) => Action::Turnaway(*away),
        Action::Dial(cid, addr) => Action::Dial(*cid, *addr),
        Action::Send(cid, bytes) => Action::Send(
            *cid,
            Octets::from_slice(alloc, bytes.as_slice())?,
        ),
        Action::Close(cid, cause) => Action::Close(*cid, *cause),
        Action::Pause(time) => Action::Pause(*time),
        Action::AskRoots(job) => Action::AskRoots(*job),
        Action::State(cid, name) => Action::State(*cid, *name),
        Action::Peer(addr, note) => Action::Peer(*addr, *note),
    })
}
