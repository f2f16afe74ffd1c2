ghost use Rattle.std.specs.Prelude.{◌≡◌, ◌∷◌, [], Some, slice_get, IfOk};
ghost use Rattle.net_base.specs.Limits.{IsWithinLimits};
ghost use Rattle.node_world.specs.Town.{first_events};

use super::peers::local_peers;
use net_base::{Event, Group, GroupList, OutOfMemory, Targets};
use std::alloc::Global;

/// The first event: the targets.
pub(crate) fn first_targets() -> Event
    ensures value { slice_get first_events 0 ≡ Some result }
    ensures limits { IsWithinLimits result }
{
    Event::Aims(Targets {
        root: 8,
        known: 40,
        established: 16,
        active: 6,
    })
}

/// The second event: the local root peers.
pub(crate) fn first_locals(alloc: Global) -> Result<Event, OutOfMemory>
    ensures value { IfOk result (λ event. slice_get first_events 1 ≡ Some event) }
    ensures limits { IfOk result IsWithinLimits }
{
    let mut groups = GroupList::new(alloc);
    groups.push(Group {
        hot: 1,
        warm: 2,
        advertise: true,
        members: local_peers(alloc)?,
    })?;
    Ok(Event::Locals(groups))
}
