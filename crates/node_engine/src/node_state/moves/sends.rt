ghost use Rattle.std.specs.Prelude.{◌<◌, ◌≤◌, ◌^◌, OnOk};
ghost use Rattle.node_engine.specs.State.{Does, sends_from};

use crate::NodeState;
use mux_segment::frame;
use net_base::{Action, ActionList, Cid, OutOfMemory};

impl NodeState {
    /// A message on a protocol, from one of the two sides.
    pub(crate) fn send(
        &self,
        cid: Cid,
        side: u8,
        protocol: u16,
        payload: &[u8],
        actions: &mut ActionList,
    ) -> Result<(), OutOfMemory>
        requires side { side ≤ 1 }
        requires protocol { protocol < 2 ^ 15 }
        ensures { OnOk result (Does (sends_from side cid protocol payload.now self.now) actions.old self.now actions.new) }
    {
        let octets = frame(self.alloc, side, protocol, self.moment, payload)?;
        actions.push(Action::Send(cid, octets))
    }
}
