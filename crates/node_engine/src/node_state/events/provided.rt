ghost use Rattle.std.specs.Prelude.{OnOk};
ghost use Rattle.machine.specs.Provided.{locals_are, bigs_are};
ghost use Rattle.node_engine.specs.State.{Does};

use crate::NodeState;
use crate::node_state::moves::tell_known;
use net_base::{ActionList, Addr, GroupList, OutOfMemory};

impl NodeState {
    /// The local groups are set. Each member is an ordinary peer of the book.
    #[inline(never)]
    pub(crate) fn locals_are(
        &mut self,
        groups: &GroupList,
        actions: &mut ActionList,
    ) -> Result<(), OutOfMemory>
        ensures { OnOk result (Does (locals_are groups.now self.old) actions.old self.new actions.new) }
    {
        let own = self.connections.settings().own;
        let new = self.peers.set_groups(groups, own)?;
        tell_known(new.as_slice(), actions)
    }

    /// Big ledger peers are made known.
    #[inline(never)]
    pub(crate) fn bigs_are(
        &mut self,
        addrs: &[Addr],
        actions: &mut ActionList,
    ) -> Result<(), OutOfMemory>
        ensures { OnOk result (Does (bigs_are addrs.now self.old) actions.old self.new actions.new) }
    {
        let own = self.connections.settings().own;
        let new = self.peers.add_big_peers(addrs, own, self.moment)?;
        tell_known(new.as_slice(), actions)
    }
}
