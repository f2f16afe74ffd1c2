ghost use Rattle.std.specs.Prelude.{◌≤◌, ◌+◌, ◌^◌, OnOk};
ghost use Rattle.laws.specs.Steady.{IsOrdered};
ghost use Rattle.laws.specs.Laws.{WithinHardLimit};
ghost use Rattle.machine.specs.Govern.{govern};
ghost use Rattle.node_engine.specs.State.{Does};

use super::rules::{BIG, ORDINARY};
use crate::NodeState;
use net_base::{ActionList, OutOfMemory};
use pick_policy::{Picker, RankedPicker};

impl NodeState {
    /// The governor looks at its targets. The word decides between peers that are as good.
    pub(crate) fn govern(
        &mut self,
        word: u64,
        picker: &Picker,
        ranked: &RankedPicker,
        actions: &mut ActionList,
    ) -> Result<(), OutOfMemory>
        requires ordered { IsOrdered self.old }
        requires within { WithinHardLimit self.old }
        requires few_ids { self.old.next_id + 60000 ≤ 2 ^ 48 }
        requires few_jobs { self.old.roots.next_job ≤ 2 ^ 48 }
        ensures { OnOk result (Does (govern word self.old) actions.old self.new actions.new) }
    {
        self.ask_roots(actions)?;
        self.follow_all(&ORDINARY, word, picker, ranked, actions)?;
        self.follow_all(&BIG, word, picker, ranked, actions)
    }
}
