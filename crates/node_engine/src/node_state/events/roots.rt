ghost use Rattle.std.specs.Prelude.{OnOk};
ghost use Rattle.machine.specs.Provided.{roots_answer};
ghost use Rattle.net_base.specs.Limits.{ServesAnInterval};
ghost use Rattle.node_engine.specs.State.{Does};

use crate::NodeState;
use crate::node_state::moves::tell_known;
use net_base::{ActionList, Job, OutOfMemory, RootAnswer};

impl NodeState {
    /// A question for public root peers is answered. An answer counts only where its question is pending; the public roots
    /// that are found come into the book.
    #[inline(never)]
    pub(crate) fn roots_answer(
        &mut self,
        job: Job,
        answer: &RootAnswer,
        actions: &mut ActionList,
    ) -> Result<(), OutOfMemory>
        requires { ServesAnInterval answer.now }
        ensures { OnOk result (Does (roots_answer job answer.now self.old) actions.old self.new actions.new) }
    {
        match answer {
            RootAnswer::Found(ttl, addrs) => {
                let own = self.connections.settings().own;
                let new = self.peers.roots_found(job, *ttl, addrs, own, self.moment)?;
                tell_known(new.as_slice(), actions)
            }
            RootAnswer::Failed => {
                let base = self.connections.settings().backoff;
                self.peers.roots_failed(job, self.moment, base);
                Ok(())
            }
        }
    }
}
