ghost use Rattle.std.specs.Prelude.{◌≡◌, ◌≤◌, ◌^◌, IfOk};
ghost use Rattle.net_base.specs.Limits.{IsWithinLimits};
ghost use Rattle.net_base.specs.declared.event.Event.TheVariants.{Roots as Answered};
ghost use Rattle.net_base.specs.declared.event.RootAnswer.TheVariants.{Found};

use net_base::{AddrList, Event, INTERVAL_MOST, Job, OutOfMemory, RootAnswer};
use std::alloc::Global;

/// The public root peers of the topology file, and for how long an answer with them serves.
#[derive(Drop)]
pub(crate) struct Roots {
    alloc: Global,
    pub(crate) publics: AddrList,
    pub(crate) serve: u64,
    ghost interval: { (1 ≤ serve) × (serve ≤ 86400000) },
}

impl Roots {
    pub(crate) fn new(alloc: Global, publics: &AddrList, serve: u64) -> Result<Roots, OutOfMemory>
        ensures publics { IfOk result (λ roots. roots.publics ≡ publics.now) }
        ensures serve { 1 ≤ serve → serve ≤ 86400000 → IfOk result (λ roots. roots.serve ≡ serve) }
    {
        Ok(Roots {
            alloc,
            publics: AddrList::from_slice(alloc, publics.as_slice())?,
            serve: serve.clamp(1, INTERVAL_MOST),
        })
    }

    /// What a question for root peers is answered.
    pub(crate) fn answer(&self, job: Job) -> Result<Event, OutOfMemory>
        requires { job.0 ≤ 2 ^ 48 }
        ensures answer { IfOk result (λ event. event ≡ Answered job (Found self.now.serve self.now.publics)) }
        ensures limits { IfOk result IsWithinLimits }
    {
        let publics = AddrList::from_slice(self.alloc, self.publics.as_slice())?;
        Ok(Event::Roots(job, RootAnswer::Found(self.serve, publics)))
    }
}
