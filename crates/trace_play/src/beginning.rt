ghost use Rattle.std.specs.Prelude.{◌≡◌, IfOk};
ghost use Rattle.machine.specs.Machine.{start_of};
ghost use Rattle.net_base.specs.Bounds.{AreSound};
ghost use Rattle.trace_meaning.specs.Settings.{settings_in};

use net_base::OutOfMemory;
use std::alloc::Global;
use stepper::Stepper;
use trace_meaning::settings_of;
use trace_text::HeadLine;

/// One with the settings of the head. Where its means are gone, memory was wanting before, and it is still.
pub(crate) fn first<E: Stepper>(
    alloc: Global,
    means: Option<E::Means>,
    heads: &[HeadLine],
) -> Result<E, OutOfMemory>
    requires { AreSound (settings_in heads.now) }
    ensures machine { IfOk result (λ e. E.machine e ≡ start_of (settings_in heads.now)) }
    ensures events { IfOk result (λ e. E.events e ≡ 0) }
{
    match means {
        Some(means) => E::begin(alloc, settings_of(heads), means),
        None => Err(OutOfMemory),
    }
}
