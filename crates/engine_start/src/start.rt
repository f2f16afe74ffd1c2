ghost use Rattle.std.specs.Prelude.{◌≡◌, IfOk};
ghost use Rattle.machine.specs.Machine.{start_of};
ghost use Rattle.net_base.specs.Bounds.{AreSound};

use crate::pickers::Pickers;
use net_base::{OutOfMemory, Settings};
use node_engine::{Engine, NewRefusal};
use std::alloc::Global;

/// An engine with these pickers, to which nothing has happened yet.
pub fn first_engine(
    alloc: Global,
    settings: Settings,
    pickers: Pickers,
) -> Result<Engine, OutOfMemory>
    requires { AreSound settings }
    ensures machine { IfOk result (λ e. e.machine ≡ start_of settings) }
    ensures events { IfOk result (λ e. e.events ≡ 0) }
{
    let Pickers { picker, ranked } = pickers;
    match Engine::new(alloc, settings, picker, ranked) {
        Ok(engine) => Ok(engine),
        Err(NewRefusal::OutOfMemory) => Err(OutOfMemory),
        Err(NewRefusal::BadSetting(_)) => unreachable!(),
    }
}
