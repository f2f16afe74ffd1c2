ghost use Rattle.std.specs.Prelude.{List};
ghost use Rattle.net_base.specs.Bounds.{AreSound};
ghost use Rattle.net_base.specs.declared.event.Event.{Event};
ghost use Rattle.net_base.specs.declared.settings.Settings.{Settings};
ghost use Rattle.laws.specs.Runs.{IsLawfulRun};

use crate::laws::{laws_of_events, laws_of_records};

/// Every law holds in each record that a run from sound settings reaches, and at each event there.
pub fn runs_are_lawful()
    ensures { (settings : Settings) (events : List Event) → AreSound settings → IsLawfulRun settings events }
{
    laws_of_records();
    laws_of_events();
}
