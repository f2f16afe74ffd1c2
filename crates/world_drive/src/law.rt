ghost use Rattle.std.specs.Prelude.{◌≡◌, ℕ};
ghost use Rattle.laws.specs.Runs.{IsLawfulRun};
ghost use Rattle.world_drive.specs.Drill.{town_settings, drill_text};
ghost use Rattle.world_drive.specs.Lawful.{town_events, counted_text};

use laws::runs_are_lawful;

/// A law: what a drill tells is counted of the machine's run over the events that the town gives, and that run is lawful.
pub fn drills_are_lawful()
    ensures counted { (seed count : ℕ) → drill_text seed count ≡ counted_text town_settings (town_events seed count) }
    ensures lawful { (seed count : ℕ) → IsLawfulRun town_settings (town_events seed count) }
{
    runs_are_lawful();
}
