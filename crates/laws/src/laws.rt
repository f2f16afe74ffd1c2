ghost use Rattle.std.specs.Prelude.{ℕ, ◌≡◌, List, None};
ghost use Rattle.net_base.specs.Bounds.{AreSound};
ghost use Rattle.net_base.specs.declared.event.Event.{Event};
ghost use Rattle.net_base.specs.declared.settings.Settings.{Settings};
ghost use Rattle.machine.specs.Deadlines.{due, fire_all};
ghost use Rattle.machine.specs.Events.{clock_shows};
ghost use Rattle.machine.specs.Machine.{Machine, start_of};
ghost use Rattle.machine.specs.Run.{after_all};
ghost use Rattle.machine.specs.Step.{step};
ghost use Rattle.laws.specs.Laws.{DeadlinesAhead};
ghost use Rattle.laws.specs.Parts.{IsLawfulEvent};
ghost use Rattle.laws.specs.Records.{IsLawfulRecord};
ghost use Rattle.laws.specs.Sound.{IsOrderly, IsSound};
ghost use Rattle.laws.specs.Steady.{IsSteady, GivesFew};

/// Where as many deadlines may fire as there are, none that is due is left, since no deadline that fires sets one
/// that is due.
pub fn all_due_fires()
    ensures none_due { (m : Machine) → IsOrderly m → due (fire_all m).machine ≡ None }
    ensures clock { (t : ℕ) (m : Machine) → IsSound m → DeadlinesAhead (clock_shows t m).machine }
{}

/// What holds in every record of the machine: it is steady at the start, and after each event where it was before,
/// whatever stands in it; and whatever is steady keeps the laws.
pub fn laws_of_records()
    ensures start { (settings : Settings) → AreSound settings → IsSteady (start_of settings) }
    ensures kept { (m : Machine) (event : Event) → IsSteady m → IsSteady (step m event).machine }
    ensures settings { (m : Machine) (event : Event) → IsSteady m → (step m event).machine.settings ≡ m.settings }
    ensures lawful { (m : Machine) → IsSteady m → IsLawfulRecord m }
    ensures runs { (settings : Settings) (events : List Event) → AreSound settings → IsLawfulRecord (after_all (start_of settings) events) }
    ensures settings_of_runs { (settings : Settings) (events : List Event) → AreSound settings → (after_all (start_of settings) events).settings ≡ settings }
{}

/// What holds of the actions and the moves of each event, and of each of its parts, from every steady record and so after
/// every list of events; and how many numbers an event gives out.
pub fn laws_of_events()
    ensures lawful { (m : Machine) (event : Event) → IsSteady m → IsLawfulEvent m event }
    ensures few { (m : Machine) (event : Event) → IsSteady m → GivesFew m (step m event).machine }
    ensures runs { (settings : Settings) (events : List Event) (event : Event) → AreSound settings → IsLawfulEvent (after_all (start_of settings) events) event }
{}
