ghost use Rattle.std.specs.Prelude.{◌≡◌, ◌≤◌, ◌<◌, ◌^◌, ℕ, List, [], ◌∷◌, ◌++◌, Some, Ok, IsTrue, Contains, decimal};
ghost use Rattle.net_base.specs.Number.{number_of};
ghost use Rattle.net_base.specs.declared.address.Addr.{Addr};
ghost use Rattle.net_base.specs.declared.action.Action.{Action};
ghost use Rattle.net_base.specs.Limits.{IsWithinLimits};
ghost use Rattle.net_base.specs.declared.event.Event.{Event};
ghost use Rattle.trace_text.specs.declared.line.Line.TheVariants.{Happen, Acted};
ghost use Rattle.trace_text.specs.EventTexts.{event_of, printed_event, IsEventIn};
ghost use Rattle.trace_text.specs.declared.stage.Stage.{Stage};
ghost use Rattle.trace_text.specs.Addresses.{IsAddress, address_of, knows_family, printed_address};
ghost use Rattle.trace_text.specs.HeadTexts.{AreRead, head_lines, head_said, printed_head};
ghost use Rattle.trace_text.specs.Says.{Says};
ghost use Rattle.trace_text.specs.declared.line.Line.{Line};
ghost use Rattle.trace_text.specs.Stages.{first_stage};
ghost use Rattle.trace_text.specs.Words.{pieces_of};
ghost use Rattle.trace_text.specs.Actions.{printed_action};
ghost use Rattle.trace_text.specs.Lines.{line_of};
ghost use Rattle.net_base.specs.Bounds.{AreSound};
ghost use Rattle.net_base.specs.declared.settings.Settings.{Settings};
ghost use Rattle.trace_text.specs.Settings.{AreInRange, setting_values, settings_under};

/// A law: a number has one spelling, and it is read.
pub fn numbers_are_spelled_once()
    ensures printed { (word : List ℕ) (n : ℕ) → number_of word ≡ Some n → n < 2 ^ 64 → word ≡ decimal n }
    ensures read { (n : ℕ) → n < 2 ^ 64 → number_of (decimal n) ≡ Some n }
{}

/// A law: an address has one spelling, and it is read in the versions that know its family.
pub fn addresses_are_spelled_once()
    ensures printed { (version : ℕ) (word : List ℕ) (address : Addr)
        → address_of version word ≡ Some address → word ≡ printed_address address }
    ensures within { (version : ℕ) (word : List ℕ) (address : Addr)
        → address_of version word ≡ Some address → IsAddress address × IsTrue (knows_family version address.ip) }
    ensures read { (version : ℕ) (address : Addr)
        → IsAddress address → IsTrue (knows_family version address.ip)
        → address_of version (printed_address address) ≡ Some address }
{}

/// A law: an event has one line in the traces of a version that can hold it, and the line is read as that event.
pub fn events_are_spelled_once()
    ensures printed { (version : ℕ) (line : List ℕ) (event : Event)
        → event_of version line ≡ Ok (Happen event) → line ≡ printed_event event }
    ensures within { (version : ℕ) (line : List ℕ) (event : Event)
        → event_of version line ≡ Ok (Happen event) → IsWithinLimits event × IsEventIn version event }
    ensures read { (version : ℕ) (event : Event)
        → IsWithinLimits event → IsEventIn version event → event_of version (printed_event event) ≡ Ok (Happen event) }
{}

/// A law: a printed action is one line, and is read as an action line wherever one may stand.
pub fn actions_are_lines()
    ensures one_line { (action : Action) → ¬ (Contains (printed_action action) 10) }
    ensures acted { (stage : Stage) (action : Action)
        → 2 ≤ stage.seen → line_of stage (printed_action action) ≡ Ok Acted }
{}

/// A law: a line says something at a stage exactly where it is the spelling of that.
pub fn lines_are_spelled_once()
    ensures told { (stage : Stage) (line : List ℕ) (said : Line)
        → stage.hard < 2 ^ 64 → line_of stage line ≡ Ok said → Says stage line said }
    ensures read { (stage : Stage) (line : List ℕ) (said : Line)
        → stage.hard < 2 ^ 64 → Says stage line said → line_of stage line ≡ Ok said }
{}

/// A law: a printed head is cut into its lines at the line feeds, and each of them is read as what it is printed of.
pub fn heads_are_read()
    ensures lines { (s : Settings) → pieces_of 10 (printed_head s) ≡ head_lines s ++ [] ∷ [] }
    ensures read { (s : Settings) → AreSound s → IsAddress s.own → IsTrue (knows_family s.version s.own.ip)
        → AreRead first_stage (head_lines s) (head_said s) }
{}

/// A law: the ranges of the settings' lines are those that `Settings::check` tests.
pub fn settings_are_those_of_the_check()
    ensures passes { (s : Settings) → 1 ≤ s.version → s.version ≤ 2
        → AreInRange (settings_under s.hard) (setting_values s) → AreSound s }
    ensures within { (s : Settings) → AreSound s → AreInRange (settings_under s.hard) (setting_values s) }
{}
