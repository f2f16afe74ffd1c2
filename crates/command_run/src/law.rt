ghost use Rattle.std.specs.Prelude.{ℕ, List};
ghost use Rattle.laws.specs.Parts.{IsLawfulEvent};
ghost use Rattle.laws.specs.Records.{IsLawfulRecord};
ghost use Rattle.local_clients.specs.Law.{AreLawful};
ghost use Rattle.local_clients.specs.Replay.{clients_after};
ghost use Rattle.local_clients.specs.Rules.{AreInRange};
ghost use Rattle.local_clients.specs.declared.rules.ClientRules.{ClientRules as Rules};
ghost use Rattle.net_base.specs.declared.event.Event.{Event};
ghost use Rattle.pair_net.specs.Replay.{IsLawfulSoFar, progress_after};
ghost use Rattle.trace_meaning.specs.Inputs.{machine_after};
ghost use Rattle.command_run.specs.Laws.{ReplaysAnswerAsDue, ChecksAnswerAsDue, PairsAnswerAsDue, ClientsAnswerAsDue, DrillsAnswerAsDue, FaultsHaveCauses, ReplaysReadOn, ChecksReadOn, PairsReadOn, ClientsReadOn};

use laws::{laws_of_events, laws_of_records};
use local_clients::law::led_clients_are_lawful;
use pair_net::law::led_pairs_are_lawful;
use trace_compare::law::outputs_agree;
use world_drive::law::drills_are_lawful;

/// What has come of a command says of its status: where the input is told, it is that of the line that decides, with what
/// was read and written by it; and no fault comes without its cause.
pub fn commands_answer_as_due()
    ensures replay { ReplaysAnswerAsDue }
    ensures check { ChecksAnswerAsDue }
    ensures pair { PairsAnswerAsDue }
    ensures clients { ClientsAnswerAsDue }
    ensures drill { DrillsAnswerAsDue }
    ensures causes { FaultsHaveCauses }
{
    outputs_agree();
    drills_are_lawful();
}

/// Before each reading all that was said has been put, and no line that was read decides. For any reading may fail, and where
/// one did, that is so: so nothing is read behind the line that decides but what came with it.
pub fn readings_come_last()
    ensures replay { ReplaysReadOn }
    ensures check { ChecksReadOn }
    ensures pair { PairsReadOn }
    ensures clients { ClientsReadOn }
{}

/// What holds of every input, whatever is read of it: behind any number of its events every law of the machine, and of its
/// lines every law of a pair, and of clients.
pub fn inputs_are_lawful()
    ensures records { (input : List ℕ) (count : ℕ) → IsLawfulRecord (machine_after count input) }
    ensures events { (input : List ℕ) (count : ℕ) (event : Event) → IsLawfulEvent (machine_after count input) event }
    ensures pairs { (input : List ℕ) (count : ℕ) → IsLawfulSoFar (progress_after count input) }
    ensures clients { (rules : Rules) (input : List ℕ) (count : ℕ) → AreInRange rules → AreLawful rules (clients_after rules count input) }
{
    laws_of_records();
    laws_of_events();
    led_pairs_are_lawful();
    led_clients_are_lawful();
}
