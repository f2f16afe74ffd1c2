//! What two ends come to, over every interleaving. The functions do nothing.

ghost use Rattle.pair_net.specs.Law.{AgreeAlike, AgreementsAreHeard, AgreeRightly, CrossingsAgree, CrossingsAgreeInTurn, MeetingsAgree, MeetingsAgreeInTurn, PipesEmpty, RefusalsAreTold};
ghost use Rattle.pair_net.specs.Replay.{LedAreLawful};
ghost use Rattle.pair_net.specs.Steps.{stepped};
ghost use Rattle.pair_net.specs.WrongPairs.{AgreesWrongly};

/// Two ends that both agreed have agreed on the same version, flow and sharing, whatever steps led there. Where they are of
/// the same network, everything that is delivered leads both to agree: after a meeting, and after a crossing of two ends
/// of which neither is initiator only.
pub fn both_ends_agree()
    ensures alike { AgreeAlike }
    ensures pipes { PipesEmpty }
    ensures meetings_in_turn { MeetingsAgreeInTurn }
    ensures meetings { MeetingsAgree }
    ensures crossings_in_turn { CrossingsAgreeInTurn }
    ensures crossings { CrossingsAgree }
{}

/// What two ends agree on is right for both: they are of one network, the version is the greatest that both propose, and flow
/// and sharing are what both want.
pub fn both_ends_agree_rightly()
    ensures { AgreeRightly stepped }
{}

/// An end agrees only with one that says it is of the same network, and on what both say.
pub fn agreements_are_heard()
    ensures { AgreementsAreHeard stepped }
{}

/// Who is refused by the end that it dialed is told why, and which versions that end proposes where none was common.
pub fn refusals_are_told()
    ensures { RefusalsAreTold stepped }
{}

/// All of that is so of the pair behind any number of lines of an input.
pub fn led_pairs_are_lawful()
    ensures { LedAreLawful }
{}

/// A pair that agrees across networks breaks the law on what is agreed.
pub fn agreeing_across_networks_is_refused()
    ensures { AgreesWrongly }
{}
