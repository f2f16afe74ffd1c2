//! Laws on the clients over whole runs, whatever function carries them out. The functions do nothing.

ghost use Rattle.local_clients.specs.Clients.{stepped};
ghost use Rattle.local_clients.specs.Law.{AreFew, AreTurnedAway, FaultsAreOfBytes, FittingProposalsOpen, GoneAreGone, KeepTheirTime, OpenClientsStay, PiecesDoNotMatter, RiseInTheirTime};
ghost use Rattle.local_clients.specs.Replay.{LedAreLawful};
ghost use Rattle.local_clients.specs.WrongClients.{FaultingFirstBytesFaults, FaultingFirstBytesOpens, NobodyGoes, OpensWithLeast};

/// There are never more clients than the limit.
pub fn clients_are_few()
    ensures { AreFew stepped }
{}

/// Clients that greet stand in order of their deadlines, and of their ids where these are the same.
pub fn greeting_clients_rise_in_time()
    ensures { RiseInTheirTime stepped }
{}

/// A client is turned away exactly where it joins while there are as many as the limit. Below the limit it is let in.
pub fn clients_are_turned_away()
    ensures { AreTurnedAway stepped }
{}

/// What is done does not depend on the pieces in which the bytes of a client come.
pub fn pieces_do_not_matter()
    ensures { PiecesDoNotMatter stepped }
{}

/// An open client goes only where it says so, or by a fault of its own bytes.
pub fn open_clients_stay()
    ensures { OpenClientsStay stepped }
{}

/// Whoever is said to be gone is there no more, and no event brings it back.
pub fn gone_clients_are_gone()
    ensures { GoneAreGone stepped }
{}

/// A client that says nothing is closed at its deadline, not before and not after.
pub fn silent_clients_have_their_time()
    ensures { KeepTheirTime stepped }
{}

/// A proposal that fits opens with the greatest version that both know, and the answer is sent.
pub fn fitting_proposals_open()
    ensures { FittingProposalsOpen stepped }
{}

/// A client whose fault is told has sent bytes that are that fault.
pub fn faults_are_of_bytes()
    ensures { FaultsAreOfBytes stepped }
{}

/// All of that is so of the clients behind any number of lines of an input.
pub fn led_clients_are_lawful()
    ensures { LedAreLawful }
{}

/// Clients of whom nobody goes, who open with the least common version, or whose first bytes are a fault, each break a law.
pub fn wrong_clients_are_refused()
    ensures gone { NobodyGoes }
    ensures version { OpensWithLeast }
    ensures opens { FaultingFirstBytesOpens }
    ensures faults { FaultingFirstBytesFaults }
{}
