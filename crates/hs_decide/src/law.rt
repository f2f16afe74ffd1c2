//! Laws on agreement, whatever function decides. The functions do nothing.

ghost use Rattle.hs_decide.specs.Law.{AreAgreed, MeetAlike, ProposalsAreRead, AnswersAreRead};

/// What an acceptor takes, the dialer agrees on, with the same values.
pub fn both_ends_agree()
    ensures { AreAgreed }
{}

/// Two nodes that have dialed each other come to the same verdict.
pub fn both_dialers_agree()
    ensures { MeetAlike }
{}

/// A proposal is read as that of the own versions.
pub fn proposals_are_read()
    ensures { ProposalsAreRead }
{}

/// An answer is read as the message that it says.
pub fn answers_are_read()
    ensures { AnswersAreRead }
{}
