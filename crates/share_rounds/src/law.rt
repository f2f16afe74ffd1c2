//! Laws on what is told and taken, whatever function finds it. The functions do nothing.

ghost use Rattle.share_rounds.specs.Law.{ToldPeersAreAdvertised, TakenAddressesAreNew};

/// What is told: no more than asked for, only peers that may be told, in address order.
pub fn told_peers_are_advertised()
    ensures { ToldPeersAreAdvertised }
{}

/// What is taken: new addresses, each once, and no more than there is room for.
pub fn taken_addresses_are_new()
    ensures { TakenAddressesAreNew }
{}
