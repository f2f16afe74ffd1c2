//! A law on the choice, whatever function makes it. The function does nothing.

ghost use Rattle.accept_gate.specs.Law.{GoesFirst};

/// The choice is a candidate of least rank, and of those the one with the greatest id.
pub fn the_choice_goes_first()
    ensures { GoesFirst }
{}
