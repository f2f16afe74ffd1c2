//! Laws on segments, items and streams, whatever function cuts or writes them. The functions do nothing.

ghost use Rattle.mux_segment.specs.Law.{AreInverse, AreCut, AreFed, AreTaken, StayInOrder, AreFramed};

/// Headers and their eight bytes are inverse to each other.
pub fn headers_are_inverse()
    ensures { AreInverse }
{}

/// Every stream is cut into segments and a rest in one way.
pub fn streams_have_one_cut()
    ensures { AreCut }
{}

/// The items and the fault of a stream do not depend on the pieces in which it came.
pub fn pieces_do_not_matter()
    ensures { AreFed }
{}

/// The items of a part are those that the grammar of items says.
pub fn items_are_the_grammar()
    ensures { AreTaken }
{}

/// Parts stay in order of side and protocol, and none is empty.
pub fn parts_stay_in_order()
    ensures { StayInOrder }
{}

/// A payload that was written comes back.
pub fn frames_are_cut_again()
    ensures { AreFramed }
{}
