//! Laws on items and heads, whatever function reads or writes them. The functions do nothing.

ghost use Rattle.cbor_items.specs.Law.{ArePrefixFree, AreNested, AreReadAgain, AreShortest, StayReached};

/// No item is a proper prefix of another.
pub fn items_are_prefix_free()
    ensures { ArePrefixFree }
{}

/// An item stays one where more levels may stand inside each other.
pub fn items_are_nested()
    ensures { AreNested }
{}

/// A head that was written is read again, whatever follows it.
pub fn heads_are_read_again()
    ensures { AreReadAgain }
{}

/// No head of a major type and a value has fewer bytes than the one that is written.
pub fn heads_are_shortest()
    ensures { AreShortest }
{}

/// Where a scan stopped in some bytes it goes on when more of them came.
pub fn places_stay_reached()
    ensures { StayReached }
{}
