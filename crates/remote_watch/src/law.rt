//! Laws on replies, whatever function writes them. The functions do nothing.

ghost use Rattle.remote_watch.specs.Law.{AreRead, AreWritten};

/// The replies of an empty chain are the arrays that `warm_messages` would write.
pub fn replies_are_written()
    ensures { AreWritten }
{}

/// What is answered is read by the side that asked: a first number, the cookie, or the peers.
pub fn replies_are_read()
    ensures { AreRead }
{}
