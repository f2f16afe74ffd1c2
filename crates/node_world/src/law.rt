//! Laws on the town, whatever function makes it. The functions do nothing.

ghost use Rattle.node_world.specs.Law.{HearsFrames, SpeaksMessages};

/// The town hears every payload that a node writes in one segment.
pub fn frames_are_heard()
    ensures { HearsFrames }
{}

/// The town knows the keep-alives and share requests of a node, and says messages on keep-alive.
pub fn messages_are_spoken()
    ensures { SpeaksMessages }
{}
