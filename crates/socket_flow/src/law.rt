//! Laws on histories of the flow, and on turns and on what is written, whatever function gives them. The functions do nothing.

ghost use Rattle.socket_flow.specs.Bounds.{EventsAreBounded, NoneWaits, WaitsAreBounded, StrangersAreFew};
ghost use Rattle.socket_flow.specs.Fairness.{AllAreTold, OneIsTold, TurnsAreShared};
ghost use Rattle.socket_flow.specs.Histories.{EndedIsSilent, WhatCameIsTold};
ghost use Rattle.socket_flow.specs.Lives.{HasOneSocket, LivesAreRight};
ghost use Rattle.socket_flow.specs.Sending.{EndedIsUnwritten, WhatIsWrittenWasSent};
ghost use Rattle.socket_flow.specs.Turns.{AreFair, AreRound};
ghost use Rattle.socket_flow.specs.Writing.{KeepsOrder};

/// Whoever stands ahead has its turn first, and between two turns of one key each other that was ready has its turn.
pub fn turns_are_fair()
    ensures fair { AreFair }
    ensures round { AreRound }
{}

/// What is written on a socket is a front of what was put on it, in its order.
pub fn writing_keeps_order()
    ensures { KeepsOrder }
{}

/// Of every history, on every socket: what came is what was announced, and behind it the bytes of the events, one after another,
/// each told of one and the same connection.
pub fn what_came_is_told()
    ensures { WhatCameIsTold }
{}

/// Of every history: a socket that has ended is read no more, nothing more is told of it, and nothing is written on it.
pub fn ended_is_silent()
    ensures silent { EndedIsSilent }
    ensures unwritten { EndedIsUnwritten }
{}

/// Of every history, on every socket: what is written is a front of the announcement, where the node dials, and of all that it
/// sends to one connection, in this order; what came on it is told of the same connection.
pub fn what_is_written_was_sent()
    ensures { WhatIsWrittenWasSent }
{}

/// Of every history, for every id: a dial is answered once and before anything else is told of it, the end is told once, and
/// nothing behind it, up to where the id is used once more.
pub fn lives_are_right()
    ensures { LivesAreRight }
{}

/// Of every flow, whatever was called, and of its sockets whichever one takes: no more bytes wait to be sent than a `send` may
/// leave, but for what dials announce.
pub fn what_waits_is_bounded()
    ensures { WaitsAreBounded }
{}

/// Of every flow: no event waits where anything is asked for behind closings, connects, writes and events; and over every history
/// from there on, no more wait than the sockets had to tell, and what comes of rounds and of what the node does since.
pub fn events_are_bounded()
    ensures none { NoneWaits }
    ensures bounded { EventsAreBounded }
{}

/// Of every flow: of the peers that the node was told of one at a time is neither admitted nor turned away; and where anything is
/// asked for behind closings, connects, writes and events, it was told of each.
pub fn peers_are_told()
    ensures one { OneIsTold }
    ensures all { AllAreTold }
{}

/// Of every history, between two reads of one connection: each other that stood in line then, and may be read all the while, is
/// read.
pub fn turns_are_shared()
    ensures { TurnsAreShared }
{}

/// Of every history in which each peer is accepted where the flow asks for it: no more sockets announce an address than are to.
pub fn strangers_are_few()
    ensures { StrangersAreFew }
{}

/// Of every history, for every id that is used once: what is told of the connection came on one socket.
pub fn has_one_socket()
    ensures { HasOneSocket }
{}
