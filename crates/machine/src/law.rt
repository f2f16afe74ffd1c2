//! Laws on the definitions. The functions do nothing.

ghost use Rattle.machine.specs.Worked.{HandshakesRun, RespondersRun, OutboundsRun, CrossingsRun, LimitsRun, GovernorsRun, SharingsRun, BigPeersRun, DistinctRun, DistinctPeersRun, LastingRun, LawsRun};

/// The machine does on each worked trace what the trace says.
pub fn worked_traces_are_runs()
    ensures handshakes { HandshakesRun }
    ensures responders { RespondersRun }
    ensures outbound { OutboundsRun }
    ensures crossings { CrossingsRun }
    ensures limits { LimitsRun }
    ensures governor { GovernorsRun }
    ensures sharing { SharingsRun }
    ensures big_peers { BigPeersRun }
    ensures distinct { DistinctRun }
    ensures distinct_peers { DistinctPeersRun }
    ensures lasting { LastingRun }
    ensures laws { LawsRun }
{}
