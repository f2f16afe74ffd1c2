// Traces of the whole machine, worked by hand: each an input and its output.
pub(super) const ROWS: [(&str, &str); 5] = [
    // A peer connects and both agree on a duplex connection.
    (
        "trace 1
own 127.0.0.1:3001
accepted 127.0.0.1:3002
bytes 1 00000000000000118200a20d84182af401f40e84182af401f4
end
",
        "trace 1
own 127.0.0.1:3001
accepted 127.0.0.1:3002
> admit 1 127.0.0.1:3002
> state 1 UnnegotiatedInbound
bytes 1 00000000000000118200a20d84182af401f40e84182af401f4
> send 1 000000008000000983010e84182af401f4
> state 1 InboundIdle
end
",
    ),
    // A connection from its dial to the end of its time-wait.
    (
        "trace 1
own 127.0.0.1:3001
locals / 0 1 + 127.0.0.1:3002
govern 0
dialed 1 ok
bytes 1 000000008000000983010e84182af401f4
bytes 1 0000000080080003820101
now 5000
now 6000
locals
govern 0
now 11000
now 71000
govern 0
end
",
        "trace 1
own 127.0.0.1:3001
locals / 0 1 + 127.0.0.1:3002
> peer 127.0.0.1:3002 known
govern 0
> dial 1 127.0.0.1:3002
> state 1 ReservedOutbound
dialed 1 ok
> state 1 UnnegotiatedOutbound
> send 1 00000000000000118200a20d84182af401f40e84182af401f4
bytes 1 000000008000000983010e84182af401f4
> state 1 OutboundDupTicking
> peer 127.0.0.1:3002 warm
> send 1 0000000000080003820001
bytes 1 0000000080080003820101
now 5000
> state 1 OutboundDupExpired
now 6000
locals
govern 0
> send 1 005b8d80000a00028102
> send 1 005b8d80000800028102
> state 1 OutboundIdle
> peer 127.0.0.1:3002 cold
now 11000
> close 1 unused
> state 1 Terminating
now 71000
> state 1 Terminated
govern 0
> peer 127.0.0.1:3002 forgotten
end
",
    ),
    // A peer becomes hot and warm again as its group's valencies change.
    (
        "trace 1
own 127.0.0.1:3001
locals / 0 1 + 127.0.0.1:3002
govern 0
dialed 1 ok
bytes 1 000000008000000983010e84182af401f4
bytes 1 0000000080080003820101
locals / 1 1 + 127.0.0.1:3002
govern 0
bytes 1 00000000800200058206828000
locals / 0 1 + 127.0.0.1:3002
govern 0
end
",
        "trace 1
own 127.0.0.1:3001
locals / 0 1 + 127.0.0.1:3002
> peer 127.0.0.1:3002 known
govern 0
> dial 1 127.0.0.1:3002
> state 1 ReservedOutbound
dialed 1 ok
> state 1 UnnegotiatedOutbound
> send 1 00000000000000118200a20d84182af401f40e84182af401f4
bytes 1 000000008000000983010e84182af401f4
> state 1 OutboundDupTicking
> peer 127.0.0.1:3002 warm
> send 1 0000000000080003820001
bytes 1 0000000080080003820101
locals / 1 1 + 127.0.0.1:3002
govern 0
> send 1 0000000000020003820480
bytes 1 00000000800200058206828000
> peer 127.0.0.1:3002 hot
locals / 0 1 + 127.0.0.1:3002
govern 0
> send 1 00000000000200028107
> peer 127.0.0.1:3002 warm
end
",
    ),
    // Targets ask for public roots, and those are dialed.
    (
        "trace 1
own 127.0.0.1:3001
targets 3 5 2 0
govern 0
roots 1 ok 3600000 127.0.0.1:3002 127.0.0.1:3003 127.0.0.1:3004
govern 0
end
",
        "trace 1
own 127.0.0.1:3001
targets 3 5 2 0
govern 0
> askroots 1
roots 1 ok 3600000 127.0.0.1:3002 127.0.0.1:3003 127.0.0.1:3004
> peer 127.0.0.1:3002 known
> peer 127.0.0.1:3003 known
> peer 127.0.0.1:3004 known
govern 0
> dial 1 127.0.0.1:3002
> state 1 ReservedOutbound
> dial 2 127.0.0.1:3003
> state 2 ReservedOutbound
end
",
    ),
    // Of two big ledger peers the one without a failure is dialed first.
    (
        "trace 2
own 127.0.0.1:3001
bigtargets 5 1 0
bigs 127.0.0.1:3002 127.0.0.1:3003
govern 0
dialed 1 failed
now 5000
govern 0
end
",
        "trace 2
own 127.0.0.1:3001
bigtargets 5 1 0
bigs 127.0.0.1:3002 127.0.0.1:3003
> peer 127.0.0.1:3002 known
> peer 127.0.0.1:3003 known
govern 0
> dial 1 127.0.0.1:3002
> state 1 ReservedOutbound
dialed 1 failed
> state 1 Terminated
now 5000
govern 0
> dial 2 127.0.0.1:3003
> state 2 ReservedOutbound
end
",
    ),
];
