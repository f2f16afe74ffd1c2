use super::topology_files::{Wanted, is_read};
use net_base::{Addr, Ip};
use std::alloc::Global;
use std::test::Fail;

// Whether a host stands for these addresses, at port 3001, in a file that has it as its one access point. Without an
// address it is counted.
fn stands_for(alloc: Global, host: &str, addresses: &[Addr]) -> Result<bool, Fail> {
    let text = format!(in alloc;
        "{{\"publicRoots\":[{{\"accessPoints\":[{{\"address\":\"{host}\",\"port\":3001}}]}}]}}"
    )?;
    let wanted = Wanted {
        roots: &[],
        publics: addresses,
        unresolved: if addresses.is_empty() { 1 } else { 0 },
    };
    Ok(is_read(alloc, text.as_str(), wanted))
}

#[test]
fn a_host_is_localhost_or_an_address(rt: HostRuntime) -> Result<(), Fail> {
    let hosts: [(&str, Ip); 9] = [
        ("localhost", Ip::V4(0x7f00_0001)),
        ("10.0.255.1", Ip::V4(0x0a00_ff01)),
        ("::", Ip::V6(0)),
        ("::1", Ip::V6(1)),
        ("FE80::1", Ip::V6(0xfe80_0000_0000_0000_0000_0000_0000_0001)),
        (
            "1:2:3:4:5:6:7:8",
            Ip::V6(0x0001_0002_0003_0004_0005_0006_0007_0008),
        ),
        (
            "1:2:3:4:5:6:7::",
            Ip::V6(0x0001_0002_0003_0004_0005_0006_0007_0000),
        ),
        (
            "::2:3:4:5:6:7:8",
            Ip::V6(0x0002_0003_0004_0005_0006_0007_0008),
        ),
        (
            "0001::00aF",
            Ip::V6(0x0001_0000_0000_0000_0000_0000_0000_00af),
        ),
    ];
    for (host, ip) in hosts {
        let stands = stands_for(rt.alloc(), host, &[Addr { ip, port: 3001 }])?;
        assert!(rt; stands, "{host}");
    }
    Ok(())
}

#[test]
fn every_other_host_stands_for_no_address(rt: HostRuntime) -> Result<(), Fail> {
    let hosts: [&str; 22] = [
        "",
        "relays.example",
        "LOCALHOST",
        "localhost.",
        "127.0.0.01",
        "127.0.0",
        "127.0.0.256",
        "127.0.0.1 ",
        "127.0.0.1:3001",
        ":",
        ":::",
        "1::2::3",
        "1:2:3:4:5:6:7",
        "1:2:3:4:5:6:7:8:9",
        "1:2:3:4:5:6:7:8::",
        "::1:2:3:4:5:6:7:8",
        "12345::",
        "g::",
        "::127.0.0.1",
        "::ffff:127.0.0.1",
        "[::1]",
        "fe80::1%1",
    ];
    for host in hosts {
        let stands = stands_for(rt.alloc(), host, &[])?;
        assert!(rt; stands, "{host}");
    }
    Ok(())
}
