use net_base::{Addr, Field, Group, Ip};
use node_settings::{Topology, TopologyRefusal, read_topology};
use std::alloc::Global;
use std::process::Abort;
use std::test::Fail;

const LOCAL: Ip = Ip::V4(0x7f00_0001);

// A group of local root peers.
#[derive(Clone, Copy)]
pub(super) struct Root<'a> {
    hot: u64,
    warm: u64,
    advertise: bool,
    members: &'a [Addr],
}

// What a file says.
#[derive(Clone, Copy)]
pub(super) struct Wanted<'a> {
    pub(super) roots: &'a [Root<'a>],
    pub(super) publics: &'a [Addr],
    pub(super) unresolved: u64,
}

fn answer_to(alloc: Global, text: &[u8]) -> Result<Topology, TopologyRefusal> {
    read_topology(alloc, text)
}

fn is_root(group: &Group, root: &Root<'_>) -> bool {
    group.hot == root.hot
        && group.warm == root.warm
        && group.advertise == root.advertise
        && group.members.as_slice() == root.members
}

fn are_roots(groups: &[Group], roots: &[Root<'_>]) -> bool {
    for (n, root) in roots.iter().enumerate() {
        match groups.get(n) {
            Some(group) if is_root(group, root) => {}
            _ => return false,
        }
    }
    groups.len() == roots.len()
}

fn says(topology: &Topology, wanted: Wanted<'_>) -> bool {
    are_roots(topology.groups.as_slice(), wanted.roots)
        && topology.publics.as_slice() == wanted.publics
        && topology.unresolved == wanted.unresolved
}

// Whether a file is read, and says so.
pub(super) fn is_read(alloc: Global, text: &str, wanted: Wanted<'_>) -> bool {
    match answer_to(alloc, text.as_bytes()) {
        Ok(topology) => says(&topology, wanted),
        Err(_) => false,
    }
}

fn expect_read(rt: &impl Abort, alloc: Global, rows: &[(&str, Wanted<'_>)]) {
    for (text, wanted) in rows {
        assert!(rt; is_read(alloc, *text, *wanted), "{text}");
    }
}

const USUAL: [(&str, Wanted); 1] = [(
    r#"{"localRoots":[
 {"accessPoints":[{"address":"127.0.0.1","port":3002},{"address":"127.0.0.1","port":3003}],
  "advertise":false,"trustable":true,"hotValency":1,"warmValency":2},
 {"accessPoints":[{"address":"127.0.0.1","port":3004}],"advertise":true,"valency":1}],
 "publicRoots":[{"accessPoints":[{"address":"relays.example","port":3001}],"advertise":false}],
 "useLedgerAfterSlot":128908827}"#,
    Wanted {
        roots: &[
            Root {
                hot: 1,
                warm: 2,
                advertise: false,
                members: &[
                    Addr {
                        ip: LOCAL,
                        port: 3002,
                    },
                    Addr {
                        ip: LOCAL,
                        port: 3003,
                    },
                ],
            },
            Root {
                hot: 1,
                warm: 1,
                advertise: true,
                members: &[Addr {
                    ip: LOCAL,
                    port: 3004,
                }],
            },
        ],
        publics: &[],
        unresolved: 1,
    },
)];

#[test]
fn a_file_of_the_usual_shape_is_read(rt: HostRuntime) {
    expect_read(&rt, rt.alloc(), &USUAL);
}

const PUBLICS: [(&str, Wanted); 1] = [(
    r#"{"publicRoots":[
 {"accessPoints":[{"address":"localhost","port":2},{"address":"x","port":0}]},
 {"accessPoints":[]},
 {"accessPoints":[{"address":"y","port":65535},{"address":"127.0.0.1","port":1}]}]}"#,
    Wanted {
        roots: &[],
        publics: &[Addr { ip: LOCAL, port: 2 }, Addr { ip: LOCAL, port: 1 }],
        unresolved: 2,
    },
)];

#[test]
fn public_roots_are_joined_in_file_order(rt: HostRuntime) {
    expect_read(&rt, rt.alloc(), &PUBLICS);
}

const VALENCIES: [(&str, Wanted); 4] = [
    (
        r#"{"localRoots":[{"accessPoints":[{"address":"FE80::1","port":1}]}]}"#,
        Wanted {
            roots: &[Root {
                hot: 1,
                warm: 1,
                advertise: false,
                members: &[Addr {
                    ip: Ip::V6(0xfe80_0000_0000_0000_0000_0000_0000_0001),
                    port: 1,
                }],
            }],
            publics: &[],
            unresolved: 0,
        },
    ),
    (
        r#"{"localRoots":[{"accessPoints":[{"address":"x","port":1},{"address":"y","port":1}],"warmValency":0}]}"#,
        Wanted {
            roots: &[Root {
                hot: 2,
                warm: 0,
                advertise: false,
                members: &[],
            }],
            publics: &[],
            unresolved: 2,
        },
    ),
    (
        r#"{"localRoots":[{"accessPoints":[],"valency":"x","hotValency":10000}]}"#,
        Wanted {
            roots: &[Root {
                hot: 10_000,
                warm: 10_000,
                advertise: false,
                members: &[],
            }],
            publics: &[],
            unresolved: 0,
        },
    ),
    (
        r#"{"localRoots":5,"localRoots":[{"accessPoints":[],"valency":3,"valency":4}]}"#,
        Wanted {
            roots: &[Root {
                hot: 4,
                warm: 4,
                advertise: false,
                members: &[],
            }],
            publics: &[],
            unresolved: 0,
        },
    ),
];

#[test]
fn valencies_have_defaults(rt: HostRuntime) {
    expect_read(&rt, rt.alloc(), &VALENCIES);
}

// Why a file is refused.
fn refusal_of(alloc: Global, text: &[u8]) -> Option<TopologyRefusal> {
    answer_to(alloc, text).err()
}

// The answer to a file with one local root of these members.
fn expect_refused(rt: &impl Abort, alloc: Global, members: &str, field: Field) -> Result<(), Fail> {
    let text = format!(in alloc; "{{\"localRoots\":[{{{members}}}]}}")?;
    let refusal = TopologyRefusal::BadSetting(field);
    assert!(rt;
        refusal_of(alloc, text.as_bytes()) == Some(refusal),
        "{members}"
    );
    Ok(())
}

const WRONG_MEMBERS: [(&str, Field); 12] = [
    ("", Field::AccessPoints),
    (r#""accessPoints":null"#, Field::AccessPoints),
    (
        r#""accessPoints":[{"address":"x","port":1},5],"advertise":0"#,
        Field::AccessPoints,
    ),
    (r#""accessPoints":[{"port":"x"}]"#, Field::Address),
    (
        r#""accessPoints":[{"address":null,"port":1}]"#,
        Field::Address,
    ),
    (r#""accessPoints":[{"address":"x"}]"#, Field::Port),
    (r#""accessPoints":[],"advertise":null"#, Field::Advertise),
    (
        r#""accessPoints":[],"advertise":0,"hotValency":-1"#,
        Field::Advertise,
    ),
    (r#""accessPoints":[],"hotValency":10001"#, Field::HotValency),
    (
        r#""accessPoints":[],"hotValency":null,"valency":1"#,
        Field::HotValency,
    ),
    (
        r#""accessPoints":[],"valency":1.0,"warmValency":"x""#,
        Field::Valency,
    ),
    (
        r#""accessPoints":[],"warmValency":10001"#,
        Field::WarmValency,
    ),
];

#[test]
fn the_first_wrong_member_of_a_local_root_is_named(rt: HostRuntime) -> Result<(), Fail> {
    for &(members, field) in &WRONG_MEMBERS {
        expect_refused(&rt, rt.alloc(), members, field)?;
    }
    Ok(())
}

// A file with one access point of this port.
fn expect_no_port(rt: &impl Abort, alloc: Global, port: &str) -> Result<(), Fail> {
    let members = format!(in alloc; "\"accessPoints\":[{{\"address\":\"::1\",\"port\":{port}}}]")?;
    expect_refused(rt, alloc, members.as_str(), Field::Port)
}

#[test]
fn a_port_is_a_whole_number_of_16_bits(rt: HostRuntime) -> Result<(), Fail> {
    for port in [
        "65536", "-1", "-0", "3002.0", "3e3", "\"1\"", "null", "true",
    ] {
        expect_no_port(&rt, rt.alloc(), port)?;
    }
    Ok(())
}

const WRONG_OUTSIDE: [(&[u8], TopologyRefusal); 16] = [
    (b"", TopologyRefusal::BadJson),
    (b"[]", TopologyRefusal::BadJson),
    (b"null", TopologyRefusal::BadJson),
    (b"\"x\"", TopologyRefusal::BadJson),
    (b"{\"localRoots\":[]", TopologyRefusal::BadJson),
    (b"{\"localRoots\":5}{}", TopologyRefusal::BadJson),
    (b"{\"x\":\"\xff\"}", TopologyRefusal::BadJson),
    (b"{\"x\":\"\\ud800\"}", TopologyRefusal::BadJson),
    (b"\xef\xbb\xbf{}", TopologyRefusal::BadJson),
    (
        b"{\"localRoots\":null}",
        TopologyRefusal::BadSetting(Field::LocalRoots),
    ),
    (
        b"{\"localRoots\":[{\"accessPoints\":[]},5]}",
        TopologyRefusal::BadSetting(Field::LocalRoots),
    ),
    (
        b"{\"localRoots\":[],\"localRoots\":{}}",
        TopologyRefusal::BadSetting(Field::LocalRoots),
    ),
    (
        b"{\"publicRoots\":1,\"localRoots\":[[]]}",
        TopologyRefusal::BadSetting(Field::LocalRoots),
    ),
    (
        b"{\"publicRoots\":{}}",
        TopologyRefusal::BadSetting(Field::PublicRoots),
    ),
    (
        b"{\"publicRoots\":[null]}",
        TopologyRefusal::BadSetting(Field::PublicRoots),
    ),
    (
        b"{\"publicRoots\":[{}]}",
        TopologyRefusal::BadSetting(Field::AccessPoints),
    ),
];

#[test]
fn what_is_wrong_outside_a_root_is_named_too(rt: HostRuntime) {
    for &(text, refusal) in &WRONG_OUTSIDE {
        assert!(rt; refusal_of(rt.alloc(), text) == Some(refusal), "{text:?}");
    }
}

// A file with a member that is ignored, of so many arrays one inside the other.
fn nested(alloc: Global, depth: usize) -> Result<String, Fail> {
    let begins = "[".repeat(alloc, depth)?;
    let ends = "]".repeat(alloc, depth)?;
    Ok(format!(in alloc; "{{\"x\":{begins}{ends}}}")?)
}

#[test]
fn a_file_nests_at_most_127_deep(rt: HostRuntime) -> Result<(), Fail> {
    for (depth, refusal) in [
        (126, None),
        (127, Some(TopologyRefusal::BadJson)),
        (100_000, Some(TopologyRefusal::BadJson)),
    ] {
        let text = nested(rt.alloc(), depth)?;
        assert!(rt;
            refusal_of(rt.alloc(), text.as_bytes()) == refusal,
            "at {depth}"
        );
    }
    Ok(())
}
