// The types that every crate shares may go to other threads, and several threads may read them at once.
use net_base::{
    Action, Addr, Agreed, BigTargets, Cid, Deadline, Event, Facts, Group, OutOfMemory, Peer,
    RefusalKind, RootAnswer, Sequence, Settings, StateName, Targets,
};

fn cross<T: Send + Sync>() {}

fn lists_cross<T: Send + Sync>() {
    cross::<Sequence<T>>();
}

#[test]
fn parts_of_a_connection_cross_threads() {
    cross::<Addr>();
    cross::<Cid>();
    cross::<Agreed>();
    cross::<Facts>();
    cross::<StateName>();
    cross::<Deadline>();
}

#[test]
fn parts_of_a_node_cross_threads() {
    cross::<Settings>();
    cross::<Targets>();
    cross::<BigTargets>();
    cross::<Peer>();
    cross::<RefusalKind>();
    cross::<OutOfMemory>();
}

#[test]
fn events_and_actions_cross_threads() {
    lists_cross::<u8>();
    cross::<Group>();
    cross::<RootAnswer>();
    cross::<Event>();
    cross::<Action>();
}
