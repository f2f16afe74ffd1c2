// Lists, states, tables and leases may go to other threads, and several threads may read them at once.
use chunked_list::ChunkedList;
use conn_state::{AfterDuplex, AfterInbound, ConnState, Released};
use conn_table::{Acquire, ConnTable, GraceEnd, LocalLease, PlacedList};

fn cross<T: Send + Sync>() {}

// A list may where its items may.
fn lists_cross<T: Send + Sync>() {
    cross::<ChunkedList<T>>();
}

#[test]
fn lists_cross_threads() {
    lists_cross::<u64>();
}

#[test]
fn states_cross_threads() {
    cross::<ConnState>();
}

#[test]
fn moves_cross_threads() {
    cross::<Released>();
    cross::<AfterInbound>();
    cross::<AfterDuplex>();
}

#[test]
fn tables_cross_threads() {
    cross::<ConnTable>();
    cross::<PlacedList>();
}

#[test]
fn leases_cross_threads() {
    cross::<LocalLease>();
    cross::<Acquire>();
    cross::<GraceEnd>();
}
