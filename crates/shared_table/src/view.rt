use crate::Entry;
use net_base::Settings;
use std::collections::LinkedList;

// What a seat knows of the place where the shared value lies: the settings of the table, and the calls that it has seen,
// from the first one on. No value of it is made.
pub enum View {
    // There is one seat only, and no call yet.
    Whole(Settings),
    // Whoever sits there has no turn.
    Waits(Settings, LinkedList<Entry>),
    // It has its turn, and found these calls.
    Holds(Settings, LinkedList<Entry>, LinkedList<Entry>),
    // Both seats are one again: what the one has seen, and the other.
    Both(Settings, LinkedList<Entry>, LinkedList<Entry>),
    // The other one of these two.
    Gone,
}
