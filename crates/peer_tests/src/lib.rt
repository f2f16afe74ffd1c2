//! Tests of what a node keeps of its peers: the book, the picks, the groups and the clock of targets.
#![tactic(auto)]

#[cfg(test)]
mod tests;
