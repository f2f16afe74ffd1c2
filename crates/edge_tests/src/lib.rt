//! Tests of the words that every crate shares, of sources, sinks and shelves, of a node's files, and of worlds.
#![tactic(auto)]

#[cfg(test)]
mod tests;
