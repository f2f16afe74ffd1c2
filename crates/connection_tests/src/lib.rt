//! Tests of connections: who is let in, their states, their table, and their timers.
#![tactic(auto)]

#[cfg(test)]
mod tests;
