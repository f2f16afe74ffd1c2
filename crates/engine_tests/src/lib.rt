//! Tests of the engine: events in, actions out, and two engines that meet over sockets. No code beside them.
#![tactic(auto)]

#[cfg(test)]
mod tests;
