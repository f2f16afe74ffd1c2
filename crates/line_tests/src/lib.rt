//! Tests of lines: those of a trace, and those that lead a pair.
#![tactic(auto)]

#[cfg(test)]
mod tests;
