//! Tests of the commands, over sources, sinks, files and worlds in memory: `command_run`, `node_run` and, below them,
//! `world_drive`. No code beside them.
#![tactic(auto)]

#[cfg(test)]
mod tests;
