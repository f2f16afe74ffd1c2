mod commands;
mod nodes;
mod sinks;
mod towns;
