mod address;
mod list;
mod number;
mod peer;
mod settings;
mod targets;
mod threads;
mod timer;
