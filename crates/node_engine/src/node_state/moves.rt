// The moves of connections and of peers, of which events are made.
mod dials;
mod ending;
mod found;
mod grace;
mod notices;
mod sends;
mod trim;
mod turns;
mod uses;

pub(crate) use notices::tell_known;
