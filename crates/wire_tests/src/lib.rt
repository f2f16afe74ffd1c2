//! Tests of what goes over the wire: items, segments, keep-alive and peer sharing, what the other side may ask, the
//! handshake and local clients. No code beside them.
#![tactic(auto)]

#[cfg(test)]
mod tests;
