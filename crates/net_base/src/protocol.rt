//! The mini-protocols of node-to-node connections, by their numbers in the Ouroboros network specification.

pub const HANDSHAKE: u16 = 0;

pub const CHAIN_SYNC: u16 = 2;

pub const BLOCK_FETCH: u16 = 3;

pub const TX_SUBMISSION: u16 = 4;

pub const KEEP_ALIVE: u16 = 8;

pub const PEER_SHARING: u16 = 10;
