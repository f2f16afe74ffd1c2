/// [4, []]: where do the chains meet? No point is named.
pub const FIND_INTERSECT: [u8; 3] = [0x82, 0x04, 0x80];

/// [7]: chain-sync is over.
pub const CHAIN_SYNC_DONE: [u8; 2] = [0x81, 0x07];
