//! The numbers by which messages of chain-sync, block-fetch and tx-submission begin, in the Ouroboros network specification.

/// Of chain-sync: the next block is asked for.
pub const REQUEST_NEXT: u64 = 0;

/// Of chain-sync: where do the chains meet?
pub const FIND_INTERSECT: u64 = 4;

/// Of chain-sync: they meet at a point that was asked about.
pub const INTERSECT_FOUND: u64 = 5;

/// Of chain-sync: they meet at none of these points.
pub const INTERSECT_NOT_FOUND: u64 = 6;

/// Of chain-sync: it is over.
pub const CHAIN_SYNC_DONE: u64 = 7;

/// Of block-fetch: blocks are asked for.
pub const REQUEST_RANGE: u64 = 0;

/// Of block-fetch: it is over.
pub const BLOCK_FETCH_DONE: u64 = 1;

/// Of tx-submission: it is over.
pub const TX_SUBMISSION_DONE: u64 = 4;
