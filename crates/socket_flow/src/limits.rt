//! What a node's sockets may come to. Each is this project's own.

/// As many bytes are read of one socket before the others have their turn, at most.
pub const READ_MOST: usize = 16_384;

/// As many bytes are read of a socket even where many are ready.
pub(crate) const READ_LEAST: usize = 256;

/// As many bytes are read in one round of those that are ready, where each is read no less than the least.
pub(crate) const ROUND_MOST: usize = 65_536;

/// As many peers are accepted in one round.
pub(crate) const ACCEPTED_MOST: u64 = 64;

/// While more bytes than these wait to be sent on a socket, nothing is read from it.
pub(crate) const UNSENT_EACH: usize = 1_048_576;

/// While more bytes than these wait on all sockets, nothing is read from one on which some wait.
pub(crate) const UNSENT_SOME: usize = 16_777_216;

/// No more bytes wait to be sent, on all sockets together.
pub(crate) const UNSENT_MOST: usize = 67_108_864;

/// As many sockets are left for dials where the system has no room for more.
pub(crate) const KEPT_FOR_DIALS: usize = 8;

/// For how many milliseconds it is remembered that the system had no room.
pub(crate) const CROWDED: u64 = 60_000;

/// For how many milliseconds nobody is accepted where there is no room for one more socket.
pub(crate) const REST: u64 = 100;
