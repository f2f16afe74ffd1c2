/// The greatest moment, in milliseconds, and the greatest number of a connection or of a question: 2^48. This
/// project's own.
pub const NUMBER_MOST: u64 = 281_474_976_710_656;

/// The longest interval: a day of milliseconds. This project's own.
pub const INTERVAL_MOST: u64 = 86_400_000;
