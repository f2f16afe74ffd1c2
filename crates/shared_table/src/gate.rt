ghost use Rattle.std.specs.Prelude.{◌≡◌, ◌≤◌, ℕ, false};
ghost use Rattle.shared_table.specs.Ends.{SaidNo};

/// What a worker asks before each of its calls. It counts for each call how often it said no.
pub trait Gate: Send + Drop {
    ghost noes: { Self → ℕ → ℕ };

    /// Whether the call of this number may be made. Calls are numbered from 1. A count of noes may stand still at
    /// 2^64 - 1.
    fn ready(&mut self, index: u64) -> bool
        ensures later { (n : ℕ) → noes self.old n ≤ noes self.new n }
        ensures no { result ≡ false → SaidNo (noes self.old index) (noes self.new index) };
}
