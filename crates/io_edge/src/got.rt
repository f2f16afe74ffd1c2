use net_base::Octets;

/// What a reader of lines found.
#[derive(Drop)]
pub enum Got {
    /// The next line, without its line feed.
    Line(Octets),
    /// The input is over. What stands behind its last line feed is kept.
    Over,
}
