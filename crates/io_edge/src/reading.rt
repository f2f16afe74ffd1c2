use crate::ShelfRefusal;
use net_base::Octets;

/// A reading of a shelf: of which name, of how many bytes at most, and what was answered.
#[derive(Drop)]
pub struct Reading {
    pub name: Octets,
    pub limit: usize,
    pub answer: Result<Octets, ShelfRefusal>,
}

// The same, lent.
#[derive(Clone, Copy, Drop)]
pub(crate) struct LentReading<'a> {
    pub(crate) name: &'a str,
    pub(crate) limit: usize,
    pub(crate) answer: &'a Result<Octets, ShelfRefusal>,
}
