use crate::Link;

// Where the links of an address begin, and those from there on that stand together, or none of them.
#[derive(Clone, Copy)]
pub struct Spot<'a> {
    pub place: usize,
    pub run: &'a [Link],
}
