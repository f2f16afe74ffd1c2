use net_base::Cid;

/// A connection that was looked for, and how many have a lower id.
#[derive(Clone, Copy)]
pub struct Recent {
    pub cid: Cid,
    pub place: usize,
}
