/// A whole item that came in, whose body is lent.
#[derive(Clone, Copy, Drop)]
pub struct LentItem<'a> {
    /// 0 from the initiator, 1 from the responder.
    pub side: u8,
    /// The number of the protocol.
    pub id: u16,
    pub body: &'a [u8],
}
