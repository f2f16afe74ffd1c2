use net_base::Event;

/// What comes next.
#[derive(PartialEq, Drop)]
pub enum Next {
    Event(Event),
    /// There are no more events.
    End,
}
