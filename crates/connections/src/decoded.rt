use mux_segment::{CutFault, PackedItems};

/// What new bytes of a connection gave.
#[derive(Drop)]
pub struct Decoded {
    /// The items that are whole now, up to the fault.
    pub items: PackedItems,
    pub fault: Option<CutFault>,
}
