use crate::{CutFault, ItemList};

/// What new bytes gave.
#[derive(Drop)]
pub struct Fed {
    /// The items that are whole now, up to the fault.
    pub items: ItemList,
    pub fault: Option<CutFault>,
}
