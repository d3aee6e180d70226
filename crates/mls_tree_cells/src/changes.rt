//! What a cell is to hold.

use mls_tree_slot::Slot;

/// What a cell is to hold: its number, and the slot.
#[derive(Drop)]
pub struct Change {
    pub place: u32,
    pub slot: Slot,
}
