//! The cells of a tree in node order, in chunks that copies share.
#![tactic(auto)]

mod cells;
mod changes;
mod chunks;
mod parts;
mod rows;

pub use cells::Cells;
pub use changes::Change;
pub use rows::Hash;
