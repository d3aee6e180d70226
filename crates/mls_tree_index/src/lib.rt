//! An index of the cells of a tree by a key of each.
#![tactic(auto)]

mod beside;
mod block;
mod blocks;
mod entries;
mod entry;
mod index;
mod keys;
mod kind;
mod order;
mod places;
mod search;

pub use index::Index;
pub use kind::KeyKind;
