//! Worked conversations of a group of three: messages by hand under both suites, and what is refused; and secret trees and
//! private messages by hand.

mod bits;
mod epochs;
mod orders;
mod private_messages;
mod rows;
mod saves;
mod secret_trees;
mod speakers;
pub(crate) mod trio;
mod wrong;
