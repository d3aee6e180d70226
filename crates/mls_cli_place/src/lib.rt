//! Where bytes that spell no message or no ratchet tree have their first fault: the field, and the offset at which it
//! begins. And where a tree first breaks a rule that is asked of each member, of each node or of each parent.
//!
//! What a caller needs of a file that was refused:
//!
//! - a fault of decoding (2 to 7, 11 to 14): [`place_of_file`], with what the file is read as, its form and its text;
//!   a GroupInfo's file is a message. None where the file decodes, or is no hex text.
//! - a rule of trees (20, 23 to 26, 36, 51, 52): [`breach_of_file`] for a ratchet tree and [`breach_of_group_info`] for
//!   the tree in a GroupInfo, with the refusal's number. None for every other number, and where the file has no tree.
//!
//! Both answers are `Printed`, as lines `name: value`.
#![tactic(auto)]

mod breach;
mod commit;
mod file;
mod group;
mod leaf;
mod located;
mod message;
mod parents;
mod place;
mod public;
mod repeats;
mod rules;
mod sent;
mod step;
mod text;
mod tree;
mod tree_place;
mod vectors;

pub use file::{Whole, place_of_file};
pub use message::{place_of_message, place_of_tree};
pub use place::{Path, Place};
pub use rules::{first_incapable, first_misplaced, first_unfit, first_unsigned};
pub use sent::{breach_of_file, breach_of_group_info};
pub use step::{GroupField, LeafField, MessageField, Step};
pub use tree_place::TreePlace;
