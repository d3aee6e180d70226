//! What `mls --explain` tells of a refusal.
#![tactic(auto)]

mod application_messages;
mod explain;
mod explanations;
mod saved_forms;

pub use explain::{told_by, told_page};
pub use explanations::{Explanation, explanation_of};
