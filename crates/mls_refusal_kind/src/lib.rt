//! What a caller may do about a refusal, by its number.
#![tactic(auto)]

mod kinds;

pub use kinds::{RefusalKind, kind_of};
