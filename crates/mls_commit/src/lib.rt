//! What a commit makes of the public state of a group (RFC 9420, 12.4.2).
#![tactic(auto)]

mod commit;
mod error;
mod outcome;
mod path;

pub use commit::change_of_commit;
pub use error::CommitError;
pub use outcome::Outcome;
