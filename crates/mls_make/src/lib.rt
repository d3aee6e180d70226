//! What a member makes by a commit (RFC 9420, 12.4.1).
#![tactic(auto)]

mod commit_welcome;
mod error;
mod long_list;
mod new_commit;
mod own_path;
mod send_commit;

pub use error::MakeError;
pub use new_commit::{NewCommit, make_commit};
