//! The update path of a commit, as its committer makes it (RFC 9420, 7.5 and 12.4.1).
#![tactic(auto)]

mod context;
mod draft;
mod error;
mod own_leaf;
mod path;

pub use error::PathError;
pub use path::{NewPath, new_path};
