//! Candidates for membership, and the leaves that members make of seeds (RFC 9420, 7.2 and 10).
#![tactic(auto)]

mod candidate;
mod error;
mod leaf;
mod load;
mod load_error;
mod package;
mod texts;

pub use candidate::Candidate;
pub use error::CandidateError;
pub use leaf::{leaf_pair, renewed_leaf_with_key};
pub use load_error::CandidateLoadError;
