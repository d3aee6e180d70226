//! The saved forms of members and candidates: how they are read and written. They hold secrets.
#![tactic(auto)]

mod candidate;
mod member;
mod proposal;
mod state;

pub use candidate::SavedCandidate;
pub use member::{SavedMember, SavedPending, Standing};
pub use proposal::SavedProposal;
pub use state::SavedState;
