//! What each event does in a world of members (RFC 9420, 11 and 12), whatever world that is.
#![tactic(auto)]

mod active;
mod candidates;
mod commit_adds;
mod commit_names;
mod commits;
mod deliveries;
mod entry;
mod error;
mod events;
mod joins;
mod journal;
mod members;
mod proposals;
mod reload;
mod seats;
mod sources;
mod world;

pub use active::Active;
pub use candidates::NewCandidate;
pub use commits::NewCommit;
pub use entry::Entry;
pub use error::WorldError;
pub use joins::NewMember;
pub use journal::Journal;
pub use mls_member::{Candidate, LoadError, Member};
pub use world::PlainWorld;
