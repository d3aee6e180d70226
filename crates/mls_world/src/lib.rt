//! Worlds of members that came about by events, with what holds of each of them.
#![tactic(auto)]

mod calls;
mod history;
mod ranges;
mod reload;
mod replies;
mod world;

pub use mls_model::{Effect, Event, Origin, Reply, Source, WorldItem};
pub use mls_world_plain::{
    Active, Candidate, Entry, Journal, Member, NewCandidate, NewCommit, NewMember, WorldError,
};
pub use world::World;
