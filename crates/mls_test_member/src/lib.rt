//! Worked candidates, messages, joins, paths, pairs of members, what is saved and loaded of them, conversations, and worlds:
//! tests alone, above the crates that they use. They stand in one crate, which proves once how members are dropped.
#![tactic(auto)]

#[cfg(test)]
mod candidates;
#[cfg(test)]
mod changed;
#[cfg(test)]
mod conversations;
#[cfg(test)]
mod creations;
#[cfg(test)]
mod extensions;
#[cfg(test)]
mod joins;
#[cfg(test)]
mod messages;
#[cfg(test)]
mod paths;
#[cfg(test)]
mod saved_candidates;
#[cfg(test)]
mod saved_members;
#[cfg(test)]
mod shared;
#[cfg(test)]
mod sole;
#[cfg(test)]
mod views;
#[cfg(test)]
mod worlds;
