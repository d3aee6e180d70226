//! The states in which the members and candidates of a group ever are.

use crate::acts::Act;
use crate::stage::{Receiver, Stage};
use anyhow::Result;
use mls_kdf::Secret;
use std::alloc::{AllocError, Global};

/// A group, with all of its messages and the references of its proposals.
#[derive(Drop)]
pub struct Group {
    pub acts: Vec<Act>,
    pub messages: Vec<Vec<u8>>,
    pub references: Vec<Secret>,
}

impl Group {
    fn with(alloc: Global, acts: Vec<Act>, stage: &Stage) -> Result<Group> {
        let messages = stage.messages(alloc)?;
        let references = Vec::from_slice(alloc, stage.references())?;
        Ok(Group {
            acts,
            messages,
            references,
        })
    }

    /// The group in which these acts were done, with the messages that they left.
    pub fn of(alloc: Global, acts: Vec<Act>) -> Result<Group> {
        let stage = Stage::after(alloc, &acts, acts.len())?;
        Group::with(alloc, acts, &stage)
    }
}

/// A member or a candidate as it is after so many acts, and all that can be seen of it.
#[derive(Drop)]
pub struct State {
    pub acts: usize,
    pub of: Receiver,
    pub page: Vec<u8>,
}

/// Adds a state, unless an earlier act left it.
fn add(states: &mut Vec<State>, state: State) -> Result<(), AllocError> {
    let is_known = states
        .iter()
        .any(|known| known.of == state.of && known.page == state.page);
    if !is_known {
        states.push(state)?;
    }
    Ok(())
}

/// The states in which a stage has its members and candidates, where they aren't known yet.
fn add_all(
    alloc: Global,
    states: &mut Vec<State>,
    stage: &Stage,
    acts: usize,
    references: &[Secret],
) -> Result<()> {
    for of in stage.receivers(alloc)? {
        let page = stage.page(alloc, of, references)?;
        add(states, State { acts, of, page })?;
    }
    Ok(())
}

/// Each state of each member and candidate of a group, in the order in which they come.
pub fn states_of(alloc: Global, group: &Group) -> Result<Vec<State>> {
    let mut states = Vec::new(alloc);
    for acts in 1..=group.acts.len() {
        let stage = Stage::after(alloc, &group.acts, acts)?;
        add_all(alloc, &mut states, &stage, acts, &group.references)?;
    }
    Ok(states)
}
