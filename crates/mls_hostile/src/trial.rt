//! One state, to which bytes are given.

use crate::outcome::Outcome;
use crate::stage::{Receiver, Stage};
use crate::states::{Group, State};
use anyhow::{Result, bail};
use std::alloc::Global;

/// A state of a group, on a stage where bytes can be given to it.
#[derive(Drop)]
pub struct Trial<'a> {
    group: &'a Group,
    state: &'a State,
    stage: Box<Stage>,
}

impl<'a> Trial<'a> {
    /// The state, on a stage of its own.
    pub fn new(alloc: Global, group: &'a Group, state: &'a State) -> Result<Trial<'a>> {
        let stage = Stage::after(alloc, &group.acts, state.acts)?;
        Ok(Trial {
            group,
            state,
            stage,
        })
    }

    /// All that can be seen now.
    fn current_page(&self, alloc: Global) -> Result<Vec<u8>> {
        self.stage
            .page(alloc, self.state.of, &self.group.references)
    }

    /// Gives bytes: after a refusal all is as it was seen before.
    fn give_and_check(&mut self, alloc: Global, bytes: &[u8], before: &[u8]) -> Result<Outcome> {
        let outcome = self.stage.give(alloc, self.state.of, bytes)?;
        if outcome.is_refused() {
            let after = self.current_page(alloc)?;
            if after.as_slice() != before {
                bail!("something changed");
            }
        }
        Ok(outcome)
    }

    /// Gives bytes, before any were taken.
    pub fn give(&mut self, alloc: Global, bytes: &[u8]) -> Result<Outcome> {
        let state = self.state;
        self.give_and_check(alloc, bytes, &state.page)
    }

    /// Gives bytes once more, whatever the first time did.
    pub fn give_again(&mut self, alloc: Global, bytes: &[u8]) -> Result<Outcome> {
        let before = self.current_page(alloc)?;
        self.give_and_check(alloc, bytes, &before)
    }

    /// Whether it is a member's.
    pub fn is_member(&self) -> bool {
        matches!(self.state.of, Receiver::Member(_))
    }

    /// Begins anew.
    pub fn reset(&mut self, alloc: Global) -> Result<()> {
        self.stage = Stage::after(alloc, &self.group.acts, self.state.acts)?;
        Ok(())
    }
}
