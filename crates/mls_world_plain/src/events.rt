//! Events.

ghost use Rattle.mls_world_plain.specs.CallAnswers.{AnswersEvent};
ghost use Rattle.mls_world_plain.specs.EarlyChecks.{early_checks, RefusesEarly};
ghost use Rattle.mls_world_plain.specs.StepAnswer.{DoesStep, RepliesEarly};

use crate::candidates::NewCandidate;
use crate::commits::NewCommit;
use crate::error::WorldError;
use crate::joins::NewMember;
use crate::world::PlainWorld;
use mls_model::{Event, Reply};
use mls_suite::Suite;
use std::alloc::AllocError;

impl<S: Suite> PlainWorld<S> {
    /// Does what an event says, by one call for each kind, or answers the first check that fails.
    #[tactic(auto, unfolding(mls_model::specs::Run::answer))]
    pub fn answer(&mut self, event: &Event) -> Result<Reply, WorldError>
        ensures does { AnswersEvent S.crypto self.old self.new event.now result }
        // What is decided before anything grows comes whatever memory there is.
        ensures outright { RefusesEarly (early_checks S.crypto.number self.old event.now) result }
    {
        match event {
            Event::Candidate { identity, seed } => {
                let NewCandidate { candidate, message } = self.candidate(identity, seed)?;
                Ok(Reply::Candidate { candidate, message })
            }
            Event::Create {
                candidate,
                group,
                seed,
            } => {
                let member = self.create(*candidate, group, seed)?;
                Ok(Reply::Created { member })
            }
            Event::ProposeAdd {
                member,
                key_package,
            } => {
                let message = self.propose_add(*member, key_package)?;
                Ok(Reply::Proposal { message })
            }
            Event::ProposeUpdate { member, seed } => {
                let message = self.propose_update(*member, seed)?;
                Ok(Reply::Proposal { message })
            }
            Event::ProposeRemove { member, leaf } => {
                let message = self.propose_remove(*member, *leaf)?;
                Ok(Reply::Proposal { message })
            }
            Event::ProposeExtensions { member, extensions } => {
                let message = self.propose_copy(*member, extensions)?;
                Ok(Reply::Proposal { message })
            }
            Event::Commit {
                member,
                items,
                path,
                seed,
            } => {
                let NewCommit { message, welcome } = self.commit(*member, items, *path, seed)?;
                Ok(Reply::Commit { message, welcome })
            }
            Event::DropPending { member } => {
                let pending = self.drop_pending(*member)?;
                Ok(Reply::Dropped { pending })
            }
            Event::Deliver { member, bytes } => {
                let effect = self.deliver(*member, bytes)?;
                Ok(Reply::Delivered { effect })
            }
            Event::Join { candidate, bytes } => {
                let NewMember { member, epoch } = self.join(*candidate, bytes)?;
                Ok(Reply::Joined { member, epoch })
            }
        }
    }

    /// Does what one event says. A refusal is the reply; `OutOfMemory` is an error, and leaves the world as before.
    #[tactic(auto, unfolding(mls_model::specs::Run::step))]
    pub fn step(&mut self, event: &Event) -> Result<Reply, AllocError>
        ensures does { DoesStep S.crypto event.now self.old self.new result }
        // What is decided before anything grows is the reply also when an allocation fails.
        ensures refused { RepliesEarly S.crypto.number event.now self.old self.new result }
    {
        match self.answer(event) {
            Ok(reply) => Ok(reply),
            Err(error) => match error.number() {
                // Want of memory: 1 is its number, and that of no other refusal.
                1 => Err(AllocError),
                number => Ok(Reply::Refused { number }),
            },
        }
    }
}
