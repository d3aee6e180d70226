//! A world of members, and its candidates. Large values are given to `drop` where they aren't needed any more: that
//! is one call, and the prover doesn't take them apart there.

use crate::acts::{Act, event_of};
use crate::outcome::Outcome;
use crate::page::page_of;
use anyhow::{Result, bail};
use mls_kdf::{Secret, Seed};
use mls_model::{Effect, Event, Reply, Source};
use mls_suite::Glass;
use mls_world::{Candidate, Member, World};
use std::alloc::{AllocError, Global};
use std::fmt;

/// Whom a message is given to.
#[derive(Clone, Copy, PartialEq, Eq)]
pub enum Receiver {
    Member(usize),
    Candidate(usize),
}

impl fmt::Display for Receiver {
    fn fmt<W: fmt::Write>(&self, f: &mut fmt::Formatter<W>) -> fmt::Result {
        match self {
            Receiver::Member(k) => write!(f, "member {k}"),
            Receiver::Candidate(n) => write!(f, "candidate {n}"),
        }
    }
}

/// A candidate, and whether it became a member.
#[derive(Drop)]
struct Entrant {
    candidate: Candidate<Glass>,
    is_spent: bool,
}

/// A world, its candidates, and the references of proposals that members were given.
#[derive(Drop)]
pub struct Stage {
    world: World<Glass>,
    entrants: Vec<Entrant>,
    references: Vec<Secret>,
}

/// A refusal that isn't want of memory.
fn refusal(number: u8) -> Result<Outcome> {
    if number == 1 {
        bail!("out of memory");
    }
    Ok(Outcome::Refused(number))
}

/// The first of some acts.
fn first(acts: &[Act], count: usize) -> &[Act] {
    let (first, _) = acts.split_at(count.min(acts.len()));
    first
}

impl Stage {
    fn new(alloc: Global) -> Result<Box<Stage>, AllocError> {
        let stage = Stage {
            world: World::new(alloc),
            entrants: Vec::new(alloc),
            references: Vec::new(alloc),
        };
        Ok(Box::new(alloc, stage)?)
    }

    /// The stage after the first of these acts.
    pub fn after(alloc: Global, acts: &[Act], count: usize) -> Result<Box<Stage>> {
        let mut stage = Stage::new(alloc)?;
        stage.acts(alloc, first(acts, count))?;
        Ok(stage)
    }

    /// Enters a candidate.
    fn enter(&mut self, alloc: Global, identity: &[u8], seed: &Seed) -> Result<()> {
        let candidate = Candidate::new(alloc, identity, seed)?;
        self.entrants.push(Entrant {
            candidate,
            is_spent: false,
        })?;
        Ok(())
    }

    /// A candidate becomes a member.
    fn spend(&mut self, candidate: usize) {
        if let Some(entrant) = self.entrants.get_mut(candidate) {
            entrant.is_spent = true;
        }
    }

    /// What an event is answered, which isn't refused.
    fn event_answer(&mut self, reply: Reply) -> Result<()> {
        match reply {
            Reply::Refused { number } => bail!("an event was refused: {number}"),
            Reply::Delivered {
                effect: Effect::Proposed { reference },
            } => Ok(self.references.push(reference)?),
            _ => Ok(()),
        }
    }

    /// One event, which isn't refused.
    pub fn event(&mut self, alloc: Global, event: &Event) -> Result<()> {
        if let Event::Candidate { identity, seed } = event {
            self.enter(alloc, identity, seed)?;
        }
        let reply = self.world.step(event)?;
        self.event_answer(reply)
    }

    /// What a delivery or a join is answered.
    pub fn answer(&mut self, event: &Event) -> Result<Outcome> {
        match self.world.step(event)? {
            Reply::Delivered { effect } => Ok(Outcome::of(effect)),
            Reply::Joined { epoch, .. } => Ok(Outcome::Joined(epoch)),
            Reply::Refused { number } => Ok(Outcome::Refused(number)),
            _ => bail!("no delivery, and no join"),
        }
    }

    /// One act, which isn't refused.
    fn act(&mut self, alloc: Global, act: Act) -> Result<()> {
        match act {
            Act::Create { candidate, .. } => self.spend(candidate),
            Act::Join { candidate, .. } => self.spend(candidate),
            _ => {}
        }
        let event = event_of(alloc, act)?;
        let event_answer = self.event(alloc, &event);
        drop(event);
        event_answer
    }

    /// Acts, none of which is refused.
    pub fn acts(&mut self, alloc: Global, acts: &[Act]) -> Result<()> {
        for act in acts {
            self.act(alloc, *act)?;
        }
        Ok(())
    }

    /// The world, to be changed.
    pub fn world_mut(&mut self) -> &mut World<Glass> {
        &mut self.world
    }

    /// Member k.
    pub fn member(&self, k: usize) -> Result<&Member<Glass>> {
        match self.world.member(k) {
            Some(member) => Ok(member),
            None => bail!("no member {k}"),
        }
    }

    /// Candidate n.
    pub fn candidate(&self, n: usize) -> Result<&Candidate<Glass>> {
        match self.entrants.get(n) {
            Some(entrant) => Ok(&entrant.candidate),
            None => bail!("no candidate {n}"),
        }
    }

    /// Message n.
    pub fn message(&self, n: usize) -> Result<&[u8]> {
        match self.world.message(n) {
            Some(message) => Ok(message),
            None => bail!("no message {n}"),
        }
    }

    /// A copy of each message.
    pub fn messages(&self, alloc: Global) -> Result<Vec<Vec<u8>>, AllocError> {
        let mut messages = Vec::new(alloc);
        for n in 0..usize::MAX {
            let Some(message) = self.world.message(n) else {
                break;
            };
            messages.push(Vec::from_slice(alloc, message)?)?;
        }
        Ok(messages)
    }

    /// The references of proposals that members were given.
    pub fn references(&self) -> &[Secret] {
        self.references.as_slice()
    }

    /// The members, and the candidates that aren't members yet.
    pub fn receivers(&self, alloc: Global) -> Result<Vec<Receiver>, AllocError> {
        let mut receivers = Vec::new(alloc);
        for (n, entrant) in self.entrants.iter().enumerate() {
            if self.world.member(n).is_some() {
                receivers.push(Receiver::Member(n))?;
            }
            if !entrant.is_spent {
                receivers.push(Receiver::Candidate(n))?;
            }
        }
        Ok(receivers)
    }

    fn deliver_bytes(&mut self, alloc: Global, member: usize, bytes: &[u8]) -> Result<Outcome> {
        let source = Source::Given(Vec::from_slice(alloc, bytes)?);
        match self.world.deliver(member, &source) {
            Ok(effect) => Ok(Outcome::of(effect)),
            Err(error) => refusal(error.number()),
        }
    }

    fn join_bytes(&self, alloc: Global, candidate: usize, bytes: &[u8]) -> Result<Outcome> {
        let candidate = self.candidate(candidate)?;
        match Member::join(alloc, candidate, bytes) {
            Ok(joined) => {
                let epoch = joined.member.epoch();
                drop(joined);
                Ok(Outcome::Joined(epoch))
            }
            Err(error) => refusal(error.number()),
        }
    }

    /// Gives bytes to a member, or to a candidate, which stays one.
    pub fn give(&mut self, alloc: Global, to: Receiver, bytes: &[u8]) -> Result<Outcome> {
        match to {
            Receiver::Member(k) => self.deliver_bytes(alloc, k, bytes),
            Receiver::Candidate(n) => self.join_bytes(alloc, n, bytes),
        }
    }

    /// All that can be seen of a member, with what it keeps under these references; of a candidate its KeyPackage.
    pub fn page(&self, alloc: Global, of: Receiver, references: &[Secret]) -> Result<Vec<u8>> {
        match of {
            Receiver::Member(k) => page_of(alloc, self.member(k)?, references),
            Receiver::Candidate(n) => {
                let message = self.candidate(n)?.message();
                Ok(Vec::from_slice(alloc, message)?)
            }
        }
    }
}
