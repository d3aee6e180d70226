//! A world whose members are saved and loaded after each event, beside one whose members stay as they are.

use anyhow::{Result, bail};
use mls_cli_recording::Action;
use mls_model::{Effect, Event, Reply, Source};
use mls_suite::Suite;
use mls_world::{Member, World, WorldError};
use std::alloc::{AllocError, Global};
use std::fmt;

/// How much was done.
#[derive(Clone, Copy)]
pub struct Counts {
    /// Events.
    events: u64,
    /// How often a member was saved and loaded.
    reloads: u64,
}

impl fmt::Display for Counts {
    fn fmt<W: fmt::Write>(&self, f: &mut fmt::Formatter<W>) -> fmt::Result {
        let Counts { events, reloads } = *self;
        write!(f, "events {events}, reloads {reloads}")
    }
}

/// Two worlds in which the same happens: their replies, members and messages have to be the same.
#[derive(Drop)]
pub struct Twins<S: Suite> {
    /// Its members stay as they are.
    held: World<S>,
    /// Its members are saved and loaded after each event.
    reloaded: World<S>,
    counts: Counts,
}

/// The reply to a delivery, which isn't want of memory.
fn delivery_reply(answer: Result<Effect, WorldError>) -> Result<Reply> {
    match answer {
        Ok(effect) => Ok(Reply::Delivered { effect }),
        Err(error) => match error.number() {
            1 => bail!("out of memory"),
            number => Ok(Reply::Refused { number }),
        },
    }
}

/// A member that was removed is saved as these bytes again once it is loaded of them.
fn reload_removed<S: Suite>(alloc: Global, bytes: &[u8]) -> Result<()> {
    let member = Box::new(alloc, Member::<S>::load(alloc, bytes)?)?;
    let again = member.save();
    drop(member);
    if again?.as_slice() != bytes {
        bail!("a removed member is another once it is loaded");
    }
    Ok(())
}

impl<S: Suite> Twins<S> {
    /// Two worlds where nothing happened yet.
    pub fn new(alloc: Global) -> Result<Box<Twins<S>>, AllocError> {
        let twins = Twins {
            held: World::new(alloc),
            reloaded: World::new(alloc),
            counts: Counts {
                events: 0,
                reloads: 0,
            },
        };
        Ok(Box::new(alloc, twins)?)
    }

    /// What was done.
    pub fn counts(&self) -> Counts {
        self.counts
    }

    /// What a member that stayed as it is is saved as.
    fn due_bytes(&self, k: usize) -> Result<Vec<u8>> {
        match self.held.member(k) {
            Some(member) => Ok(member.save()?),
            None => bail!("no member {k}"),
        }
    }

    /// Saves member k and loads it.
    fn reload(&mut self, alloc: Global, k: usize) -> Result<()> {
        let due = self.due_bytes(k)?;
        match self.reloaded.reload(k)? {
            Some(bytes) => {
                if bytes != due {
                    bail!("member {k} is another, since it was loaded");
                }
            }
            None => reload_removed::<S>(alloc, &due)?,
        }
        self.counts.reloads = self.counts.reloads.saturating_add(1);
        Ok(())
    }

    /// Compares the replies to an event, and then saves each member and loads it.
    fn go_on(&mut self, alloc: Global, due: Reply, reply: Reply) -> Result<()> {
        if reply != due {
            bail!("another reply, since members were loaded");
        }
        self.counts.events = self.counts.events.saturating_add(1);
        for k in 0..self.reloaded.member_count() {
            self.reload(alloc, k)?;
        }
        Ok(())
    }

    /// Does what an event says.
    pub fn step(&mut self, alloc: Global, event: &Event) -> Result<()> {
        let due = self.held.step(event)?;
        let reply = self.reloaded.step(event)?;
        self.go_on(alloc, due, reply)
    }

    /// Delivers a source to a member.
    fn deliver(&mut self, alloc: Global, member: usize, source: &Source) -> Result<()> {
        let due = delivery_reply(self.held.deliver(member, source))?;
        let reply = delivery_reply(self.reloaded.deliver(member, source))?;
        self.go_on(alloc, due, reply)
    }

    /// Delivers a source to each member that is active now.
    fn deliver_to_all(&mut self, alloc: Global, source: &Source) -> Result<()> {
        let members: Vec<usize> = self.held.active().collect(alloc)?;
        for member in members {
            self.deliver(alloc, member, source)?;
        }
        Ok(())
    }

    /// Does what an action of a recording says.
    pub fn act(&mut self, alloc: Global, action: &Action) -> Result<()> {
        match action {
            Action::Event(event) => self.step(alloc, event),
            Action::DeliverAll(source) => self.deliver_to_all(alloc, source),
        }
    }

    /// Compares the messages of both worlds.
    pub fn check_messages(&self) -> Result<()> {
        for n in 0..usize::MAX {
            let (due, message) = (self.held.message(n), self.reloaded.message(n));
            if message != due {
                bail!("message {n} is another, since members were loaded");
            }
            if message.is_none() {
                break;
            }
        }
        Ok(())
    }
}
