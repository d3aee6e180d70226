//! A world, of which the headline holds.

ghost use Rattle.std.specs.Prelude.{◌≡◌, length, slice_get, option_map};
ghost use Rattle.std.specs.Option.{option_copied};
ghost use Rattle.mls_model.specs.Headline.{Headline, HoldsAlong};
ghost use Rattle.mls_model.specs.World as model;
ghost use Rattle.mls_world.specs.Runs.{RunsAll};
ghost use Rattle.mls_world_plain.specs.CallAnswers.{seated_member};
ghost use Rattle.mls_world_plain.specs.StepAnswer.{DoesStep, RepliesEarly};
ghost use Rattle.mls_world_plain.specs.ActiveMembers.{active};

use crate::ranges::{know_event, know_events};
use crate::replies::push_replies;
use mls_model::{Event, Reply};
use mls_suite::{OutOfMemory, Suite};
use mls_world_plain::{Active, Journal, Member, PlainWorld};
use std::alloc::Global;
use std::marker::Model;

/// Is a world that came from the empty one by events.
pub struct World<S: Suite> {
    pub(crate) world: PlainWorld<S>,
    // `reload` allocates with it, and proofs take it for the `Vec` of an event whose elements are those of a slice.
    pub(crate) alloc: Global,
}

impl<S: Suite> Drop for World<S> {
    fn drop(self) {
        let World { world: _, alloc: _ } = self;
    }
}

impl<S: Suite> Model for World<S> {
    ghost use Rattle.mls_model.specs.World as model;
    ghost use Rattle.mls_world_plain.specs.Codes.{coded_world};
    ghost use Rattle.mls_theorems.specs.Reachable.{IsReachable};

    ghost Value = { model.World };

    ghost coded = { coded_world };

    ghost view = { λ w. w.world };

    ghost invariant = { λ w. IsReachable S.crypto w.world };
}

impl<S: Suite> World<S> {
    /// Makes the world where nothing has happened yet.
    pub fn new(alloc: Global) -> World<S>
        ensures { result ≡ model.empty_world }
    {
        World {
            world: PlainWorld::new(alloc),
            alloc,
        }
    }

    /// Does what one event says. A refusal is the reply; `OutOfMemory` is an error, and leaves the world as before. The
    /// headline holds of the world that it leaves.
    pub fn step(&mut self, event: &Event) -> Result<Reply, OutOfMemory>
        ensures does { DoesStep S.crypto event.now self.old self.new result }
        // What is decided before anything grows is the reply also when an allocation fails.
        ensures refused { RepliesEarly S.crypto.number event.now self.old self.new result }
        ensures headline { Headline S.crypto self.new }
    {
        know_event(event);
        self.world.step(event)
    }

    /// Runs the events in order, with a reply to each; a refusal is a reply. Where one finds no memory, the world and
    /// the replies are those of the events before it. Of the world that it leaves the headline holds, and of that
    /// after each event of the list: what members agree on, what they accept, and which keys they have.
    pub fn run(&mut self, events: &[Event], replies: &mut Vec<Reply>) -> Result<(), OutOfMemory>
        ensures run { RunsAll S.crypto events.now self.old self.new replies.old replies.new result }
        ensures headline { Headline S.crypto self.new }
        ensures along { HoldsAlong S.crypto self.old events.now }
    {
        know_events(events);
        push_replies(&mut self.world, events, replies)
    }

    /// Tells what holds of each such world, and does nothing: what members agree on, what they accept, and which keys
    /// they have.
    pub fn headline(&self)
        ensures { Headline S.crypto self.now }
    {
        let _world = &self.world;
    }

    /// Lends member k, if there is one.
    pub fn member(&self, k: usize) -> Option<&Member<S>>
        ensures { option_copied result ≡ seated_member self.now k }
    {
        self.world.member(k)
    }

    /// Counts the members, removed ones among them.
    pub fn member_count(&self) -> usize
        ensures { result ≡ length self.now.seats }
    {
        self.world.member_count()
    }

    /// Gives the numbers of the members that weren't removed, in order. It takes no memory.
    pub fn active(&self) -> Active<'_, S>
        ensures { result ≡ active self.now.seats }
    {
        self.world.active()
    }

    /// Lends the journal of member k: where it began, and the commits that it followed since.
    pub fn journal(&self, k: usize) -> Option<Journal<'_>>
        ensures { result ≡ option_map (λ (s : model.Seat). s.journal) (slice_get self.now.seats k) }
    {
        self.world.journal(k)
    }

    /// Lends message n, if there is one.
    pub fn message(&self, n: usize) -> Option<&[u8]>
        ensures { option_copied result ≡ slice_get self.now.messages n }
    {
        self.world.message(n)
    }
}
