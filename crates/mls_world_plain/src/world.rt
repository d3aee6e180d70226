//! A world.

ghost use Rattle.std.specs.Prelude.{◌≡◌, slice_get, option_map};
ghost use Rattle.std.specs.Option.{option_copied};
ghost use Rattle.mls_model.specs.World as model;
ghost use Rattle.mls_world_plain.specs.CallAnswers.{seated_member};

use crate::journal::{Journal, Journals};
use crate::seats::{Entrant, Making, Seat};
use mls_leaf::Bytes;
use mls_member::Member;
use mls_suite::Suite;
use std::alloc::Global;
use std::marker::Model;

/// Candidates, members with their journals, and the messages that were made. Of where it came from it promises nothing.
pub struct PlainWorld<S: Suite> {
    pub(crate) entrants: Vec<Entrant<S>>,
    pub(crate) seats: Vec<Seat<S>>,
    pub(crate) messages: Vec<Bytes>,
    pub(crate) made: Vec<Making>,
    pub(crate) journals: Journals,
    pub(crate) alloc: Global,
}

impl<S: Suite> Drop for PlainWorld<S> {
    fn drop(self) {
        let PlainWorld {
            entrants: _,
            seats: _,
            messages: _,
            made: _,
            journals: _,
            alloc: _,
        } = self;
    }
}

impl<S: Suite> Model for PlainWorld<S> {
    ghost use Rattle.mls_model.specs.World as model;
    ghost use Rattle.mls_world_plain.specs.Codes.{coded_world};
    ghost use Rattle.mls_world_plain.specs.StoredWorld.{world_of, AreStored};

    ghost Value = { model.World };

    ghost coded = { coded_world };

    ghost view = { λ w. world_of w.entrants.items w.seats.items
        w.messages.items w.made.items w.journals.list };

    ghost invariant = { λ w. AreStored w.seats.items w.made.items w.journals.list };
}

impl<S: Suite> PlainWorld<S> {
    /// The world where nothing happened yet.
    #[tactic(auto, unfolding(mls_model::specs::World::empty_world))]
    pub fn new(alloc: Global) -> PlainWorld<S>
        ensures { result ≡ model.empty_world }
    {
        PlainWorld {
            entrants: Vec::new(alloc),
            seats: Vec::new(alloc),
            messages: Vec::new(alloc),
            made: Vec::new(alloc),
            journals: Journals::new(alloc),
            alloc,
        }
    }

    /// Member k.
    pub fn member(&self, k: usize) -> Option<&Member<S>>
        ensures { option_copied result ≡ seated_member self.now k }
    {
        match self.seats.get(k) {
            Some(seat) => Some(&seat.member),
            None => None,
        }
    }

    /// The journal of member k.
    pub fn journal(&self, k: usize) -> Option<Journal<'_>>
        ensures { result ≡ option_map (λ (s : model.Seat). s.journal) (slice_get self.now.seats k) }
    {
        match self.seats.get(k) {
            Some(seat) => Some(Journal::of(&self.journals, seat.journal)),
            None => None,
        }
    }

    /// Message n.
    pub fn message(&self, n: usize) -> Option<&[u8]>
        ensures { option_copied result ≡ slice_get self.now.messages n }
    {
        match self.messages.get(n) {
            Some(message) => Some(message.as_slice()),
            None => None,
        }
    }
}
