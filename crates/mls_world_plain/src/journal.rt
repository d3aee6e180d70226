//! The journals of a world, in one store. An entry costs no copy of what stands before it, and the members that follow
//! one commit from one journal share it.

ghost use Rattle.std.specs.Prelude.{◌≡◌, ◌↔◌, ◌<◌, [], ◌∷◌, ◌++◌, length, option_map, slice_get, slice_set, Some, None, if◌then◌else◌, is_ok, IfOk, IfSome, IsTrue, OnOk, OnErr};
ghost use Rattle.std.specs.Option.{option_copied};
ghost use Rattle.mls_model.specs.Journal as model;
ghost use Rattle.mls_world_plain.specs.StoredWorld.{journal_at, AreMore};
ghost use Rattle.mls_world_plain.specs.JournalSteps.{earlier, journal_of, AnswersShared, Follows, GoesBack, GoesOn, HasStep, IsBefore};

use crate::entry::{Entry, JournalStep, StoredStep};
use mls_model::Origin;
use std::alloc::{AllocError, Global};
use std::marker::Model;

/// Journals by their numbers. Each is an origin, or one that stands before it with one more entry.
#[derive(Drop)]
pub(crate) struct Journals {
    steps: Vec<StoredStep>,
}

impl Model for Journals {
    ghost use Rattle.mls_world_plain.specs.StoredWorld.{JournalStore};
    ghost use Rattle.mls_world_plain.specs.JournalSteps.{store_of, AreSteps};

    ghost Value = { JournalStore };

    ghost view = { λ j. store_of j.steps };

    ghost invariant = { λ j. AreSteps j.steps.items };
}

impl Journals {
    /// No journals.
    #[tactic(auto, using(crate::proofs::Following::none_stand, crate::proofs::Following::none_listed))]
    pub(crate) fn new(alloc: Global) -> Journals
        ensures { result.list ≡ [] }
    {
        Journals {
            steps: Vec::new(alloc),
        }
    }

    /// Makes room for one more journal.
    #[tactic(auto, using(crate::proofs::Following::same_stand, crate::proofs::Following::same_list, crate::proofs::Following::same_followers))]
    pub(crate) fn reserve(&mut self) -> Result<(), AllocError>
        ensures room { OnOk result (0 < self.new.room) }
        ensures list { self.new.list ≡ self.old.list }
        ensures followers { self.new.followers ≡ self.old.followers }
    {
        self.steps.reserve(1)?;
        Ok(())
    }

    /// Adds a journal, which begins here or goes on from one that is there. There is room.
    #[tactic(auto, using(crate::proofs::Following::has_room, crate::proofs::Following::number_is, crate::proofs::Following::added_list, crate::proofs::Following::added_followers))]
    fn add(&mut self, step: JournalStep) -> usize
        requires back { GoesBack (length self.old.list) step }
        requires room { 0 < self.old.room }
        ensures list { self.new.list ≡ self.old.list ++ (journal_of self.old.list step ∷ []) }
        ensures followers { self.new.followers ≡ self.old.followers ++ (None ∷ []) }
        ensures number { result ≡ length self.old.list }
    {
        let number = self.steps.len();
        self.steps.push_reserved(StoredStep {
            step,
            follower: None,
        });
        number
    }

    /// Adds a journal, which begins here.
    pub(crate) fn begin(&mut self, origin: Origin) -> Result<usize, AllocError>
        ensures ok { OnOk result (self.new.list
            ≡ self.old.list ++ (model.new_journal origin ∷ [])) }
        ensures number { IfOk result (λ n. n ≡ length self.old.list) }
        ensures err { OnErr result (self.new.list ≡ self.old.list) }
        ensures followers { self.new.followers
            ≡ (if is_ok result then self.old.followers ++ (None ∷ []) else self.old.followers) }
    {
        self.reserve()?;
        Ok(self.add(JournalStep::Begun(origin)))
    }

    /// Notes which journal is the latest that goes on from another.
    #[tactic(auto, using(crate::proofs::Following::step_within))]
    fn set_follower(&mut self, before: usize, number: usize)
        requires there { before < length self.old.list }
        requires on { GoesOn self.old.list before number }
        ensures list { self.new.list ≡ self.old.list }
        ensures followers { self.new.followers ≡ slice_set self.old.followers before (Some number) }
    {
        let stored = &mut self.steps[before];
        stored.follower = Some(number);
    }

    /// The number of the latest journal that goes on from journal n, where one does.
    #[tactic(auto, using(crate::proofs::Following::step_within))]
    fn follower_of(&self, number: usize) -> Option<usize>
        requires { number < length self.now.list }
        ensures follower { slice_get self.now.followers number ≡ Some result }
        ensures on { IfSome result (λ n. GoesOn self.now.list number n) }
    {
        self.steps[number].follower
    }

    /// Whether the latest entry of journal n is this one.
    #[tactic(auto, using(crate::proofs::Following::latest_compared, crate::proofs::Following::no_latest))]
    fn has_latest(&self, number: usize, entry: &Entry) -> bool
        requires { number < length self.now.list }
        ensures { IsTrue result ↔ (slice_get (journal_at self.now.list number).entries 0
            ≡ Some entry.now) }
    {
        match self.latest_of(number) {
            Some(latest) => latest.is_same(entry),
            None => false,
        }
    }

    /// The number of the journal that members share who follow an entry from journal `before`, if there is one.
    #[tactic(auto, using(crate::proofs::Following::shared_there, crate::proofs::Following::other_follower, crate::proofs::Following::no_follower))]
    fn find_shared(&self, before: usize, entry: &Entry) -> Option<usize>
        requires { before < length self.now.list }
        ensures { AnswersShared self.now before entry.now result }
    {
        match self.follower_of(before) {
            Some(number) => {
                if self.has_latest(number, entry) {
                    return Some(number);
                }
                None
            }
            None => None,
        }
    }

    /// The number of the journal to which an entry is followed from journal `before`: the one that members share there,
    /// else one that is added. There is room.
    pub(crate) fn follow(&mut self, before: usize, entry: Entry) -> usize
        requires there { before < length self.old.list }
        requires room { 0 < self.old.room }
        ensures is { journal_at self.new.list result
            ≡ model.with_entry (journal_at self.old.list before) entry }
        ensures within { result < length self.new.list }
        ensures more { AreMore self.old.list self.new.list }
        ensures follows { Follows self.old before entry self.new result }
    {
        match self.find_shared(before, &entry) {
            Some(number) => number,
            None => {
                let number = self.add(JournalStep::Followed { before, entry });
                self.set_follower(before, number);
                number
            }
        }
    }

    /// The step of journal n.
    #[tactic(auto, using(crate::proofs::Following::step_within))]
    fn step(&self, number: usize) -> &JournalStep
        requires { number < length self.now.list }
        ensures { HasStep self.now.list number result.now }
    {
        &self.steps[number].step
    }

    /// Where journal n begins.
    fn origin_of(&self, number: usize) -> &Origin
        requires { number < length self.now.list }
        ensures { result.now ≡ (journal_at self.now.list number).origin }
    {
        let mut at = number;
        loop {
            match self.step(at) {
                JournalStep::Begun(origin) => return origin,
                JournalStep::Followed { before, entry: _ } => at = *before,
            }
        }
    }

    /// The latest entry of journal n, where it has one.
    fn latest_of(&self, number: usize) -> Option<&Entry>
        requires { number < length self.now.list }
        ensures { option_copied result ≡ slice_get (journal_at self.now.list number).entries 0 }
    {
        match self.step(number) {
            JournalStep::Begun(_) => None,
            JournalStep::Followed { before: _, entry } => Some(entry),
        }
    }

    /// The number of the journal before the latest entry of journal n, where it has one.
    #[tactic(auto, using(crate::proofs::JournalSteps::before_entry))]
    fn number_before(&self, number: usize) -> Option<usize>
        requires { number < length self.now.list }
        ensures { IsBefore self.now.list number result }
    {
        match self.step(number) {
            JournalStep::Begun(_) => None,
            JournalStep::Followed { before, entry: _ } => Some(*before),
        }
    }
}

/// A journal, lent from a world: where a member began, and the commits that it followed since.
#[derive(Drop)]
pub struct Journal<'a> {
    journals: &'a Journals,
    number: usize,
}

impl<'a> Model for Journal<'a> {
    ghost use Rattle.std.specs.Prelude.{◌<◌, length};
    ghost use Rattle.mls_model.specs.Journal as model;

    ghost Value = { model.Journal };

    ghost use Rattle.mls_world_plain.specs.StoredWorld.{journal_at};

    ghost view = { λ j. journal_at j.journals.now.list j.number };

    ghost invariant = { λ j. j.number < length j.journals.now.list };
}

impl<'a> Journal<'a> {
    /// Journal n of a store.
    pub(crate) fn of(journals: &'a Journals, number: usize) -> Journal<'a>
        requires { number < length journals.now.list }
        ensures { result ≡ journal_at journals.now.list number }
    {
        Journal { journals, number }
    }

    /// Where the member began.
    pub fn origin(&self) -> &Origin
        ensures { result.now ≡ self.now.origin }
    {
        self.journals.origin_of(self.number)
    }

    /// The latest commit that the member followed, where it followed one.
    pub fn latest(&self) -> Option<&Entry>
        ensures { option_copied result ≡ slice_get self.now.entries 0 }
    {
        self.journals.latest_of(self.number)
    }

    /// The journal before the latest commit, where the member followed one.
    pub fn earlier(&self) -> Option<Journal<'a>>
        ensures { result ≡ earlier self.now }
    {
        match self.journals.number_before(self.number) {
            Some(number) => Some(Journal::of(self.journals, number)),
            None => None,
        }
    }
}
