//! Committing.

ghost use Rattle.std.specs.Prelude.{◌≡◌, ◌+◌, ◌<◌, ◌^◌, true, Err, IfOk, map};
ghost use Rattle.std.specs.List.{AllByRecursion};
ghost use Rattle.mls_theorems.specs.SpelledParts.{FullFits};
ghost use Rattle.mls_make.specs.CommitCall.{made_as, AreUsable};
ghost use Rattle.mls_model.specs.MemberInvariant.{IsGoodMember};
ghost use Rattle.mls_model.specs.Make.{list_item_of};
ghost use Rattle.mls_member.specs.Answers.{AreShortItems, Commits, CommitsItems, Finds, MadeReaches, MakesCommit, RefusesLast, RefusesPending};
ghost use Rattle.mls_member.specs.Committing.{keep_pending};
ghost use Rattle.mls_member.specs.declared.error.Refusal.TheVariants.{Gone};

use crate::commit_items::{list_items, used_of_items};
use crate::error::Refusal;
use crate::kept_and_pending::Pending;
use crate::member::Member;
use mls_kdf::Seed;
use mls_make::NewCommit;
use mls_model::Item;
use mls_public_group::Used;
use mls_suite::Suite;

/// Holds what a commit call made.
#[derive(Drop)]
pub struct Made {
    /// It is the message of the commit.
    pub commit: Vec<u8>,
    /// It is the message of the Welcome, where somebody is added.
    pub welcome: Option<Vec<u8>>,
}

impl<S: Suite> Member<S> {
    /// Finds the proposals that a commit call uses: `UnknownReference` (60) a reference isn't kept (RFC 9420, 12.4).
    fn resolve_items<'a>(&'a self, items: &'a [Item]) -> Result<Vec<Used<'a>>, Refusal>
        requires { AreShortItems items.now }
        ensures answer { Finds self.now.kept self.now.keys.leaf (map list_item_of items.now)
            result }
        ensures short { IfOk result (λ v. AreUsable v.items) }
    {
        used_of_items(self.alloc, &self.kept, self.keys.leaf(), items)
    }

    /// Makes a commit of these proposals: `UnknownReference` (60) a reference isn't kept, then every check that it will
    /// meet, `TooLong` (6) a message or the GroupInfo is too long (RFC 9420, 12.4.1).
    fn new_commit(&self, items: &[Item], path: bool, seed: &Seed) -> Result<NewCommit, Refusal>
        requires epoch { self.now.public.context.epoch + 1 < 2 ^ 64 }
        requires items { AreShortItems items.now }
        ensures answer { MakesCommit S.crypto self.now items.now path seed.now result }
        ensures full { IfOk result (λ _. AllByRecursion FullFits (map list_item_of items.now)) }
    {
        let used = self.resolve_items(items)?;
        let list = list_items(self.alloc, items)?;
        let proposals = used.as_slice();
        let keys = self.keys();
        let speaker = self.speaker();
        match mls_make::make_commit::<S>(self.alloc, &speaker, keys, list, proposals, path, seed) {
            Ok(made) => Ok(made),
            Err(error) => Err(Refusal::Make(error)),
        }
    }

    /// Keeps the state that a new commit leads to as pending, and answers its messages.
    #[tactic(auto, unfolding(mls_model::specs::Member::with_pending))]
    fn keep_pending(&mut self, new: NewCommit) -> Result<Made, Refusal>
        ensures { Commits (keep_pending self.old (made_as new)) self.old self.new result }
    {
        let message = Vec::from_slice(self.alloc, &new.commit)?;
        let NewCommit {
            commit,
            welcome,
            group,
            epoch,
            keys,
        } = new;
        self.pending = Some(Pending {
            message,
            group,
            epoch,
            keys,
        });
        Ok(Made { commit, welcome })
    }

    /// Commits a list of proposals, with a path where `path` says so or one is required, and keeps the state that it
    /// leads to as pending. `Gone` (40) the member was removed, `PendingCommit` (67) it has a pending commit, then
    /// every check that its commit will meet, `TooLong` (6) a message or the GroupInfo is too long (RFC 9420, 12.4.1).
    pub fn commit(&mut self, items: &[Item], path: bool, seed: &Seed) -> Result<Made, Refusal>
        requires { AreShortItems items.now }
        ensures answer { CommitsItems S.crypto items.now path seed.now self.old self.new result }
        ensures good { IsGoodMember S.crypto self.old → IsGoodMember S.crypto self.new }
        ensures reaches { MadeReaches S.crypto items.now self.old self.new result }
        // These three come also when an allocation fails.
        ensures gone { self.old.gone ≡ true → result ≡ Err Gone }
        ensures pending { RefusesPending self.old result }
        ensures last { RefusesLast self.old result }
    {
        if self.is_gone() {
            return Err(Refusal::Gone);
        }
        if self.is_commit_pending() {
            return Err(Refusal::PendingCommit);
        }
        if !self.has_next() {
            return Err(Refusal::EpochEnd);
        }
        match self.new_commit(items, path, seed) {
            Ok(new) => self.keep_pending(new),
            Err(error) => Err(error),
        }
    }
}
