//! Commits of members.

ghost use Rattle.std.specs.Prelude.{◌≡◌, ◌<◌, Err, length, IfOk, IfErr, OnErr};
ghost use Rattle.mls_member.specs.Answers.{AreShortItems};
ghost use Rattle.mls_model.specs.WorldCalls.{drop_answer};
ghost use Rattle.mls_world_plain.specs.Faults.{number_of};
ghost use Rattle.mls_world_plain.specs.EarlyChecks.{early_commit_checks, RefusesEarly};
ghost use Rattle.mls_world_plain.specs.CallAnswers.{Commits, DropsPending};
ghost use Rattle.mls_world_plain.specs.CommitParts.{welcome_with_number, CommitsList, ForgetsPending, HasNothingPending, IsPendingEpoch, NamesList, RecordsCommit, TellsPending};

use crate::commit_adds::adds_of;
use crate::commit_names::names_in;
use crate::entry::Entry;
use crate::error::WorldError;
use crate::seats::Making;
use crate::world::PlainWorld;
use mls_kdf::{Secret, Seed};
use mls_leaf::Bytes;
use mls_member::Made;
use mls_model::{Item, WorldItem};
use mls_suite::Suite;
use std::alloc::{AllocError, Global};

/// The messages of a commit that was made.
#[derive(Clone, Copy, Debug, PartialEq, Eq)]
pub struct NewCommit {
    /// The number of the commit's message.
    pub message: usize,
    /// The number of its Welcome's, where somebody is added.
    pub welcome: Option<usize>,
}

/// What a commit's list names, and the KeyPackages that it adds, as bytes.
#[derive(Drop)]
pub(crate) struct Named {
    pub(crate) names: Vec<Bytes>,
    pub(crate) adds: Vec<Bytes>,
}

/// The Welcome of a commit with the number of its message.
fn welcome_with_number(
    alloc: Global,
    number: usize,
    made: &Made,
) -> Result<Option<(usize, Bytes)>, AllocError>
    ensures { IfOk result (λ o. o ≡ welcome_with_number number made.now) }
{
    match &made.welcome {
        Some(bytes) => Ok(Some((number, Bytes::from_vec(Vec::from_slice(alloc, bytes)?)))),
        None => Ok(None),
    }
}

impl<S: Suite> PlainWorld<S> {
    /// What a list names and adds, by what member k keeps.
    #[tactic(auto, using(crate::proofs::Stores::seat_found))]
    fn names_and_adds(&self, k: usize, list: &[Item]) -> Result<Named, WorldError>
        requires there { k < length self.now.seats }
        requires short { AreShortItems list.now }
        ensures named { IfOk result (λ n. NamesList self.now k list.now n) }
        ensures memory { IfErr result (λ e. number_of e ≡ 1) }
    {
        let seat = &self.seats[k];
        let names = names_in(self.alloc, &seat.member, list)?;
        let adds = adds_of(self.alloc, &seat.member, list)?;
        Ok(Named { names, adds })
    }

    /// Member k commits a list.
    fn commit_by(
        &mut self,
        k: usize,
        list: &[Item],
        path: bool,
        seed: &Seed,
    ) -> Result<Made, WorldError>
        requires there { k < length self.old.seats }
        requires short { AreShortItems list.now }
        ensures does { CommitsList S.crypto self.old self.new k list.now path seed.now result }
        ensures free { IfOk result (λ _. HasNothingPending self.old k) }
    {
        let seat = &mut self.seats[k];
        let made = match seat.member.commit(list, path, seed) {
            Ok(made) => made,
            Err(refusal) => return Err(WorldError::Member(refusal)),
        };
        Ok(made)
    }

    /// The epoch secret that the pending commit of member k leads to.
    fn pending_epoch(&self, k: usize) -> Secret
        requires { k < length self.now.seats }
        ensures { IsPendingEpoch self.now k result }
    {
        let seat = &self.seats[k];
        match seat.member.pending_secret() {
            Some(secret) => *secret,
            None => [0; 32],
        }
    }

    /// Forgets the pending commit of member k, and answers whether there was one.
    #[tactic(auto, using(crate::proofs::Stores::seat_found))]
    fn forget(&mut self, k: usize) -> bool
        requires { k < length self.old.seats }
        ensures had { TellsPending self.old k result }
        ensures none { ForgetsPending self.old self.new k }
    {
        let seat = &mut self.seats[k];
        seat.member.drop_pending()
    }

    /// Adds the messages of a commit that member k made, and records it with what it names and adds.
    fn record(&mut self, k: usize, made: Made, named: Named) -> Result<NewCommit, WorldError>
        requires { k < length self.old.seats }
        ensures ok { IfOk result (λ v. RecordsCommit self.old self.new k made named v) }
        ensures err { OnErr result (self.new ≡ self.old) }
        ensures memory { IfErr result (λ e. number_of e ≡ 1) }
    {
        let epoch_secret = self.pending_epoch(k);
        self.messages.reserve(2)?;
        self.made.reserve(1)?;
        self.journals.reserve()?;
        let message = self.messages.len();
        let welcome = welcome_with_number(self.alloc, message + 1, &made)?;
        let commit = Bytes::from_vec(Vec::from_slice(self.alloc, &made.commit)?);
        let Named { names, adds } = named;
        let before = self.seats[k].journal;
        let journal = self.journals.follow(before, Entry { commit, names });
        self.made.push_reserved(Making {
            maker: k,
            journal,
            epoch_secret,
            adds,
            welcome,
        });
        let Made { commit, welcome } = made;
        self.messages.push_reserved(Bytes::from_vec(commit));
        match welcome {
            Some(bytes) => {
                self.messages.push_reserved(Bytes::from_vec(bytes));
                Ok(NewCommit {
                    message,
                    welcome: Some(message + 1),
                })
            }
            None => Ok(NewCommit {
                message,
                welcome: None,
            }),
        }
    }

    /// Commits a list, with a path where `path` says so or one is required, and keeps the state that it leads to as
    /// pending: `NoSuchMember` (90), then in the list's order `NoSuchMessage` (94), decoding, `WrongMessageKind`
    /// (95), then the member's checks (RFC 9420, 12.4.1). It answers the numbers of the commit and of its Welcome.
    #[tactic(auto, using(crate::proofs::Committing::nobody))]
    pub fn commit(
        &mut self,
        member: usize,
        items: &[WorldItem],
        path: bool,
        seed: &Seed,
    ) -> Result<NewCommit, WorldError>
        ensures does { Commits S.crypto self.old self.new member items.now path seed.now result }
        // `NoSuchMember` (90), and of the first item `NoSuchMessage` (94), decoding's and `WrongMessageKind` (95), come
        // also when an allocation fails.
        ensures outright { RefusesEarly (early_commit_checks self.old member items.now) result }
    {
        self.require_member(member)?;
        let list = match self.items_of(items) {
            Ok(list) => list,
            Err(error) => return Err(error),
        };
        let named = self.names_and_adds(member, &list)?;
        let made = match self.commit_by(member, &list, path, seed) {
            Ok(made) => made,
            Err(error) => return Err(error),
        };
        match self.record(member, made, named) {
            Ok(numbers) => Ok(numbers),
            Err(error) => {
                let _ = self.forget(member);
                Err(error)
            }
        }
    }

    /// Forgets a member's pending commit, and answers whether there was one: `NoSuchMember` (90). It takes no memory.
    #[tactic(auto, using(crate::proofs::Committing::drop_nobody))]
    pub fn drop_pending(&mut self, member: usize) -> Result<bool, WorldError>
        ensures does { DropsPending self.old self.new member result }
        // No want of memory.
        ensures outright { IfErr result (λ e. drop_answer self.old member ≡ Err (number_of e)) }
    {
        self.require_member(member)?;
        Ok(self.forget(member))
    }
}
