//! Look-ups of members and candidates, and new members. Where a call ends early, a new member is given to `drop`:
//! that is one call, and the prover doesn't take it apart there.

ghost use Rattle.std.specs.Prelude.{◌≡◌, ◌<◌, length, IfOk, IfErr, OnOk, OnErr};
ghost use Rattle.mls_model.specs.World as model;
ghost use Rattle.mls_world_plain.specs.CallAnswers.{AnswersOutrightBy};
ghost use Rattle.mls_world_plain.specs.NewMembers.{BeginsMember, FollowsMember, IsMissing};

use crate::error::WorldError;
use crate::seats::{Entrant, Seat};
use crate::world::PlainWorld;
use mls_member::Member;
use mls_model::Origin;
use mls_suite::Suite;
use std::alloc::AllocError;

impl<S: Suite> PlainWorld<S> {
    /// Requires that a member has this number: `NoSuchMember` (90).
    pub(crate) fn require_member(&self, k: usize) -> Result<(), WorldError>
        ensures there { IfOk result (λ _. k < length self.now.seats) }
        ensures missing { IfErr result (λ e. IsMissing self.now k e) }
    {
        if k < self.seats.len() {
            Ok(())
        } else {
            Err(WorldError::NoSuchMember)
        }
    }

    /// Finds the candidate of this number: `NoSuchCandidate` (92), `CandidateSpent` (91).
    #[tactic(auto, unfolding(mls_model::specs::World::entrant_at))]
    pub(crate) fn unspent_candidate(&self, n: usize) -> Result<&Entrant<S>, WorldError>
        ensures { AnswersOutrightBy (λ e. e.now) (model.entrant_at self.now n) result }
    {
        let Some(entrant) = self.entrants.get(n) else {
            return Err(WorldError::NoSuchCandidate);
        };
        if entrant.is_spent {
            return Err(WorldError::CandidateSpent);
        }
        Ok(entrant)
    }

    /// Makes candidate n a member, whose journal begins here, and answers the member's number.
    pub(crate) fn begin_member(
        &mut self,
        n: usize,
        member: Member<S>,
        origin: Origin,
    ) -> Result<usize, AllocError>
        requires { n < length self.old.entrants }
        ensures ok { OnOk result (BeginsMember self.old self.new n member origin) }
        ensures number { IfOk result (λ k. k ≡ length self.old.seats) }
        ensures err { OnErr result (self.new ≡ self.old) }
    {
        let number = self.seats.len();
        if let Err(error) = self.seats.reserve(1) {
            drop(member);
            return Err(error);
        }
        let journal = match self.journals.begin(origin) {
            Ok(journal) => journal,
            Err(error) => {
                drop(member);
                return Err(error);
            }
        };
        self.seats.push_reserved(Seat { member, journal });
        let entrant = &mut self.entrants[n];
        entrant.is_spent = true;
        Ok(number)
    }

    /// Makes candidate n a member, whose journal is that of a commit which was made, and answers the member's number.
    #[tactic(auto, using(crate::proofs::Changing::stored_joined, crate::proofs::Changing::none_behind, crate::proofs::Changing::made_there))]
    pub(crate) fn follow_member(
        &mut self,
        n: usize,
        member: Member<S>,
        made: usize,
    ) -> Result<usize, AllocError>
        requires candidate { n < length self.old.entrants }
        requires made { made < length self.old.commits }
        ensures ok { OnOk result (FollowsMember self.old self.new n member made) }
        ensures number { IfOk result (λ k. k ≡ length self.old.seats) }
        ensures err { OnErr result (self.new ≡ self.old) }
    {
        let number = self.seats.len();
        let making = &self.made[made];
        let journal = making.journal;
        self.seats.reserve(1)?;
        self.seats.push_reserved(Seat { member, journal });
        let entrant = &mut self.entrants[n];
        entrant.is_spent = true;
        Ok(number)
    }
}
