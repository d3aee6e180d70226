//! Candidates, and the groups that they create. Where a call ends early, a candidate is given to `drop`: that is one
//! call, and the prover doesn't take it apart there.

ghost use Rattle.std.specs.Prelude.{◌≡◌};
ghost use Rattle.mls_model.specs.World as model;
ghost use Rattle.mls_world_plain.specs.CallAnswers.{AddsCandidate, AnswersBy, CreatesGroup, MakesCandidate};
ghost use Rattle.mls_world_plain.specs.CallParts.{has_signature_key, make_candidate};
ghost use Rattle.mls_world_plain.specs.EarlyChecks.{RefusesEarly};

use crate::error::WorldError;
use crate::seats::Entrant;
use crate::world::PlainWorld;
use mls_kdf::Seed;
use mls_leaf::Bytes;
use mls_member::{Candidate, Member};
use mls_model::Origin;
use mls_suite::Suite;
use mls_treekem::sign_seed;

/// A candidate that was made, and the message of its KeyPackage.
#[derive(Clone, Copy, Debug, PartialEq, Eq)]
pub struct NewCandidate {
    /// Its number.
    pub candidate: usize,
    /// The number of the message.
    pub message: usize,
}

impl<S: Suite> PlainWorld<S> {
    /// Whether a candidate has a signature key.
    fn has_signature_key(&self, key: &[u8]) -> bool
        ensures { result ≡ has_signature_key self.now key.now }
    {
        self.entrants.iter().any(|e| e.candidate.leaf_node().signature_key.as_slice() == key)
    }

    /// Makes a candidate that isn't yet in the world: `CandidateRepeated` (93), then the checks of a candidate.
    fn make_candidate(&self, identity: &[u8], seed: &Seed) -> Result<Candidate<S>, WorldError>
        ensures { AnswersBy (make_candidate S.crypto self.now identity.now seed.now) result }
    {
        let key = S::sig_public(self.alloc, &sign_seed(seed))?;
        if self.has_signature_key(&key) {
            return Err(WorldError::CandidateRepeated);
        }
        let candidate = Candidate::new(self.alloc, identity, seed)?;
        Ok(candidate)
    }

    /// Adds a candidate, and the message of its KeyPackage.
    fn add_candidate(&mut self, candidate: Candidate<S>) -> Result<NewCandidate, WorldError>
        ensures { AddsCandidate self.old self.new candidate result }
    {
        let copy = match Vec::from_slice(self.alloc, candidate.message()) {
            Ok(copy) => copy,
            Err(error) => {
                drop(candidate);
                return Err(error.into());
            }
        };
        if let Err(error) = self.entrants.reserve(1) {
            drop(candidate);
            return Err(error.into());
        }
        if let Err(error) = self.messages.reserve(1) {
            drop(candidate);
            return Err(error.into());
        }
        let numbers = NewCandidate {
            candidate: self.entrants.len(),
            message: self.messages.len(),
        };
        self.entrants.push_reserved(Entrant {
            candidate,
            is_spent: false,
        });
        self.messages.push_reserved(Bytes::from_vec(copy));
        Ok(numbers)
    }

    /// Makes a candidate, and the message of its KeyPackage: `CandidateRepeated` (93), then the checks of a candidate
    /// (RFC 9420, 10).
    #[tactic(auto, using(crate::proofs::Entering::candidate_is, crate::proofs::Entering::candidate_refused))]
    pub fn candidate(&mut self, identity: &[u8], seed: &Seed) -> Result<NewCandidate, WorldError>
        ensures { MakesCandidate S.crypto self.old self.new identity.now seed.now result }
    {
        match self.make_candidate(identity, seed) {
            Ok(candidate) => self.add_candidate(candidate),
            Err(error) => Err(error),
        }
    }

    /// Creates a group, whose only member the candidate becomes: `NoSuchCandidate` (92), `CandidateSpent` (91), then
    /// the checks of a creation (RFC 9420, 11). It answers the member's number.
    pub fn create(
        &mut self,
        candidate: usize,
        group: &[u8],
        seed: &Seed,
    ) -> Result<usize, WorldError>
        ensures does { CreatesGroup S.crypto self.old self.new candidate group.now seed.now result }
        // `NoSuchCandidate` (92) and `CandidateSpent` (91) come also when an allocation fails.
        ensures outright { RefusesEarly (model.entrant_at self.old candidate) result }
    {
        let alloc = self.alloc;
        let entrant = match self.unspent_candidate(candidate) {
            Ok(entrant) => entrant,
            Err(error) => return Err(error),
        };
        let member = match Member::create(alloc, &entrant.candidate, group, seed) {
            Ok(member) => member,
            Err(refusal) => return Err(WorldError::Member(refusal)),
        };
        let origin = Origin::Creation(self.seats.len());
        let number = self.begin_member(candidate, member, origin)?;
        Ok(number)
    }
}
