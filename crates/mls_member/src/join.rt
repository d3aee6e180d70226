//! Joining a group.

ghost use Rattle.mls_model.specs.Join.{join_verdict};
ghost use Rattle.mls_member.specs.Answers.{AdmitsGood, Joins, RefusesOuter};

use crate::error::Refusal;
use crate::member::Member;
use mls_candidate::Candidate;
use mls_join::Entrance;
use mls_suite::Suite;
use std::alloc::Global;
use std::marker::PhantomData;

/// Holds a new member, and the GroupInfo that it opened.
#[derive(Drop)]
pub struct Joined<S: Suite> {
    /// It is the member.
    pub member: Member<S>,
    /// These are the bytes of the GroupInfo (RFC 9420, 12.4.3).
    pub group_info: Vec<u8>,
}

impl<S: Suite> Member<S> {
    /// Makes a candidate the member that a Welcome lets in, or answers the first check that fails (RFC 9420, 12.4.3.1).
    pub fn join(alloc: Global, candidate: &Candidate<S>, bytes: &[u8]) -> Result<Joined<S>, Refusal>
        ensures answer { Joins (join_verdict S.crypto candidate.now bytes.now) result }
        ensures good { AdmitsGood S.crypto candidate.now result }
        // Decoding, `NotWelcome` (70) and `WrongSuite` (71) of the Welcome come also when an allocation fails.
        ensures outright { RefusesOuter S.crypto.number bytes.now result }
    {
        let Entrance {
            group,
            epoch,
            keys,
            group_info,
        } = mls_join::join::<S>(alloc, candidate, bytes)?;
        let member = Member {
            gone: false,
            group,
            epoch,
            keys,
            signing: *candidate.signing_key(),
            kept: Vec::new(alloc),
            pending: None,
            alloc,
            suite: PhantomData,
        };
        Ok(Joined { member, group_info })
    }
}
