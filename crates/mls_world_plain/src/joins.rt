//! Joins by Welcomes.

ghost use Rattle.std.specs.Prelude.{◌≡◌, ◌<◌, length, IfSome};
ghost use Rattle.std.specs.List.{list_any};
ghost use Rattle.std.specs.Str.{bytes_eq};
ghost use Rattle.mls_leaf.specs.KeyPackage.{key_package};
ghost use Rattle.mls_model.specs.World as model;
ghost use Rattle.mls_world_plain.specs.CallAnswers.{JoinsBy};
ghost use Rattle.mls_world_plain.specs.CallParts.{adds_for, FirstIs, IsForJoiner, IsThere};
ghost use Rattle.mls_world_plain.specs.EarlyChecks.{early_join_checks, RefusesEarly};

use crate::error::WorldError;
use crate::seats::Making;
use crate::world::PlainWorld;
use mls_leaf::Bytes;
use mls_member::{Candidate, Member};
use mls_model::{Origin, Source};
use mls_suite::Suite;

/// A member that joined a group.
#[derive(Clone, Copy, Debug, PartialEq, Eq)]
pub struct NewMember {
    /// Its number.
    pub member: usize,
    /// The epoch that it joined.
    pub epoch: u64,
}

/// The bytes of a candidate's KeyPackage: its message has 4 bytes before them.
#[tactic(auto, using(crate::proofs::Readings::package_behind, crate::proofs::Readings::package_long))]
fn package_of<S: Suite>(candidate: &Candidate<S>) -> &[u8]
    ensures { result.now ≡ key_package.spell candidate.now.offered }
{
    let message = candidate.message();
    if message.len() < 4 {
        return &[];
    }
    &message[4..]
}

/// Whether bytes are among others.
fn are_among(bytes: &[u8], list: &[Bytes]) -> bool
    ensures { result ≡ list_any (bytes_eq bytes.now) list.now }
{
    list.iter().any(|b| bytes == b.as_slice())
}

/// Whether a Welcome is a source: by its number, or by its bytes.
fn has_source(source: &Source, welcome: &Option<(usize, Bytes)>) -> bool
    ensures { result ≡ model.has_source source.now welcome.now }
{
    match (source, welcome) {
        (_, None) => false,
        (Source::Given(bytes), Some((_, made))) => bytes.as_slice() == made.as_slice(),
        (Source::Message(n), Some((number, _))) => n == number,
    }
}

/// Whether a commit has that Welcome and adds that KeyPackage.
fn adds_for(source: &Source, offered: &[u8], making: &Making) -> bool
    ensures { result ≡ adds_for source.now offered.now making.now }
{
    has_source(source, &making.welcome) && are_among(offered, &making.adds)
}

/// The number of the first record that has that Welcome and adds that KeyPackage.
fn first_making_for(made: &[Making], source: &Source, offered: &[u8]) -> Option<usize>
    ensures first { FirstIs made.now source.now offered.now result }
    ensures there { IfSome result (λ i. i < length made.now) }
{
    for i in 0..made.len() {
        let making = &made[i];
        if adds_for(source, offered, making) {
            return Some(i);
        }
    }
    None
}

impl<S: Suite> PlainWorld<S> {
    /// The number of the first commit whose Welcome that is and which adds the candidate's own KeyPackage.
    fn commit_for_joiner(&self, source: &Source, candidate: &Candidate<S>) -> Option<usize>
        ensures first { IsForJoiner self.now.commits source.now candidate.now result }
        ensures there { IsThere self.now.commits result }
    {
        first_making_for(&self.made, source, package_of(candidate))
    }

    /// Joins by a Welcome: `NoSuchCandidate` (92), `CandidateSpent` (91), `NoSuchMessage` (94), then the checks of a
    /// join (RFC 9420, 12.4.3.1). The world decodes nothing. Where the Welcome was made here and its commit adds the
    /// candidate's own KeyPackage, the journal is the maker's with that commit, else it begins with the GroupInfo.
    pub fn join(&mut self, candidate: usize, source: &Source) -> Result<NewMember, WorldError>
        ensures does { JoinsBy S.crypto self.old self.new candidate source.now result }
        // `NoSuchCandidate` (92), `CandidateSpent` (91), `NoSuchMessage` (94), decoding's, `NotWelcome` (70) and
        // `WrongSuite` (71) of the Welcome come also when an allocation fails.
        ensures outright { RefusesEarly
            (early_join_checks S.crypto.number self.old candidate source.now) result }
    {
        let alloc = self.alloc;
        let entrant = match self.unspent_candidate(candidate) {
            Ok(entrant) => entrant,
            Err(error) => return Err(error),
        };
        let own = &entrant.candidate;
        let bytes = match self.bytes_of(source) {
            Ok(bytes) => bytes,
            Err(error) => return Err(error),
        };
        let joined = match Member::join(alloc, own, bytes) {
            Ok(joined) => joined,
            Err(refusal) => return Err(WorldError::Member(refusal)),
        };
        let epoch = joined.member.epoch();
        match self.commit_for_joiner(source, own) {
            Some(made) => {
                let member = self.follow_member(candidate, joined.member, made)?;
                Ok(NewMember { member, epoch })
            }
            None => {
                let origin = Origin::GroupInfo(Bytes::from_vec(joined.group_info));
                let member = self.begin_member(candidate, joined.member, origin)?;
                Ok(NewMember { member, epoch })
            }
        }
    }
}
