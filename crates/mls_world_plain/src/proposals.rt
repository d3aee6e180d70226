//! Proposals of members. A KeyPackage is given to `drop`: that is one call, and the prover doesn't take it apart at
//! each end.

ghost use Rattle.mls_model.specs.World as model;
ghost use Rattle.mls_world_plain.specs.CallAnswers.{ProposesAdd, ProposesAllowed, ProposesExtensions, ProposesRemove, ProposesUpdate};
ghost use Rattle.mls_world_plain.specs.EarlyChecks.{early_add_checks, RefusesEarly, RefusesExtensionsEarly};

use crate::error::WorldError;
use crate::sources::copy_extensions;
use crate::world::PlainWorld;
use mls_kdf::Seed;
use mls_leaf::{Bytes, Extension, GroupExtensions};
use mls_model::Source;
use mls_suite::Suite;

impl<S: Suite> PlainWorld<S> {
    /// Proposes to add the KeyPackage of a source, and answers the number of the message: `NoSuchMember` (90),
    /// `NoSuchMessage` (94), decoding, `WrongMessageKind` (95), then the member's checks (RFC 9420, 12.1.1).
    #[tactic(auto, using(crate::proofs::Stores::seat_found, crate::proofs::Stores::seat_missing, crate::proofs::Stores::seat_set, crate::proofs::Stores::unchanged, crate::proofs::Calling::member_changed, crate::proofs::Readings::wider), unfolding(mls_model::specs::WorldCalls::propose_add_answer))]
    pub fn propose_add(&mut self, member: usize, key_package: &Source) -> Result<usize, WorldError>
        ensures does { ProposesAdd S.crypto self.old self.new member key_package.now result }
        // `NoSuchMember` (90), `NoSuchMessage` (94), decoding's and `WrongMessageKind` (95) come also when an
        // allocation fails.
        ensures outright { RefusesEarly (early_add_checks self.old member key_package.now) result }
    {
        self.require_member(member)?;
        let offered = self.package_of(key_package)?;
        if let Err(error) = self.messages.reserve(1) {
            drop(offered);
            return Err(error.into());
        }
        let message = self.messages.len();
        let Some(seat) = self.seats.get_mut(member) else {
            drop(offered);
            return Err(WorldError::NoSuchMember);
        };
        let proposed = seat.member.propose_add(&offered);
        drop(offered);
        let bytes = proposed?;
        self.messages.push_reserved(Bytes::from_vec(bytes));
        Ok(message)
    }

    /// Proposes a new key for the member's own leaf, and answers the number of the message: `NoSuchMember` (90), then
    /// the member's checks (RFC 9420, 12.1.2).
    #[tactic(auto, using(crate::proofs::Stores::seat_found, crate::proofs::Stores::seat_missing, crate::proofs::Stores::seat_set, crate::proofs::Stores::unchanged, crate::proofs::Calling::member_changed, crate::proofs::Readings::wider), unfolding(mls_model::specs::WorldCalls::propose_update_answer))]
    pub fn propose_update(&mut self, member: usize, seed: &Seed) -> Result<usize, WorldError>
        ensures does { ProposesUpdate S.crypto self.old self.new member seed.now result }
        // `NoSuchMember` (90) comes also when an allocation fails.
        ensures outright { RefusesEarly (model.seat_at self.old member) result }
    {
        self.require_member(member)?;
        self.messages.reserve(1)?;
        let message = self.messages.len();
        let Some(seat) = self.seats.get_mut(member) else {
            return Err(WorldError::NoSuchMember);
        };
        let bytes = seat.member.propose_update(seed)?;
        self.messages.push_reserved(Bytes::from_vec(bytes));
        Ok(message)
    }

    /// Proposes to remove the member at a leaf, and answers the number of the message: `NoSuchMember` (90), then the
    /// member's checks (RFC 9420, 12.1.3).
    #[tactic(auto, using(crate::proofs::Stores::seat_found, crate::proofs::Stores::seat_missing, crate::proofs::Stores::seat_set, crate::proofs::Stores::unchanged, crate::proofs::Calling::member_changed, crate::proofs::Readings::wider), unfolding(mls_model::specs::WorldCalls::propose_remove_answer))]
    pub fn propose_remove(&mut self, member: usize, leaf: u32) -> Result<usize, WorldError>
        ensures does { ProposesRemove S.crypto self.old self.new member leaf result }
        // `NoSuchMember` (90) comes also when an allocation fails.
        ensures outright { RefusesEarly (model.seat_at self.old member) result }
    {
        self.require_member(member)?;
        self.messages.reserve(1)?;
        let message = self.messages.len();
        let Some(seat) = self.seats.get_mut(member) else {
            return Err(WorldError::NoSuchMember);
        };
        let bytes = seat.member.propose_remove(leaf)?;
        self.messages.push_reserved(Bytes::from_vec(bytes));
        Ok(message)
    }

    /// Proposes that the group carry these extensions, and answers the number of the message: `NoSuchMember` (90),
    /// `ExtensionNotAllowed` (14), then the member's checks (RFC 9420, 12.1.7).
    pub fn propose_extensions(
        &mut self,
        member: usize,
        list: Vec<Extension>,
    ) -> Result<usize, WorldError>
        ensures does { ProposesExtensions S.crypto self.old self.new member list.items result }
        // `NoSuchMember` (90) and `ExtensionNotAllowed` (14) come also when an allocation fails.
        ensures outright { RefusesExtensionsEarly self.old member list.items result }
    {
        self.require_member(member)?;
        let allowed = GroupExtensions::new(list)?;
        self.propose_allowed(member, allowed)
    }

    /// Proposes a copy of these extensions, as [`PlainWorld::propose_extensions`] does: they are judged before they are
    /// copied.
    pub(crate) fn propose_copy(
        &mut self,
        member: usize,
        extensions: &[Extension],
    ) -> Result<usize, WorldError>
        ensures does { ProposesExtensions S.crypto self.old self.new member extensions.now result }
        // `NoSuchMember` (90) and `ExtensionNotAllowed` (14) come also when an allocation fails.
        ensures outright { RefusesExtensionsEarly self.old member extensions.now result }
    {
        self.require_member(member)?;
        let copy = copy_extensions(self.alloc, extensions)?;
        self.propose_allowed(member, copy)
    }

    /// Proposes extensions that a group may carry: `NoSuchMember` (90), then the member's checks (RFC 9420, 12.1.7).
    #[tactic(auto, using(crate::proofs::Stores::seat_found, crate::proofs::Stores::seat_missing, crate::proofs::Stores::seat_set, crate::proofs::Stores::unchanged, crate::proofs::Calling::member_changed, crate::proofs::Readings::wider), unfolding(crate::specs::CallParts::propose_allowed))]
    fn propose_allowed(
        &mut self,
        member: usize,
        extensions: GroupExtensions,
    ) -> Result<usize, WorldError>
        ensures does { ProposesAllowed S.crypto self.old self.new member extensions result }
    {
        if let Err(error) = self.messages.reserve(1) {
            drop(extensions);
            return Err(error.into());
        }
        let message = self.messages.len();
        let Some(seat) = self.seats.get_mut(member) else {
            drop(extensions);
            return Err(WorldError::NoSuchMember);
        };
        let bytes = seat.member.propose_extensions(extensions)?;
        self.messages.push_reserved(Bytes::from_vec(bytes));
        Ok(message)
    }
}
