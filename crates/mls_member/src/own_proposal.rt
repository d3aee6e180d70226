//! Proposing. Where a call ends early, a large proposal is given to `drop`: that is one call, and the prover doesn't
//! take it apart there.

ghost use Rattle.std.specs.Prelude.{◌≡◌, ◌^◌, true, Err, IfOk};
ghost use Rattle.mls_wire.specs.Checks.{AnswersOutright, passed};
ghost use Rattle.mls_leaf.specs.KeyPackage.{key_package as key_package_format};
ghost use Rattle.mls_leaf.specs.Proposal.{proposal as proposal_format};
ghost use Rattle.mls_leaf.specs.declared.proposal.Proposal.TheVariants.{Update};
ghost use Rattle.mls_candidate.specs.Leaves.{public_leaf_key};
ghost use Rattle.mls_checks.specs.Checks.{key_package_checks};
ghost use Rattle.mls_public_group.specs.Faults.{number_of as number_of_group, Gives, Passes};
ghost use Rattle.mls_public_group.specs.Short.{IsBelow};
ghost use Rattle.mls_model.specs.MemberInvariant.{IsGoodMember};
ghost use Rattle.mls_member.specs.Proposing.{updated_answer, ProposesAdd, ProposesExtensions, ProposesRemove, ProposesUpdate, RefusesNonMember, own_leaf_check};
ghost use Rattle.mls_member.specs.declared.error.Refusal.TheVariants.{Gone};

use crate::error::Refusal;
use crate::member::Member;
use mls_candidate::{leaf_pair, renewed_leaf_with_key};
use mls_kdf::Seed;
use mls_leaf::{GroupExtensions, KeyPackage, LeafNode, LeafSource, Proposal};
use mls_public_group::GroupError;
use mls_suite::{KeyPair, Suite};
use mls_tree::TreeError;

impl<S: Suite> Member<S> {
    /// The checks of a KeyPackage (RFC 9420, 12.1.1).
    fn require_package(&self, key_package: &KeyPackage) -> Result<(), GroupError>
        requires { IsBelow (2 ^ 28) key_package_format key_package.now }
        ensures { Passes (key_package_checks S.crypto key_package.now) result }
    {
        mls_checks::key_package::<S>(self.alloc, key_package)?;
        Ok(())
    }

    /// The leaf of an update, with the key that the seed gives: `NoSuchLeaf` (22) where the member has none (RFC 9420, 7.2).
    fn updated_leaf(&self, seed: &Seed, key: Vec<u8>) -> Result<LeafNode, GroupError>
        requires { key.items ≡ public_leaf_key S.crypto seed.now }
        ensures leaf { Gives (updated_answer S.crypto self.now seed.now) result }
        ensures short { IfOk result (λ v. IsBelow (2 ^ 28) proposal_format (Update v)) }
    {
        let speaker = self.speaker();
        let group = speaker.group;
        let index = speaker.leaf;
        group.is_short();
        let Some(old) = group.tree().leaf(index) else {
            return Err(GroupError::Tree(TreeError::NoSuchLeaf));
        };
        let group_id = group.context().group_id.as_slice();
        let source = LeafSource::Update;
        let signing = speaker.signing;
        let alloc = self.alloc;
        let leaf = renewed_leaf_with_key::<S>(alloc, signing, group_id, index, old, source, key)?;
        Ok(leaf)
    }

    /// Refuses where the member has no leaf (`NoSuchLeaf` 22). It takes no memory.
    fn require_own_leaf(&self) -> Result<(), GroupError>
        ensures { AnswersOutright (λ _. passed) number_of_group (own_leaf_check self.now) result }
    {
        match self.group.tree().leaf(self.keys.leaf()) {
            Some(_) => Ok(()),
            None => Err(GroupError::Tree(TreeError::NoSuchLeaf)),
        }
    }

    /// Proposes to add a KeyPackage: its message, which the member keeps. `Gone` (40) the member was removed, then the
    /// checks of the KeyPackage, `TooLong` (6) the message is too long, `ReferenceTaken` (49) another message is kept
    /// under its reference (RFC 9420, 12.1.1).
    #[tactic(auto, unfolding(mls_model::specs::Propose::propose_add, mls_model::specs::Propose::make_proposal, mls_model::specs::Proposals::proposal_checks))]
    pub fn propose_add(&mut self, key_package: &KeyPackage) -> Result<Vec<u8>, Refusal>
        requires { IsBelow (2 ^ 28) key_package_format key_package.now }
        ensures answer { ProposesAdd S.crypto key_package.now self.old self.new result }
        ensures good { IsGoodMember S.crypto self.old → IsGoodMember S.crypto self.new }
        // `Gone` (40) comes also when an allocation fails.
        ensures gone { self.old.gone ≡ true → result ≡ Err Gone }
    {
        if self.gone {
            return Err(Refusal::Gone);
        }
        self.require_package(key_package)?;
        self.send_and_keep(Proposal::Add(key_package.clone()?), None)
    }

    /// Proposes a new key for the member's own leaf, made of the seed: its message, which the member keeps with the
    /// key. `Gone` (40) the member was removed, then the checks of an update, `TooLong` (6) and `ReferenceTaken` (49)
    /// as of an addition (RFC 9420, 12.1.2).
    #[tactic(auto, unfolding(mls_model::specs::Propose::propose_update, mls_model::specs::Propose::make_proposal))]
    pub fn propose_update(&mut self, seed: &Seed) -> Result<Vec<u8>, Refusal>
        ensures answer { ProposesUpdate S.crypto seed.now self.old self.new result }
        ensures good { IsGoodMember S.crypto self.old → IsGoodMember S.crypto self.new }
        // `Gone` (40), and then `NoSuchLeaf` (22), come also when an allocation fails.
        ensures gone { self.old.gone ≡ true → result ≡ Err Gone }
        ensures no_leaf { RefusesNonMember self.old self.old.keys.leaf result }
    {
        if self.gone {
            return Err(Refusal::Gone);
        }
        self.require_own_leaf()?;
        let KeyPair { sk, pk } = leaf_pair::<S>(self.alloc, seed)?;
        let proposal = Proposal::Update(self.updated_leaf(seed, pk)?);
        let sender = self.keys.leaf();
        if let Err(error) = self
            .group
            .require_proposal::<S>(self.alloc, sender, &proposal)
        {
            drop(proposal);
            return Err(error.into());
        }
        self.send_and_keep(proposal, Some(sk))
    }

    /// Proposes to remove the member at a leaf: its message, which the member keeps. `Gone` (40) the member was
    /// removed, `NoSuchLeaf` (22) no member is at that leaf, `TooLong` (6) and `ReferenceTaken` (49) as of an addition
    /// (RFC 9420, 12.1.3).
    #[tactic(auto, unfolding(mls_model::specs::Propose::propose_remove, mls_model::specs::Propose::make_proposal))]
    pub fn propose_remove(&mut self, leaf: u32) -> Result<Vec<u8>, Refusal>
        ensures answer { ProposesRemove S.crypto leaf self.old self.new result }
        ensures good { IsGoodMember S.crypto self.old → IsGoodMember S.crypto self.new }
        // `Gone` (40), and then `NoSuchLeaf` (22), come also when an allocation fails.
        ensures gone { self.old.gone ≡ true → result ≡ Err Gone }
        ensures no_leaf { RefusesNonMember self.old leaf result }
    {
        if self.gone {
            return Err(Refusal::Gone);
        }
        let proposal = Proposal::Remove(leaf);
        let sender = self.keys.leaf();
        self.group
            .require_proposal::<S>(self.alloc, sender, &proposal)?;
        self.send_and_keep(proposal, None)
    }

    /// Proposes that the group carry these extensions in place of its own: the message, which the member keeps. `Gone`
    /// (40) the member was removed, `TooLong` (6) and `ReferenceTaken` (49) as of an addition (RFC 9420, 12.1.7).
    #[tactic(auto, unfolding(mls_model::specs::Propose::propose_extensions, mls_model::specs::Propose::make_proposal, mls_model::specs::Proposals::proposal_checks))]
    pub fn propose_extensions(&mut self, extensions: GroupExtensions) -> Result<Vec<u8>, Refusal>
        ensures answer { ProposesExtensions S.crypto extensions self.old self.new result }
        ensures good { IsGoodMember S.crypto self.old → IsGoodMember S.crypto self.new }
        // `Gone` (40) comes also when an allocation fails.
        ensures gone { self.old.gone ≡ true → result ≡ Err Gone }
    {
        if self.gone {
            return Err(Refusal::Gone);
        }
        let _entries = extensions.as_slice(); // They may be carried, for the proof.
        let proposal = Proposal::GroupContextExtensions(extensions);
        self.send_and_keep(proposal, None)
    }
}
