//! Candidates.

ghost use Rattle.std.specs.Prelude.{◌≡◌, ◌^◌, IfOk};
ghost use Rattle.mls_leaf.specs.KeyPackage.{key_package as key_package_format};
ghost use Rattle.mls_leaf.specs.Leaf.{leaf_node as leaf_format};
ghost use Rattle.mls_leaf.specs.declared.proposal.Proposal.TheVariants.{Add};
ghost use Rattle.mls_saved.specs.Loading.{Loads};
ghost use Rattle.mls_public_group.specs.Short.{IsBelow};
ghost use Rattle.mls_public_group.specs.ShortProposal.{IsShortProposal};
ghost use Rattle.mls_model.specs.MemberInvariant.{IsGoodCandidate};
ghost use Rattle.mls_model.specs.Candidate.{new_candidate, package_message};
ghost use Rattle.mls_candidate.specs.Faults.{Gives, GivesBytes};
ghost use Rattle.mls_candidate.specs.LoadFaults.{number_of, RefusesUndecoded};
ghost use Rattle.mls_candidate.specs.Saved.{save_candidate, load_candidate, LoadsAsSaved};

use crate::error::CandidateError;
use crate::leaf::leaf_pair;
use crate::load::{has_32_bytes, load_parts, saved_spelling, secret_bytes};
use crate::load_error::CandidateLoadError;
use crate::package::{init_pair, offered_package, package_message};
use crate::texts::within_limit;
use mls_kdf::{Secret, Seed};
use mls_leaf::{INPUT_LIMIT, KeyPackage, LeafError, LeafNode, Proposal};
use mls_saved::SavedCandidate;
use mls_suite::{OutOfMemory, Suite};
use mls_treekem::sign_seed;
use mls_wire::WireError;
use std::alloc::Global;
use std::marker::{Model, PhantomData};

// The message would be longer than an input may be.
const TOO_LONG: CandidateError = CandidateError::Leaf(LeafError::Wire(WireError::TooLong));

/// A candidate for membership: its KeyPackage, and the private keys of its init key, of its leaf and of its signatures
/// (RFC 9420, 10).
pub struct Candidate<S: Suite> {
    offered: KeyPackage,
    message: Vec<u8>,
    init: Secret,
    leaf: Secret,
    signing: Secret,
    suite: PhantomData<S>,
}

impl<S: Suite> Drop for Candidate<S> {
    fn drop(self) {
        let Candidate {
            offered: _,
            message: _,
            init: _,
            leaf: _,
            signing: _,
            suite: _,
        } = self;
    }
}

impl<S: Suite> Model for Candidate<S> {
    ghost use Rattle.std.specs.Prelude.{◌≡◌, ◌^◌};
    ghost use Rattle.mls_leaf.specs.KeyPackage.{key_package};
    ghost use Rattle.mls_public_group.specs.Short.{IsBelow};
    ghost use Rattle.mls_model.specs.Candidate as model;

    ghost Value = { model.Candidate };

    ghost view = { λ k. record {
      offered = k.offered;
      init = k.init;
      leaf = k.leaf;
      signing = k.signing;
    } };

    ghost invariant = { λ k. (k.message.items ≡ model.package_message k.offered)
        × IsBelow (2 ^ 27) key_package k.offered };
}

impl<S: Suite> Candidate<S> {
    /// A candidate of an identity and a seed: `InitKeySame` (57) where both keys are one, `TooLong` (6) where the
    /// message is too large.
    pub fn new(alloc: Global, identity: &[u8], seed: &Seed) -> Result<Candidate<S>, CandidateError>
        ensures answer { Gives (new_candidate S.crypto identity.now seed.now) result }
        ensures good { IfOk result (IsGoodCandidate S.crypto) }
    {
        let init = init_pair::<S>(alloc, seed)?;
        let leaf = leaf_pair::<S>(alloc, seed)?;
        if init.pk == leaf.pk {
            return Err(CandidateError::InitKeySame);
        }
        // A longer one makes its message too large, whatever the signatures are.
        if identity.len() > INPUT_LIMIT {
            return Err(TOO_LONG);
        }
        let offered = offered_package::<S>(alloc, identity, seed, init.pk, leaf.pk)?;
        let message = package_message(alloc, &offered)?;
        if !within_limit(&message) {
            return Err(TOO_LONG);
        }
        Ok(Candidate {
            offered,
            message,
            init: init.sk,
            leaf: leaf.sk,
            signing: sign_seed(seed),
            suite: PhantomData,
        })
    }

    /// The bytes that the candidate is saved as, which hold its private keys. `TooLong` (6) where they are more than an
    /// input may have.
    #[tactic(auto, unfolding(crate::specs::Saved::save_candidate, crate::specs::Saved::saved_parts))]
    pub fn save(&self, alloc: Global) -> Result<Vec<u8>, CandidateError>
        ensures { GivesBytes (save_candidate self.now) result }
    {
        let saved = SavedCandidate {
            key_package: self.offered.clone()?,
            init: secret_bytes(alloc, &self.init)?,
            leaf: secret_bytes(alloc, &self.leaf)?,
            signing: secret_bytes(alloc, &self.signing)?,
        };
        let bytes = saved_spelling(alloc, &saved)?;
        if !within_limit(&bytes) {
            return Err(TOO_LONG);
        }
        Ok(bytes)
    }

    /// The candidate that was saved as these bytes: decoding, `OtherSuite` (100) another suite, `BadSecret` (101) a secret
    /// that hasn't 32 bytes, 50 to 52, 56, 57 and `BadKey` (36) the checks of its KeyPackage, `OtherKey` (104) a private
    /// key that isn't that of the public key that is offered.
    pub fn load(alloc: Global, bytes: &[u8]) -> Result<Candidate<S>, CandidateLoadError>
        ensures answer { Loads number_of (load_candidate S.crypto bytes.now) result }
        ensures good { IfOk result (IsGoodCandidate S.crypto) }
        // Faults of decoding come also when an allocation fails.
        ensures outright { RefusesUndecoded bytes.now result }
    {
        let parts = load_parts::<S>(alloc, bytes)?;
        let message = package_message(alloc, &parts.offered)?;
        Ok(Candidate {
            offered: parts.offered,
            message,
            init: parts.init,
            leaf: parts.leaf,
            signing: parts.signing,
            suite: PhantomData,
        })
    }

    /// A law: what a good candidate is saved as is loaded as that candidate.
    pub fn loaded_as_saved(&self)
        requires { IsGoodCandidate S.crypto self.now }
        ensures { LoadsAsSaved S.crypto self.now }
    {
        has_32_bytes(&self.init);
        has_32_bytes(&self.leaf);
        has_32_bytes(&self.signing);
    }

    /// The message of its KeyPackage (RFC 9420, 6).
    pub fn message(&self) -> &[u8]
        ensures { result.now ≡ package_message self.now.offered }
    {
        &self.message
    }

    /// Its KeyPackage (RFC 9420, 10).
    pub fn key_package(&self) -> &KeyPackage
        ensures { result.now ≡ self.now.offered }
    {
        &self.offered
    }

    /// The leaf of its KeyPackage (RFC 9420, 7.2), which is spelled in fewer than 2^27 bytes.
    pub fn leaf_node(&self) -> &LeafNode
        ensures leaf { result.now ≡ self.now.offered.leaf_node }
        ensures below { IsBelow (2 ^ 27) leaf_format result.now }
    {
        &self.offered.leaf_node
    }

    /// The private key of its init key.
    pub fn init_key(&self) -> &Secret
        ensures { result.now ≡ self.now.init }
    {
        &self.init
    }

    /// The private key of its leaf.
    pub fn leaf_key(&self) -> &Secret
        ensures { result.now ≡ self.now.leaf }
    {
        &self.leaf
    }

    /// The private key of its signatures.
    pub fn signing_key(&self) -> &Secret
        ensures { result.now ≡ self.now.signing }
    {
        &self.signing
    }

    /// A law: its KeyPackage is short.
    pub fn is_short(&self)
        ensures { IsBelow (2 ^ 27) key_package_format self.now.offered }
    {
        let _offered = &self.offered;
    }

    /// The proposal that adds it (RFC 9420, 12.1.1).
    pub fn addition(&self) -> Result<Proposal, OutOfMemory>
        ensures add { IfOk result (λ p. p ≡ Add self.now.offered) }
        ensures short { IfOk result IsShortProposal }
    {
        Ok(Proposal::Add(self.offered.clone()?))
    }
}
