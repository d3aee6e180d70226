//! KeyPackages whose length has been tested.

ghost use Rattle.std.specs.Prelude.{◌≡◌, ◌^◌, IfOk};
ghost use Rattle.mls_leaf.specs.KeyPackage.{key_package as key_package_format};
ghost use Rattle.mls_leaf.specs.declared.proposal.Proposal.TheVariants.{Add};
ghost use Rattle.mls_types.specs.declared.commit.ProposalOrRef.TheVariants.{Proposal as in_full};
ghost use Rattle.mls_model.specs.Make.{list_item_of};
ghost use Rattle.mls_public_group.specs.Short.{IsBelow};
ghost use Rattle.mls_member.specs.Answers.{IsShortItem};
ghost use Rattle.mls_member.specs.ShortPackages.{TestsLength};

use mls_leaf::{Codec, INPUT_LIMIT, KeyPackage, LeafError, Proposal};
use mls_model::Item;
use mls_suite::OutOfMemory;
use mls_wire::WireError;
use std::alloc::Global;
use std::marker::Model;

/// A KeyPackage that is spelled in at most `INPUT_LIMIT` bytes, as each is that was decoded: `propose_add` and `commit`
/// take it with no further condition (RFC 9420, 10).
#[derive(Drop)]
pub struct ShortKeyPackage {
    key_package: KeyPackage,
}

impl Model for ShortKeyPackage {
    ghost use Rattle.mls_leaf.specs.declared.key_package.KeyPackage as declared;
    ghost use Rattle.mls_member.specs.ShortPackages.{IsShortPackage};

    ghost Value = { declared.KeyPackage };

    ghost view = { λ s. s.key_package };

    ghost invariant = { λ s. IsShortPackage s.key_package };
}

impl ShortKeyPackage {
    /// Tests the length: `TooLong` (6) where the KeyPackage is spelled in more than `INPUT_LIMIT` bytes.
    #[tactic(auto, using(crate::proofs::ShortPackages::refuses_stronger))]
    pub fn new(alloc: Global, key_package: KeyPackage) -> Result<ShortKeyPackage, LeafError>
        ensures { TestsLength key_package result }
    {
        let length = match key_package.encode(alloc) {
            Ok(bytes) => bytes.len(),
            Err(error) => {
                drop(key_package);
                return Err(error);
            }
        };
        if length > INPUT_LIMIT {
            drop(key_package);
            return Err(LeafError::Wire(WireError::TooLong));
        }
        Ok(ShortKeyPackage { key_package })
    }

    /// The KeyPackage, for `propose_add`.
    pub fn as_key_package(&self) -> &KeyPackage
        ensures same { result.now ≡ self.now }
        ensures short { IsBelow (2 ^ 28) key_package_format result.now }
    {
        &self.key_package
    }

    /// The item of a commit's list that adds it: the proposal, in full (RFC 9420, 12.1.1).
    pub fn addition(&self) -> Result<Item, OutOfMemory>
        ensures item { IfOk result (λ i. list_item_of i ≡ in_full (Add self.now)) }
        ensures short { IfOk result IsShortItem }
    {
        Ok(Item::Full(Proposal::Add(self.key_package.clone()?)))
    }
}
