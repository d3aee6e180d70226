//! Leaves that are made of seeds.

ghost use Rattle.std.specs.Prelude.{◌≡◌, ◌<◌, ◌^◌, [], ◌∷◌, length, IfOk};
ghost use Rattle.mls_leaf.specs.Leaf.{leaf_node, leaf_source};
ghost use Rattle.mls_leaf.specs.declared.leaf.LeafSource.TheVariants.{KeyPackage as by_key_package};
ghost use Rattle.mls_public_group.specs.Short.{IsBelow};
ghost use Rattle.mls_candidate.specs.Short.{IsShortSource, IsShortLeaf};
ghost use Rattle.mls_model.specs.Candidate.{leaf_key_of, made_capabilities, signed_leaf};
ghost use Rattle.mls_candidate.specs.Leaves.{IsLeafOf, IsPublicKey, RenewsWithKey, public_leaf_key};

use mls_kdf::{Secret, Seed};
use mls_leaf::{
    Bytes, Capabilities, Credential, Items, LeafNode, LeafSource, SpelledCapabilities,
    bytes_or_out_of_memory,
};
use mls_suite::{KeyPair, OutOfMemory, Suite, sign_with_label};
use mls_treekem::leaf_seed;
use std::alloc::{AllocError, Global};

/// The key pair of the leaf that is made of a seed.
#[tactic(auto, unfolding(mls_model::specs::Candidate::leaf_key_of))]
pub fn leaf_pair<S: Suite>(alloc: Global, seed: &Seed) -> Result<KeyPair, OutOfMemory>
    ensures private { IfOk result (λ pair. pair.sk ≡ leaf_key_of S.crypto seed.now) }
    ensures public { IfOk result (λ pair. pair.pk.items ≡ public_leaf_key S.crypto seed.now) }
{
    S::derive_key_pair(alloc, &leaf_seed(seed))
}

/// One number.
fn one_number(alloc: Global, number: u16) -> Result<Items<u16>, OutOfMemory>
    ensures { IfOk result (λ v. v ≡ number ∷ []) }
{
    Ok(Items::from_vec(vec![in alloc; number]?))
}

/// What each leaf that is made can handle: version 1, the suite and credential 1 (RFC 9420, 7.2).
#[tactic(auto, unfolding(mls_model::specs::Candidate::made_capabilities))]
fn made_lists<S: Suite>(alloc: Global) -> Result<Capabilities, OutOfMemory>
    ensures { IfOk result (λ v. v ≡ made_capabilities S.crypto) }
{
    Ok(Capabilities {
        versions: one_number(alloc, 1)?,
        cipher_suites: one_number(alloc, S::NUMBER)?,
        extensions: Items::from_vec(Vec::new(alloc)),
        proposals: Items::from_vec(Vec::new(alloc)),
        credentials: one_number(alloc, 1)?,
    })
}

/// The same as they are spelled.
fn made_capabilities<S: Suite>(alloc: Global) -> Result<SpelledCapabilities, OutOfMemory>
    ensures { IfOk result (λ v. v ≡ made_capabilities S.crypto) }
{
    let lists = made_lists::<S>(alloc)?;
    match SpelledCapabilities::of(alloc, &lists) {
        Ok(capabilities) => Ok(capabilities),
        // Want of memory, since the lists are short.
        Err(_) => Err(AllocError),
    }
}

/// A leaf that is not signed yet (RFC 9420, 7.2).
#[tactic(auto, unfolding(mls_model::specs::Candidate::unsigned_leaf))]
pub(crate) fn unsigned_leaf<S: Suite>(
    alloc: Global,
    encryption_key: Vec<u8>,
    signature_key: Bytes,
    credential: Credential,
    source: LeafSource,
) -> Result<LeafNode, OutOfMemory>
    ensures { IfOk result (IsLeafOf S.crypto encryption_key.items signature_key credential source) }
{
    let capabilities = made_capabilities::<S>(alloc)?;
    Ok(LeafNode {
        encryption_key: Bytes::from_vec(encryption_key),
        signature_key,
        credential,
        capabilities,
        source,
        signature: Bytes::from_vec(Vec::new(alloc)),
    })
}

/// The leaf with its signature in a group and at a leaf index (RFC 9420, 7.2). For a leaf of a KeyPackage these two do
/// not count.
#[tactic(auto, unfolding(mls_model::specs::Candidate::signed_leaf))]
pub(crate) fn sign_leaf<S: Suite>(
    alloc: Global,
    signing: &Secret,
    group_id: &[u8],
    index: u32,
    mut leaf: LeafNode,
) -> Result<LeafNode, OutOfMemory>
    requires leaf { IsShortLeaf leaf }
    requires group { length group_id.now < 2 ^ 28 }
    ensures leaf { IfOk result (λ v. v ≡ signed_leaf S.crypto signing.now group_id.now index leaf) }
    ensures below { IfOk result (λ v. IsBelow (2 ^ 28) leaf_node v) }
{
    let text = bytes_or_out_of_memory(leaf.to_be_signed(alloc, group_id, index))?;
    let signature = sign_with_label::<S>(alloc, signing, "LeafNodeTBS", &text)?;
    leaf.signature = Bytes::from_vec(signature);
    Ok(leaf)
}

/// A lifetime has a spelling, since its numbers have 64 bits.
fn lifetime_has_spelling(not_before: u64, not_after: u64)
    ensures { leaf_source.Fits (by_key_package not_before not_after) }
{}

/// A source whose hash is short has a spelling.
fn source_has_spelling(source: &LeafSource)
    requires { IsShortSource source.now }
    ensures { leaf_source.Fits source.now }
{
    match source {
        LeafSource::KeyPackage {
            not_before,
            not_after,
        } => lifetime_has_spelling(*not_before, *not_after),
        LeafSource::Update => {}
        LeafSource::Commit { .. } => {}
    }
}

/// A leaf that replaces another in a group: it has this encryption key, its signature key and its credential are those
/// of the old one, and it is signed (RFC 9420, 7.2). A parent hash in its source has at most 32 bytes.
pub fn renewed_leaf_with_key<S: Suite>(
    alloc: Global,
    signing: &Secret,
    group_id: &[u8],
    index: u32,
    old: &LeafNode,
    source: LeafSource,
    encryption_key: Vec<u8>,
) -> Result<LeafNode, OutOfMemory>
    requires old { IsBelow (2 ^ 27) leaf_node old.now }
    requires group { length group_id.now < 2 ^ 28 }
    requires source { IsShortSource source }
    requires key { IsPublicKey S.crypto encryption_key.items }
    ensures leaf { RenewsWithKey S.crypto signing.now group_id.now index old.now source
        encryption_key.items result }
    // It isn't much longer than the old one.
    ensures below { IfOk result (λ leaf. IsBelow (2 ^ 28) leaf_node leaf) }
{
    source_has_spelling(&source);
    let signature_key = Bytes::from_slice(alloc, old.signature_key.as_slice())?;
    let credential = old.credential.clone()?;
    let leaf = unsigned_leaf::<S>(alloc, encryption_key, signature_key, credential, source)?;
    sign_leaf::<S>(alloc, signing, group_id, index, leaf)
}
