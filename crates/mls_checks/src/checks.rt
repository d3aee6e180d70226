//! The checks in order.

ghost use Rattle.std.specs.Prelude.{◌≡◌, ◌<◌, ◌^◌, length};
ghost use Rattle.mls_leaf.specs.KeyPackage.{key_package as package_format};
ghost use Rattle.mls_leaf.specs.Leaf.{leaf_node};
ghost use Rattle.mls_checks.specs.Checks.{key_package_checks, replacement_checks};
ghost use Rattle.mls_checks.specs.Faults.{ChecksAs};
ghost use Rattle.mls_checks.specs.Leaf.{is_of_source, has_identity_of};
ghost use Rattle.mls_checks.specs.Short.{IsShort};

use crate::error::CheckError;
use crate::leaf::{is_package_signed, leaf_capable, leaf_signed};
use mls_leaf::{KeyPackage, LeafNode, LeafSource};
use mls_suite::Suite;
use std::alloc::Global;

/// For what a leaf replaces another.
#[derive(Clone, Copy, Debug, PartialEq, Eq)]
pub enum LeafUse {
    /// An update proposal.
    Update,
    /// The path of a commit.
    Commit,
}

/// Whether the leaf was made for that.
fn is_of_source(source: LeafUse, of: &LeafSource) -> bool
    ensures { result ≡ is_of_source source of.now }
{
    match source {
        LeafUse::Update => matches!(of, LeafSource::Update),
        LeafUse::Commit => matches!(of, LeafSource::Commit { .. }),
    }
}

/// Whether both leaves have one signature key and one credential.
#[tactic(auto, unfolding(crate::specs::Leaf::has_identity_of))]
fn has_identity_of(new: &LeafNode, old: &LeafNode) -> bool
    ensures { result ≡ has_identity_of old.now new.now }
{
    new.signature_key == old.signature_key && new.credential.identity == old.credential.identity
}

/// The checks of a key package (RFC 9420, 7.3 and 10.1). The first that fails is answered: the leaf's source, its
/// signature, its capabilities, the suite, the package's signature, equal keys, an unfit key.
#[tactic(auto, unfolding(crate::specs::Checks::key_package_checks))]
pub fn key_package<S: Suite>(alloc: Global, offered: &KeyPackage) -> Result<(), CheckError>
    requires { IsShort package_format offered.now }
    ensures { ChecksAs (key_package_checks S.crypto offered.now) result }
{
    let leaf = &offered.leaf_node;
    if !matches!(leaf.source, LeafSource::KeyPackage { .. }) {
        return Err(CheckError::LeafSource);
    }
    if !leaf_signed::<S>(alloc, leaf, &[], 0)? {
        return Err(CheckError::LeafSignature);
    }
    if !leaf_capable(leaf, S::NUMBER) {
        return Err(CheckError::LeafCapability);
    }
    if offered.cipher_suite != S::NUMBER {
        return Err(CheckError::KeyPackageSuite);
    }
    if !is_package_signed::<S>(alloc, offered)? {
        return Err(CheckError::KeyPackageSignature);
    }
    if offered.init_key == leaf.encryption_key {
        return Err(CheckError::InitKeySame);
    }
    if !S::key_ok(offered.init_key.as_slice()) || !S::key_ok(leaf.encryption_key.as_slice()) {
        return Err(CheckError::BadKey);
    }
    Ok(())
}

/// The checks of a leaf that was made for an update or a commit, and of the leaf that it replaces (RFC 9420, 7.3). The
/// first that fails is answered: the leaf's source, its signature, its capabilities, its identity, its key.
#[tactic(auto, unfolding(crate::specs::Checks::replacement_checks))]
pub fn check_replacement<S: Suite>(
    alloc: Global,
    new: &LeafNode,
    old: &LeafNode,
    source: LeafUse,
    group_id: &[u8],
    index: u32,
) -> Result<(), CheckError>
    requires leaf { IsShort leaf_node new.now }
    requires group { length group_id.now < 2 ^ 28 }
    ensures { ChecksAs (replacement_checks S.crypto new.now old.now source group_id.now index)
        result }
{
    if !is_of_source(source, &new.source) {
        return Err(CheckError::LeafSource);
    }
    if !leaf_signed::<S>(alloc, new, group_id, index)? {
        return Err(CheckError::LeafSignature);
    }
    if !leaf_capable(new, S::NUMBER) {
        return Err(CheckError::LeafCapability);
    }
    if !has_identity_of(new, old) {
        return Err(CheckError::LeafIdentityChanged);
    }
    if new.encryption_key == old.encryption_key {
        return Err(CheckError::LeafKeySame);
    }
    Ok(())
}
