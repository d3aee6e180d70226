//! The KeyPackages that candidates offer.

ghost use Rattle.std.specs.Prelude.{◌≡◌, ◌≤◌, ◌^◌, length, IfOk};
ghost use Rattle.mls_leaf.specs.Faults.{Writes};
ghost use Rattle.mls_leaf.specs.KeyPackage.{key_package};
ghost use Rattle.mls_leaf.specs.Leaf.{leaf_node as leaf_format};
ghost use Rattle.mls_leaf.specs.Limits.{input_limit};
ghost use Rattle.mls_public_group.specs.Short.{IsBelow};
ghost use Rattle.mls_candidate.specs.Short.{IsShortPackage};
ghost use Rattle.mls_model.specs.Candidate.{init_key_of, offered_leaf, signed_package, package_message};
ghost use Rattle.mls_candidate.specs.Leaves.{offered_package, public_init_key, public_leaf_key};

use crate::leaf::{sign_leaf, unsigned_leaf};
use mls_kdf::{Secret, Seed};
use mls_leaf::{
    Bytes, Codec, Credential, KeyPackage, LeafError, LeafNode, LeafSource, bytes_or_out_of_memory,
};
use mls_suite::{KeyPair, OutOfMemory, Suite, sign_with_label};
use mls_treekem::{init_seed, sign_seed};
use mls_wire::Writer;
use std::alloc::Global;

/// The key pair of the init key that is made of a seed.
#[tactic(auto, unfolding(mls_model::specs::Candidate::init_key_of))]
pub(crate) fn init_pair<S: Suite>(alloc: Global, seed: &Seed) -> Result<KeyPair, OutOfMemory>
    ensures private { IfOk result (λ pair. pair.sk ≡ init_key_of S.crypto seed.now) }
    ensures public { IfOk result (λ pair. pair.pk.items ≡ public_init_key S.crypto seed.now) }
{
    S::derive_key_pair(alloc, &init_seed(seed))
}

/// The leaf that a candidate offers, with its encryption key; its lifetime is without end (RFC 9420, 7.2).
#[tactic(auto, unfolding(mls_model::specs::Candidate::offered_leaf))]
fn offered_leaf<S: Suite>(
    alloc: Global,
    identity: &[u8],
    seed: &Seed,
    encryption_key: Vec<u8>,
) -> Result<LeafNode, OutOfMemory>
    requires identity { length identity.now ≤ input_limit }
    requires key { encryption_key.items ≡ public_leaf_key S.crypto seed.now }
    ensures leaf { IfOk result (λ v. v ≡ offered_leaf S.crypto identity.now seed.now) }
    ensures below { IfOk result (λ v. IsBelow (2 ^ 28) leaf_format v) }
{
    let signing = sign_seed(seed);
    let signature_key = Bytes::from_vec(S::sig_public(alloc, &signing)?);
    let identity = Bytes::from_slice(alloc, identity)?;
    let source = LeafSource::KeyPackage {
        not_before: 0,
        not_after: u64::MAX,
    };
    let credential = Credential { identity };
    let leaf = unsigned_leaf::<S>(alloc, encryption_key, signature_key, credential, source)?;
    sign_leaf::<S>(alloc, &signing, &[], 0, leaf)
}

/// The KeyPackage with its signature (RFC 9420, 10).
#[tactic(auto, unfolding(mls_model::specs::Candidate::signed_package))]
fn sign_package<S: Suite>(
    alloc: Global,
    signing: &Secret,
    mut offered: KeyPackage,
) -> Result<KeyPackage, OutOfMemory>
    requires { IsShortPackage offered }
    ensures package { IfOk result (λ k. k ≡ signed_package S.crypto signing.now offered) }
    ensures fits { IfOk result (λ k. key_package.Fits k) }
{
    let text = bytes_or_out_of_memory(offered.to_be_signed(alloc))?;
    let signature = sign_with_label::<S>(alloc, signing, "KeyPackageTBS", &text)?;
    offered.signature = Bytes::from_vec(signature);
    Ok(offered)
}

/// The KeyPackage that a candidate offers, with its public keys (RFC 9420, 10).
#[tactic(auto, unfolding(mls_model::specs::Candidate::unsigned_package))]
pub(crate) fn offered_package<S: Suite>(
    alloc: Global,
    identity: &[u8],
    seed: &Seed,
    init_key: Vec<u8>,
    encryption_key: Vec<u8>,
) -> Result<KeyPackage, OutOfMemory>
    requires identity { length identity.now ≤ input_limit }
    requires init { init_key.items ≡ public_init_key S.crypto seed.now }
    requires leaf { encryption_key.items ≡ public_leaf_key S.crypto seed.now }
    ensures package { IfOk result (λ k. k ≡ offered_package S.crypto identity.now seed.now) }
    ensures fits { IfOk result (λ k. key_package.Fits k) }
{
    let leaf_node = offered_leaf::<S>(alloc, identity, seed, encryption_key)?;
    let offered = KeyPackage {
        cipher_suite: S::NUMBER,
        init_key: Bytes::from_vec(init_key),
        leaf_node,
        signature: Bytes::from_vec(Vec::new(alloc)),
    };
    sign_package::<S>(alloc, &sign_seed(seed), offered)
}

/// Writes the message of a KeyPackage: version 1, wire format 5, and the KeyPackage.
/// TooLong where a vector in it has 2^30 bytes or more.
#[tactic(auto, using(mls_leaf::proofs::Codecs::codecs), unfolding(mls_model::specs::Candidate::package_message, mls_types::specs::Message::mls_message))]
fn write_message(alloc: Global, offered: &KeyPackage) -> Result<Vec<u8>, LeafError>
    ensures { Writes (key_package.Fits offered.now) (package_message offered.now) result }
{
    let mut writer = Writer::new(alloc);
    writer.u16(1)?;
    writer.u16(5)?;
    offered.write(alloc, &mut writer)?;
    Ok(writer.into_bytes())
}

/// The message of a KeyPackage (RFC 9420, 6).
pub(crate) fn package_message(alloc: Global, offered: &KeyPackage) -> Result<Vec<u8>, OutOfMemory>
    requires { key_package.Fits offered.now }
    ensures { IfOk result (λ v. v.items ≡ package_message offered.now) }
{
    bytes_or_out_of_memory(write_message(alloc, offered))
}
