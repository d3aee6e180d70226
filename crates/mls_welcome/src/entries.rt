//! The entries of a Welcome (RFC 9420, 12.4.3.1).

ghost use Rattle.std.specs.Prelude.{◌≡◌, ◌<◌, ◌^◌, ◌+◌, Ok, IfOk, IfSome, length, map};
ghost use Rattle.std.specs.Option.{option_copied};
ghost use Rattle.mls_leaf.specs.KeyPackage.{key_package};
ghost use Rattle.mls_public_group.specs.Short.{IsBelow};
ghost use Rattle.mls_types.specs.Welcome.{group_secrets};
ghost use Rattle.mls_model.specs.Proposals.{package_reference};
ghost use Rattle.mls_model.specs.Welcome.{entry_for};
ghost use Rattle.mls_welcome.specs.Joiners.{package_and_leaf_of, AreShortJoiners};
ghost use Rattle.mls_welcome.specs.Faults.{Gives};
ghost use Rattle.mls_welcome.specs.WelcomeMessage.{have_fit_keys};
ghost use Rattle.mls_welcome.specs.Entries.{IsSecretsOf, SealsEntries, SealsUnder, SpellsSecrets, entry_of};

use crate::error::WelcomeError;
use crate::welcome_message::Joiner;
use mls_kdf::{HmacKey, Secret};
use mls_leaf::{Bytes, Codec, KeyPackage, key_package_reference};
use mls_suite::{OutOfMemory, Sealed, Suite, content_with_label};
use mls_treekem::seal_seed_of;
use mls_types::{EncryptedGroupSecrets, GroupSecrets, HpkeCiphertext};
use std::alloc::{AllocError, Global};
use std::marker::Model;

/// A byte string of a secret.
fn bytes_of(alloc: Global, secret: &Secret) -> Result<Bytes, AllocError>
    ensures value { IfOk result (λ b. b ≡ secret.now) }
    ensures short { IfOk result (λ b. length b ≡ 32) }
{
    let bytes = Vec::from_slice(alloc, secret)?;
    Ok(Bytes::from_vec(bytes))
}

/// A byte string of a secret, where there is one.
fn bytes_if(alloc: Global, secret: Option<&Secret>) -> Result<Option<Bytes>, AllocError>
    ensures value { IfOk result (λ o. o ≡ option_copied secret.entry) }
    ensures short { IfOk result (λ o. IfSome o (λ b. length b ≡ 32)) }
{
    match secret {
        Some(secret) => Ok(Some(bytes_of(alloc, secret)?)),
        None => Ok(None),
    }
}

/// The GroupSecrets of a joiner: the joiner secret, the path secret where there is one, and no pre-shared key.
#[tactic(auto, using(crate::proofs::Fitting::secrets_fit))]
fn group_secrets(
    alloc: Global,
    joiner_secret: &Secret,
    path_secret: Option<&Secret>,
) -> Result<GroupSecrets, AllocError>
    ensures value { IfOk result (IsSecretsOf joiner_secret.now (option_copied path_secret.entry)) }
    ensures fits { IfOk result group_secrets.Fits }
{
    Ok(GroupSecrets {
        joiner_secret: bytes_of(alloc, joiner_secret)?,
        path_secret: bytes_if(alloc, path_secret)?,
        psks: Bytes::from_vec(Vec::new(alloc)),
    })
}

/// The GroupSecrets of a joiner, spelled.
#[tactic(auto, unfolding(mls_model::specs::Welcome::secrets_with))]
fn secrets_with(
    alloc: Global,
    joiner_secret: &Secret,
    path_secret: Option<&Secret>,
) -> Result<Vec<u8>, WelcomeError>
    ensures { SpellsSecrets joiner_secret.now (option_copied path_secret.entry) result }
{
    let secrets = group_secrets(alloc, joiner_secret, path_secret)?;
    let bytes = secrets.encode(alloc)?;
    Ok(bytes)
}

/// The reference of a KeyPackage (RFC 9420, 5.2).
fn reference_of(alloc: Global, offered: &KeyPackage) -> Result<Bytes, WelcomeError>
    requires { IsBelow (2 ^ 28) key_package offered.now }
    ensures { Gives (Ok (package_reference offered.now)) result }
{
    let spelled = offered.encode(alloc)?;
    let reference = bytes_of(alloc, &key_package_reference(&spelled))?;
    Ok(reference)
}

/// The encrypted GroupInfo of a Welcome, under which each entry is sealed. Its label is put before it once for all of
/// them.
#[derive(Drop)]
struct SealInfo<'a> {
    encrypted_info: &'a [u8],
    labelled: Vec<u8>,
}

// It is seen as the encrypted GroupInfo.
impl<'a> Model for SealInfo<'a> {
    ghost use Rattle.std.specs.Prelude.{◌≡◌, ℕ, List, codes};
    ghost use Rattle.mls_suite.specs.Labels.{content_with_label};

    ghost Value = { List ℕ };

    ghost view = { λ i. i.encrypted_info.now };

    ghost invariant = { λ i. i.labelled.items
        ≡ content_with_label (codes "Welcome") i.encrypted_info.now };
}

impl<'a> SealInfo<'a> {
    /// That of an encrypted GroupInfo.
    fn new(alloc: Global, encrypted_info: &'a [u8]) -> Result<SealInfo<'a>, OutOfMemory>
        requires { length encrypted_info.now < 2 ^ 30 }
        ensures { IfOk result (λ i. i ≡ encrypted_info.now) }
    {
        let labelled = content_with_label(alloc, "Welcome", encrypted_info)?;
        Ok(SealInfo {
            encrypted_info,
            labelled,
        })
    }

    /// Seals `pt` to a public key under it (EncryptWithLabel of RFC 9420, 5.1.3); None where the key isn't fit.
    #[tactic(auto, unfolding(mls_suite::specs::Labels::encrypt_with_label))]
    fn seal<S: Suite>(
        &self,
        alloc: Global,
        pk: &[u8],
        pt: &[u8],
        rnd: &Secret,
    ) -> Result<Option<Sealed>, OutOfMemory>
        ensures { SealsUnder S.crypto pk.now self.now pt.now rnd.now result }
    {
        S::seal(alloc, pk, &self.labelled, pt, rnd)
    }
}

/// Secrets sealed to the init key of a KeyPackage, under the encrypted GroupInfo: `BadKey` (36) where that key isn't
/// fit.
fn entry_for<S: Suite>(
    alloc: Global,
    info: &SealInfo<'_>,
    offered: &KeyPackage,
    secrets: &[u8],
    rnd: &Secret,
) -> Result<EncryptedGroupSecrets, WelcomeError>
    requires short { IsBelow (2 ^ 28) key_package offered.now }
    ensures { Gives (entry_for S.crypto info.now offered.now secrets.now rnd.now) result }
{
    let new_member = reference_of(alloc, offered)?;
    let key = offered.init_key.as_slice();
    match info.seal::<S>(alloc, key, secrets, rnd)? {
        Some(sealed) => Ok(EncryptedGroupSecrets {
            new_member,
            encrypted_group_secrets: HpkeCiphertext {
                kem_output: Bytes::from_vec(sealed.kem),
                ciphertext: Bytes::from_vec(sealed.ct),
            },
        }),
        None => Err(WelcomeError::BadKey),
    }
}

/// What the entries of a Welcome are sealed with.
#[derive(Clone, Copy)]
pub(crate) struct Sealer<'a, 'b> {
    /// The joiner secret of the epoch.
    pub(crate) joiner_secret: &'a Secret,
    /// The seed of the commit.
    pub(crate) seed: &'a HmacKey<'b>,
}

impl Sealer<'_, '_> {
    /// The entry of a joiner, under seal number n.
    fn entry<S: Suite>(
        &self,
        alloc: Global,
        info: &SealInfo<'_>,
        joiner: &Joiner<'_>,
        n: u32,
    ) -> Result<EncryptedGroupSecrets, WelcomeError>
        requires short { IsBelow (2 ^ 28) key_package joiner.now.key_package.now }
        ensures { Gives (entry_of S.crypto info.now self.now joiner.now n) result }
    {
        let secrets = secrets_with(alloc, self.joiner_secret, joiner.path_secret)?;
        let rnd = seal_seed_of(self.seed, n);
        entry_for::<S>(alloc, info, joiner.key_package, &secrets, &rnd)
    }

    /// The entries of joiners in their order, whose seals are numbered from `first` on.
    pub(crate) fn entries<S: Suite>(
        &self,
        alloc: Global,
        encrypted_info: &[u8],
        joiners: &[Joiner<'_>],
        first: u32,
    ) -> Result<Vec<EncryptedGroupSecrets>, WelcomeError>
        requires context { length encrypted_info.now < 2 ^ 30 }
        requires short { AreShortJoiners joiners.now }
        requires seals { first + length joiners.now < 2 ^ 32 }
        ensures { SealsEntries S.crypto encrypted_info.now self.now joiners.now first result }
    {
        let info = SealInfo::new(alloc, encrypted_info)?;
        let mut entries = Vec::new(alloc);
        let mut number = first;
        for joiner in joiners {
            let entry = self.entry::<S>(alloc, &info, joiner, number)?;
            entries.push(entry)?;
            number += 1;
        }
        Ok(entries)
    }
}

/// Whether the init key of each joiner is fit.
pub(crate) fn have_fit_keys<S: Suite>(joiners: &[Joiner<'_>]) -> bool
    ensures { result ≡ have_fit_keys S.crypto (map package_and_leaf_of joiners.now) }
{
    for joiner in joiners {
        if !S::key_ok(joiner.key_package.init_key.as_slice()) {
            return false;
        }
    }
    true
}
