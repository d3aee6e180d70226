//! Making a Welcome.

ghost use Rattle.std.specs.Prelude.{◌≡◌, ◌<◌, ◌^◌, ◌+◌, length};
ghost use Rattle.mls_welcome.specs.Joiners.{AreShortJoiners};
ghost use Rattle.mls_welcome.specs.WelcomeMessage.{welcome_of};
ghost use Rattle.mls_welcome.specs.Entries.{MakesWelcome, RefusesLong, SealsMessage};
ghost use Rattle.mls_model.specs.Welcome.{info_of};

use crate::entries::{Sealer, have_fit_keys};
use crate::error::WelcomeError;
use crate::info::signed_info;
use crate::limits::spell_within_limit;
use mls_kdf::{HmacKey, Secret, Seed};
use mls_leaf::{Bytes, Items, KeyPackage, LeafError};
use mls_public_group::PublicGroup;
use mls_schedule::Epoch;
use mls_suite::Suite;
use mls_types::{EncryptedGroupSecrets, MlsMessage, Welcome};
use mls_wire::WireError;
use std::alloc::Global;

/// Somebody whom a commit adds.
#[derive(Drop)]
pub struct Joiner<'a> {
    /// The KeyPackage.
    pub key_package: &'a KeyPackage,
    /// The leaf where it was added.
    pub leaf: u32,
    /// The path secret of the node where its way and the committer's part, where the commit has a path.
    pub path_secret: Option<&'a Secret>,
}

/// The refusal of a Welcome whose encrypted GroupInfo is too long to seal anything under it: `BadKey` (36) where an
/// init key isn't fit, and else `TooLong` (6).
fn refusal<S: Suite>(joiners: &[Joiner<'_>]) -> WelcomeError
    ensures { RefusesLong S.crypto joiners.now result }
{
    if have_fit_keys::<S>(joiners) {
        WelcomeError::Leaf(LeafError::Wire(WireError::TooLong))
    } else {
        WelcomeError::BadKey
    }
}

/// A Welcome with these entries and this encrypted GroupInfo.
fn welcome_of<S: Suite>(entries: Vec<EncryptedGroupSecrets>, encrypted_info: Vec<u8>) -> Welcome
    ensures value { result ≡ welcome_of S.crypto entries.items encrypted_info.items }
    ensures ranged { result.cipher_suite < 2 ^ 16 }
{
    Welcome {
        cipher_suite: S::NUMBER,
        secrets: Items::from_vec(entries),
        encrypted_group_info: Bytes::from_vec(encrypted_info),
    }
}

/// The message of a Welcome with this encrypted GroupInfo.
fn message_with<S: Suite>(
    alloc: Global,
    encrypted_info: Vec<u8>,
    sealer: &Sealer<'_, '_>,
    joiners: &[Joiner<'_>],
    first_seal: u32,
) -> Result<Vec<u8>, WelcomeError>
    requires short { AreShortJoiners joiners.now }
    requires seals { first_seal + length joiners.now < 2 ^ 32 }
    ensures { SealsMessage S.crypto encrypted_info.items sealer.now joiners.now first_seal result }
{
    if encrypted_info.len() >= 1 << 30 {
        return Err(refusal::<S>(joiners));
    }
    let entries = sealer.entries::<S>(alloc, &encrypted_info, joiners, first_seal)?;
    let welcome = welcome_of::<S>(entries, encrypted_info);
    spell_within_limit(alloc, &MlsMessage::Welcome(welcome))
}

/// The message of a Welcome to a group that a commit made, from the committer at leaf `signer`: the GroupInfo, signed
/// and sealed once, and for each joiner the joiner secret and its path secret, sealed to its init key under the seals'
/// numbers from `first_seal` on (RFC 9420, 12.4.3.1). `TooLong` (6) where the GroupInfo or the message is too large,
/// `BadKey` (36) where an init key isn't fit. The confirmation tag has 32 bytes.
pub fn welcome<S: Suite>(
    alloc: Global,
    group: &PublicGroup,
    confirmation_tag: &Secret,
    signer: u32,
    signing: &Secret,
    joiner_secret: &Secret,
    joiners: &[Joiner<'_>],
    seed: &Seed,
    first_seal: u32,
) -> Result<Vec<u8>, WelcomeError>
    requires short { AreShortJoiners joiners.now }
    requires seals { first_seal + length joiners.now < 2 ^ 32 }
    ensures { MakesWelcome S.crypto
        (info_of S.crypto signing.now group.now confirmation_tag.now signer)
        joiner_secret.now joiners.now seed.now first_seal result }
{
    let info = signed_info::<S>(alloc, group, confirmation_tag, signer, signing)?;
    let key = Epoch::welcome_key(joiner_secret);
    let encrypted_info = S::aead_seal(alloc, &key.key, &key.nonce, &[], &info)?;
    let seal_key = HmacKey::new(seed);
    let sealer = Sealer {
        joiner_secret,
        seed: &seal_key,
    };
    message_with::<S>(alloc, encrypted_info, &sealer, joiners, first_seal)
}
