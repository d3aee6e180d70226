//! What is sealed in a candidate's entry of a Welcome (RFC 9420, 12.4.3.1).

ghost use Rattle.std.specs.Prelude.{◌<◌, ◌^◌, length};
ghost use Rattle.mls_wire.specs.Checks.{AnswersOutright};
ghost use Rattle.mls_wire.specs.Whole.{whole};
ghost use Rattle.mls_leaf.specs.Limits.{input_limit};
ghost use Rattle.mls_types.specs.Welcome.{group_secrets};
ghost use Rattle.mls_model.specs.OpenedWelcome.{or_fault, opened_secrets, check_secret_lengths, decrypt_group_secrets};
ghost use Rattle.mls_join.specs.Faults.{number_of, Gives, GivesBytes};
ghost use Rattle.mls_join.specs.Parts.{secrets_by, OpensSecrets};
ghost use Rattle.mls_join.specs.Stages.{secret_of_32, optional_secret_of_32};

use crate::error::JoinError;
use mls_candidate::Candidate;
use mls_kdf::Secret;
use mls_leaf::{Bytes, Codec, LeafError};
use mls_suite::{Suite, decrypt_with_label};
use mls_types::{EncryptedGroupSecrets, GroupSecrets, HpkeCiphertext, Welcome};
use mls_wire::WireError;
use std::alloc::Global;

/// What a new member needs to enter the epoch.
#[derive(Drop)]
pub(crate) struct Secrets {
    /// The joiner secret.
    pub(crate) joiner: Secret,
    /// The path secret, if there is one.
    pub(crate) path_secret: Option<Secret>,
    /// The spelled identifiers of pre-shared keys.
    pub(crate) psks: Bytes,
}

/// The secret that these bytes are: `SecretsUnreadable` (73) unless there are 32.
fn secret_of(bytes: &Bytes) -> Result<Secret, JoinError>
    ensures { AnswersOutright (λ s. s) number_of (secret_of_32 bytes.now) result }
{
    match <[u8; 32]>::try_from(bytes.as_slice()) {
        Ok(secret) => Ok(secret),
        Err(_) => Err(JoinError::SecretsUnreadable),
    }
}

/// The path secret, where there is one: `SecretsUnreadable` (73) unless it has 32 bytes.
fn path_secret_of(bytes: &Option<Bytes>) -> Result<Option<Secret>, JoinError>
    ensures { AnswersOutright (λ s. s) number_of (optional_secret_of_32 bytes.now) result }
{
    match bytes {
        None => Ok(None),
        Some(bytes) => Ok(Some(secret_of(bytes)?)),
    }
}

/// The secrets, each of 32 bytes: `SecretsUnreadable` (73).
#[tactic(auto, unfolding(mls_model::specs::OpenedWelcome::check_secret_lengths))]
fn check_secret_lengths(secrets: GroupSecrets) -> Result<Secrets, JoinError>
    ensures { AnswersOutright secrets_by number_of (check_secret_lengths secrets) result }
{
    let joiner = secret_of(&secrets.joiner_secret)?;
    let path_secret = path_secret_of(&secrets.path_secret)?;
    Ok(Secrets {
        joiner,
        path_secret,
        psks: secrets.psks,
    })
}

/// The GroupSecrets that opened bytes are: `SecretsUnreadable` (73).
fn secrets_in(alloc: Global, bytes: &[u8]) -> Result<GroupSecrets, JoinError>
    ensures { Gives (or_fault 73 (whole group_secrets input_limit bytes.now)) result }
{
    match GroupSecrets::decode(alloc, bytes) {
        Ok(secrets) => Ok(secrets),
        Err(LeafError::Wire(WireError::OutOfMemory)) => {
            Err(JoinError::Leaf(LeafError::Wire(WireError::OutOfMemory)))
        }
        Err(_) => Err(JoinError::SecretsUnreadable),
    }
}

/// What a candidate's init key opens: `SecretsUnreadable` (73) where it doesn't.
fn decrypt_group_secrets<S: Suite>(
    alloc: Global,
    candidate: &Candidate<S>,
    info: &[u8],
    sealed: &HpkeCiphertext,
) -> Result<Vec<u8>, JoinError>
    requires { length info.now < 2 ^ 30 }
    ensures { GivesBytes (decrypt_group_secrets S.crypto candidate.now info.now sealed.now) result }
{
    let opened = decrypt_with_label::<S>(
        alloc,
        candidate.init_key(),
        "Welcome",
        info,
        sealed.kem_output.as_slice(),
        sealed.ciphertext.as_slice(),
    )?;
    match opened {
        Some(bytes) => Ok(bytes),
        None => Err(JoinError::SecretsUnreadable),
    }
}

/// What is sealed in a candidate's entry: `SecretsUnreadable` (73) where it doesn't open, is no GroupSecrets, or has a
/// secret that isn't 32 bytes.
#[tactic(auto, unfolding(mls_model::specs::OpenedWelcome::opened_secrets, mls_model::specs::OpenedWelcome::check_secret_lengths))]
pub(crate) fn opened_secrets<S: Suite>(
    alloc: Global,
    candidate: &Candidate<S>,
    welcome: &Welcome,
    entry: &EncryptedGroupSecrets,
) -> Result<Secrets, JoinError>
    requires { length welcome.now.encrypted_group_info < 2 ^ 30 }
    ensures { OpensSecrets (opened_secrets S.crypto candidate.now welcome.now entry.now) result }
{
    let info = welcome.encrypted_group_info.as_slice();
    let bytes = decrypt_group_secrets::<S>(alloc, candidate, info, &entry.encrypted_group_secrets)?;
    let secrets = secrets_in(alloc, &bytes)?;
    check_secret_lengths(secrets)
}
