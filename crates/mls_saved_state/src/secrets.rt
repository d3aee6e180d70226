//! The secrets of a saved form, each of 32 bytes.

ghost use Rattle.mls_wire.specs.Checks.{Answers, AnswersOutright};
ghost use Rattle.mls_saved_state.specs.Faults.{number_of};
ghost use Rattle.mls_saved_state.specs.Secrets.{secret_in, optional_secret_in, each_secret_in, keys_in};

use crate::error::LoadError;
use mls_kdf::Secret;
use mls_leaf::Bytes;
use std::alloc::Global;

/// How many keys a member has above its leaf at most.
const MAX_KEYS: usize = 32;

/// The secret that these bytes are: `BadSecret` (101) unless there are 32.
pub fn secret_of(bytes: &Bytes) -> Result<Secret, LoadError>
    ensures { AnswersOutright (λ s. s) number_of (secret_in bytes.now) result }
{
    match <[u8; 32]>::try_from(bytes.as_slice()) {
        Ok(secret) => Ok(secret),
        Err(_) => Err(LoadError::BadSecret),
    }
}

/// The secret, where there is one: `BadSecret` (101) unless it has 32 bytes.
pub fn optional_secret_of(bytes: &Option<Bytes>) -> Result<Option<Secret>, LoadError>
    ensures { AnswersOutright (λ s. s) number_of (optional_secret_in bytes.now) result }
{
    match bytes {
        None => Ok(None),
        Some(bytes) => Ok(Some(secret_of(bytes)?)),
    }
}

/// Keys, each of 32 bytes: `BadSecret` (101).
fn each_secret_of(alloc: Global, saved: &[Option<Bytes>]) -> Result<Vec<Option<Secret>>, LoadError>
    ensures { Answers (λ v. v.items) number_of (each_secret_in saved.now) result }
{
    let mut keys = Vec::new(alloc);
    for one in saved {
        match optional_secret_of(one) {
            Ok(key) => keys.push(key)?,
            Err(error) => return Err(error),
        }
    }
    Ok(keys)
}

/// The keys above a leaf: `BadSecret` (101) where there are more than a path has, or one hasn't 32 bytes.
#[tactic(auto, unfolding(crate::specs::Secrets::keys_in))]
pub(crate) fn keys_of(
    alloc: Global,
    saved: &[Option<Bytes>],
) -> Result<Vec<Option<Secret>>, LoadError>
    ensures { Answers (λ v. v.items) number_of (keys_in saved.now) result }
{
    if saved.len() > MAX_KEYS {
        return Err(LoadError::BadSecret);
    }
    each_secret_of(alloc, saved)
}
