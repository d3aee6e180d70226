//! The ratchet of one leaf (RFC 9420, 9.1): the secret of its next generation, and the keys of earlier ones that were
//! passed over.

ghost use Rattle.std.specs.Prelude.{◌≡◌, ◌+◌, ◌-◌, ◌<◌, ◌≤◌, ◌^◌, IfOk, option_copied};
ghost use Rattle.mls_secret_tree.specs.Faults.{Gives, RefusesOutright};
ghost use Rattle.mls_secret_tree.specs.Ratchet.{window, first_ratchet, find_key, other_keys, near_keys, passed_secret, AddsKeys, take_new, take_ahead, take_key};

mod saved;

use crate::SecretTreeError;
use crate::secrets::{MessageKey, application_secret, message_key, next_ratchet_secret};
use mls_kdf::{HmacKey, Secret};
use mls_leaf::Items;
use std::alloc::{AllocError, Global};
use std::marker::Model;

/// How many generations may be passed over at once, and how many before the last one keys are kept of.
pub const WINDOW: u32 = 1000;

/// The key of a generation that was passed over.
#[derive(Clone, Copy)]
pub(crate) struct KeptKey {
    generation: u32,
    key: MessageKey,
}

/// The ratchet of one leaf.
#[derive(Drop)]
pub(crate) struct Ratchet {
    next: u64,
    secret: Secret,
    kept: Items<KeptKey>,
}

// It is seen as what it holds.
impl Model for Ratchet {
    ghost use Rattle.std.specs.Prelude.{◌≤◌, ◌^◌};
    ghost use Rattle.mls_secret_tree.specs.Ratchet.{Ratcheting};

    ghost Value = { Ratcheting };

    ghost view = { λ r. record { next = r.next; secret = r.secret; kept = r.kept } };

    ghost invariant = { λ r. r.next ≤ 2 ^ 32 };
}

/// The kept key of a generation.
fn find_key(kept: &[KeptKey], generation: u32) -> Option<MessageKey>
    ensures { result ≡ find_key generation kept.now }
{
    for k in kept {
        if k.generation == generation {
            return Some(k.key);
        }
    }
    None
}

/// The kept keys of other generations.
#[tactic(auto, unfolding(crate::specs::Ratchet::other_keys))]
fn other_keys(alloc: Global, kept: &[KeptKey], generation: u32) -> Result<Vec<KeptKey>, AllocError>
    ensures { IfOk result (λ v. v.items ≡ other_keys generation kept.now) }
{
    kept.iter()
        .filter(|k| !(k.generation == generation))
        .copied()
        .collect(alloc)
}

/// The kept keys that lie within the window before a generation.
#[tactic(auto, unfolding(crate::specs::Ratchet::near_keys))]
fn near_keys(alloc: Global, kept: &[KeptKey], generation: u32) -> Result<Vec<KeptKey>, AllocError>
    ensures { IfOk result (λ v. v.items ≡ near_keys generation kept.now) }
{
    let generation = u64::from(generation);
    kept.iter()
        .filter(|k| !(u64::from(k.generation) + u64::from(WINDOW) < generation))
        .copied()
        .collect(alloc)
}

/// Adds the keys of the generations from `first` to the one before `end`, and answers the ratchet secret of `end`.
fn pass_over(
    kept: &mut Vec<KeptKey>,
    secret: &Secret,
    first: u32,
    end: u32,
) -> Result<Secret, AllocError>
    requires { first ≤ end }
    ensures kept { AddsKeys secret.now first end kept.old.items kept.new.items result }
    ensures secret { IfOk result (λ s. s ≡ passed_secret secret.now first (end - first)) }
{
    let mut passing = *secret;
    for generation in first..end {
        let ratchet = HmacKey::new(&passing);
        let key = message_key(&ratchet, generation);
        kept.push(KeptKey { generation, key })?;
        passing = next_ratchet_secret(&ratchet, generation);
    }
    Ok(passing)
}

/// The key of a generation, from its ratchet secret, and the ratchet behind it, which keeps these keys.
#[tactic(auto, unfolding(crate::specs::Ratchet::take_new))]
fn take_new(secret: &Secret, generation: u32, kept: Vec<KeptKey>) -> (MessageKey, Ratchet)
    ensures { result ≡ take_new secret.now generation kept.items }
{
    let ratchet = HmacKey::new(secret);
    let key = message_key(&ratchet, generation);
    let secret = next_ratchet_secret(&ratchet, generation);
    let next = u64::from(generation) + 1;
    let kept = Items::from_vec(kept);
    (key, Ratchet { next, secret, kept })
}

impl Ratchet {
    /// The ratchet of a leaf at first, from the leaf's node secret (RFC 9420, 9).
    #[tactic(auto, unfolding(crate::specs::Ratchet::first_ratchet))]
    pub fn first(alloc: Global, secret: &Secret) -> Ratchet
        ensures { result ≡ first_ratchet secret.now }
    {
        Ratchet {
            next: 0,
            secret: application_secret(secret),
            kept: Items::from_vec(Vec::new(alloc)),
        }
    }

    /// The first generation of which no key was made yet.
    pub fn next(&self) -> u64
        ensures next { result ≡ self.now.next }
        ensures bound { result ≤ 2 ^ 32 }
    {
        self.next
    }

    /// The key of a generation from the next on, within the window, and the ratchet behind it.
    #[tactic(auto, unfolding(crate::specs::Ratchet::take_ahead))]
    fn take_ahead(
        &self,
        alloc: Global,
        generation: u32,
    ) -> Result<(MessageKey, Ratchet), AllocError>
        requires { self.now.next ≤ generation }
        ensures { IfOk result (λ t. t ≡ take_ahead self.now generation) }
    {
        let mut kept = near_keys(alloc, self.kept.as_slice(), generation)?;
        let secret = pass_over(&mut kept, &self.secret, self.next as u32, generation)?;
        Ok(take_new(&secret, generation, kept))
    }

    /// The key of a generation, and the ratchet after it was used (RFC 9420, 9.1 and 9.2). `GenerationTooFar` (115)
    /// beyond the window, `KeyUsed` (116) where the key was used or is gone.
    #[tactic(auto, unfolding(crate::specs::Ratchet::take_key, crate::specs::Ratchet::take_kept))]
    pub fn take_key(
        &self,
        alloc: Global,
        generation: u32,
    ) -> Result<(MessageKey, Ratchet), SecretTreeError>
        ensures answer { Gives (take_key self.now generation) result }
        // Both numbers come also when an allocation fails.
        ensures refused { RefusesOutright (take_key self.now generation) result }
    {
        if u64::from(generation) < self.next {
            let Some(key) = find_key(self.kept.as_slice(), generation) else {
                return Err(SecretTreeError::KeyUsed);
            };
            let kept = Items::from_vec(other_keys(alloc, self.kept.as_slice(), generation)?);
            return Ok((
                key,
                Ratchet {
                    next: self.next,
                    secret: self.secret,
                    kept,
                },
            ));
        }
        if self.next + u64::from(WINDOW) < u64::from(generation) {
            return Err(SecretTreeError::GenerationTooFar);
        }
        Ok(self.take_ahead(alloc, generation)?)
    }
}
