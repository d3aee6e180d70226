//! A commit of a member that seals a secret of its choice to another, with all else right.

ghost use Rattle.std.specs.Prelude.{◌<◌, ◌^◌, length, IfOk};

use crate::pieces::{check_limit, concatenate, last_bytes, place_of, with_text, without_last};
use anyhow::{Result, bail};
use mls_kdf::{Secret, Seed, derive_secret, expand_with_label};
use mls_schedule::Epoch;
use mls_suite::{Glass, Sealed, encrypt_with_label, sign_with_label};
use mls_world::Member;
use std::alloc::Global;

/// How many bytes of a commit's message stand behind its content: signature, confirmation tag and membership tag.
const BEHIND: usize = 99;
/// How many bytes of a context stand behind its tree hash: the confirmed transcript hash, and no extensions.
const HASH: usize = 34;
/// The version and the wire format, as they stand before a message's content.
const FRONT: [u8; 4] = [0, 1, 0, 1];

/// A commit that was made, and what its committer knew.
#[derive(Drop)]
pub struct Committed<'a> {
    /// The committer, before.
    pub before: &'a Member<Glass>,
    /// The committer, after it.
    pub after: &'a Member<Glass>,
    /// The committer's private signature key.
    pub signing: &'a Secret,
    /// The seed of the commit.
    pub seed: &'a Seed,
    /// How many nodes its path has.
    pub nodes: usize,
    /// Its message.
    pub message: &'a [u8],
}

/// The secret that stands so many steps behind the first of a commit's path (RFC 9420, 7.4).
pub fn path_secret(seed: &Seed, steps: usize) -> Secret {
    let mut secret = derive_secret(seed, "seed path");
    for _ in 0..steps {
        secret = derive_secret(&secret, "path");
    }
    secret
}

impl<'a> Committed<'a> {
    /// The context under which the path is sealed: that after the commit, with the confirmed transcript hash from
    /// before (RFC 9420, 12.4.1).
    fn provisional_context(&self, alloc: Global) -> Result<Vec<u8>>
        ensures { IfOk result (λ v. length v.items < 2 ^ 30) }
    {
        let front = without_last(self.after.context_bytes(), HASH);
        let hash = last_bytes(self.before.context_bytes(), HASH);
        concatenate(alloc, &[front, hash])
    }

    /// The content that was made.
    fn original_content(&self) -> &'a [u8] {
        let message = self.message;
        let content = without_last(message, BEHIND);
        last_bytes(content, content.len().saturating_sub(FRONT.len()))
    }

    /// A secret sealed to a public key, as the first of the path is.
    fn sealed_secret(&self, alloc: Global, public_key: &[u8], secret: &Secret) -> Result<Sealed> {
        let seed = self.seed;
        let mut random = [0; 32];
        expand_with_label(seed, "seed seal", &[0; 4], &mut random)?;
        let context = self.provisional_context(alloc)?;
        let label = "UpdatePathNode";
        match encrypt_with_label::<Glass>(alloc, public_key, label, &context, secret, &random)? {
            Some(sealed_secret) => Ok(sealed_secret),
            None => bail!("no key to seal to"),
        }
    }

    /// The content, with a secret in the place of the first that is sealed, to a public key.
    fn content(&self, alloc: Global, public_key: &[u8], secret: &Secret) -> Result<Vec<u8>> {
        let content = self.original_content();
        let sealed_secret = self.sealed_secret(alloc, public_key, secret)?;
        let place = place_of(content, &sealed_secret.kem)?;
        // The header of the ciphertext has two bytes.
        let place = place
            .saturating_add(sealed_secret.kem.len())
            .saturating_add(2);
        with_text(alloc, content, place, &sealed_secret.ct)
    }

    fn signature(&self, alloc: Global, content: &[u8]) -> Result<Vec<u8>> {
        let text = concatenate(alloc, &[&FRONT, content, self.before.context_bytes()])?;
        Ok(sign_with_label::<Glass>(alloc, self.signing, "FramedContentTBS", &text)?)
    }

    /// The confirmation tag of the epoch that the commit would begin.
    fn confirmation_tag(&self, alloc: Global, confirmed: &Secret) -> Result<Secret> {
        let front = without_last(self.after.context_bytes(), HASH);
        let context = concatenate(alloc, &[front, &[32], confirmed, &[0]])?;
        let init = self.before.secrets().init_secret();
        let commit_secret = path_secret(self.seed, self.nodes);
        let start = Epoch::next(init, &commit_secret, &context);
        Ok(start.epoch.confirmation_tag(confirmed))
    }

    /// The commit with a secret in the place of the first that is sealed, to a public key: signature and tags are
    /// right.
    pub fn with_secret(
        &self,
        alloc: Global,
        public_key: &[u8],
        secret: &Secret,
    ) -> Result<Vec<u8>> {
        let content = self.content(alloc, public_key, secret)?;
        let signature = self.signature(alloc, &content)?;
        let transcript = self.before.group().transcript();
        let confirmed = transcript.confirm(1, &content, check_limit(&signature)?);
        let tag = self.confirmation_tag(alloc, &confirmed)?;
        let auth = concatenate(alloc, &[&[32], &signature, &[32], &tag])?;
        let context = self.before.context_bytes();
        let membership = self
            .before
            .secrets()
            .membership_tag(&[&FRONT, &content, context, &auth]);
        concatenate(alloc, &[&FRONT, &content, &auth, &[32], &membership])
    }
}
