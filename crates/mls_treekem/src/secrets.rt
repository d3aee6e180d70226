//! The secrets of a path and their key pairs (RFC 9420, 7.4).

ghost use Rattle.std.specs.Prelude.{◌≡◌, IfOk};
ghost use Rattle.mls_treekem_model.specs.Chain.{next_secret, node_key, node_public};
ghost use Rattle.mls_treekem.specs.Secrets.{AreOfChain};

use mls_kdf::{HmacKey, Secret};
use mls_suite::{KeyPair, OutOfMemory, Suite};
use std::alloc::Global;

/// The secrets of a path and their key pairs, the lowest node's first.
#[derive(Drop)]
pub struct PathSecrets {
    /// The path secret of each node.
    pub secrets: Vec<Secret>,
    /// The key pair of each node.
    pub pairs: Vec<KeyPair>,
    /// The secret after the highest node's.
    pub commit_secret: Secret,
}

/// The path secret of the next node above.
#[tactic(auto, unfolding(mls_treekem_model::specs::Chain::next_secret))]
pub(crate) fn next_secret(secret: &HmacKey) -> Secret
    ensures { result ≡ next_secret secret.now }
{
    secret.derive_secret("path")
}

/// The key pair of the node with a path secret.
#[tactic(auto, unfolding(mls_treekem_model::specs::Chain::node_key))]
pub(crate) fn node_pair<S: Suite>(alloc: Global, secret: &HmacKey) -> Result<KeyPair, OutOfMemory>
    ensures private { IfOk result (λ pair. pair.sk ≡ node_key S.crypto secret.now) }
    ensures public { IfOk result (λ pair. pair.pk.items ≡ node_public S.crypto secret.now) }
{
    S::derive_key_pair(alloc, &secret.derive_secret("node"))
}

impl PathSecrets {
    /// The secrets of a path of `count` nodes, from the lowest node's.
    pub fn new<S: Suite>(
        alloc: Global,
        start: &Secret,
        count: usize,
    ) -> Result<PathSecrets, OutOfMemory>
        ensures { IfOk result (AreOfChain S.crypto start.now count) }
    {
        let mut secrets = Vec::with_capacity(alloc, count)?;
        let mut pairs = Vec::with_capacity(alloc, count)?;
        let mut secret = *start;
        for _ in 0..count {
            let key = HmacKey::new(&secret);
            let next = next_secret(&key);
            pairs.push(node_pair::<S>(alloc, &key)?)?;
            secrets.push(secret)?;
            secret = next;
        }
        Ok(PathSecrets {
            secrets,
            pairs,
            commit_secret: secret,
        })
    }
}
