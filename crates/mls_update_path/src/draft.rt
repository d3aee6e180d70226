//! The secrets and keys of a path.

ghost use Rattle.std.specs.Prelude.{◌≡◌, IfOk};
ghost use Rattle.mls_tree.specs.PathDraft.{IsDraftOf};
ghost use Rattle.mls_tree.specs.Tree.{term};
ghost use Rattle.mls_treekem.specs.Secrets.{public_keys};
ghost use Rattle.mls_model.specs.Candidate.{leaf_key_of};
ghost use Rattle.mls_update_path.specs.Parts.{IsChain, AreKeysOn};

use mls_kdf::{Secret, Seed};
use mls_leaf::Bytes;
use mls_suite::{OutOfMemory, Suite};
use mls_tree::{PathDraft, PublicTree};
use mls_treekem::{PathSecrets, PrivatePath, path_seed};
use std::alloc::{AllocError, Global};

/// The secrets of a path, and its committer's private keys.
#[derive(Drop)]
pub(crate) struct Draft {
    /// The secrets.
    pub(crate) secrets: PathSecrets,
    /// The private keys.
    pub(crate) keys: PrivatePath,
}

/// The secrets and keys of a path of leaf `index`, made of a seed, as the leaf's own private key was (RFC 9420, 7.4 and
/// 7.5). A tree after the edits of a commit has its committer's leaf, so only memory can be wanting.
pub(crate) fn make_draft<S: Suite>(
    alloc: Global,
    tree: &PublicTree,
    index: u32,
    seed: &Seed,
    leaf_key: &Secret,
) -> Result<Draft, OutOfMemory>
    requires { leaf_key.now ≡ leaf_key_of S.crypto seed.now }
    ensures leaf { IfOk result (λ d. d.keys.leaf ≡ index) }
    ensures chain { IfOk result (λ d. IsChain S.crypto (term tree.now) index seed.now d.secrets) }
    ensures keys { IfOk result (λ d. AreKeysOn S.crypto (term tree.now) index seed.now d.keys) }
{
    // Its type bounds how wide the tree is, for the proof.
    let _leaves = tree.leaf_count();
    let Ok(filtered) = tree.filtered_path(index) else {
        // Want of memory: edits leave the committer's leaf, so only the list of nodes can fail.
        return Err(AllocError);
    };
    let mut keys = PrivatePath::new(alloc, index, *leaf_key);
    let secrets = keys.make_path::<S>(&path_seed(seed), &filtered)?;
    Ok(Draft { secrets, keys })
}

/// The public keys of a path, the lowest node's first.
pub(crate) fn public_keys(alloc: Global, secrets: &PathSecrets) -> Result<Vec<Bytes>, OutOfMemory>
    ensures { IfOk result (λ v. v.items ≡ public_keys secrets.now) }
{
    let mut keys = Vec::new(alloc);
    for pair in &secrets.pairs {
        keys.push(Bytes::from_slice(alloc, &pair.pk)?)?;
    }
    Ok(keys)
}

/// A path with these keys before its leaf is signed. There is a member, and there are as many keys as its filtered path
/// has parents, so only memory can be wanting.
pub(crate) fn draft_path(
    tree: &mut PublicTree,
    index: u32,
    keys: Vec<Bytes>,
) -> Result<PathDraft, OutOfMemory>
    ensures draft { IfOk result (IsDraftOf (term tree.old) index keys.items) }
    ensures same { term tree.new ≡ term tree.old }
{
    match tree.draft_path(index, keys) {
        Ok(draft) => Ok(draft),
        // Want of memory: a member is there, and a key for each node; only the lists can fail.
        Err(_) => Err(AllocError),
    }
}
