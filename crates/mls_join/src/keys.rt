//! A new member's leaf and its private keys (RFC 9420, 12.4.3.1).

ghost use Rattle.std.specs.Prelude.{◌≡◌, ◌^◌, IfSome};
ghost use Rattle.std.specs.Option.{option_map, option_copied};
ghost use Rattle.mls_leaf.specs.Leaf.{leaf_node};
ghost use Rattle.mls_tree.specs.Tree.{term};
ghost use Rattle.mls_public_group.specs.Short.{IsBelow, HasLeavesBelow};
ghost use Rattle.mls_model.specs.Join.{place_of};
ghost use Rattle.mls_join.specs.Stages.{is_at, GivesKeys};

use crate::error::JoinError;
use mls_kdf::Secret;
use mls_leaf::LeafNode;
use mls_suite::Suite;
use mls_tree::PublicTree;
use mls_treekem::PrivatePath;
use std::alloc::Global;

/// Whether a member's leaf is this one.
fn is_leaf(member: Option<&LeafNode>, leaf: &LeafNode) -> bool
    requires leaf { IsBelow (2 ^ 27) leaf_node leaf.now }
    requires member { IfSome (option_copied member) (λ v. IsBelow (2 ^ 27) leaf_node v) }
    ensures { result ≡ is_at leaf.now (option_copied member.entry) }
{
    match member {
        Some(member) => member == leaf,
        None => false,
    }
}

/// The first leaf of the tree that is this one.
pub(crate) fn place_of(tree: &PublicTree, leaf: &LeafNode) -> Option<u32>
    requires leaf { IsBelow (2 ^ 27) leaf_node leaf.now }
    requires leaves { HasLeavesBelow (2 ^ 27) (term tree.now) }
    ensures { result ≡ option_map (λ x. x.0) (place_of leaf.now (term tree.now)) }
{
    for i in 0..tree.leaf_count() {
        if is_leaf(tree.leaf(i), leaf) {
            return Some(i);
        }
    }
    None
}

/// The new member's keys: with a path secret those that it gives, else its leaf's alone; `PathKeyMismatch` (34), and
/// `KeyMissing` (35) where one that is due is missing.
pub(crate) fn joined_keys<S: Suite>(
    alloc: Global,
    tree: &PublicTree,
    signer: u32,
    place: u32,
    own: &Secret,
    path_secret: &Option<Secret>,
) -> Result<PrivatePath, JoinError>
    ensures { GivesKeys S.crypto (term tree.now) signer place own.now path_secret.now result }
{
    let mut keys = PrivatePath::new(alloc, place, *own);
    let Some(secret) = path_secret else {
        keys.require_keys(tree)?;
        return Ok(keys);
    };
    let _commit_secret = keys.take_secret::<S>(tree, signer, secret)?;
    Ok(keys)
}
