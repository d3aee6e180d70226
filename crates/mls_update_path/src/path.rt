//! Making a path.

ghost use Rattle.std.specs.Prelude.{◌≡◌, ◌+◌, ◌<◌, ◌≤◌, ◌^◌, length, None, IfOk, OnOk};
ghost use Rattle.mls_wire.specs.Checks.{Answers};
ghost use Rattle.mls_leaf.specs.GroupExtensions.{group_extensions};
ghost use Rattle.mls_leaf.specs.Leaf.{leaf_node};
ghost use Rattle.mls_candidate.specs.Leaves.{IsPublicKey};
ghost use Rattle.mls_tree.specs.PathDraft.{IsDraftFor};
ghost use Rattle.mls_tree.specs.Paths.{merge_answer};
ghost use Rattle.mls_tree.specs.Tree.{term};
ghost use Rattle.mls_public_group.specs.Short.{IsBelow, HasLeavesBelow, IsShortContext, StaysShort};
ghost use Rattle.mls_treekem_model.specs.Height.{HasFollowed};
ghost use Rattle.mls_update_path.specs.Faults.{number_of};
ghost use Rattle.mls_update_path.specs.NewPath.{MakesPath, IsValid};
ghost use Rattle.mls_update_path.specs.Parts.{AreAllKeys, ChecksLeaf, IsChain, MakesLeaf, MergesNewPath, MergesPath};

use crate::context::provisional_bytes;
use crate::draft::{Draft, draft_path, make_draft, public_keys};
use crate::error::PathError;
use crate::own_leaf::check_own_leaf;
use mls_candidate::{leaf_pair, renewed_leaf_with_key};
use mls_kdf::{Secret, Seed};
use mls_leaf::{Bytes, GroupExtensions, Items, LeafNode, LeafSource};
use mls_public_group::{Edits, PublicGroup};
use mls_suite::Suite;
use mls_tree::{PathDraft, PublicTree, TreeError};
use mls_treekem::{PathSecrets, PrivatePath, seal_path};
use mls_types::UpdatePath;
use std::alloc::Global;

/// A path, and what its committer then has.
#[derive(Drop)]
pub struct NewPath {
    /// The path.
    pub path: UpdatePath,
    /// Its secrets.
    pub secrets: PathSecrets,
    /// The committer's private keys.
    pub keys: PrivatePath,
    /// The tree with the path merged.
    pub tree: PublicTree,
}

/// A path before it is sealed.
#[derive(Drop)]
struct Merged {
    leaf: LeafNode,
    tree: PublicTree,
    secrets: PathSecrets,
    keys: PrivatePath,
}

/// The new leaf of the member at leaf `index`, with this parent hash and encryption key, where it passes its checks (50
/// to 54).
fn make_checked_leaf<S: Suite>(
    alloc: Global,
    group: &PublicGroup,
    signing: &Secret,
    index: u32,
    old: &LeafNode,
    hash: Bytes,
    key: Vec<u8>,
) -> Result<LeafNode, PathError>
    requires context { IsShortContext group.now.context }
    requires old { IsBelow (2 ^ 27) leaf_node old.now }
    requires hash { length hash ≤ 32 }
    requires key { IsPublicKey S.crypto key.items }
    ensures leaf { MakesLeaf S.crypto signing.now group.now index old.now hash key.items result }
    ensures below { IfOk result (λ leaf. IsBelow (2 ^ 28) leaf_node leaf) }
    ensures checks { ChecksLeaf S.crypto signing.now group.now index old.now hash key.items result }
{
    let group_id = group.context().group_id.as_slice();
    let source = LeafSource::Commit { parent_hash: hash };
    let leaf = renewed_leaf_with_key::<S>(alloc, signing, group_id, index, old, source, key)?;
    check_own_leaf::<S>(alloc, signing, &leaf, old, group_id, index)?;
    Ok(leaf)
}

/// Merges a drafted path with this leaf into the tree (`KeyRepeated` 25, `ParentHashWrong` 24), and follows it with the
/// committer's private keys.
fn merge_and_follow(
    tree: &mut PublicTree,
    keys: &mut PrivatePath,
    leaf: &LeafNode,
    draft: PathDraft,
) -> Result<(), PathError>
    requires { IsDraftFor (term tree.old) draft }
    ensures answer { Answers (λ _. term tree.new) number_of
        (merge_answer (term tree.old) draft.index leaf.now draft.keys) result }
    ensures keys { OnOk result (HasFollowed None (term tree.new) keys.old keys.new) }
{
    tree.merge_draft(leaf.clone()?, draft)?;
    keys.follow_edit(tree, None)?;
    Ok(())
}

/// The tree with a drafted path merged, and the committer's private keys in it (`KeyRepeated` 25, `ParentHashWrong` 24).
fn merge_leaf_and_keys(
    tree: PublicTree,
    leaf: LeafNode,
    draft: PathDraft,
    made: Draft,
) -> Result<Merged, PathError>
    requires { IsDraftFor (term tree) draft }
    ensures answer { MergesPath (term tree) draft.index leaf draft.keys result }
    ensures leaf { IfOk result (λ x. x.leaf ≡ leaf) }
    ensures secrets { IfOk result (λ x. x.secrets ≡ made.secrets) }
    ensures keys { IfOk result (λ x. HasFollowed None (term x.tree) made.keys x.keys) }
{
    let mut tree = tree;
    let Draft { secrets, mut keys } = made;
    merge_and_follow(&mut tree, &mut keys, &leaf, draft)?;
    Ok(Merged {
        leaf,
        tree,
        secrets,
        keys,
    })
}

/// A path of the member at leaf `index` in a tree after edits, its committer's keys, and the tree with it: the new leaf
/// and the merge pass their checks (50 to 54, `KeyRepeated` (25), `ParentHashWrong` (24)).
#[tactic(auto, unfolding(crate::specs::Parts::leaf_and_tree_of))]
fn merge_new_path<S: Suite>(
    alloc: Global,
    group: &PublicGroup,
    signing: &Secret,
    index: u32,
    edited: &PublicTree,
    seed: &Seed,
) -> Result<Merged, PathError>
    requires context { IsShortContext group.now.context }
    requires leaves { HasLeavesBelow (2 ^ 27) group.now.tree }
    ensures answer { MergesNewPath S.crypto group.now signing.now index edited.now seed.now result }
    ensures below { IfOk result (λ x. IsBelow (2 ^ 28) leaf_node x.leaf) }
    ensures short { IfOk result (λ x. StaysShort (term edited.now) x.leaf (term x.tree)) }
    ensures leaf { IfOk result (λ x. x.keys.leaf ≡ index) }
    ensures chain { IfOk result (λ x. IsChain S.crypto (term edited.now) index seed.now x.secrets) }
    ensures keys { IfOk result (λ x. AreAllKeys S.crypto (term edited.now) index seed.now x.keys) }
{
    let Some(old) = group.tree().leaf(index) else {
        return Err(PathError::Tree(TreeError::NoSuchLeaf));
    };
    let pair = leaf_pair::<S>(alloc, seed)?;
    let made = make_draft::<S>(alloc, edited, index, seed, &pair.sk)?;
    let public = public_keys(alloc, &made.secrets)?;
    let mut tree = edited.clone()?;
    let draft = draft_path(&mut tree, index, public)?;
    let hash = Bytes::from_slice(alloc, draft.parent_hash())?;
    let leaf = make_checked_leaf::<S>(alloc, group, signing, index, old, hash, pair.pk)?;
    merge_leaf_and_keys(tree, leaf, draft, made)
}

/// The path of the member at leaf `index` for a commit with these extensions and edits: a member is there (`NoSuchLeaf`
/// 22), its new leaf and the merge of its keys pass their checks (50 to 54, `KeyRepeated` (25), `ParentHashWrong`
/// (24)), and its secrets are sealed under the context with the extensions and the merged tree, where each key can be
/// sealed to (`BadKey` 36) (RFC 9420, 12.4.1).
pub fn new_path<S: Suite>(
    alloc: Global,
    group: &PublicGroup,
    signing: &Secret,
    index: u32,
    extensions: &GroupExtensions,
    edits: &Edits,
    seed: &Seed,
) -> Result<NewPath, PathError>
    requires epoch { group.now.context.epoch + 1 < 2 ^ 64 }
    requires extensions { IsBelow (2 ^ 27) group_extensions extensions.now }
    ensures answer { MakesPath S.crypto group.now signing.now index extensions.now edits.now
        seed.now result }
    ensures leaf { IfOk result (λ p. p.keys.leaf ≡ index) }
    ensures below { IfOk result (λ p. IsBelow (2 ^ 28) leaf_node p.path.leaf_node) }
    ensures chain { IfOk result (λ p. IsChain S.crypto edits.now.tree index seed.now p.secrets) }
    // It passes the checks that each member makes of a path.
    ensures received { IfOk result (IsValid S.crypto group.now index edits.now) }
    // The leaves of the tree with it are as short as those of the tree after the edits and the new one.
    ensures short { IfOk result (λ p. StaysShort edits.now.tree p.path.leaf_node (term p.tree)) }
{
    group.is_short();
    let edited = edits.tree.as_tree();
    let mut made = merge_new_path::<S>(alloc, group, signing, index, edited, seed)?;
    let context = provisional_bytes(alloc, group.context(), extensions, &mut made.tree)?;
    let nodes = seal_path::<S>(
        alloc,
        edited,
        index,
        &edits.added,
        &made.secrets,
        &context,
        seed,
    )?;
    Ok(NewPath {
        path: UpdatePath {
            leaf_node: made.leaf,
            nodes: Items::from_vec(nodes),
        },
        secrets: made.secrets,
        keys: made.keys,
        tree: made.tree,
    })
}
