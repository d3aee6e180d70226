//! Edits at a leaf, as changes of the cells on the way to it. They are made before a cell is changed, so that nothing
//! changes where there is no memory for them.

ghost use Rattle.std.specs.Prelude.{◌≡◌, suc, ◌+◌, ◌≤◌, vec_len, IfOk, OnOk};
ghost use Rattle.std.specs.Vec.{vec_capacity};
ghost use Rattle.std.specs.Vec.Iter.{into_iter_items};
ghost use Rattle.mls_tree_model.specs.Term.{height};
ghost use Rattle.mls_tree_model.specs.Edits.{put, enter, list_leaf};
ghost use Rattle.mls_tree_model.specs.Arrays.{parent_in, leaf_cell, parent_cell};
ghost use Rattle.mls_tree_array.specs.Changes.{cells_on_way, AddsChanges, AddsMerge, AddsWithin, AreWithin, MakesMerge};
ghost use Rattle.mls_tree_array.specs.Merging.{first_if, rest_if};

use crate::places::parent_in;
use crate::resolutions::is_reached;
use crate::subtree::Subtree;
use mls_tree_cells::Change;
use mls_tree_slot::{SharedLeaf, SharedParent, Slot};
use std::alloc::{AllocError, Global};
use std::vec;

/// The cell that holds a leaf, or a blank one.
fn slot_of(leaf: Option<SharedLeaf>) -> Slot
    ensures { result ≡ leaf_cell leaf }
{
    match leaf {
        Some(leaf) => leaf.into_slot(),
        None => Slot::blank(),
    }
}

/// Room for the changes of a leaf of the tree and of the nodes over it.
fn make_room(alloc: Global, tree: &Subtree<'_>) -> Result<Vec<Change>, AllocError>
    ensures none { IfOk result (λ v. vec_len v ≡ 0) }
    ensures room { IfOk result (λ v. suc (height tree.now.term) ≤ vec_capacity v) }
{
    Vec::with_capacity(alloc, tree.height() as usize + 1)
}

/// Adds the changes that replace leaf i and blank the parents over it.
fn push_put(tree: &Subtree<'_>, i: u32, leaf: Option<SharedLeaf>, out: &mut Vec<Change>)
    requires { vec_len out.old + suc (height tree.now.term) ≤ vec_capacity out.old }
    ensures { AddsChanges tree.now.first (put tree.now.first tree.now.term i leaf) i
        out.old out.new }
{
    let place = tree.number();
    match tree.step_to(i) {
        None => {
            let slot = slot_of(leaf);
            out.push_reserved(Change { place, slot });
        }
        Some(step) => {
            let slot = Slot::blank();
            out.push_reserved(Change { place, slot });
            push_put(&step.side, i, leaf, out);
        }
    }
}

/// The changes that replace leaf i and blank the parents over it (RFC 9420, 12.1.2), one a level.
pub fn put_changes(
    alloc: Global,
    tree: &Subtree<'_>,
    i: u32,
    leaf: Option<SharedLeaf>,
) -> Result<Vec<Change>, AllocError>
    ensures { IfOk result (λ v. v.items
        ≡ cells_on_way tree.now.first (put tree.now.first tree.now.term i leaf) i) }
{
    let mut changes = make_room(alloc, tree)?;
    push_put(tree, i, leaf, &mut changes);
    Ok(changes)
}

/// What a place over leaf i holds once the leaf is in the list of its parent, where there is one.
fn list_leaf(alloc: Global, place: &Slot, i: u32) -> Result<Slot, AllocError>
    ensures { IfOk result (λ s. s ≡ parent_cell (list_leaf i (parent_in place.now))) }
{
    match parent_in(place) {
        Some(parent) => {
            let mut listing = parent.clone()?;
            let _is_new = listing.insert_unmerged(i)?;
            let shared = SharedParent::new(alloc, listing)?;
            Ok(shared.into_slot())
        }
        None => Ok(Slot::blank()),
    }
}

/// Adds the changes that fill leaf i, and enter it in the list of each parent over it that isn't blank.
fn push_enter(
    alloc: Global,
    tree: &Subtree<'_>,
    i: u32,
    leaf: SharedLeaf,
    out: &mut Vec<Change>,
) -> Result<(), AllocError>
    requires { vec_len out.old + suc (height tree.now.term) ≤ vec_capacity out.old }
    ensures { OnOk result (AddsChanges tree.now.first (enter tree.now.first tree.now.term i leaf) i
        out.old out.new) }
{
    let place = tree.number();
    match tree.step_to(i) {
        None => {
            let slot = leaf.into_slot();
            out.push_reserved(Change { place, slot });
            Ok(())
        }
        Some(step) => {
            let slot = list_leaf(alloc, step.root, i)?;
            out.push_reserved(Change { place, slot });
            push_enter(alloc, &step.side, i, leaf, out)
        }
    }
}

/// The changes that fill leaf i, and enter it in the list of each parent over it that isn't blank (RFC 9420, 12.1.1),
/// one a level.
pub fn enter_changes(
    alloc: Global,
    tree: &Subtree<'_>,
    i: u32,
    leaf: SharedLeaf,
) -> Result<Vec<Change>, AllocError>
    ensures { IfOk result (λ v. v.items
        ≡ cells_on_way tree.now.first (enter tree.now.first tree.now.term i leaf) i) }
{
    let mut changes = make_room(alloc, tree)?;
    push_enter(alloc, tree, i, leaf, &mut changes)?;
    Ok(changes)
}

/// The cell of the next parent where one is wanted, and a blank one elsewhere.
fn next_cell(wanted: bool, parents: &mut vec::IntoIter<SharedParent>) -> Slot
    ensures cell { result ≡ parent_cell (first_if wanted (into_iter_items parents.old)) }
    ensures rest { into_iter_items parents.new ≡ rest_if wanted (into_iter_items parents.old) }
{
    if !wanted {
        return Slot::blank();
    }
    match parents.next() {
        Some(parent) => parent.into_slot(),
        None => Slot::blank(),
    }
}

/// Adds the changes that merge a path of leaf i, whose parents are given highest first.
fn push_merge(
    tree: &Subtree<'_>,
    i: u32,
    parents: &mut vec::IntoIter<SharedParent>,
    leaf: SharedLeaf,
    out: &mut Vec<Change>,
)
    requires { vec_len out.old + suc (height tree.now.term) ≤ vec_capacity out.old }
    ensures made { AddsMerge tree.now i leaf (into_iter_items parents.old) out.old out.new }
    ensures within { AddsWithin tree.now out.old out.new }
{
    let place = tree.number();
    match tree.step_to(i) {
        None => {
            let slot = leaf.into_slot();
            out.push_reserved(Change { place, slot });
        }
        Some(step) => {
            let slot = next_cell(is_reached(&step.other), parents);
            out.push_reserved(Change { place, slot });
            push_merge(&step.side, i, parents, leaf, out);
        }
    }
}

/// The changes that merge a path: they replace leaf i and blank the parents over it, except for those of the filtered
/// path, which are replaced by the given ones, the highest first (RFC 9420, 7.5); one a level.
pub fn merge_changes(
    alloc: Global,
    tree: &Subtree<'_>,
    i: u32,
    parents: Vec<SharedParent>,
    leaf: SharedLeaf,
) -> Result<Vec<Change>, AllocError>
    ensures made { IfOk result (MakesMerge tree.now i leaf parents.items) }
    // Whatever parents are given, only cells of the tree are changed.
    ensures within { IfOk result (AreWithin tree.now) }
{
    let mut changes = make_room(alloc, tree)?;
    let mut parents = parents.into_iter();
    push_merge(tree, i, &mut parents, leaf, &mut changes);
    Ok(changes)
}
