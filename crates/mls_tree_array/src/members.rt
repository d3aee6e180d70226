//! Which leaves of a tree are taken.

ghost use Rattle.std.specs.Prelude.{◌≡◌, ℕ, ◌+◌, ◌^◌, ◌<◌, ◌≤◌, Some, length};
ghost use Rattle.mls_treemath.specs.Paths.{nodes_in};
ghost use Rattle.mls_tree_model.specs.Term.{width, has_leaf, is_full_width};
ghost use Rattle.mls_tree_model.specs.Edits.{first_blank};
ghost use Rattle.mls_tree_model.specs.Keys.{members};
ghost use Rattle.mls_tree_model.specs.Arrays.{term_of};
ghost use Rattle.mls_tree_array.specs.EndOfMembers.{end_of_members};

use crate::places::leaf_in;
use crate::subtree::{Parts, Subtree};
use mls_tree_slot::Slot;

/// The number of the leftmost blank leaf, where each leaf before `from` is taken: it looks at none of them but the
/// last.
#[tactic(auto, unfolding(mls_tree_model::specs::Edits::first_blank))]
pub fn first_blank(tree: &Subtree<'_>, from: u32) -> Option<u32>
    requires { (i : ℕ) → first_blank tree.now.first tree.now.term ≡ Some i → from ≤ i }
    ensures { result ≡ first_blank tree.now.first tree.now.term }
{
    match tree.parts() {
        Parts::Leaf(place) => match leaf_in(place) {
            Some(_) => None,
            None => Some(tree.first()),
        },
        Parts::Branch { left, right, .. } => {
            if right.first() <= from {
                return first_blank(&right, from);
            }
            match first_blank(&left, from) {
                Some(i) => Some(i),
                None => first_blank(&right, from),
            }
        }
    }
}

/// One past the rightmost taken leaf, where each leaf from `end` on is blank: it looks at none of them but the first.
/// It is `first` where no leaf is taken.
#[tactic(auto, unfolding(crate::specs::EndOfMembers::end_of_members, mls_tree_model::specs::Term::width))]
pub fn end_of_members(tree: &Subtree<'_>, end: u32) -> u32
    requires { end_of_members tree.now.first tree.now.term ≤ end }
    ensures { result ≡ end_of_members tree.now.first tree.now.term }
{
    match tree.parts() {
        Parts::Leaf(place) => match leaf_in(place) {
            Some(_) => tree.end(),
            None => tree.first(),
        },
        Parts::Branch { left, right, .. } => {
            let second = right.first();
            if end <= second {
                return end_of_members(&left, end);
            }
            let on_right = end_of_members(&right, end);
            if second < on_right {
                return on_right;
            }
            end_of_members(&left, second)
        }
    }
}

/// Whether the first place has a leaf, where blank ones follow.
fn begins_with_leaf(nodes: &[Slot]) -> bool
    ensures { result ≡ has_leaf (term_of 0 nodes.now) }
{
    match nodes.first() {
        Some(node) => match leaf_in(node) {
            Some(_) => true,
            None => false,
        },
        None => false,
    }
}

/// Whether the tree has a member. Blank nodes follow those that are given, up to the tree's end.
pub fn has_leaf(nodes: &[Slot], height: u32) -> bool
    requires { height < 64 }
    ensures { result ≡ has_leaf (term_of height nodes.now) }
{
    if height == 0 {
        return begins_with_leaf(nodes);
    }
    let middle = (1usize << height) - 1;
    if nodes.len() <= middle {
        return has_leaf(nodes, height - 1);
    }
    let left = has_leaf(&nodes[..middle], height - 1);
    left || has_leaf(&nodes[middle + 1..], height - 1)
}

/// Whether no smaller tree would do: the right half has a member, or the only leaf is one. Blank nodes follow those
/// that are given, up to the tree's end.
pub fn is_full_width(nodes: &[Slot], height: u32) -> bool
    requires { height < 64 }
    ensures { result ≡ is_full_width (term_of height nodes.now) }
{
    if height == 0 {
        return begins_with_leaf(nodes);
    }
    let middle = (1usize << height) - 1;
    if nodes.len() <= middle {
        return false;
    }
    has_leaf(&nodes[middle + 1..], height - 1)
}

/// How many members the tree has.
#[tactic(auto, unfolding(mls_tree_model::specs::Keys::members, mls_tree_model::specs::Term::width))]
pub fn member_count(tree: &Subtree<'_>) -> u32
    ensures count { (b : ℕ) → result ≡ length (members b tree.now.term) }
    ensures within { result ≤ width tree.now.term }
{
    match tree.parts() {
        Parts::Leaf(place) => match leaf_in(place) {
            Some(_) => 1,
            None => 0,
        },
        Parts::Branch { left, right, .. } => member_count(&left) + member_count(&right),
    }
}
