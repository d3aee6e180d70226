//! Subtrees of a tree whose cells stand in node order.

ghost use Rattle.std.specs.Prelude.{◌≡◌, ◌^◌, ◌≤◌, length};
ghost use Rattle.mls_treemath.specs.Paths.{nodes_in};
ghost use Rattle.mls_tree_model.specs.Term.{height};
ghost use Rattle.mls_tree_model.specs.Arrays.{term_of};
ghost use Rattle.mls_tree_array.specs.Subtrees.{end, root_number, subtree_at};
ghost use Rattle.mls_tree_array.specs.SubtreeParts.{HasParts, HasStep};

use crate::places::{root_of, second_first};
use mls_tree_cells::Cells;
use mls_tree_slot::Slot;
use std::marker::Model;

/// A subtree. It is a view of its cells among those of the tree, which stand in order: first those of its left side,
/// then its root, then those of its right side.
#[derive(Drop)]
pub struct Subtree<'a> {
    cells: &'a Cells,
    height: u32,
    first: u32,
}

impl<'a> Model for Subtree<'a> {
    ghost use Rattle.std.specs.Prelude.{◌≡◌, ◌+◌, ◌*◌, ◌^◌, ◌≤◌, length};
    ghost use Rattle.mls_treemath.specs.Paths.{nodes_in};
    ghost use Rattle.mls_tree_model.specs.Arrays.{term_of};
    ghost use Rattle.mls_tree_array.specs.Spans.{term_at};
    ghost use Rattle.mls_tree_array.specs.Subtrees as model;
    ghost use Rattle.mls_tree_array.specs.Codes.{coded_subtree};

    ghost Value = { model.Subtree };

    ghost coded = { coded_subtree };

    ghost view = { λ t. record {
      first = t.first;
      term = term_at t.height t.first t.cells.now.nodes;
    } };

    ghost invariant = { λ t. (2 * t.first + nodes_in t.height ≤ length t.cells.now.nodes)
        × (t.first + 2 ^ t.height ≤ 2 ^ 31) };
}

/// What a subtree consists of.
#[derive(Drop)]
pub(crate) enum Parts<'a> {
    /// It is the leaf in this place.
    Leaf(&'a Slot),
    /// It is the parent in a place, over two sides.
    Branch {
        left: Subtree<'a>,
        root: &'a Slot,
        right: Subtree<'a>,
    },
}

/// A step from a root down to a leaf.
#[derive(Drop)]
pub(crate) struct Step<'a> {
    /// The side that the leaf is on.
    pub side: Subtree<'a>,
    /// The place of the root.
    pub root: &'a Slot,
    /// The other side.
    pub other: Subtree<'a>,
}

impl<'a> Subtree<'a> {
    /// The whole tree of this height.
    pub fn of(cells: &'a Cells, height: u32) -> Subtree<'a>
        requires shape { length cells.now.nodes ≡ nodes_in height }
        requires fits { 2 ^ height ≤ 2 ^ 31 }
        ensures { result ≡ record { first = 0; term = term_of height cells.now.nodes } }
    {
        Subtree {
            cells,
            height,
            first: 0,
        }
    }

    /// The same subtree.
    pub(crate) fn copy(&self) -> Subtree<'a>
        ensures { result ≡ self.now }
    {
        Subtree {
            cells: self.cells,
            height: self.height,
            first: self.first,
        }
    }

    /// How many levels are below its root.
    pub(crate) fn height(&self) -> u32
        ensures { result ≡ height self.now.term }
    {
        self.height
    }

    /// The number of its first leaf.
    pub(crate) fn first(&self) -> u32
        ensures { result ≡ self.now.first }
    {
        self.first
    }

    /// One past the number of its last leaf.
    pub(crate) fn end(&self) -> u32
        ensures { result ≡ end self.now }
    {
        self.first + (1 << self.height)
    }

    /// The number of its root.
    pub(crate) fn number(&self) -> u32
        ensures { result ≡ root_number self.now.first self.now.term }
    {
        root_of(self.height, self.first)
    }

    /// Its root and its sides.
    pub(crate) fn parts(&self) -> Parts<'a>
        ensures { HasParts self.now result }
    {
        let root = self.cells.slot(root_of(self.height, self.first) as usize);
        if self.height == 0 {
            return Parts::Leaf(root);
        }
        let height = self.height - 1;
        Parts::Branch {
            left: Subtree {
                cells: self.cells,
                height,
                first: self.first,
            },
            root,
            right: Subtree {
                cells: self.cells,
                height,
                first: second_first(self.height, self.first),
            },
        }
    }

    /// The step from its root to leaf i: None where it is a leaf.
    pub(crate) fn step_to(&self, i: u32) -> Option<Step<'a>>
        ensures { HasStep self.now i result }
    {
        match self.parts() {
            Parts::Leaf(_) => None,
            Parts::Branch { left, root, right } => {
                if i < right.first() {
                    return Some(Step {
                        side: left,
                        root,
                        other: right,
                    });
                }
                Some(Step {
                    side: right,
                    root,
                    other: left,
                })
            }
        }
    }
}

/// The subtree whose root is node x: None where the tree has no such node.
pub(crate) fn subtree_at<'a>(tree: &Subtree<'a>, x: u64) -> Option<Subtree<'a>>
    ensures { result ≡ subtree_at tree.now.first tree.now.term x }
{
    let number = u64::from(tree.number());
    if x == number {
        return Some(tree.copy());
    }
    match tree.parts() {
        Parts::Leaf(_) => None,
        Parts::Branch { left, right, .. } => {
            if x < number {
                return subtree_at(&left, x);
            }
            subtree_at(&right, x)
        }
    }
}
