//! Subtrees with the tree hashes of all subtrees beside their nodes.

ghost use Rattle.std.specs.Prelude.{◌≡◌, ◌^◌, ◌≤◌, ℕ, length};
ghost use Rattle.mls_treemath.specs.Paths.{nodes_in};
ghost use Rattle.mls_tree_model.specs.Resolution.{is_reached};
ghost use Rattle.mls_tree_model.specs.Hashes.{tree_hash};
ghost use Rattle.mls_tree_model.specs.Arrays.{term_of};
ghost use Rattle.mls_tree_array.specs.KeptHashes.{hashes_of};
ghost use Rattle.mls_tree_array.specs.HashedParts.{HasParts, HasStep};

use crate::resolutions::is_reached;
use crate::subtree::{Parts, Subtree};
use mls_tree_cells::Cells;
use mls_tree_hash::Hash;
use mls_tree_slot::Slot;
use std::marker::Model;

/// A subtree of a tree in which no node is cold.
#[derive(Drop)]
pub struct HashedSubtree<'a> {
    tree: Subtree<'a>,
    cells: &'a Cells,
}

impl<'a> Model for HashedSubtree<'a> {
    ghost use Rattle.std.specs.Prelude.{◌+◌, ◌*◌, ◌≤◌, length};
    ghost use Rattle.mls_tree_model.specs.Term.{size as node_count};
    ghost use Rattle.mls_tree_array.specs.Spans.{AreHashesAt};
    ghost use Rattle.mls_tree_array.specs.Subtrees as model;
    ghost use Rattle.mls_tree_array.specs.Codes.{coded_subtree};

    ghost Value = { model.Subtree };

    ghost coded = { coded_subtree };

    ghost view = { λ t. t.tree };

    ghost invariant = { λ t. (2 * t.tree.first + node_count t.tree.term ≤ length t.cells.now.nodes)
        × AreHashesAt t.tree.first t.tree.term t.cells.now.hashes };
}

/// What a subtree consists of.
#[derive(Drop)]
pub(crate) enum HashedParts<'a> {
    /// It is the leaf in this place.
    Leaf(&'a Slot),
    /// It is the parent in a place, over two sides.
    Branch {
        left: HashedSubtree<'a>,
        root: &'a Slot,
        right: HashedSubtree<'a>,
    },
}

/// A step from a root down to a leaf.
#[derive(Drop)]
pub(crate) struct HashedStep<'a> {
    /// The side that the leaf is on.
    pub side: HashedSubtree<'a>,
    /// The place of the root.
    pub root: &'a Slot,
    /// The other side.
    pub other: HashedSubtree<'a>,
}

impl<'a> HashedSubtree<'a> {
    /// The whole tree of this height, in which no node is cold.
    pub fn of(cells: &'a Cells, height: u32) -> HashedSubtree<'a>
        requires shape { length cells.now.nodes ≡ nodes_in height }
        requires fits { 2 ^ height ≤ 2 ^ 31 }
        requires hashed { cells.now.hashes ≡ hashes_of 0 (term_of height cells.now.nodes) }
        ensures { result ≡ record { first = 0; term = term_of height cells.now.nodes } }
    {
        let tree = Subtree::of(cells, height);
        HashedSubtree { tree, cells }
    }

    /// The subtree alone.
    pub(crate) fn tree(&self) -> &Subtree<'a>
        ensures { result.now ≡ self.now }
    {
        &self.tree
    }

    /// The number of its first leaf.
    pub(crate) fn first(&self) -> u32
        ensures { result ≡ self.now.first }
    {
        self.tree.first()
    }

    /// Whether its resolution isn't empty.
    pub(crate) fn is_reached(&self) -> bool
        ensures { (b : ℕ) → result ≡ is_reached b self.now.term }
    {
        is_reached(&self.tree)
    }

    /// Its tree hash (RFC 9420, 7.8).
    pub(crate) fn hash(&self) -> Hash
        ensures { result ≡ tree_hash self.now.first self.now.term }
    {
        match self.cells.hash(self.tree.number() as usize) {
            Some(hash) => hash,
            None => unreachable!(),
        }
    }

    /// Its root and its sides.
    pub(crate) fn parts(&self) -> HashedParts<'a>
        ensures { HasParts self.now result }
    {
        match self.tree.parts() {
            Parts::Leaf(place) => HashedParts::Leaf(place),
            Parts::Branch { left, root, right } => HashedParts::Branch {
                left: HashedSubtree {
                    tree: left,
                    cells: self.cells,
                },
                root,
                right: HashedSubtree {
                    tree: right,
                    cells: self.cells,
                },
            },
        }
    }

    /// The step from its root to leaf i: None where it is a leaf.
    pub(crate) fn step_to(&self, i: u32) -> Option<HashedStep<'a>>
        ensures { HasStep self.now i result }
    {
        match self.parts() {
            HashedParts::Leaf(_) => None,
            HashedParts::Branch { left, root, right } => {
                if i < right.first() {
                    return Some(HashedStep {
                        side: left,
                        root,
                        other: right,
                    });
                }
                Some(HashedStep {
                    side: right,
                    root,
                    other: left,
                })
            }
        }
    }
}
