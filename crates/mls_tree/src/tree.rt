//! The public tree.

ghost use Rattle.std.specs.Prelude.{◌≡◌, ◌≤◌, not, [], Some, IsSome, true, IfOk, OnOk, OnErr, length};
ghost use Rattle.std.specs.Bool.{OnTrue};
ghost use Rattle.std.specs.Option.{option_copied, option_map};
ghost use Rattle.mls_wire.specs.Checks.{Answers};
ghost use Rattle.mls_tree_slot.specs.Nodes.{lent_node};
ghost use Rattle.mls_tree_model.specs.Term.{Leaf, leaf_of, width};
ghost use Rattle.mls_tree_model.specs.Edits.{remove};
ghost use Rattle.mls_tree_model.specs.Places.{resolution_at};
ghost use Rattle.mls_tree_model.specs.Resolution.{is_empty};
ghost use Rattle.mls_tree_model.specs.Keys.{members};
ghost use Rattle.mls_tree_model.specs.Hashes.{tree_hash};
ghost use Rattle.mls_tree_model.specs.Arrays.{from_nodes, to_nodes, node_at};
ghost use Rattle.mls_tree_model.specs.Good.{has_good_shape};
ghost use Rattle.mls_tree_hash.specs.Counter.{counted};
ghost use Rattle.mls_tree_array.specs.EndOfMembers.{end_of_members};
ghost use Rattle.mls_tree_array.specs.KeptHashes.{hashes_of, cold_places};
ghost use Rattle.mls_tree.specs.Bounds.{IsLastBeside};
ghost use Rattle.mls_tree.specs.ColdNodes.{IsNewTree, Chills, AddChills};
ghost use Rattle.mls_tree.specs.Faults.{number_of};
ghost use Rattle.mls_tree.specs.EditsKeepGood.{IsGoodIfNew, AddKeepsGood, AddKeepsSound, KeepsGoodAt, KeepsSoundAt, RemoveKeepsGood, RemoveKeepsSound};
ghost use Rattle.mls_tree.specs.Refusals.{Refuses, AnswersMember, AnswersList, AnswersAdd, AnswersUpdate, AnswersRemove};
ghost use Rattle.mls_tree.specs.ShortLeaves.{AreShort, HasShortLeaves};
ghost use Rattle.mls_tree.specs.Tree.{term, max_leaves, path_answer, add_answer, update_answer, remove_answer};

use crate::edits;
use crate::error::TreeError;
use crate::key_indexes::KeyIndexes;
use mls_leaf::LeafNode;
use mls_tree_array::{self as array, Hash, HashedSubtree, Subtree};
use mls_tree_cells::Cells;
use mls_tree_slot::{NodeRef, SharedLeaf, Slot};
use mls_treemath::MAX_HEIGHT;
use std::alloc::{AllocError, Global};
use std::marker::Model;

/// The public tree of a group: at most `MAX_LEAVES` leaves, a power of two, each a member or blank, and the parents
/// over them. Its methods use the allocator that it was made with. A copy shares the nodes, and the chunks that they
/// stand in where the tree was shared before; an edit copies only those that it changes.
pub struct PublicTree {
    pub(crate) cells: Cells,
    /// How many hashes of nodes were made.
    pub(crate) done: u64,
    pub(crate) indexes: KeyIndexes,
    pub(crate) height: u32,
    /// Each leaf before this one is taken.
    pub(crate) full_to: u32,
    /// Each leaf from this one on is blank.
    pub(crate) blank_from: u32,
}

impl Drop for PublicTree {
    fn drop(self) {
        let PublicTree {
            cells: _,
            done: _,
            indexes: _,
            height: _,
            full_to: _,
            blank_from: _,
        } = self;
    }
}

impl Model for PublicTree {
    ghost use Rattle.std.specs.Prelude.{◌≤◌};
    ghost use Rattle.mls_treemath.specs.Limits.{max_height};
    ghost use Rattle.mls_tree_model.specs.Arrays.{term_of};
    ghost use Rattle.mls_tree_array.specs.Standing.{Stands};
    ghost use Rattle.mls_tree_array.specs.KeptHashes.{Keeps};
    ghost use Rattle.mls_tree.specs.Bounds.{Bounds};
    ghost use Rattle.mls_tree.specs.IndexedKeys.{AreIndexes};
    ghost use Rattle.mls_tree.specs.Tree.{Tree};

    ghost Value = { Tree };

    ghost view = { λ t. record {
      height = t.height;
      nodes = t.cells.nodes;
      hashes = t.cells.hashes;
      hash_count = t.done;
    } };

    ghost invariant = { λ t. Stands t.height t.cells.nodes
        × (t.height ≤ max_height)
        × Keeps 0 (term_of t.height t.cells.nodes) t.cells.hashes
        × Bounds (term_of t.height t.cells.nodes) t.full_to t.blank_from
        × AreIndexes t.cells.nodes t.indexes };
}

impl PublicTree {
    /// The tree of one member.
    pub fn single(alloc: Global, leaf: LeafNode) -> Result<PublicTree, AllocError>
        ensures tree { IfOk result (λ t. term t ≡ Leaf (Some leaf)) }
        // It is good where the leaf passes the checks.
        ensures good { IfOk result (IsGoodIfNew leaf) }
        ensures cold { IfOk result IsNewTree }
    {
        let mut nodes = Vec::with_capacity(alloc, 1)?;
        let leaf = SharedLeaf::new(alloc, leaf)?;
        nodes.push(leaf.into_slot())?;
        let cells = Cells::from_slots(nodes)?;
        let indexes = KeyIndexes::build(alloc, &cells)?;
        Ok(PublicTree {
            cells,
            done: 0,
            indexes,
            height: 0,
            full_to: 0,
            blank_from: 1,
        })
    }

    /// The tree of nodes in order, as it is sent (RFC 9420, 12.4.3.3): blank nodes follow up to the least tree that
    /// holds them. Refused with `TreeShape` (20) where there are no nodes, the last one is blank, a leaf is at an odd
    /// or a parent at an even place, or more than one leaf and no member in the right half; then with `TreeFull` (21)
    /// above `MAX_LEAVES` leaves. Both are decided before memory is taken.
    pub fn from_nodes(nodes: Vec<Slot>) -> Result<PublicTree, TreeError>
        ensures answer { Answers term number_of (from_nodes max_leaves nodes.items) result }
        // Both come also when an allocation fails.
        ensures outright { Refuses (from_nodes max_leaves nodes.items) result }
        ensures shape { IfOk result (λ t. has_good_shape (term t) ≡ true) }
        // Its leaves are short where the nodes are, as those of an input are.
        ensures short { IfOk result (λ t. AreShort nodes.items → HasShortLeaves (term t)) }
        ensures cold { IfOk result IsNewTree }
    {
        if !array::has_last(&nodes) {
            return Err(TreeError::TreeShape);
        }
        if !array::alternates(&nodes) {
            return Err(TreeError::TreeShape);
        }
        let height = array::height_for(nodes.len());
        if !array::is_full_width(&nodes, height) {
            return Err(TreeError::TreeShape);
        }
        if height > MAX_HEIGHT {
            return Err(TreeError::TreeFull);
        }
        let mut nodes = nodes;
        array::pad_tree(&mut nodes, height)?;
        let cells = Cells::from_slots(nodes)?;
        let indexes = KeyIndexes::build(cells.allocator(), &cells)?;
        Ok(PublicTree {
            cells,
            done: 0,
            indexes,
            height,
            full_to: 0,
            blank_from: 1 << height,
        })
    }

    /// The nodes in order, as they are sent: all up to the last one that isn't blank (RFC 9420, 12.4.3.3). They are
    /// shared with the tree.
    pub fn to_nodes(&self) -> Result<Vec<Slot>, AllocError>
        ensures { IfOk result (λ v. v.items ≡ to_nodes (term self.now)) }
    {
        array::to_nodes(self.cells.allocator(), &self.cells)
    }

    /// The tree as a subtree of itself.
    pub(crate) fn subtree(&self) -> Subtree<'_>
        ensures { result ≡ record { first = 0; term = term self.now } }
    {
        Subtree::of(&self.cells, self.height)
    }

    /// The tree as a subtree of itself with its hashes, where no node is cold.
    pub(crate) fn hashed_subtree(&self) -> HashedSubtree<'_>
        requires { self.now.hashes ≡ hashes_of 0 (term self.now) }
        ensures { result ≡ record { first = 0; term = term self.now } }
    {
        HashedSubtree::of(&self.cells, self.height)
    }

    /// How many leaves it has, blank ones too.
    pub fn leaf_count(&self) -> u32
        ensures { result ≡ width (term self.now) }
    {
        1 << self.height
    }

    /// How many members it has.
    pub fn member_count(&self) -> u32
        ensures { result ≡ length (members 0 (term self.now)) }
    {
        array::member_count(&self.subtree())
    }

    /// The leaf of member i: None where it is blank or outside the tree.
    pub fn leaf(&self, i: u32) -> Option<&LeafNode>
        ensures { option_copied result ≡ leaf_of (term self.now) i }
    {
        array::leaf(&self.cells, self.height, i)
    }

    /// Refuses a leaf index at which no member is.
    pub(crate) fn require_member(&self, i: u32) -> Result<(), TreeError>
        ensures { AnswersMember (term self.now) i result }
    {
        match self.leaf(i) {
            Some(_) => Ok(()),
            None => Err(TreeError::NoSuchLeaf),
        }
    }

    /// Node x: None where it is blank or outside the tree.
    pub fn node(&self, x: u32) -> Option<NodeRef<'_>>
        ensures { option_map lent_node result ≡ node_at 0 (term self.now) x }
    {
        array::node(&self.cells, self.height, x)
    }

    /// The resolution of node x, as node indices (RFC 9420, 4.1.1); empty where the tree has no such node. An entry of
    /// a list of unmerged leaves is any u32, so node indices are wider.
    pub fn resolution(&self, x: u32) -> Result<Vec<u64>, AllocError>
        ensures { IfOk result (λ v. v.items ≡ resolution_at 0 (term self.now) x) }
    {
        let mut nodes = Vec::new(self.cells.allocator());
        array::resolution_at(&self.subtree(), x, &mut nodes)?;
        Ok(nodes)
    }

    /// Whether the resolution of node x isn't empty, so whether some member is below it.
    pub fn is_reached(&self, x: u32) -> bool
        ensures { result ≡ not (is_empty (resolution_at 0 (term self.now) x)) }
    {
        array::is_reached_at(&self.subtree(), x)
    }

    /// The filtered direct path of member i as node indices, the lowest first (RFC 9420, 4.1.2); `NoSuchLeaf` (22)
    /// where no member is there.
    pub fn filtered_path(&self, i: u32) -> Result<Vec<u32>, TreeError>
        ensures answer { AnswersList (path_answer (term self.now) i) result }
        // `NoSuchLeaf` (22) comes also when an allocation fails.
        ensures outright { Refuses (path_answer (term self.now) i) result }
    {
        match self.require_member(i) {
            Err(error) => return Err(error),
            Ok(()) => {}
        }
        let mut nodes = Vec::new(self.cells.allocator());
        array::filtered_path(&self.subtree(), i, &mut nodes)?;
        Ok(nodes)
    }

    /// The tree hash (RFC 9420, 7.8).
    pub fn tree_hash(&mut self) -> Hash
        ensures value { result ≡ tree_hash 0 (term self.old) }
        ensures same { term self.new ≡ term self.old }
        // Afterwards no node is cold. What was made is counted.
        ensures all { self.new.hashes ≡ hashes_of 0 (term self.old) }
        ensures counted { self.new.hash_count ≡ counted self.old.hash_count
            (cold_places self.old.hashes) }
    {
        array::tree_hash(&mut self.cells, self.height, &mut self.done)
    }

    /// How many hashes of nodes were made of this tree and those that it was copied from; the counter stays at its
    /// greatest number.
    pub fn hashes_done(&self) -> u64
        ensures { result ≡ self.now.hash_count }
    {
        self.done
    }

    /// Lets later copies share the chunks of its cells whose hashes are all kept, and its indexes.
    pub fn share(&mut self)
        ensures { self.new ≡ self.old }
    {
        self.cells.share();
        self.indexes.share();
    }

    /// Adds a member at the leftmost blank leaf, in a tree of twice the leaves where none is blank, and answers its
    /// leaf index (RFC 9420, 12.1.1). Refused with `TreeFull` (21) where that tree would have more than `MAX_LEAVES`
    /// leaves, also when an allocation fails.
    pub fn add(&mut self, leaf: LeafNode) -> Result<u32, TreeError>
        ensures answer { AnswersAdd leaf self.old self.new result }
        ensures outright { Refuses (add_answer (term self.old) leaf) result }
        // A good tree stays good where the leaf passes the checks, and a sound one sound.
        ensures good { OnOk result (AddKeepsGood leaf self.old self.new) }
        ensures sound { OnOk result (AddKeepsSound leaf self.old self.new) }
        ensures cold { IfOk result (AddChills self.old self.new) }
        ensures unchanged { OnErr result (self.new ≡ self.old) }
    {
        let height = self.height;
        match array::first_blank(&Subtree::of(&self.cells, height), self.full_to) {
            Some(i) => {
                let leaf = SharedLeaf::new(self.cells.allocator(), leaf)?;
                self.indexes.reserve(2)?;
                edits::enter(&mut self.cells, height, i, leaf)?;
                self.indexes.enter(&self.cells, 2 * i);
                self.full_to = i + 1;
                self.blank_from = self.blank_from.max(i + 1);
                Ok(i)
            }
            None => {
                if height == MAX_HEIGHT {
                    return Err(TreeError::TreeFull);
                }
                let leaf = SharedLeaf::new(self.cells.allocator(), leaf)?;
                self.indexes.reserve(2)?;
                edits::append(&mut self.cells, height, leaf)?;
                self.indexes.enter(&self.cells, 1 << (height + 1));
                self.height = height + 1;
                self.full_to = (1 << height) + 1;
                self.blank_from = (1 << height) + 1;
                Ok(1 << height)
            }
        }
    }

    /// Replaces the leaf of member i and blanks the parents over it (RFC 9420, 12.1.2); `NoSuchLeaf` (22) where no
    /// member is there. After a refusal the tree is as before.
    pub fn update(&mut self, i: u32, leaf: LeafNode) -> Result<(), TreeError>
        ensures answer { AnswersUpdate i leaf self.old self.new result }
        // `NoSuchLeaf` (22) comes also when an allocation fails.
        ensures outright { Refuses (update_answer (term self.old) i leaf) result }
        // A good tree stays good where the leaf passes the checks, and a sound one sound.
        ensures good { OnOk result (KeepsGoodAt i leaf [] self.old self.new) }
        ensures sound { OnOk result (KeepsSoundAt i leaf self.old self.new) }
        ensures cold { OnOk result (Chills (term self.old) i self.old self.new) }
        ensures unchanged { OnErr result (self.new ≡ self.old) }
    {
        match self.require_member(i) {
            Err(error) => return Err(error),
            Ok(()) => {}
        }
        let leaf = SharedLeaf::new(self.cells.allocator(), leaf)?;
        let (cells, indexes) = (&mut self.cells, &mut self.indexes);
        edits::put_with_indexes(cells, indexes, self.height, i, Some(leaf))?;
        Ok(())
    }

    /// One past the rightmost member.
    fn end_of_members(&self) -> u32
        ensures { result ≡ end_of_members 0 (term self.now) }
    {
        array::end_of_members(&self.subtree(), self.blank_from)
    }

    /// Whether the last member, where the members end here, is another one than i, and on the right half.
    fn is_last_beside(&self, i: u32, end: u32) -> bool
        requires member { IsSome (leaf_of (term self.now) i) }
        requires end { end ≡ end_of_members 0 (term self.now) }
        ensures { OnTrue result (IsLastBeside i end (term self.now)) }
    {
        let leaves = 1u32 << self.height;
        i + 1 < end && leaves < 2 * end
    }

    /// Removes member i, where the members end here with another one on the right half, so that the tree isn't halved.
    /// Without memory the tree is as before.
    fn remove_inside(&mut self, i: u32, end: u32) -> Result<(), AllocError>
        requires member { IsSome (leaf_of (term self.old) i) }
        requires end { end ≡ end_of_members 0 (term self.old) }
        requires last { IsLastBeside i end (term self.old) }
        ensures tree { OnOk result (term self.new ≡ remove (term self.old) i) }
        ensures cold { OnOk result (Chills (term self.old) i self.old self.new) }
        ensures unchanged { OnErr result (self.new ≡ self.old) }
    {
        let (cells, indexes) = (&mut self.cells, &mut self.indexes);
        edits::put_with_indexes(cells, indexes, self.height, i, None)?;
        self.full_to = self.full_to.min(i);
        self.blank_from = end;
        Ok(())
    }

    /// Removes member i, where the members end here, and halves the tree as long as its right half has no member. A cut
    /// takes no memory where the indexes are its own, so they are before anything is edited. Without memory the tree is
    /// as before.
    fn remove_and_trim(&mut self, i: u32, end: u32) -> Result<(), AllocError>
        requires member { IsSome (leaf_of (term self.old) i) }
        requires end { end ≡ end_of_members 0 (term self.old) }
        ensures tree { OnOk result (term self.new ≡ remove (term self.old) i) }
        ensures cold { OnOk result (Chills (term self.old) i self.old self.new) }
        ensures unchanged { OnErr result (self.new ≡ self.old) }
    {
        let height = self.height;
        self.indexes.make_own()?;
        let (cells, indexes) = (&mut self.cells, &mut self.indexes);
        edits::put_with_indexes(cells, indexes, height, i, None)?;
        let end = array::end_of_members(&Subtree::of(&self.cells, height), end);
        self.height = edits::trim(&mut self.cells, &mut self.indexes, height, end);
        self.full_to = self.full_to.min(i);
        self.blank_from = end;
        Ok(())
    }

    /// Blanks the leaf of member i and the parents over it, and halves the tree as long as its right half has no member
    /// (RFC 9420, 12.1.3); `NoSuchLeaf` (22) where no member is there. After a refusal the tree is as before.
    pub fn remove(&mut self, i: u32) -> Result<(), TreeError>
        ensures answer { AnswersRemove i self.old self.new result }
        // `NoSuchLeaf` (22) comes also when an allocation fails.
        ensures outright { Refuses (remove_answer (term self.old) i) result }
        // A good tree stays good where another member is left, and a sound one sound.
        ensures good { OnOk result (RemoveKeepsGood i self.old self.new) }
        ensures sound { OnOk result (RemoveKeepsSound i self.old self.new) }
        ensures cold { OnOk result (Chills (term self.old) i self.old self.new) }
        ensures unchanged { OnErr result (self.new ≡ self.old) }
    {
        match self.require_member(i) {
            Err(error) => return Err(error),
            Ok(()) => {}
        }
        let end = self.end_of_members();
        if self.is_last_beside(i, end) {
            return Ok(self.remove_inside(i, end)?);
        }
        Ok(self.remove_and_trim(i, end)?)
    }
}

impl Clone for PublicTree {
    ghost is_clone = { λ t u. u ≡ t };

    fn clone(&self) -> Result<PublicTree, AllocError> {
        Ok(PublicTree {
            cells: self.cells.clone()?,
            done: self.done,
            indexes: self.indexes.clone()?,
            height: self.height,
            full_to: self.full_to,
            blank_from: self.blank_from,
        })
    }
}
