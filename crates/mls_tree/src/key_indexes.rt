//! The indexes that a tree keeps, so that no commit sorts its keys.

ghost use Rattle.std.specs.Prelude.{◌≡◌, ℕ, ◌+◌, ◌*◌, ◌≤◌, ◌^◌, nat_eq, true, take, length, IfOk, OnOk};
ghost use Rattle.mls_tree_model.specs.Sets.{is_distinct};
ghost use Rattle.mls_tree_model.specs.Good.{has_distinct_keys, has_distinct_clients};
ghost use Rattle.mls_tree.specs.HeldKeys.{TellsOfKey, has_client, has_key};
ghost use Rattle.mls_tree.specs.IndexedKeys.{AreIndexes, AreBeside, AreOwn, StayOwn, HaveRoom, LeavesRoom, AreSame, KeepsIndexes, EntersNode, LeavesNodes, EntersNodes, AnswersTest};

use mls_tree_cells::Cells;
use mls_tree_index::{Index, KeyKind};
use std::alloc::{AllocError, Global};

/// The indexes of the cells of a tree. An edit takes at most two of their room to enter a cell, and one to take it out.
#[derive(Drop)]
pub(crate) struct KeyIndexes {
    /// Of all nodes, by encryption key.
    pub(crate) keys: Index,
    /// Of the members, by signature key.
    pub(crate) clients: Index,
}

impl KeyIndexes {
    /// The indexes of these cells.
    pub(crate) fn build(alloc: Global, cells: &Cells) -> Result<KeyIndexes, AllocError>
        requires { length cells.now.nodes ≤ 2 ^ 32 }
        ensures { IfOk result (λ t. AreIndexes cells.now.nodes t) }
    {
        let keys = Index::build(alloc, KeyKind::Encryption, cells)?;
        let clients = Index::build(alloc, KeyKind::Signature, cells)?;
        Ok(KeyIndexes { keys, clients })
    }

    /// Makes so much room. Without memory for it all stays.
    pub(crate) fn reserve(&mut self, count: usize) -> Result<(), AllocError>
        ensures room { OnOk result (HaveRoom count self.new) }
        ensures own { StayOwn self.old self.new }
        ensures same { AreSame self.old self.new }
    {
        self.keys.reserve(count)?;
        self.clients.reserve(count)
    }

    /// Lets later copies share their blocks.
    pub(crate) fn share(&mut self)
        ensures { AreSame self.old self.new }
    {
        self.keys.share();
        self.clients.share();
    }

    /// Gives them blocks that no copy shares. Without memory for it they are as before.
    pub(crate) fn make_own(&mut self) -> Result<(), AllocError>
        ensures own { OnOk result (AreOwn self.new) }
        ensures same { AreSame self.old self.new }
    {
        self.keys.make_own()?;
        self.clients.make_own()
    }

    /// Enters a cell: after it was filled, where it was blank.
    pub(crate) fn enter(&mut self, cells: &Cells, x: u32)
        requires { HaveRoom 2 self.old }
        ensures { EntersNode x cells.now.nodes self.old self.new }
    {
        self.keys.enter(cells, x);
        self.clients.enter(cells, x);
    }

    /// Takes out the cells at some places, each given once: before they are blanked or replaced.
    pub(crate) fn leave_all(&mut self, cells: &Cells, places: &[u32])
        requires distinct { is_distinct nat_eq places.now ≡ true }
        requires room { HaveRoom (length places.now) self.old }
        ensures room { LeavesRoom (length places.now) self.old self.new }
        ensures own { StayOwn self.old self.new }
        ensures left { LeavesNodes places.now cells.now.nodes self.old self.new }
    {
        self.keys.leave_all(cells, places);
        self.clients.leave_all(cells, places);
    }

    /// Enters the cells at some places, each given once: after they were blanked or replaced.
    pub(crate) fn enter_all(&mut self, cells: &Cells, places: &[u32])
        requires distinct { is_distinct nat_eq places.now ≡ true }
        requires room { HaveRoom (2 * length places.now) self.old }
        ensures own { StayOwn self.old self.new }
        ensures entered { EntersNodes places.now cells.now.nodes self.old self.new }
    {
        self.keys.enter_all(cells, places);
        self.clients.enter_all(cells, places);
    }

    /// Takes out the cells of a leaf's way, but from the index of clients where that is kept: before the leaf and the
    /// parents over it are replaced.
    pub(crate) fn leave_path(&mut self, cells: &Cells, way: &[u32], kept: bool)
        requires distinct { is_distinct nat_eq way.now ≡ true }
        requires room { HaveRoom (length way.now) self.old }
        ensures room { LeavesRoom (length way.now) self.old self.new }
        ensures left { AreIndexes cells.now.nodes self.old
            → AreBeside kept way.now cells.now.nodes self.new }
    {
        self.keys.leave_all(cells, way);
        if !kept {
            self.clients.leave_all(cells, way);
        }
    }

    /// Enters the cells of a leaf's way, but into the index of clients where that was kept: after they were replaced.
    pub(crate) fn enter_path(&mut self, cells: &Cells, way: &[u32], kept: bool)
        requires distinct { is_distinct nat_eq way.now ≡ true }
        requires room { HaveRoom (2 * length way.now) self.old }
        ensures { AreBeside kept way.now cells.now.nodes self.old
            → AreIndexes cells.now.nodes self.new }
    {
        self.keys.enter_all(cells, way);
        if !kept {
            self.clients.enter_all(cells, way);
        }
    }

    /// Takes out all cells from this number on: before they are cut off. Takes no room.
    pub(crate) fn leave_from(&mut self, cells: &Cells, count: usize)
        requires fits { length cells.now.nodes ≤ 2 ^ 32 }
        requires own { AreOwn self.old }
        ensures { KeepsIndexes cells.now.nodes (take count cells.now.nodes) self.old self.new }
    {
        self.keys.leave_from(cells, count);
        self.clients.leave_from(cells, count);
    }

    /// Whether no two nodes have one encryption key.
    pub(crate) fn has_distinct_keys(&self) -> bool
        ensures { AnswersTest has_distinct_keys self.now result }
    {
        self.keys.are_distinct()
    }

    /// Whether no two members have one signature key.
    pub(crate) fn has_distinct_clients(&self) -> bool
        ensures { AnswersTest has_distinct_clients self.now result }
    {
        self.clients.are_distinct()
    }

    /// Whether a node has this encryption key.
    pub(crate) fn has_key(&self, cells: &Cells, key: &[u8]) -> bool
        ensures { TellsOfKey has_key cells.now.nodes key.now self.now result }
    {
        self.keys.holds(cells, key)
    }

    /// Whether a member has this signature key.
    pub(crate) fn has_client(&self, cells: &Cells, key: &[u8]) -> bool
        ensures { TellsOfKey has_client cells.now.nodes key.now self.now result }
    {
        self.clients.holds(cells, key)
    }
}

impl Clone for KeyIndexes {
    ghost is_clone = { λ s t. AreSame s t };

    fn clone(&self) -> Result<KeyIndexes, AllocError> {
        Ok(KeyIndexes {
            keys: self.keys.clone()?,
            clients: self.clients.clone()?,
        })
    }
}
