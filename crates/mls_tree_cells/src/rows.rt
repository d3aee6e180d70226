//! Slots that stand side by side, with the hash that is kept beside each.

ghost use Rattle.std.specs.Prelude.{◌≡◌, ◌<◌, [], Some, None, length, get_or, slice_set, IfOk, OnOk, OnErr};
ghost use Rattle.mls_tree_cells.specs.Rows.{AddsCell, AnswersWarm, SetsSlot, first_cells};

use mls_tree_slot::Slot;
use std::alloc::{AllocError, Global};
use std::marker::Model;

/// A tree hash (RFC 9420, 7.8).
pub type Hash = [u8; 32];

/// Slots that stand side by side, with the hash that is kept beside each: a cold one has none.
#[derive(Drop)]
pub(crate) struct Row {
    slots: Vec<Slot>,
    hashes: Vec<Option<Hash>>,
}

impl Model for Row {
    ghost use Rattle.std.specs.Prelude.{◌≡◌, length};
    ghost use Rattle.mls_tree_cells.specs.Cells.{CellList};

    ghost Value = { CellList };

    ghost view = { λ r. record { nodes = r.slots.items; hashes = r.hashes.items } };

    ghost invariant = { λ r. length r.hashes.items ≡ length r.slots.items };
}

impl Row {
    /// A row with no cell, which takes no memory.
    pub(crate) fn new(alloc: Global) -> Row
        ensures { result ≡ record { nodes = []; hashes = [] } }
    {
        Row {
            slots: Vec::new(alloc),
            hashes: Vec::new(alloc),
        }
    }

    /// A row with no cell, and with memory for so many.
    pub(crate) fn with_capacity(alloc: Global, count: usize) -> Result<Row, AllocError>
        ensures { IfOk result (λ r. r ≡ record { nodes = []; hashes = [] }) }
    {
        Ok(Row {
            slots: Vec::with_capacity(alloc, count)?,
            hashes: Vec::with_capacity(alloc, count)?,
        })
    }

    /// The allocator that it was made with.
    pub(crate) fn allocator(&self) -> Global {
        *self.slots.allocator()
    }

    /// How many cells it has.
    pub(crate) fn len(&self) -> usize
        ensures nodes { result ≡ length self.now.nodes }
        ensures hashes { result ≡ length self.now.hashes }
    {
        self.slots.len()
    }

    /// The slot of cell x.
    pub(crate) fn slot(&self, x: usize) -> &Slot
        requires { x < length self.now.nodes }
        ensures { result.now ≡ get_or self.now.nodes x None }
    {
        &self.slots[x]
    }

    /// The hash kept beside cell x.
    pub(crate) fn hash(&self, x: usize) -> Option<Hash>
        requires { x < length self.now.nodes }
        ensures { result ≡ get_or self.now.hashes x None }
    {
        self.hashes[x]
    }

    /// Whether a hash is kept beside each cell.
    pub(crate) fn is_warm(&self) -> bool
        ensures { AnswersWarm self.now result }
    {
        for hash in &self.hashes {
            if hash.is_none() {
                return false;
            }
        }
        true
    }

    /// Puts a slot into cell x, which becomes cold.
    pub(crate) fn put(&mut self, x: usize, slot: Slot)
        requires { x < length self.old.nodes }
        ensures { SetsSlot x slot self.old self.new }
    {
        self.slots[x] = slot;
        self.hashes[x] = None;
    }

    /// Keeps a hash beside cell x.
    pub(crate) fn keep_hash(&mut self, x: usize, hash: Hash)
        requires { x < length self.old.nodes }
        ensures { self.new ≡ record self.old { hashes = slice_set self.old.hashes x (Some hash) } }
    {
        self.hashes[x] = Some(hash);
    }

    /// Adds a cold cell at the end. Without memory for it all stays.
    pub(crate) fn push(&mut self, slot: Slot) -> Result<(), AllocError>
        ensures ok { OnOk result (AddsCell slot self.old self.new) }
        ensures err { OnErr result (self.new ≡ self.old) }
    {
        self.slots.reserve(1)?;
        self.hashes.reserve(1)?;
        self.slots.push_reserved(slot);
        self.hashes.push_reserved(None);
        Ok(())
    }

    /// Keeps the first cells alone. Takes no memory.
    pub(crate) fn truncate(&mut self, count: usize)
        ensures { self.new ≡ first_cells count self.old }
    {
        self.slots.truncate(count);
        self.hashes.truncate(count);
    }
}

impl Clone for Row {
    ghost is_clone = { λ r s. s ≡ r };

    fn clone(&self) -> Result<Row, AllocError> {
        Ok(Row {
            slots: self.slots.clone()?,
            hashes: Vec::from_slice(*self.hashes.allocator(), &self.hashes)?,
        })
    }
}
