//! The index: entries of cells in the order of their keys.

ghost use Rattle.std.specs.Prelude.{◌≡◌, ◌+◌, ◌≤◌, ◌^◌, suc, false, length, IfOk, OnOk};
ghost use Rattle.mls_tree_index.specs.Keys.{IsHolder};
ghost use Rattle.mls_tree_index.specs.Indexes.{Indexes, SameIndex, AnswersHeld, CanLeave, EntersCell, LeavesCell, AnswersDistinct};

use crate::blocks::Blocks;
use crate::entries::{is_again, sort_entries};
use crate::entry::Entry;
use crate::kind::KeyKind;
use mls_tree_cells::Cells;
use std::alloc::{AllocError, Global};
use std::marker::Model;

/// The entries of the cells that have a key of one kind, in the order of the keys, and of cells with one key by number.
/// The keys stay in the cells, and only their fronts are in entries. The entries stand in blocks that copies may share,
/// so that a copy of a shared index copies pointers, and an edit the block that it changes. It keeps count of keys that
/// repeat.
pub struct Index {
    pub(crate) kind: KeyKind,
    pub(crate) blocks: Blocks,
    pub(crate) repeats: usize,
}

impl Drop for Index {
    fn drop(self) {
        let Index {
            kind: _,
            blocks: _,
            repeats: _,
        } = self;
    }
}

impl Model for Index {
    ghost use Rattle.mls_tree_index.specs.Blocks.{joined};
    ghost use Rattle.mls_tree_index.specs.Indexes.{Listing};

    ghost Value = { Listing };

    ghost view = { λ t. record {
      kind = t.kind;
      entries = joined t.blocks.blocks;
      repeats = t.repeats;
      room = t.blocks.room;
      shared = t.blocks.shared;
    } };
}

impl Index {
    /// The index of these cells. Their entries are sorted, and each that has the key of the one before it is counted.
    pub fn build(alloc: Global, kind: KeyKind, cells: &Cells) -> Result<Index, AllocError>
        requires { length cells.now.nodes ≤ 2 ^ 32 }
        ensures kind { IfOk result (λ t. t.kind ≡ kind) }
        ensures built { IfOk result (λ t. Indexes cells.now.nodes t) }
        ensures own { IfOk result (λ t. t.shared ≡ false) }
    {
        let entries = sort_entries(alloc, kind, cells)?;
        let mut repeats = 0usize;
        for place in 0..entries.len() {
            let again = is_again(kind, cells, &entries, place);
            repeats += usize::from(again);
        }
        let blocks = Blocks::new(alloc, &entries)?;
        Ok(Index {
            kind,
            blocks,
            repeats,
        })
    }

    /// Makes room for so many spare blocks, so that edits take no memory: a cell that enters takes two at most, and one
    /// that leaves takes one at most, where copies may share the index. Without memory for it all stays.
    pub fn reserve(&mut self, count: usize) -> Result<(), AllocError>
        ensures room { OnOk result (count ≤ self.new.room) }
        ensures more { self.old.room ≤ self.new.room }
        ensures same { SameIndex self.old self.new }
        ensures own { self.old.shared ≡ false → self.new.shared ≡ false }
    {
        self.blocks.reserve(count)
    }

    /// Lets later copies share it, unless it is small. What there is no memory for isn't shared. Room that was made
    /// goes.
    pub fn share(&mut self)
        ensures same { SameIndex self.old self.new }
    {
        self.blocks.share();
    }

    /// Makes it one's own, so that cells leave it without room. Without memory for it all stays, though copies
    /// may share less of it.
    pub fn make_own(&mut self) -> Result<(), AllocError>
        ensures same { SameIndex self.old self.new }
        ensures room { self.old.room ≤ self.new.room }
        ensures own { OnOk result (self.new.shared ≡ false) }
    {
        self.blocks.make_own()
    }

    /// Whether some cell has this key. The cells may have more keys than those that the index is of.
    pub fn holds(&self, cells: &Cells, key: &[u8]) -> bool
        ensures { AnswersHeld self.now cells.now.nodes key.now result }
    {
        let entry = Entry::new(key, 0);
        let spot = self.blocks.spot_of(self.kind, cells, key, entry);
        self.blocks
            .is_key_at(self.kind, cells, spot, key, entry.front)
    }

    /// A cell that has this key, where there is one.
    pub(crate) fn holder(&self, cells: &Cells, key: &[u8]) -> Option<u32>
        ensures { Indexes cells.now.nodes self.now
            → IsHolder self.now.kind cells.now.nodes key.now result }
    {
        let entry = Entry::new(key, 0);
        let spot = self.blocks.spot_of(self.kind, cells, key, entry);
        let Some(own) = self.blocks.entry_at(spot) else {
            return None;
        };
        if own.is_of(self.kind, cells, key, entry.front) {
            Some(own.number)
        } else {
            None
        }
    }

    /// Enters a cell: after it was filled, where it was blank. Takes room for two spare blocks at most. Where the cell
    /// has no key, all stays.
    pub fn enter(&mut self, cells: &Cells, x: u32)
        requires { 2 ≤ self.old.room }
        ensures kind { self.new.kind ≡ self.old.kind }
        ensures room { self.old.room ≤ self.new.room + 2 }
        ensures entered { EntersCell x cells.now.nodes self.old self.new }
        ensures own { self.old.shared ≡ false → self.new.shared ≡ false }
    {
        let Some(key) = self.kind.key_in(cells, x) else {
            return;
        };
        let entry = Entry::new(key, x);
        let spot = self.blocks.spot_of(self.kind, cells, key, entry);
        let again = self
            .blocks
            .is_beside(self.kind, cells, spot, key, entry.front);
        self.blocks.insert(spot, entry);
        if !again {
            return;
        }
        // No more keys repeat than there are cells.
        if self.repeats < cells.len() {
            self.repeats += 1;
        }
    }

    /// Takes a cell out: before it is blanked or replaced. Takes room for one spare block at most, and none where no
    /// copy shares the index. Where the cell has no key, all stays.
    pub fn leave(&mut self, cells: &Cells, x: u32)
        requires { CanLeave 1 self.old }
        ensures kind { self.new.kind ≡ self.old.kind }
        ensures room { self.old.room ≤ suc self.new.room }
        ensures left { LeavesCell x cells.now.nodes self.old self.new }
        ensures own { self.old.shared ≡ false → self.new.shared ≡ false }
        ensures stays { self.old.shared ≡ false → self.old.room ≤ self.new.room }
    {
        let Some(key) = self.kind.key_in(cells, x) else {
            return;
        };
        let entry = Entry::new(key, x);
        let spot = self.blocks.spot_of(self.kind, cells, key, entry);
        self.blocks.remove(spot);
        // Without a repeat no other cell has the key.
        if self.repeats == 0 {
            return;
        }
        if self.holds(cells, key) {
            self.repeats -= 1;
        }
    }

    /// Whether no two cells have one key.
    pub fn are_distinct(&self) -> bool
        ensures { AnswersDistinct self.now result }
    {
        self.repeats == 0
    }
}

impl Clone for Index {
    ghost is_clone = { λ s t. SameIndex s t };

    fn clone(&self) -> Result<Index, AllocError> {
        Ok(Index {
            kind: self.kind,
            blocks: self.blocks.clone()?,
            repeats: self.repeats,
        })
    }
}
