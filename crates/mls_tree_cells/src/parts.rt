//! The chunks of a list of cells and the tops between them.

ghost use Rattle.std.specs.Prelude.{◌≡◌, ℕ, ◌<◌, ◌≤◌, [], Some, None, length, get_or, slice_set, IfOk, OnOk, OnErr};
ghost use Rattle.std.specs.List.{All};
ghost use Rattle.mls_tree_cells.specs.Cells.{Puts};
ghost use Rattle.mls_tree_cells.specs.Rows.{AddsBlanks, AddsCell, SetsSlot, first_cells};
ghost use Rattle.mls_tree_cells.specs.Parts.{EndsIn, IsOpen, StaysOpen, rows_of};

use crate::changes::Change;
use crate::chunks::Chunk;
use crate::rows::{Hash, Row};
use mls_tree_slot::Slot;
use std::alloc::{AllocError, Global};
use std::marker::Model;

/// How many cells a chunk has with the top behind it.
const CHUNK_SIZE: usize = 256;

/// Where the top stands behind the cells of a chunk.
const TOP: usize = CHUNK_SIZE - 1;

/// Cells in chunks: behind each chunk but the last one, which alone may have fewer cells, a top stands. The tops are the
/// upper part of a tree, and each chunk is a subtree below it.
#[derive(Drop)]
pub(crate) struct Parts {
    chunks: Vec<Chunk>,
    tops: Row,
}

impl Model for Parts {
    ghost use Rattle.mls_tree_cells.specs.Parts.{AreParts, PartList, all_cells, rows_of, shares_of};

    ghost Value = { PartList };

    ghost view = { λ p. record {
      cells = all_cells (rows_of p.chunks.items) p.tops;
      shares = shares_of p.chunks.items;
    } };

    ghost invariant = { λ p. AreParts (rows_of p.chunks.items) p.tops };
}

/// Lets later copies share each chunk whose hashes are all kept.
fn share_all(chunks: &mut Vec<Chunk>)
    ensures { rows_of chunks.new.items ≡ rows_of chunks.old.items }
{
    for k in 0..chunks.len() {
        chunks[k].share();
    }
}

impl Parts {
    /// Those of no cells.
    pub(crate) fn new(alloc: Global) -> Result<Parts, AllocError>
        ensures { IfOk result (λ p. p.cells ≡ record { nodes = []; hashes = [] }) }
    {
        let mut chunks = Vec::with_capacity(alloc, 1)?;
        chunks.push_reserved(Chunk::of(Row::new(alloc)));
        Ok(Parts {
            chunks,
            tops: Row::new(alloc),
        })
    }

    /// The allocator that they were made with.
    pub(crate) fn allocator(&self) -> Global {
        *self.chunks.allocator()
    }

    /// The slot of cell x.
    pub(crate) fn slot(&self, x: usize) -> &Slot
        requires { x < length self.now.cells.nodes }
        ensures { result.now ≡ get_or self.now.cells.nodes x None }
    {
        let offset = x % CHUNK_SIZE;
        if offset < TOP {
            self.chunks[x / CHUNK_SIZE].row().slot(offset)
        } else {
            self.tops.slot(x / CHUNK_SIZE)
        }
    }

    /// The hash kept beside cell x.
    pub(crate) fn hash(&self, x: usize) -> Option<Hash>
        requires { x < length self.now.cells.nodes }
        ensures { result ≡ get_or self.now.cells.hashes x None }
    {
        let offset = x % CHUNK_SIZE;
        if offset < TOP {
            self.chunks[x / CHUNK_SIZE].row().hash(offset)
        } else {
            self.tops.hash(x / CHUNK_SIZE)
        }
    }

    /// Copies the chunk of cell x where it is shared. Without memory for the copy all stays.
    fn own_chunk(&mut self, x: usize) -> Result<(), AllocError>
        requires { x < length self.old.cells.nodes }
        ensures cells { self.new.cells ≡ self.old.cells }
        ensures own { OnOk result (IsOpen self.new.shares x) }
        ensures others { OnOk result (StaysOpen self.old.shares self.new.shares) }
    {
        if x % CHUNK_SIZE < TOP {
            self.chunks[x / CHUNK_SIZE].make_own()?;
        }
        Ok(())
    }

    /// Copies the shared chunks that changes stand in. Without memory for one the cells stay.
    pub(crate) fn own_chunks(&mut self, changes: &[Change]) -> Result<(), AllocError>
        requires { All (λ c. c.place < length self.old.cells.nodes) changes.now }
        ensures cells { self.new.cells ≡ self.old.cells }
        ensures own { OnOk result (All (λ c. IsOpen self.new.shares c.place) changes.now) }
    {
        for change in changes {
            self.own_chunk(change.place as usize)?;
        }
        Ok(())
    }

    /// Puts a slot into cell x, which becomes cold.
    fn put(&mut self, x: usize, slot: Slot)
        requires within { x < length self.old.cells.nodes }
        requires own { IsOpen self.old.shares x }
        ensures cells { SetsSlot x slot self.old.cells self.new.cells }
        ensures shares { self.new.shares ≡ self.old.shares }
    {
        let offset = x % CHUNK_SIZE;
        if offset < TOP {
            self.chunks[x / CHUNK_SIZE].put(offset, slot);
        } else {
            self.tops.put(x / CHUNK_SIZE, slot);
        }
    }

    /// Puts slots in their places, which become cold.
    pub(crate) fn put_all(&mut self, changes: Vec<Change>)
        requires within { All (λ c. c.place < length self.old.cells.nodes) changes.items }
        requires own { All (λ c. IsOpen self.old.shares c.place) changes.items }
        ensures { Puts changes.items self.old.cells self.new.cells }
    {
        for change in changes {
            self.put(change.place as usize, change.slot);
        }
    }

    /// Keeps a hash beside cell x, which is cold.
    pub(crate) fn keep_hash(&mut self, x: usize, hash: Hash)
        requires within { x < length self.old.cells.nodes }
        requires cold { get_or self.old.cells.hashes x (Some []) ≡ None }
        ensures { self.new.cells ≡ record self.old.cells {
          hashes =
              slice_set self.old.cells.hashes x (Some hash);
        } }
    {
        let offset = x % CHUNK_SIZE;
        if offset < TOP {
            self.chunks[x / CHUNK_SIZE].keep_hash(offset, hash);
        } else {
            self.tops.keep_hash(x / CHUNK_SIZE, hash);
        }
    }

    /// Adds a cold cell at the end. Without memory for it all stays.
    pub(crate) fn push(&mut self, slot: Slot) -> Result<(), AllocError>
        ensures ok { OnOk result (AddsCell slot self.old.cells self.new.cells) }
        ensures err { OnErr result (self.new.cells ≡ self.old.cells) }
    {
        let last = self.chunks.len() - 1;
        if self.chunks[last].row().len() < TOP {
            return self.chunks[last].push(slot);
        }
        let row = Row::with_capacity(self.allocator(), TOP)?;
        self.chunks.reserve(1)?;
        self.tops.push(slot)?;
        self.chunks.push_reserved(Chunk::of(row));
        Ok(())
    }

    /// Adds blank cold cells at the end. Without memory for all some may have been added.
    pub(crate) fn push_blanks(&mut self, count: usize) -> Result<(), AllocError>
        ensures ok { OnOk result (AddsBlanks count self.old.cells self.new.cells) }
        ensures err { OnErr result ((n : ℕ) × AddsBlanks n self.old.cells self.new.cells) }
    {
        for _ in 0..count {
            self.push(Slot::blank())?;
        }
        Ok(())
    }

    /// Drops the chunks and tops of which no cell is among the first ones. Takes no memory.
    pub(crate) fn drop_behind(&mut self, count: usize)
        requires { count ≤ length self.old.cells.nodes }
        ensures cells { first_cells count self.new.cells ≡ first_cells count self.old.cells }
        ensures end { EndsIn count self.new.cells }
    {
        self.chunks.truncate(count / CHUNK_SIZE + 1);
        self.tops.truncate(count / CHUNK_SIZE);
    }

    /// Keeps the first cells alone, which end in the last chunk. Without memory for a copy of it all stays.
    pub(crate) fn cut(&mut self, count: usize) -> Result<(), AllocError>
        requires { EndsIn count self.old.cells }
        ensures ok { OnOk result (self.new.cells ≡ first_cells count self.old.cells) }
        ensures err { OnErr result (self.new.cells ≡ self.old.cells) }
    {
        self.chunks[count / CHUNK_SIZE].truncate(count % CHUNK_SIZE)
    }

    /// Lets later copies share the chunks whose hashes are all kept.
    pub(crate) fn share(&mut self)
        ensures { self.new.cells ≡ self.old.cells }
    {
        share_all(&mut self.chunks);
    }
}

impl Clone for Parts {
    ghost is_clone = { λ p q. q ≡ p };

    fn clone(&self) -> Result<Parts, AllocError> {
        Ok(Parts {
            chunks: self.chunks.clone()?,
            tops: self.tops.clone()?,
        })
    }
}
