//! A row that copies may share.

ghost use Rattle.std.specs.Prelude.{◌≡◌, ◌<◌, [], Some, None, false, length, get_or, slice_set, OnOk, OnErr, MatchResult};
ghost use Rattle.mls_tree_cells.specs.Chunks.{IsHeld, row_of};
ghost use Rattle.mls_tree_cells.specs.Rows.{AddsCell, SetsSlot, first_cells, IsWarm};

use crate::rows::{Hash, Row};
use mls_tree_slot::Slot;
use std::alloc::{AllocError, Global};
use std::marker::Model;
use std::mem::replace;
use std::rc::Rc;

/// A row that is one's own, or one that copies share.
#[derive(Drop)]
enum Holder {
    Own(Row),
    Shared(Rc<Row>),
}

/// A row that copies may share. Beside each cell of a shared one a hash is kept.
#[derive(Drop)]
pub(crate) struct Chunk {
    holder: Holder,
}

impl Model for Chunk {
    ghost use Rattle.mls_tree_cells.specs.Chunks.{ChunkRow, IsHeld, is_shared, row_of};

    ghost Value = { ChunkRow };

    ghost view = { λ c. record { row = row_of c.holder; shared = is_shared c.holder } };

    ghost invariant = { λ c. IsHeld c.holder };
}

/// The row as one's own: it is copied where others share it. Without memory for the copy the holder comes back.
fn take_row(holder: Holder) -> Result<Row, Holder>
    ensures { MatchResult result (λ r. r ≡ row_of holder) (λ h. h ≡ holder) }
{
    match holder {
        Holder::Own(row) => Ok(row),
        Holder::Shared(shared) => match Rc::try_unwrap(shared) {
            Ok(row) => Ok(row),
            Err(shared) => match shared.as_ref().clone() {
                Ok(row) => Ok(row),
                Err(_) => Err(Holder::Shared(shared)),
            },
        },
    }
}

/// The row behind a pointer that copies share. Without memory for the pointer it stays one's own.
fn share_row(alloc: Global, row: Row) -> Holder
    requires { IsWarm row }
    ensures row { row_of result ≡ row }
    ensures held { IsHeld result }
{
    match Rc::new(alloc, row) {
        Ok(shared) => Holder::Shared(shared),
        Err(failed) => Holder::Own(failed.value),
    }
}

impl Chunk {
    /// A chunk of one's own with this row.
    pub(crate) fn of(row: Row) -> Chunk
        ensures { result ≡ record { row = row; shared = false } }
    {
        Chunk {
            holder: Holder::Own(row),
        }
    }

    /// Its row.
    pub(crate) fn row(&self) -> &Row
        ensures { result.now ≡ self.now.row }
    {
        match &self.holder {
            Holder::Own(row) => row,
            Holder::Shared(shared) => shared.as_ref(),
        }
    }

    /// Whether copies may share it.
    fn is_shared(&self) -> bool
        ensures { result ≡ self.now.shared }
    {
        match &self.holder {
            Holder::Own(_) => false,
            Holder::Shared(_) => true,
        }
    }

    /// Makes it one's own: its row is copied where others share it. Without memory for the copy all stays.
    pub(crate) fn make_own(&mut self) -> Result<(), AllocError>
        ensures row { self.new.row ≡ self.old.row }
        ensures own { OnOk result (self.new.shared ≡ false) }
    {
        if !self.is_shared() {
            return Ok(());
        }
        let alloc = self.row().allocator();
        let holder = replace(&mut self.holder, Holder::Own(Row::new(alloc)));
        match take_row(holder) {
            Ok(row) => {
                self.holder = Holder::Own(row);
                Ok(())
            }
            Err(holder) => {
                self.holder = holder;
                // Want of memory: the copy, which fails for nothing else.
                Err(AllocError)
            }
        }
    }

    /// Lets later copies share it where its hashes are all kept. Without memory for the pointer it stays one's own.
    pub(crate) fn share(&mut self)
        ensures { self.new.row ≡ self.old.row }
    {
        if self.is_shared() {
            return;
        }
        if !self.row().is_warm() {
            return;
        }
        let alloc = self.row().allocator();
        let holder = replace(&mut self.holder, Holder::Own(Row::new(alloc)));
        self.holder = match holder {
            Holder::Own(row) => share_row(alloc, row),
            Holder::Shared(shared) => Holder::Shared(shared),
        };
    }

    /// Puts a slot into cell x, which becomes cold.
    pub(crate) fn put(&mut self, x: usize, slot: Slot)
        requires own { self.old.shared ≡ false }
        requires within { x < length self.old.row.nodes }
        ensures row { SetsSlot x slot self.old.row self.new.row }
        ensures own { self.new.shared ≡ false }
    {
        match &mut self.holder {
            Holder::Own(row) => row.put(x, slot),
            Holder::Shared(_) => unreachable!(),
        }
    }

    /// Keeps a hash beside cell x, which is cold.
    pub(crate) fn keep_hash(&mut self, x: usize, hash: Hash)
        requires within { x < length self.old.row.nodes }
        requires cold { get_or self.old.row.hashes x (Some []) ≡ None }
        ensures { self.new ≡ record self.old {
          row = record self.old.row {
            hashes =
                slice_set self.old.row.hashes x (Some hash);
          };
        } }
    {
        match &mut self.holder {
            Holder::Own(row) => row.keep_hash(x, hash),
            Holder::Shared(_) => unreachable!(),
        }
    }

    /// Adds a cold cell at the end. Without memory for it all stays.
    pub(crate) fn push(&mut self, slot: Slot) -> Result<(), AllocError>
        ensures ok { OnOk result (AddsCell slot self.old.row self.new.row) }
        ensures err { OnErr result (self.new.row ≡ self.old.row) }
    {
        self.make_own()?;
        match &mut self.holder {
            Holder::Own(row) => row.push(slot),
            Holder::Shared(_) => unreachable!(),
        }
    }

    /// Keeps the first cells alone. Without memory for a copy all stays.
    pub(crate) fn truncate(&mut self, count: usize) -> Result<(), AllocError>
        ensures ok { OnOk result (self.new.row ≡ first_cells count self.old.row) }
        ensures err { OnErr result (self.new.row ≡ self.old.row) }
    {
        self.make_own()?;
        match &mut self.holder {
            Holder::Own(row) => row.truncate(count),
            Holder::Shared(_) => unreachable!(),
        }
        Ok(())
    }
}

impl Clone for Chunk {
    ghost is_clone = { λ c d. d ≡ c };

    fn clone(&self) -> Result<Chunk, AllocError> {
        let holder = match &self.holder {
            Holder::Own(row) => Holder::Own(row.clone()?),
            Holder::Shared(shared) => Holder::Shared(shared.clone()?),
        };
        Ok(Chunk { holder })
    }
}
