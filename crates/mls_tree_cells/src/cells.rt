//! The cells of a tree in node order.

ghost use Rattle.std.specs.Prelude.{◌≡◌, ◌<◌, ◌≤◌, [], Some, None, length, get_or, replicate, slice_set, IfOk, OnOk, OnErr};
ghost use Rattle.std.specs.Option.{option_copied};
ghost use Rattle.std.specs.List.{All};
ghost use Rattle.mls_tree_cells.specs.Cells.{Puts};
ghost use Rattle.mls_tree_cells.specs.Rows.{AddsBlanks, first_cells};

use crate::changes::Change;
use crate::parts::Parts;
use crate::rows::Hash;
use mls_tree_slot::Slot;
use std::alloc::{AllocError, Global};
use std::marker::Model;

/// The cells of a tree in node order (RFC 9420, appendix C): a slot each, and the tree hash that is kept beside it; a cold
/// cell has none. They stand in chunks that copies share; an edit copies those that it changes.
pub struct Cells {
    parts: Parts,
    /// How many of the cells are seen. The others end in the same chunk.
    len: usize,
}

impl Drop for Cells {
    fn drop(self) {
        let Cells { parts: _, len: _ } = self;
    }
}

impl Model for Cells {
    ghost use Rattle.mls_tree_cells.specs.Cells.{CellList};
    ghost use Rattle.mls_tree_cells.specs.Rows.{first_cells};
    ghost use Rattle.mls_tree_cells.specs.Parts.{EndsIn};

    ghost Value = { CellList };

    ghost view = { λ c. first_cells c.len c.parts.cells };

    ghost invariant = { λ c. EndsIn c.len c.parts.cells };
}

impl Cells {
    /// Cells with these slots, all cold.
    pub fn from_slots(slots: Vec<Slot>) -> Result<Cells, AllocError>
        ensures { IfOk result (λ c. c ≡ record {
          nodes = slots.items;
          hashes =
              replicate (length slots.items) None;
        }) }
    {
        let mut parts = Parts::new(*slots.allocator())?;
        let len = slots.len();
        for slot in slots {
            parts.push(slot)?;
        }
        Ok(Cells { parts, len })
    }

    /// The allocator that they were made with.
    pub fn allocator(&self) -> Global {
        self.parts.allocator()
    }

    /// How many there are.
    pub fn len(&self) -> usize
        ensures nodes { result ≡ length self.now.nodes }
        ensures hashes { result ≡ length self.now.hashes }
    {
        self.len
    }

    /// The slot of cell x: None past the end.
    pub fn get(&self, x: usize) -> Option<&Slot>
        ensures within { x < length self.now.nodes →
            option_copied result ≡ Some (get_or self.now.nodes x None) }
        ensures past { length self.now.nodes ≤ x → option_copied result ≡ None }
    {
        if x < self.len {
            Some(self.parts.slot(x))
        } else {
            None
        }
    }

    /// The slot of cell x.
    pub fn slot(&self, x: usize) -> &Slot
        requires { x < length self.now.nodes }
        ensures { result.now ≡ get_or self.now.nodes x None }
    {
        self.parts.slot(x)
    }

    /// The hash kept beside cell x.
    pub fn hash(&self, x: usize) -> Option<Hash>
        requires { x < length self.now.nodes }
        ensures { result ≡ get_or self.now.hashes x None }
    {
        self.parts.hash(x)
    }

    /// Puts slots in their places, which become cold. Chunks that copies share are copied first; without memory for one
    /// all stays.
    pub fn put(&mut self, changes: Vec<Change>) -> Result<(), AllocError>
        requires { All (λ c. c.place < length self.old.nodes) changes.items }
        ensures ok { OnOk result (Puts changes.items self.old self.new) }
        ensures err { OnErr result (self.new ≡ self.old) }
    {
        self.parts.own_chunks(&changes)?;
        self.parts.put_all(changes);
        Ok(())
    }

    /// Keeps a hash beside cell x, which is cold. Takes no memory.
    pub fn keep_hash(&mut self, x: usize, hash: Hash)
        requires within { x < length self.old.nodes }
        requires cold { get_or self.old.hashes x (Some []) ≡ None }
        ensures { self.new ≡ record self.old { hashes = slice_set self.old.hashes x (Some hash) } }
    {
        self.parts.keep_hash(x, hash);
    }

    /// Adds blank cold cells. Without memory for them all stays.
    pub fn grow(&mut self, count: usize) -> Result<(), AllocError>
        ensures ok { OnOk result (AddsBlanks count self.old self.new) }
        ensures err { OnErr result (self.new ≡ self.old) }
    {
        let Some(len) = self.len.checked_add(count) else {
            // Want of memory: none holds so many cells.
            return Err(AllocError);
        };
        self.parts.cut(self.len)?;
        match self.parts.push_blanks(count) {
            Ok(()) => {
                self.len = len;
                Ok(())
            }
            Err(error) => {
                self.parts.drop_behind(self.len);
                Err(error)
            }
        }
    }

    /// Keeps the first cells alone. Takes no memory.
    pub fn truncate(&mut self, count: usize)
        ensures { self.new ≡ first_cells count self.old }
    {
        if count < self.len {
            self.parts.drop_behind(count);
            self.len = count;
        }
    }

    /// Lets later copies share the chunks whose hashes are all kept. A chunk for whose pointer there is no memory stays
    /// one's own.
    pub fn share(&mut self)
        ensures { self.new ≡ self.old }
    {
        self.parts.share();
    }
}

impl Clone for Cells {
    ghost is_clone = { λ s t. t ≡ s };

    fn clone(&self) -> Result<Cells, AllocError> {
        Ok(Cells {
            parts: self.parts.clone()?,
            len: self.len,
        })
    }
}
