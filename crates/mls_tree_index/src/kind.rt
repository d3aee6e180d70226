//! The keys that cells are known by.

ghost use Rattle.std.specs.Prelude.{◌≡◌};
ghost use Rattle.std.specs.Option.{option_copied};
ghost use Rattle.mls_tree_index.specs.Keys.{key_of, key_in, is_key};

use mls_tree_cells::Cells;
use mls_tree_slot::{NodeRef, Slot};

/// A key of a cell.
#[derive(Clone, Copy, Debug, PartialEq, Eq)]
pub enum KeyKind {
    /// The encryption key of a leaf or a parent.
    Encryption,
    /// The signature key of a leaf.
    Signature,
}

impl KeyKind {
    /// The key of a cell, where it has one.
    fn key_of(self, cell: &Slot) -> Option<&[u8]>
        ensures { option_copied result ≡ key_of self cell.now }
    {
        match (self, cell.node()?) {
            (KeyKind::Encryption, NodeRef::Leaf(leaf)) => Some(leaf.encryption_key.as_slice()),
            (KeyKind::Encryption, NodeRef::Parent(parent)) => Some(parent.encryption_key()),
            (KeyKind::Signature, NodeRef::Leaf(leaf)) => Some(leaf.signature_key.as_slice()),
            (KeyKind::Signature, NodeRef::Parent(_)) => None,
        }
    }

    /// The key of the cell with this number, where there is one.
    pub(crate) fn key_in(self, cells: &Cells, x: u32) -> Option<&[u8]>
        ensures { option_copied result ≡ key_in self cells.now.nodes x }
    {
        self.key_of(cells.get(x as usize)?)
    }

    /// Whether the cell with this number has this key.
    pub(crate) fn is_key_in(self, cells: &Cells, x: u32, key: &[u8]) -> bool
        ensures { result ≡ is_key key.now (key_in self cells.now.nodes x) }
    {
        match self.key_in(cells, x) {
            Some(own) => own == key,
            None => false,
        }
    }
}
