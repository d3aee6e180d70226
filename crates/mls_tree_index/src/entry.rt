//! An entry: a cell with a key.

ghost use Rattle.std.specs.Prelude.{◌≡◌, ◌&&◌, [], get_or, nat_eq};
ghost use Rattle.std.specs.Option.{unwrap_or};
ghost use Rattle.mls_tree_index.specs.Keys.{key_in, is_key};
ghost use Rattle.mls_tree_index.specs.Entries.{front_of, BeginsWithBytes};

use crate::kind::KeyKind;
use mls_tree_cells::Cells;

/// A cell with a key: its number, and the front of its key, by which most keys differ.
#[derive(Clone, Copy)]
pub(crate) struct Entry {
    pub(crate) front: u32,
    pub(crate) number: u32,
}

/// The byte of a key at a place: 0 past its end.
fn byte_at(key: &[u8], place: usize) -> u8
    ensures { result ≡ get_or key.now place 0 }
{
    match key.get(place) {
        Some(byte) => *byte,
        None => 0,
    }
}

/// Reads a key's first four bytes as a number, the first one the highest. Keys whose fronts differ have their order.
fn read_front(key: &[u8]) -> u32
    ensures value { result ≡ front_of key.now }
    ensures bytes { BeginsWithBytes key.now }
{
    let first = byte_at(key, 0);
    let second = byte_at(key, 1);
    let third = byte_at(key, 2);
    let fourth = byte_at(key, 3);
    let high = 256 * u32::from(first) + u32::from(second);
    65536 * high + (256 * u32::from(third) + u32::from(fourth))
}

impl Entry {
    /// The entry of a cell with this key.
    pub(crate) fn new(key: &[u8], number: u32) -> Entry
        ensures front { result.front ≡ front_of key.now }
        ensures number { result.number ≡ number }
        ensures bytes { BeginsWithBytes key.now }
    {
        Entry {
            front: read_front(key),
            number,
        }
    }

    /// Its key.
    pub(crate) fn key(self, kind: KeyKind, cells: &Cells) -> &[u8]
        ensures { result.now ≡ unwrap_or (key_in kind cells.now.nodes self.number) [] }
    {
        kind.key_in(cells, self.number).unwrap_or(&[])
    }

    /// Whether it is that of a key with this front. Its key is read only where the fronts are the same.
    pub(crate) fn is_of(self, kind: KeyKind, cells: &Cells, key: &[u8], front: u32) -> bool
        ensures { result ≡
            nat_eq self.front front && is_key key.now (key_in kind cells.now.nodes self.number) }
    {
        self.front == front && kind.is_key_in(cells, self.number, key)
    }
}
