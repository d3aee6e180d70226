//! The entries of all cells, in the order of their keys.

ghost use Rattle.std.specs.Prelude.{◌≡◌, ◌<◌, ◌≤◌, ◌^◌, length, IfOk};
ghost use Rattle.mls_tree_index.specs.Keys.{key_in};
ghost use Rattle.mls_tree_index.specs.Entries.{fronted, front_cmp, AreEntries, EntriesAscend, is_again};

use crate::entry::Entry;
use crate::kind::KeyKind;
use crate::order::{compare, is_same};
use mls_tree_cells::Cells;
use std::alloc::{AllocError, Global};
use std::cmp::Ordering;

/// The order of two entries.
#[tactic(auto, using(crate::proofs::KeyFronts::then_other, crate::proofs::KeyFronts::then_same))]
fn compare_entries(kind: KeyKind, cells: &Cells, one: &Entry, other: &Entry) -> Ordering
    ensures { result ≡ front_cmp (fronted (key_in kind cells.now.nodes) one.now)
        (fronted (key_in kind cells.now.nodes) other.now) }
{
    if one.front != other.front {
        return one.front.cmp(&other.front);
    }
    compare(one.key(kind, cells), other.key(kind, cells)).then(one.number.cmp(&other.number))
}

/// The entries of these cells, by number.
fn list_entries(alloc: Global, kind: KeyKind, cells: &Cells) -> Result<Vec<Entry>, AllocError>
    requires { length cells.now.nodes ≤ 2 ^ 32 }
    ensures { IfOk result (λ v. AreEntries (key_in kind cells.now.nodes) v.items) }
{
    let mut entries = Vec::with_capacity(alloc, cells.len())?;
    for x in 0..cells.len() {
        let number = x as u32;
        if let Some(key) = kind.key_in(cells, number) {
            let entry = Entry::new(key, number);
            entries.push_reserved(entry);
        }
    }
    Ok(entries)
}

/// The entries of these cells, in the order of their keys, and those with one key by number.
pub(crate) fn sort_entries(
    alloc: Global,
    kind: KeyKind,
    cells: &Cells,
) -> Result<Vec<Entry>, AllocError>
    requires { length cells.now.nodes ≤ 2 ^ 32 }
    ensures entries { IfOk result (λ v. AreEntries (key_in kind cells.now.nodes) v.items) }
    ensures ascend { IfOk result (λ v. EntriesAscend (key_in kind cells.now.nodes) v.items) }
{
    let mut entries = list_entries(alloc, kind, cells)?;
    entries.sort_unstable_by(|one, other| compare_entries(kind, cells, one, other));
    Ok(entries)
}

/// Whether the entry before a place has the key of that at the place. Keys are read only where their fronts are the
/// same.
pub(crate) fn is_again(kind: KeyKind, cells: &Cells, entries: &[Entry], place: usize) -> bool
    requires listed { AreEntries (key_in kind cells.now.nodes) entries.now }
    requires within { place < length entries.now }
    ensures { result ≡ is_again (key_in kind cells.now.nodes) entries.now place }
{
    if place == 0 {
        return false;
    }
    let last = entries[place - 1];
    let next = entries[place];
    if last.front != next.front {
        return false;
    }
    is_same(last.key(kind, cells), next.key(kind, cells))
}
