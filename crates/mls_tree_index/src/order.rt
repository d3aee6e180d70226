//! The order of entries: by key, and then by number.

ghost use Rattle.std.specs.Prelude.{◌≡◌, nat_eq};
ghost use Rattle.std.specs.Ordering.{nat_cmp, is_lt};
ghost use Rattle.std.specs.Cmp.Lexicographic.{pointwise, slice_cmp};
ghost use Rattle.mls_tree_index.specs.Keys.{key_in};
ghost use Rattle.mls_tree_index.specs.Order.{entry_at, entry_cmp};
ghost use Rattle.mls_tree_index.specs.Searches.{is_lower};

use crate::entry::Entry;
use crate::kind::KeyKind;
use mls_tree_cells::Cells;
use std::cmp::Ordering;

/// The order of two keys. Most differ in one of their first bytes, and a comparison of slices begins with more.
pub(crate) fn compare(own: &[u8], key: &[u8]) -> Ordering
    ensures { result ≡ slice_cmp nat_cmp own.now key.now }
{
    let both = own.len().min(key.len());
    for x in 0..both {
        if own[x] != key[x] {
            return own[x].cmp(&key[x]);
        }
    }
    own.len().cmp(&key.len())
}

/// Whether two keys are the same.
pub(crate) fn is_same(own: &[u8], key: &[u8]) -> bool
    ensures { result ≡ pointwise nat_eq own.now key.now }
{
    compare(own, key).is_eq()
}

/// Whether an entry comes before that of a key by key, and then by number. Keys with one front are mostly the same, and
/// that is told at once.
fn is_key_before(kind: KeyKind, cells: &Cells, own: Entry, key: &[u8], entry: Entry) -> bool
    ensures { result ≡ is_lt (entry_cmp (entry_at (key_in kind cells.now.nodes) own.number)
        (key.now, entry.number)) }
{
    let held = own.key(kind, cells);
    if held == key {
        return own.number < entry.number;
    }
    compare(held, key).is_lt()
}

/// Whether an entry comes before that of a key. Its key is read only where the fronts are the same.
#[inline(always)]
#[tactic(auto, using(crate::proofs::KeyFronts::lower_other, crate::proofs::KeyFronts::lower_same))]
pub(crate) fn is_before(kind: KeyKind, cells: &Cells, own: Entry, key: &[u8], entry: Entry) -> bool
    ensures { result ≡ is_lower kind cells.now.nodes key.now entry own }
{
    if own.front != entry.front {
        return own.front < entry.front;
    }
    is_key_before(kind, cells, own, key, entry)
}
