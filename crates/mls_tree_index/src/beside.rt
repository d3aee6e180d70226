//! Several keys at once, beside some cells.

ghost use Rattle.std.specs.Prelude.{◌≡◌, nat_eq, true, IsOk};
ghost use Rattle.std.specs.List.{list_any};
ghost use Rattle.std.specs.Cmp.Lexicographic.{pointwise};
ghost use Rattle.mls_tree_model.specs.Sets.{is_distinct};
ghost use Rattle.mls_tree_index.specs.Indexes.{OnDistinct};
ghost use Rattle.mls_tree_index.specs.BlankedCells.{AnswersHeldBeside, AnswersNewBeside, AcceptsBeside};

use crate::index::Index;
use crate::order::is_same;
use mls_leaf::Bytes;
use mls_tree_cells::Cells;
use std::alloc::AllocError;

/// Whether a key is among others. `contains` would compare them by more than their first bytes.
fn is_among(key: &Bytes, keys: &[Bytes]) -> bool
    ensures { result ≡ list_any (λ l. pointwise nat_eq l key.now) keys.now }
{
    keys.iter()
        .any(|own| is_same(own.as_slice(), key.as_slice()))
}

impl Index {
    /// Whether a cell that stands at none of these places has this key, where no two cells have one key.
    fn holds_beside(&self, cells: &Cells, places: &[u32], key: &[u8]) -> bool
        ensures { AnswersHeldBeside self.now cells.now.nodes places.now key.now result }
    {
        match self.holder(cells, key) {
            Some(x) => !places.contains(&x),
            None => false,
        }
    }

    /// Whether no two of these keys and those of the cells at none of these places are one, where no two cells have one
    /// key.
    fn accepts_new(&self, cells: &Cells, places: &[u32], key: &Bytes, keys: &[Bytes]) -> bool
        ensures { AnswersNewBeside self.now cells.now.nodes places.now key.now keys.now result }
    {
        if is_among(key, keys) || self.holds_beside(cells, places, key.as_slice()) {
            return false;
        }
        match keys.split_first() {
            Some((next, rest)) => self.accepts_new(cells, places, next, rest),
            None => true,
        }
    }

    /// Whether no two of these keys and those of the cells at none of these places, each given once, are one. Takes
    /// memory only where two cells have one key.
    pub fn accepts_beside(
        &self,
        cells: &Cells,
        places: &[u32],
        key: &Bytes,
        keys: &[Bytes],
    ) -> Result<bool, AllocError>
        requires { is_distinct nat_eq places.now ≡ true }
        ensures answer { AcceptsBeside self.now cells.now.nodes places.now key.now keys.now result }
        // It takes no memory where no two cells have one key.
        ensures outright { OnDistinct cells.now.nodes self.now (IsOk result) }
    {
        if self.are_distinct() {
            return Ok(self.accepts_new(cells, places, key, keys));
        }
        let mut rest = self.clone()?;
        rest.reserve(places.len())?;
        rest.leave_all(cells, places);
        Ok(rest.accepts(cells, key, keys))
    }
}
