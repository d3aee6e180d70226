//! Several keys at once.

ghost use Rattle.mls_tree_index.specs.Indexes.{AnswersNew};

use crate::index::Index;
use mls_leaf::Bytes;
use mls_tree_cells::Cells;

impl Index {
    /// Whether no two of these keys and those of the cells are one. The cells may have more keys than those that the
    /// index is of.
    pub fn accepts(&self, cells: &Cells, key: &Bytes, keys: &[Bytes]) -> bool
        ensures { AnswersNew self.now cells.now.nodes key.now keys.now result }
    {
        if keys.contains(key) || self.holds(cells, key.as_slice()) {
            return false;
        }
        match keys.split_first() {
            Some((next, rest)) => self.accepts(cells, next, rest),
            None => self.are_distinct(),
        }
    }
}
