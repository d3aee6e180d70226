//! Several cells at once.

ghost use Rattle.std.specs.Prelude.{◌≡◌, ◌+◌, ◌*◌, ◌≤◌, ◌^◌, nat_eq, true, false, length, take};
ghost use Rattle.mls_tree_model.specs.Sets.{is_distinct};
ghost use Rattle.mls_tree_index.specs.Indexes.{CanLeave, Indexes};
ghost use Rattle.mls_tree_index.specs.BlankedCells.{LeavesCells, EntersCells};

use crate::index::Index;
use mls_tree_cells::Cells;

impl Index {
    /// Takes out the cells at some places, each given once: before they are blanked or replaced. Takes room for one
    /// spare block at most for each of them.
    pub fn leave_all(&mut self, cells: &Cells, places: &[u32])
        requires distinct { is_distinct nat_eq places.now ≡ true }
        requires room { CanLeave (length places.now) self.old }
        ensures kind { self.new.kind ≡ self.old.kind }
        ensures room { self.old.room ≤ self.new.room + length places.now }
        ensures left { LeavesCells places.now cells.now.nodes self.old self.new }
        ensures own { self.old.shared ≡ false → self.new.shared ≡ false }
    {
        if let Some((x, rest)) = places.split_first() {
            self.leave(cells, *x);
            self.leave_all(cells, rest);
        }
    }

    /// Takes out all cells from a number on: before they are cut. No copy shares the index, so it takes no room.
    pub fn leave_from(&mut self, cells: &Cells, count: usize)
        requires own { self.old.shared ≡ false }
        requires few { length cells.now.nodes ≤ 2 ^ 32 }
        ensures kind { self.new.kind ≡ self.old.kind }
        ensures room { self.old.room ≤ self.new.room }
        ensures left { Indexes cells.now.nodes self.old
            → Indexes (take count cells.now.nodes) self.new }
    {
        let mut end = cells.len();
        while end > count {
            end -= 1;
            self.leave(cells, end as u32);
        }
    }

    /// Enters the cells at some places, each given once: after they were filled, where they were blank. Takes room for
    /// two spare blocks at most for each of them.
    pub fn enter_all(&mut self, cells: &Cells, places: &[u32])
        requires distinct { is_distinct nat_eq places.now ≡ true }
        requires room { 2 * length places.now ≤ self.old.room }
        ensures kind { self.new.kind ≡ self.old.kind }
        ensures room { self.old.room ≤ self.new.room + 2 * length places.now }
        ensures entered { EntersCells places.now cells.now.nodes self.old self.new }
        ensures own { self.old.shared ≡ false → self.new.shared ≡ false }
    {
        if let Some((x, rest)) = places.split_first() {
            self.enter_all(cells, rest);
            self.enter(cells, *x);
        }
    }
}
