//! Searches by halves: over the blocks, which begin where keys as good as random stand, and then within one.

ghost use Rattle.std.specs.Prelude.{◌≡◌, ◌+◌, ◌<◌, ◌≤◌, length};
ghost use Rattle.mls_tree_index.specs.Blocks.{AreBlocks, IsInner, IsSpot, first_of, joined, place_of};
ghost use Rattle.mls_tree_index.specs.Entries.{front_of};
ghost use Rattle.mls_tree_index.specs.Searches.{AnswersAround, AnswersAt, BeginsLow, EndsHigh, IsHighAt, IsLowBefore, IsPlaceOf, is_lower};

use crate::block::entry_in;
use crate::blocks::{Blocks, Spot};
use crate::entry::Entry;
use crate::kind::KeyKind;
use crate::order::is_before;
use mls_tree_cells::Cells;

/// The block of an entry among so many blocks, if keys are spread evenly.
fn guess(entry: Entry, count: usize) -> usize {
    let high = (entry.front >> 16) as usize;
    count.saturating_mul(high) >> 16
}

/// How many entries of a block come before that of this key, where it is known of so many.
fn count_before(
    kind: KeyKind,
    cells: &Cells,
    entries: &[Entry],
    known: usize,
    key: &[u8],
    entry: Entry,
) -> usize
    requires { known ≤ length entries.now }
    ensures order { known ≤ result }
    ensures within { result ≤ length entries.now }
    ensures low { IsLowBefore kind cells.now.nodes key.now entry entries.now known result }
    ensures high { IsHighAt kind cells.now.nodes key.now entry entries.now result }
{
    let mut start = known;
    let mut end = entries.len();
    while start < end {
        let middle = start + (end - start) / 2;
        if is_before(kind, cells, entry_in(entries, middle), key, entry) {
            start = middle + 1;
        } else {
            end = middle;
        }
    }
    start
}

impl Blocks {
    /// Whether a block that has an entry begins before the entry of this key.
    fn begins_before(
        &self,
        kind: KeyKind,
        cells: &Cells,
        b: usize,
        key: &[u8],
        entry: Entry,
    ) -> bool
        requires some { 0 < b }
        requires block { b < length self.now.blocks }
        ensures { result ≡
            is_lower kind cells.now.nodes key.now entry (first_of self.now.blocks b) }
    {
        let first = entry_in(self.block(b), 0);
        is_before(kind, cells, first, key, entry)
    }

    /// The first and the last of some blocks, among which is the last one that begins before the entry of this key, or
    /// the first block where none does.
    fn blocks_near(&self, kind: KeyKind, cells: &Cells, key: &[u8], entry: Entry) -> (usize, usize)
        ensures order { result.0 ≤ result.1 }
        ensures blocks { AreBlocks self.now.blocks }
        ensures block { result.1 < length self.now.blocks }
        ensures low { BeginsLow kind cells.now.nodes key.now entry self.now.blocks result.0 }
        ensures high { EndsHigh kind cells.now.nodes key.now entry self.now.blocks result.1 }
    {
        let last = self.count() - 1;
        let near = guess(entry, last + 1).min(last);
        if near > 0 && !self.begins_before(kind, cells, near, key, entry) {
            return (0, near - 1);
        }
        if near < last && self.begins_before(kind, cells, near + 1, key, entry) {
            return (near + 1, last);
        }
        (near, near)
    }

    /// The last block that begins before the entry of this key, and the first block where none does.
    fn block_for(&self, kind: KeyKind, cells: &Cells, key: &[u8], entry: Entry) -> usize
        ensures blocks { AreBlocks self.now.blocks }
        ensures block { result < length self.now.blocks }
        ensures low { BeginsLow kind cells.now.nodes key.now entry self.now.blocks result }
        ensures high { EndsHigh kind cells.now.nodes key.now entry self.now.blocks result }
    {
        let (mut start, mut end) = self.blocks_near(kind, cells, key, entry);
        while start < end {
            let middle = end - (end - start) / 2;
            if self.begins_before(kind, cells, middle, key, entry) {
                start = middle;
            } else {
                end = middle - 1;
            }
        }
        start
    }

    /// The place before which all entries are that come before the entry of this key, and behind which all others are.
    pub(crate) fn spot_of(&self, kind: KeyKind, cells: &Cells, key: &[u8], entry: Entry) -> Spot
        requires { entry.front ≡ front_of key.now }
        ensures spot { IsSpot self.now.blocks result }
        ensures inner { IsInner result }
        ensures gap { IsPlaceOf kind (joined self.now.blocks) cells.now.nodes key.now entry.number
            (place_of self.now.blocks result) }
    {
        let block = self.block_for(kind, cells, key, entry);
        // Where it isn't the first block, its first entry comes before.
        let known = usize::from(block > 0);
        let offset = count_before(kind, cells, self.block(block), known, key, entry);
        Spot { block, offset }
    }

    /// Whether the entry behind a place is that of a key with this front.
    pub(crate) fn is_key_at(
        &self,
        kind: KeyKind,
        cells: &Cells,
        spot: Spot,
        key: &[u8],
        front: u32,
    ) -> bool
        requires spot { IsSpot self.now.blocks spot }
        requires front { front ≡ front_of key.now }
        ensures { AnswersAt kind (joined self.now.blocks) cells.now.nodes
            (place_of self.now.blocks spot) key.now result }
    {
        match self.entry_at(spot) {
            Some(own) => own.is_of(kind, cells, key, front),
            None => false,
        }
    }

    /// Whether the entry behind a place or that before it is that of a key with this front. Where an entry with the key
    /// goes there, no other has it if neither does.
    pub(crate) fn is_beside(
        &self,
        kind: KeyKind,
        cells: &Cells,
        spot: Spot,
        key: &[u8],
        front: u32,
    ) -> bool
        requires spot { IsSpot self.now.blocks spot }
        requires inner { IsInner spot }
        requires front { front ≡ front_of key.now }
        ensures { AnswersAround kind (joined self.now.blocks) cells.now.nodes
            (place_of self.now.blocks spot) key.now result }
    {
        if self.is_key_at(kind, cells, spot, key, front) {
            return true;
        }
        if spot.offset == 0 {
            return false;
        }
        let before = Spot {
            block: spot.block,
            offset: spot.offset - 1,
        };
        self.is_key_at(kind, cells, before, key, front)
    }
}
