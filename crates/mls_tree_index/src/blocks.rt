//! A list of entries in blocks, so that an edit moves entries of one block alone.

ghost use Rattle.std.specs.Prelude.{◌≡◌, ℕ, ◌+◌, ◌-◌, ◌<◌, ◌≤◌, suc, [], true, false, length, get_or, vec_len, IfOk, OnOk};
ghost use Rattle.std.specs.List.{insert, remove};
ghost use Rattle.std.specs.Vec.{vec_capacity};
ghost use Rattle.mls_tree_index.specs.Block.{IsSpare, block_size};
ghost use Rattle.mls_tree_index.specs.Blocks.{AreBlocks, AreKept, IsEntryAt, IsOpenAt, IsOwnAt, IsSpot, PushesBlock, PutsEntry, TakesEntry, are_shared, blocks_of, joined, least_free, place_in, place_of, room_of, split_at};

use crate::block::{BLOCK_SIZE, Block, HALF_SIZE, entry_in, make_block};
use crate::entry::Entry;
use std::alloc::{AllocError, Global};
use std::marker::Model;

/// How few blocks a list has whose copies copy them all: for less than their pointers would cost.
const FEW_BLOCKS: usize = 32;

/// How many entries a block of a new list has, except for the last one: fewer than fit, so that no split comes soon.
const NEW_SIZE: usize = 448;

/// A place of a list in blocks: so many entries of a block stand before it.
#[derive(Clone, Copy)]
pub(crate) struct Spot {
    pub(crate) block: usize,
    pub(crate) offset: usize,
}

/// A list of entries in blocks that copies may share. There is a first block, and each other one has an entry. A block
/// that copies share is copied before it is edited, and a full block is split where an entry enters it: into spare
/// blocks that were made beforehand, so that no edit takes memory. A list of a few blocks is copied whole, and none are
/// made for it while its blocks have free places.
#[derive(Drop)]
pub(crate) struct Blocks {
    list: Vec<Block>,
    /// Blocks with no entry, for copies of blocks and for the upper halves of those that are split. The list has
    /// memory for them.
    spares: Vec<Vec<Entry>>,
}

impl Model for Blocks {
    ghost use Rattle.std.specs.Vec.{vec_len};
    ghost use Rattle.mls_tree_index.specs.Blocks.{AreKept, BlockList, are_shared, blocks_of, room_of};

    ghost Value = { BlockList };

    ghost view = { λ b. record {
      blocks = blocks_of b.list.items;
      room = room_of (are_shared b.list.items) (blocks_of b.list.items) (vec_len b.spares);
      shared = are_shared b.list.items;
    } };

    ghost invariant = { λ b. AreKept b.list b.spares };
}

/// Adds a block of one's own with these entries at the end.
fn push_block(list: &mut Vec<Block>, entries: &[Entry]) -> Result<(), AllocError>
    requires { length entries.now ≤ block_size }
    ensures blocks { OnOk result (PushesBlock entries.now list.old.items list.new.items) }
    ensures own { OnOk result
        (are_shared list.old.items ≡ false → are_shared list.new.items ≡ false) }
{
    let block = make_block(*list.allocator(), entries)?;
    list.push(Block::of(block))?;
    Ok(())
}

/// Adds blocks with no entry, until there are so many, and makes room for them in the list.
fn add_spares(
    list: &mut Vec<Block>,
    spares: &mut Vec<Vec<Entry>>,
    count: usize,
) -> Result<(), AllocError>
    requires { AreKept list.old spares.old }
    ensures kept { AreKept list.new spares.new }
    ensures items { list.new.items ≡ list.old.items }
    ensures more { vec_len spares.old ≤ vec_len spares.new }
    ensures room { OnOk result (count ≤ vec_len spares.new) }
{
    if count <= spares.len() {
        return Ok(());
    }
    list.reserve(count)?;
    while spares.len() < count {
        let block = make_block(*list.allocator(), &[])?;
        spares.push(block)?;
    }
    Ok(())
}

/// How many more entries fit into each block.
fn count_free(list: &[Block]) -> usize
    ensures { result ≡ least_free (blocks_of list.now) }
{
    let mut free = BLOCK_SIZE;
    for block in list {
        free = free.min(BLOCK_SIZE - block.entries().len());
    }
    free
}

/// Whether copies may share one of the blocks.
fn are_shared(list: &[Block]) -> bool
    ensures { result ≡ are_shared list.now }
{
    list.iter().any(|block| block.is_shared())
}

/// How many spare blocks make so much room.
fn spares_for(list: &[Block], count: usize) -> usize
    ensures { count ≤ room_of (are_shared list.now) (blocks_of list.now) result }
{
    if are_shared(list) {
        return count;
    }
    (count - count / 2).saturating_sub(count_free(list))
}

/// Makes a block one's own: where others share it, it takes a spare block.
fn own_block(list: &mut Vec<Block>, spares: &mut Vec<Vec<Entry>>, b: usize)
    requires kept { AreKept list.old spares.old }
    requires block { b < vec_len list.old }
    requires room { are_shared list.old.items ≡ true → 0 < vec_len spares.old }
    ensures kept { AreKept list.new spares.new }
    ensures room { vec_len spares.old ≤ suc (vec_len spares.new) }
    ensures blocks { blocks_of list.new.items ≡ blocks_of list.old.items }
    ensures own { IsOwnAt list.new.items b }
    ensures others { are_shared list.old.items ≡ false → are_shared list.new.items ≡ false }
    ensures stays { are_shared list.old.items ≡ false → vec_len spares.new ≡ vec_len spares.old }
{
    let alloc = *list.allocator();
    if list[b].try_own(alloc) {
        return;
    }
    // There is room, so there is a spare one.
    let Some(spare) = spares.pop() else {
        return;
    };
    list[b].make_own(spare);
}

/// Splits a full block of one's own in halves, the upper one into a block with no entry. The list has memory for that.
fn split_block(list: &mut Vec<Block>, b: usize, spare: Vec<Entry>)
    requires own { IsOwnAt list.old.items b }
    requires full { length (get_or (blocks_of list.old.items) b []) ≡ block_size }
    requires room { vec_len list.old < vec_capacity list.old }
    requires spare { IsSpare spare }
    ensures len { vec_len list.new ≡ vec_len list.old + 1 }
    ensures capacity { vec_capacity list.old ≤ vec_capacity list.new }
    ensures blocks { blocks_of list.new.items ≡ split_at (blocks_of list.old.items) b }
    ensures lower { IsOwnAt list.new.items b }
    ensures upper { IsOwnAt list.new.items (suc b) }
    ensures others { are_shared list.old.items ≡ false → are_shared list.new.items ≡ false }
{
    let upper = list[b].split(spare);
    // There is room, so this isn't refused.
    let Ok(()) = list.insert(b + 1, upper) else {
        return;
    };
}

/// Splits the block of a place, one's own, where it is full, and answers the place before which the same entries stand
/// then.
fn make_way(list: &mut Vec<Block>, spares: &mut Vec<Vec<Entry>>, spot: Spot) -> Spot
    requires kept { AreKept list.old spares.old }
    requires room { 0 < vec_len spares.old + least_free (blocks_of list.old.items) }
    requires spot { IsSpot (blocks_of list.old.items) spot }
    requires own { IsOwnAt list.old.items spot.block }
    ensures kept { AreKept list.new spares.new }
    ensures room { vec_len spares.old ≤ suc (vec_len spares.new) }
    ensures free { vec_len spares.old + least_free (blocks_of list.old.items) ≤
        vec_len spares.new + suc (least_free (blocks_of list.new.items) - 1) }
    ensures entries { joined (blocks_of list.new.items) ≡ joined (blocks_of list.old.items) }
    ensures spot { IsOpenAt (blocks_of list.new.items) result }
    ensures place { place_of (blocks_of list.new.items) result ≡
        place_of (blocks_of list.old.items) spot }
    ensures own { IsOwnAt list.new.items result.block }
    ensures others { are_shared list.old.items ≡ false → are_shared list.new.items ≡ false }
{
    if list[spot.block].entries().len() < BLOCK_SIZE {
        return spot;
    }
    // There is room, so there is a spare one.
    let Some(spare) = spares.pop() else {
        return spot;
    };
    split_block(list, spot.block, spare);
    if spot.offset <= HALF_SIZE {
        return spot;
    }
    Spot {
        block: spot.block + 1,
        offset: spot.offset - HALF_SIZE,
    }
}

/// Takes the entry at an offset of a block of one's own out, and the block too where it had no other and isn't the
/// only one.
fn take_from(list: &mut Vec<Block>, b: usize, offset: usize)
    requires blocks { AreBlocks (blocks_of list.old.items) }
    requires own { IsOwnAt list.old.items b }
    requires offset { offset < length (get_or (blocks_of list.old.items) b []) }
    ensures blocks { AreBlocks (blocks_of list.new.items) }
    ensures len { vec_len list.new ≤ vec_len list.old }
    ensures capacity { vec_capacity list.new ≡ vec_capacity list.old }
    ensures free { least_free (blocks_of list.old.items) ≤ least_free (blocks_of list.new.items) }
    ensures entries { joined (blocks_of list.new.items) ≡ remove (joined (blocks_of list.old.items))
        (place_in (blocks_of list.old.items) b offset) }
    ensures others { are_shared list.old.items ≡ false → are_shared list.new.items ≡ false }
{
    let left = list[b].take_out(offset);
    if left > 0 {
        return;
    }
    if list.len() > 1 {
        let _block = list.remove(b);
    }
}

/// Lets later copies share each block.
fn share_all(list: &mut Vec<Block>)
    ensures blocks { blocks_of list.new.items ≡ blocks_of list.old.items }
    ensures len { vec_len list.new ≡ vec_len list.old }
    ensures capacity { vec_capacity list.new ≡ vec_capacity list.old }
{
    let alloc = *list.allocator();
    for b in 0..list.len() {
        list[b].share(alloc);
    }
}

/// Makes a block one's own. Without memory for a copy the entries stay.
fn own_one(list: &mut Vec<Block>, b: usize) -> Result<(), AllocError>
    requires { b < vec_len list.old }
    ensures blocks { blocks_of list.new.items ≡ blocks_of list.old.items }
    ensures len { vec_len list.new ≡ vec_len list.old }
    ensures capacity { vec_capacity list.new ≡ vec_capacity list.old }
    ensures own { OnOk result (IsOwnAt list.new.items b) }
    ensures others { (k : ℕ) → IsOwnAt list.old.items k → IsOwnAt list.new.items k }
{
    let alloc = *list.allocator();
    if list[b].try_own(alloc) {
        return Ok(());
    }
    let spare = make_block(alloc, &[])?;
    list[b].make_own(spare);
    Ok(())
}

/// Makes each block one's own. Without memory for one the entries stay.
fn own_all(list: &mut Vec<Block>) -> Result<(), AllocError>
    ensures blocks { blocks_of list.new.items ≡ blocks_of list.old.items }
    ensures len { vec_len list.new ≡ vec_len list.old }
    ensures capacity { vec_capacity list.new ≡ vec_capacity list.old }
    ensures own { OnOk result (are_shared list.new.items ≡ false) }
    ensures others { (k : ℕ) → IsOwnAt list.old.items k → IsOwnAt list.new.items k }
{
    for b in 0..list.len() {
        own_one(list, b)?;
    }
    Ok(())
}

impl Blocks {
    /// The list of these entries.
    pub(crate) fn new(alloc: Global, entries: &[Entry]) -> Result<Blocks, AllocError>
        ensures entries { IfOk result (λ b. joined b.blocks ≡ entries.now) }
        ensures own { IfOk result (λ b. b.shared ≡ false) }
    {
        let mut list = Vec::new(alloc);
        let (first, mut rest) = entries.split_at(entries.len().min(NEW_SIZE));
        push_block(&mut list, first)?;
        while !rest.is_empty() {
            let (next, others) = rest.split_at(rest.len().min(NEW_SIZE));
            push_block(&mut list, next)?;
            rest = others;
        }
        let spares = Vec::new(alloc);
        Ok(Blocks { list, spares })
    }

    /// How many blocks there are.
    pub(crate) fn count(&self) -> usize
        ensures count { result ≡ length self.now.blocks }
        ensures blocks { AreBlocks self.now.blocks }
        ensures some { 0 < result }
    {
        self.list.len()
    }

    /// The entries of a block.
    pub(crate) fn block(&self, b: usize) -> &[Entry]
        requires { b < length self.now.blocks }
        ensures entries { result.now ≡ get_or self.now.blocks b [] }
        ensures full { 0 < b → 0 < length result.now }
    {
        self.list[b].entries()
    }

    /// The entry behind a place, where there is one.
    pub(crate) fn entry_at(&self, spot: Spot) -> Option<Entry>
        requires { IsSpot self.now.blocks spot }
        ensures { IsEntryAt (joined self.now.blocks) (place_of self.now.blocks spot) result }
    {
        let block = self.block(spot.block);
        if spot.offset < block.len() {
            let own = entry_in(block, spot.offset);
            return Some(own);
        }
        let last = self.count() - 1;
        if spot.block < last {
            let next = entry_in(self.block(spot.block + 1), 0);
            return Some(next);
        }
        None
    }

    /// Makes so much room: an edit takes a spare block where its block is shared, and entering an entry another one
    /// where the block is full. Without memory for spare blocks the entries stay as they are.
    pub(crate) fn reserve(&mut self, count: usize) -> Result<(), AllocError>
        ensures room { OnOk result (count ≤ self.new.room) }
        ensures more { self.old.room ≤ self.new.room }
        ensures blocks { self.new.blocks ≡ self.old.blocks }
        ensures own { self.old.shared ≡ false → self.new.shared ≡ false }
    {
        let spares = spares_for(&self.list, count);
        add_spares(&mut self.list, &mut self.spares, spares)?;
        Ok(())
    }

    /// Lets later copies share each block. Where there are few they stay one's own, and the spare ones are dropped.
    /// Without memory for a block's pointer it stays one's own.
    pub(crate) fn share(&mut self)
        ensures { self.new.blocks ≡ self.old.blocks }
    {
        if self.list.len() < FEW_BLOCKS {
            self.spares.clear();
            return;
        }
        share_all(&mut self.list);
    }

    /// Makes each block one's own. Without memory for one the entries stay as they are.
    pub(crate) fn make_own(&mut self) -> Result<(), AllocError>
        ensures blocks { self.new.blocks ≡ self.old.blocks }
        ensures room { self.old.room ≤ self.new.room }
        ensures own { OnOk result (self.new.shared ≡ false) }
    {
        own_all(&mut self.list)
    }

    /// Puts an entry at a place. There is room for a copy of its block and for a split.
    pub(crate) fn insert(&mut self, spot: Spot, entry: Entry)
        requires room { 2 ≤ self.old.room }
        requires spot { IsSpot self.old.blocks spot }
        ensures room { self.old.room ≤ self.new.room + 2 }
        ensures entries { PutsEntry spot entry self.old self.new }
        ensures own { self.old.shared ≡ false → self.new.shared ≡ false }
    {
        own_block(&mut self.list, &mut self.spares, spot.block);
        let spot = make_way(&mut self.list, &mut self.spares, spot);
        self.list[spot.block].put_in(spot.offset, entry);
    }

    /// Takes the entry at an offset of a block out, and the block too where it had no other and isn't the only one.
    /// There is room for a copy of it where blocks are shared.
    fn take(&mut self, b: usize, offset: usize)
        requires room { self.old.shared ≡ true → 0 < self.old.room }
        requires block { b < length self.old.blocks }
        requires offset { offset < length (get_or self.old.blocks b []) }
        ensures room { self.old.room ≤ suc self.new.room }
        ensures entries { joined self.new.blocks ≡ remove (joined self.old.blocks)
            (place_in self.old.blocks b offset) }
        ensures own { self.old.shared ≡ false → self.new.shared ≡ false }
        ensures stays { self.old.shared ≡ false → self.old.room ≤ self.new.room }
    {
        own_block(&mut self.list, &mut self.spares, b);
        take_from(&mut self.list, b, offset);
    }

    /// Takes the entry behind a place out, where there is one. There is room for a copy of its block where blocks are
    /// shared.
    pub(crate) fn remove(&mut self, spot: Spot)
        requires room { self.old.shared ≡ true → 0 < self.old.room }
        requires spot { IsSpot self.old.blocks spot }
        ensures room { self.old.room ≤ suc self.new.room }
        ensures some { place_of self.old.blocks spot < length (joined self.old.blocks) →
            TakesEntry spot self.old self.new }
        ensures none { length (joined self.old.blocks) ≤ place_of self.old.blocks spot →
            self.new ≡ self.old }
        ensures own { self.old.shared ≡ false → self.new.shared ≡ false }
        ensures stays { self.old.shared ≡ false → self.old.room ≤ self.new.room }
    {
        let block = self.block(spot.block);
        if spot.offset < block.len() {
            self.take(spot.block, spot.offset);
            return;
        }
        let last = self.count() - 1;
        if spot.block < last {
            self.take(spot.block + 1, 0);
        }
    }
}

impl Clone for Blocks {
    ghost is_clone = { λ s t. t.blocks ≡ s.blocks };

    fn clone(&self) -> Result<Blocks, AllocError> {
        let list = self.list.clone()?;
        let spares = Vec::new(*self.list.allocator());
        Ok(Blocks { list, spares })
    }
}
