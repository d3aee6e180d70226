//! A block of entries that copies may share.

ghost use Rattle.std.specs.Prelude.{◌≡◌, ◌<◌, ◌≤◌, true, false, length, take, drop, get_or, vec_len, IfOk};
ghost use Rattle.std.specs.List.{insert, remove};
ghost use Rattle.mls_tree_index.specs.Block.{IsBlock, IsHeld, IsSpare, block_size, entries_in, half_size};
ghost use Rattle.mls_tree_index.specs.Entries.{blank_entry};

use crate::entry::Entry;
use std::alloc::{AllocError, Global};
use std::marker::Model;
use std::mem::replace;
use std::rc::Rc;

/// How many entries a block has at most.
pub(crate) const BLOCK_SIZE: usize = 512;

/// How many entries each half of a full block has.
pub(crate) const HALF_SIZE: usize = BLOCK_SIZE / 2;

/// Numbers that are one's own, or such that copies share.
#[derive(Drop)]
enum Holder {
    Own(Vec<Entry>),
    Shared(Rc<Vec<Entry>>),
}

/// A block of entries that copies may share. It has memory for as many as a block has at most.
#[derive(Drop)]
pub(crate) struct Block {
    holder: Holder,
}

impl Model for Block {
    ghost use Rattle.mls_tree_index.specs.Block.{BlockEntries, IsHeld, entries_in, is_shared};

    ghost Value = { BlockEntries };

    ghost view = { λ b. record { entries = entries_in b.holder; shared = is_shared b.holder } };

    ghost invariant = { λ b. IsHeld b.holder };
}

/// The memory of a block, with these entries.
pub(crate) fn make_block(alloc: Global, entries: &[Entry]) -> Result<Vec<Entry>, AllocError>
    requires { length entries.now ≤ block_size }
    ensures items { IfOk result (λ v. v.items ≡ entries.now) }
    ensures block { IfOk result (λ v. IsBlock v) }
{
    let mut block = Vec::with_capacity(alloc, BLOCK_SIZE)?;
    block.extend_from_slice(entries)?;
    Ok(block)
}

/// The entry of a block at an offset.
pub(crate) fn entry_in(block: &[Entry], offset: usize) -> Entry
    requires { offset < length block.now }
    ensures { result ≡ get_or block.now offset blank_entry }
{
    block[offset]
}

/// Puts an entry into a block that isn't full.
fn put_in(block: &mut Vec<Entry>, offset: usize, entry: Entry)
    requires block { IsBlock block.old }
    requires room { vec_len block.old < block_size }
    requires offset { offset ≤ vec_len block.old }
    ensures items { block.new.items ≡ insert block.old.items offset entry }
    ensures block { IsBlock block.new }
{
    // There is room, so this isn't refused.
    let Ok(()) = block.insert(offset, entry) else {
        return;
    };
}

/// Takes the entry at a place out, and answers how many are left. `Vec::remove` would move the others in short parts,
/// for twice the work.
fn take_out(block: &mut Vec<Entry>, offset: usize) -> usize
    requires block { IsBlock block.old }
    requires offset { offset < vec_len block.old }
    ensures items { block.new.items ≡ remove block.old.items offset }
    ensures block { IsBlock block.new }
    ensures left { result ≡ length block.new.items }
{
    let end = block.len();
    block.copy_within(offset + 1..end, offset);
    block.truncate(end - 1);
    end - 1
}

/// Splits a full block in halves, and answers the upper one, which stands in a spare block from then on.
fn split_upper(block: &mut Vec<Entry>, mut spare: Vec<Entry>) -> Vec<Entry>
    requires block { IsBlock block.old }
    requires full { vec_len block.old ≡ block_size }
    requires spare { IsSpare spare }
    ensures lower { block.new.items ≡ take half_size block.old.items }
    ensures upper { result.items ≡ drop half_size block.old.items }
    ensures block { IsBlock block.new }
    ensures other { IsBlock result }
{
    let (_, behind) = block.split_at(HALF_SIZE);
    // The spare block has memory for a half, so this isn't refused.
    let Ok(()) = spare.extend_from_slice(behind) else {
        return spare;
    };
    block.truncate(HALF_SIZE);
    spare
}

/// The entries as one's own: where others share them, they are copied into a spare block.
fn take_entries(holder: Holder, mut spare: Vec<Entry>) -> Vec<Entry>
    requires held { IsHeld holder }
    requires spare { IsSpare spare }
    ensures entries { result.items ≡ entries_in holder }
    ensures block { IsBlock result }
{
    match holder {
        Holder::Own(entries) => entries,
        Holder::Shared(shared) => match Rc::try_unwrap(shared) {
            Ok(entries) => entries,
            Err(shared) => {
                // The spare block has memory for them, so this isn't refused.
                let Ok(()) = spare.extend_from_slice(shared.as_ref().as_slice()) else {
                    return spare;
                };
                spare
            }
        },
    }
}

/// The entries as one's own where no other shares them.
fn unwrap_entries(holder: Holder) -> Holder
    requires { IsHeld holder }
    ensures entries { entries_in result ≡ entries_in holder }
    ensures held { IsHeld result }
{
    match holder {
        Holder::Own(entries) => Holder::Own(entries),
        Holder::Shared(shared) => match Rc::try_unwrap(shared) {
            Ok(entries) => Holder::Own(entries),
            Err(shared) => Holder::Shared(shared),
        },
    }
}

/// The entries behind a pointer that copies share. Without memory for the pointer they stay one's own.
fn share_entries(alloc: Global, holder: Holder) -> Holder
    requires { IsHeld holder }
    ensures entries { entries_in result ≡ entries_in holder }
    ensures held { IsHeld result }
{
    match holder {
        Holder::Own(entries) => match Rc::new(alloc, entries) {
            Ok(shared) => Holder::Shared(shared),
            Err(failed) => Holder::Own(failed.value),
        },
        Holder::Shared(shared) => Holder::Shared(shared),
    }
}

impl Block {
    /// A block of one's own with these entries.
    pub(crate) fn of(entries: Vec<Entry>) -> Block
        requires { IsBlock entries }
        ensures { result ≡ record { entries = entries.items; shared = false } }
    {
        Block {
            holder: Holder::Own(entries),
        }
    }

    /// Its entries.
    pub(crate) fn entries(&self) -> &[Entry]
        ensures entries { result.now ≡ self.now.entries }
        ensures few { length result.now ≤ block_size }
    {
        match &self.holder {
            Holder::Own(entries) => entries.as_slice(),
            Holder::Shared(shared) => shared.as_ref().as_slice(),
        }
    }

    /// Whether copies may share it.
    pub(crate) fn is_shared(&self) -> bool
        ensures { result ≡ self.now.shared }
    {
        match &self.holder {
            Holder::Own(_) => false,
            Holder::Shared(_) => true,
        }
    }

    /// Lets later copies share it. Without memory for the pointer it stays one's own.
    pub(crate) fn share(&mut self, alloc: Global)
        ensures { self.new.entries ≡ self.old.entries }
    {
        if self.is_shared() {
            return;
        }
        let holder = replace(&mut self.holder, Holder::Own(Vec::new(alloc)));
        self.holder = share_entries(alloc, holder);
    }

    /// Makes it one's own where no other shares it, and answers whether it is.
    pub(crate) fn try_own(&mut self, alloc: Global) -> bool
        ensures entries { self.new.entries ≡ self.old.entries }
        ensures own { result ≡ true → self.new.shared ≡ false }
        ensures other { result ≡ false → self.old.shared ≡ true }
        ensures stays { self.old.shared ≡ false → self.new.shared ≡ false }
    {
        if !self.is_shared() {
            return true;
        }
        let holder = replace(&mut self.holder, Holder::Own(Vec::new(alloc)));
        self.holder = unwrap_entries(holder);
        !self.is_shared()
    }

    /// Makes it one's own: where others share its entries, they are copied into a spare block.
    pub(crate) fn make_own(&mut self, spare: Vec<Entry>)
        requires { IsSpare spare }
        ensures { self.new ≡ record { entries = self.old.entries; shared = false } }
    {
        let alloc = *spare.allocator();
        let holder = replace(&mut self.holder, Holder::Own(Vec::new(alloc)));
        self.holder = Holder::Own(take_entries(holder, spare));
    }

    /// Puts an entry in. It isn't full.
    pub(crate) fn put_in(&mut self, offset: usize, entry: Entry)
        requires own { self.old.shared ≡ false }
        requires room { length self.old.entries < block_size }
        requires offset { offset ≤ length self.old.entries }
        ensures { self.new ≡ record {
          entries = insert self.old.entries offset entry;
          shared = false;
        } }
    {
        match &mut self.holder {
            Holder::Own(entries) => put_in(entries, offset, entry),
            Holder::Shared(_) => unreachable!(),
        }
    }

    /// Takes the entry at a place out, and answers how many are left.
    pub(crate) fn take_out(&mut self, offset: usize) -> usize
        requires own { self.old.shared ≡ false }
        requires offset { offset < length self.old.entries }
        ensures entries { self.new ≡ record {
          entries = remove self.old.entries offset;
          shared = false;
        } }
        ensures left { result ≡ length self.new.entries }
    {
        match &mut self.holder {
            Holder::Own(entries) => take_out(entries, offset),
            Holder::Shared(_) => unreachable!(),
        }
    }

    /// Splits it in halves, and answers the upper one, which stands in a spare block from then on. It is full.
    pub(crate) fn split(&mut self, spare: Vec<Entry>) -> Block
        requires own { self.old.shared ≡ false }
        requires full { length self.old.entries ≡ block_size }
        requires spare { IsSpare spare }
        ensures lower { self.new ≡ record {
          entries = take half_size self.old.entries;
          shared = false;
        } }
        ensures upper { result ≡ record {
          entries = drop half_size self.old.entries;
          shared = false;
        } }
    {
        match &mut self.holder {
            Holder::Own(entries) => Block::of(split_upper(entries, spare)),
            Holder::Shared(_) => unreachable!(),
        }
    }
}

impl Clone for Block {
    ghost is_clone = { λ b d. d ≡ b };

    fn clone(&self) -> Result<Block, AllocError> {
        let holder = match &self.holder {
            Holder::Own(entries) => {
                Holder::Own(make_block(*entries.allocator(), entries.as_slice())?)
            }
            Holder::Shared(shared) => Holder::Shared(shared.clone()?),
        };
        Ok(Block { holder })
    }
}
