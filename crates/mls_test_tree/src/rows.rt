//! Tests by rows. A row is a step, which does something with a tree or asks something of it, and what that answers. A
//! test is one call over its rows, so that no proof of a test goes through many calls.

pub(crate) mod edits;
pub(crate) mod queries;
mod sent_nodes;
pub(crate) mod trees;

use crate::rows::edits::{
    add, add_keys, begin, follow, merge, merge_all, merge_committed, merge_given, merge_long,
    remove, share, update,
};
use crate::rows::queries::{
    ciphertext_counts, counts, distinct, filtered_path, hashes_made, is_blank, is_reached,
    last_path, parent_hash_length, resolution, sent_length,
};
use crate::rows::sent_nodes::{check, tree_of_digits};
use crate::rows::trees::{
    all_taken, copy_of, large_tree, odd_tree, single, taken_leaves, tree_with_unmerged,
};
use mls_tree::{PublicTree, TreeError};
use std::alloc::Global;

/// What a row does with the tree, or asks of it.
#[derive(Clone, Copy)]
pub(crate) enum Step {
    /// Begins anew with the tree of one member with this key.
    Single(u8),
    /// Begins anew with a tree of nodes: its leaves, taken by a member with the key 1 or blank.
    Leaves(&'static [bool]),
    /// Begins anew with a tree of nodes: so many leaves, all of one member with the key 0.
    AllTaken(u32),
    /// Begins anew with leaves 0, 2 and 3 of four, of which leaf 3 is unmerged at its parent.
    Unmerged,
    /// Begins anew with five members of eight leaves, and a parent over leaves 6 and 7.
    Odd,
    /// Begins anew with members at the first 2,000 leaves of 4,096, and at leaves 2,048 and 2,049, each with keys of its
    /// own, of two bytes.
    Large,
    /// Begins anew with the tree of these nodes: hex digits of each.
    Nodes(&'static [&'static str]),
    /// Adds a member with this key, and answers its leaf.
    Add(u8),
    /// Adds members with the keys from this one up to below that one.
    AddKeys(u8, u8),
    /// Replaces this member by one with this key.
    Update(u32, u8),
    Remove(u32),
    /// Merges this member's path of one parent: the key of its leaf, and that of the parent.
    Merge(u32, u8, u8),
    /// Merges this member's path: the key of its leaf, and those of its parents, the lowest first.
    MergeAll(u32, u8, &'static [u8]),
    /// Merges a path of one parent that is prepared, and then followed: whether the tree hash that it had is the tree's and that
    /// of a copy which it was merged into, and how many hashes the tree counts for it.
    Follow(u32, u8, u8),
    /// A merge with the key 8, and one of 32 bytes; answers how long the leaf's parent hash is.
    MergeLong(u32),
    /// Merges a path of this member with these keys, whose leaf has the key 3 and the parent hash of member 0's path
    /// with the key 4.
    MergeCommitted(u32, &'static [u8]),
    /// Merges a path of member 0, whose leaf has the key 2 and this parent hash, with these keys.
    MergeGiven(&'static [u8], &'static [u8]),
    /// Lets later copies share what the tree has.
    Share,
    /// How many leaves and how many members there are.
    Counts,
    /// Whether no encryption key stands twice, and whether no signature key does.
    Distinct,
    Resolution(u32),
    /// Whether this node's resolution isn't empty.
    IsReached(u32),
    FilteredPath(u32),
    /// The path of the last commit that had one.
    LastPath,
    /// The ciphertexts of each node of this member's path, where these leaves were just added.
    Ciphertexts(u32, &'static [u32]),
    /// Whether this node is blank or outside the tree.
    IsBlank(u32),
    /// How long the parent hash of the parent at this node is.
    ParentHashLength(u32),
    /// What the tree is refused with in the group "g", or 0, once its nodes are sent and taken in. Before 51 stand the
    /// checks of its lists, parent hashes and keys.
    Check,
    /// How many hashes of nodes the tree hash makes.
    HashesMade,
    /// How many nodes are sent.
    Sent,
}

/// What a row is to answer.
#[derive(Clone, Copy)]
pub(crate) enum Told {
    /// Nothing.
    Done,
    /// These numbers; 1 stands for true.
    Is(&'static [u64]),
    /// A refusal with this number.
    Refused(u8),
}

pub(crate) type Row = (Step, Told);

/// What a step answers.
fn answer(alloc: Global, tree: &mut Box<PublicTree>, step: Step) -> Result<Vec<u64>, TreeError> {
    match step {
        Step::Single(key) => begin(alloc, tree, single(alloc, key)),
        Step::Leaves(taken) => begin(alloc, tree, taken_leaves(alloc, taken)),
        Step::AllTaken(count) => begin(alloc, tree, all_taken(alloc, count)),
        Step::Unmerged => begin(alloc, tree, tree_with_unmerged(alloc)),
        Step::Odd => begin(alloc, tree, odd_tree(alloc)),
        Step::Large => begin(alloc, tree, large_tree(alloc)),
        Step::Nodes(digits) => begin(alloc, tree, tree_of_digits(alloc, digits)),
        Step::Add(key) => add(alloc, tree, key),
        Step::AddKeys(from, to) => add_keys(alloc, tree, from, to),
        Step::Update(i, key) => update(alloc, tree, i, key),
        Step::Remove(i) => remove(alloc, tree, i),
        Step::Merge(i, own, key) => merge(alloc, tree, i, own, key),
        Step::MergeAll(i, own, keys) => merge_all(alloc, tree, i, own, keys),
        Step::Follow(i, own, key) => follow(alloc, tree, i, own, key),
        Step::MergeLong(i) => merge_long(alloc, tree, i),
        Step::MergeCommitted(i, keys) => merge_committed(alloc, tree, i, keys),
        Step::MergeGiven(hash, keys) => merge_given(alloc, tree, hash, keys),
        Step::Share => share(alloc, tree),
        Step::Counts => counts(alloc, tree),
        Step::Distinct => distinct(alloc, tree),
        Step::Resolution(x) => resolution(tree, x),
        Step::IsReached(x) => is_reached(alloc, tree, x),
        Step::FilteredPath(i) => filtered_path(alloc, tree, i),
        Step::LastPath => last_path(alloc, tree),
        Step::Ciphertexts(i, added) => ciphertext_counts(alloc, tree, i, added),
        Step::IsBlank(x) => is_blank(alloc, tree, x),
        Step::ParentHashLength(x) => parent_hash_length(alloc, tree, x),
        Step::Check => check(alloc, tree),
        Step::HashesMade => hashes_made(alloc, tree),
        Step::Sent => sent_length(alloc, tree),
    }
}

/// Whether an answer is what was told. Want of memory is passed on.
fn is_told(answer: Result<Vec<u64>, TreeError>, told: Told) -> Result<bool, TreeError> {
    match answer {
        Ok(numbers) => match told {
            Told::Done => Ok(numbers.is_empty()),
            Told::Is(others) => Ok(numbers.as_slice() == others),
            Told::Refused(_) => Ok(false),
        },
        Err(TreeError::OutOfMemory) => Err(TreeError::OutOfMemory),
        Err(error) => match told {
            Told::Refused(number) => Ok(error.number() == number),
            _ => Ok(false),
        },
    }
}

/// How many rows, from the first on, the tree answers as told.
pub(crate) fn count_met_rows(
    alloc: Global,
    tree: &mut Box<PublicTree>,
    rows: &[Row],
) -> Result<usize, TreeError> {
    for i in 0..rows.len() {
        let (step, told) = rows[i];
        if !is_told(answer(alloc, tree, step), told)? {
            return Ok(i);
        }
    }
    Ok(rows.len())
}

/// How many rows are answered as told, beginning with the tree of one member.
pub(crate) fn count_met(alloc: Global, rows: &[Row]) -> Result<usize, TreeError> {
    let mut tree = single(alloc, 0)?;
    count_met_rows(alloc, &mut tree, rows)
}

/// How many rows a copy of the tree answers as told.
fn count_met_by_copy(alloc: Global, tree: &PublicTree, rows: &[Row]) -> Result<usize, TreeError> {
    let mut copy = copy_of(alloc, tree)?;
    count_met_rows(alloc, &mut copy, rows)
}

/// How many rows are answered as told: those of a tree, then of its copy, then again of the tree.
pub(crate) fn count_met_by_both(
    alloc: Global,
    tree: &[Row],
    copy: &[Row],
    again: &[Row],
) -> Result<[usize; 3], TreeError> {
    let mut both = single(alloc, 0)?;
    let first = count_met_rows(alloc, &mut both, tree)?;
    let second = count_met_by_copy(alloc, &both, copy)?;
    let third = count_met_rows(alloc, &mut both, again)?;
    Ok([first, second, third])
}
