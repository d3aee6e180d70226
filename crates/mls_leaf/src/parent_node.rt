//! Parents.

ghost use Rattle.std.specs.Prelude.{◌≡◌, ℕ, ◌+◌, ◌<◌, ◌≤◌, Bool, true, false, List, length, Result, Ok, MatchResult, MatchOption, IfOk, IsOk, insert};
ghost use Rattle.mls_wire.specs.Stateful.{vector_from};
ghost use Rattle.mls_wire.specs.CombineReads.{without_value};
ghost use Rattle.mls_leaf.specs.declared.error.LeafError.TheVariants.{NotRising};
ghost use Rattle.mls_leaf.specs.Faults.{Gives, AddsSpelling, ReadsFrontNow, ReadsAllPast};
ghost use Rattle.mls_leaf.specs.Parent.{Parent, IsParentOf, rises, rising_with, IsPlaceFor, with_unmerged, ListsUnmerged, HasNewUnmerged};
ghost use Rattle.mls_leaf.specs.ParentNode.{entry_from, rising_rule, rising_entries, parent_node, parent_node_nonempty, parent_node_faults};

use crate::bytes::Bytes;
use crate::codec::Codec;
use crate::error::LeafError;
use crate::items::Items;
use crate::vectors::add_vector;
use mls_wire::{Reader, Writer};
use std::alloc::{AllocError, Global};
use std::marker::Model;

/// A parent that is not blank (RFC 9420, section 7.1). Its unmerged leaves are leaf indices that
/// strictly rise.
#[derive(Debug, Clone, Drop)]
pub struct ParentNode {
    encryption_key: Bytes,
    parent_hash: Bytes,
    unmerged_leaves: Vec<u32>,
}

impl Model for ParentNode {
    ghost Value = { Parent };

    ghost view = { λ p. record {
      encryption_key = p.encryption_key;
      parent_hash = p.parent_hash;
      unmerged_leaves = p.unmerged_leaves.items;
    } };

    ghost invariant = { λ p. rises p.unmerged_leaves.items ≡ true };
}

/// Whether each entry is above the one before it.
#[tactic(auto, unfolding(crate::specs::Parent::rises_from))]
fn rises(entries: &[u32]) -> bool
    ensures { result ≡ rises entries.now }
{
    let mut least = 0u64;
    for entry in entries {
        if u64::from(*entry) < least {
            return false;
        }
        least = u64::from(*entry) + 1;
    }
    true
}

/// Reads an entry that is no less than `least`.
fn read_entry(reader: &mut Reader<'_>, least: u64) -> Result<u32, LeafError>
    ensures { ReadsFrontNow (entry_from least) reader.old result reader.new }
{
    let entry = reader.u32()?;
    if u64::from(entry) < least {
        return Err(LeafError::NotRising);
    }
    Ok(entry)
}

/// The rising entries that the bytes spell.
fn rising_of(alloc: Global, mut content: Reader<'_>) -> Result<Vec<u32>, LeafError>
    ensures read { Gives (λ v. v.items) result (rising_entries content.entry) }
    ensures rises { IfOk result (λ v. rises v.items ≡ true) }
{
    let mut entries = Vec::new(alloc);
    let mut least = 0u64;
    while !content.is_empty() {
        let entry = read_entry(&mut content, least)?;
        entries.push(entry)?;
        least = u64::from(entry) + 1;
    }
    Ok(entries)
}

/// Whether the bytes spell rising entries.
fn check_rising(mut content: Reader<'_>) -> Result<(), LeafError>
    ensures { ReadsAllPast (without_value (rising_entries content.entry)) result }
{
    let mut least = 0u64;
    while !content.is_empty() {
        let entry = read_entry(&mut content, least)?;
        least = u64::from(entry) + 1;
    }
    Ok(())
}

/// Adds rising entries as a vector.
#[tactic(auto, using(crate::proofs::ParentLaws::rising_added))]
fn add_rising(alloc: Global, entries: &[u32], writer: &mut Writer) -> Result<(), LeafError>
    requires { rises entries.now ≡ true }
    ensures { AddsSpelling (vector_from rising_rule 0) entries.now writer.old result writer.new }
{
    add_vector(alloc, entries, writer)
}

/// Where the leaf has to be put so that the entries still rise, if it isn't among them. It is looked for by halves.
fn place_for(entries: &[u32], leaf: u32) -> Option<usize>
    requires { rises entries.now ≡ true }
    ensures { MatchOption result
        (rising_with leaf entries.now ≡ entries.now)
        (λ place. IsPlaceFor leaf entries.now place) }
{
    match entries.binary_search(&leaf) {
        Ok(_) => None,
        Err(place) => Some(place),
    }
}

impl ParentNode {
    /// A parent of these parts. Entries that do not rise are refused.
    pub fn new(
        encryption_key: Bytes,
        parent_hash: Bytes,
        unmerged_leaves: Items<u32>,
    ) -> Result<ParentNode, LeafError>
        ensures { MatchResult result
            (λ p. IsParentOf encryption_key parent_hash unmerged_leaves p)
            (λ e. (e ≡ NotRising) × (rises unmerged_leaves ≡ false)) }
    {
        if !rises(unmerged_leaves.as_slice()) {
            return Err(LeafError::NotRising);
        }
        Ok(ParentNode {
            encryption_key,
            parent_hash,
            unmerged_leaves: unmerged_leaves.into_vec(),
        })
    }

    /// The parts, which takes no memory.
    pub fn into_parts(self) -> (Bytes, Bytes, Items<u32>)
        ensures { result ≡ (self.encryption_key, self.parent_hash, self.unmerged_leaves) }
    {
        let ParentNode {
            encryption_key,
            parent_hash,
            unmerged_leaves,
        } = self;
        (
            encryption_key,
            parent_hash,
            Items::from_vec(unmerged_leaves),
        )
    }

    /// The public key.
    pub fn encryption_key(&self) -> &[u8]
        ensures { result.now ≡ self.now.encryption_key }
    {
        self.encryption_key.as_slice()
    }

    /// The parent hash.
    pub fn parent_hash(&self) -> &[u8]
        ensures { result.now ≡ self.now.parent_hash }
    {
        self.parent_hash.as_slice()
    }

    /// The unmerged leaves, which rise.
    pub fn unmerged_leaves(&self) -> &[u32]
        ensures entries { result.now ≡ self.now.unmerged_leaves }
        ensures rise { rises result.now ≡ true }
    {
        &self.unmerged_leaves
    }

    /// Puts a leaf among the unmerged ones, where it stands once, and answers whether it is new there. Without
    /// memory for it all stays as it was.
    pub fn insert_unmerged(&mut self, leaf: u32) -> Result<bool, AllocError>
        ensures put { MatchResult result
            (λ _. self.new ≡ with_unmerged leaf self.old)
            (λ _. self.new ≡ self.old) }
        ensures there { ListsUnmerged leaf self.old → IsOk result }
        ensures new { result ≡ Ok true → HasNewUnmerged leaf self.old self.new }
        ensures listed { result ≡ Ok false → self.new ≡ self.old }
    {
        let Some(place) = place_for(&self.unmerged_leaves, leaf) else {
            return Ok(false);
        };
        self.unmerged_leaves.insert(place, leaf)?;
        Ok(true)
    }
}

impl Codec for ParentNode {
    ghost format = { parent_node };

    ghost nonempty = { parent_node_nonempty };

    ghost faults = { parent_node_faults };

    #[tactic(auto, using(crate::proofs::Codecs::codecs), unfolding(crate::specs::ParentNode::parent_node))]
    fn read(alloc: Global, reader: &mut Reader<'_>) -> Result<ParentNode, LeafError> {
        let encryption_key = Bytes::read(alloc, reader)?;
        let parent_hash = Bytes::read(alloc, reader)?;
        let content = reader.vector()?;
        let unmerged_leaves = rising_of(alloc, content)?;
        Ok(ParentNode {
            encryption_key,
            parent_hash,
            unmerged_leaves,
        })
    }

    #[tactic(auto, using(crate::proofs::Codecs::codecs), unfolding(crate::specs::ParentNode::parent_node))]
    fn check(reader: &mut Reader<'_>) -> Result<(), LeafError> {
        Bytes::check(reader)?;
        Bytes::check(reader)?;
        let content = reader.vector()?;
        check_rising(content)?;
        Ok(())
    }

    #[tactic(auto, using(crate::proofs::Codecs::codecs), unfolding(crate::specs::ParentNode::parent_node))]
    fn write(&self, alloc: Global, writer: &mut Writer) -> Result<(), LeafError> {
        self.encryption_key.write(alloc, writer)?;
        self.parent_hash.write(alloc, writer)?;
        add_rising(alloc, &self.unmerged_leaves, writer)?;
        Ok(())
    }
}
