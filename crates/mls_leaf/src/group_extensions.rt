//! The extensions that a group carries.

ghost use Rattle.std.specs.Prelude.{◌≡◌, ◌≤◌, [], List, length, true, false, MatchResult, IfOk};
ghost use Rattle.std.specs.Cmp.{and_equiv, on_equiv, nat_eq_equiv, partial_equiv_from_equiv};
ghost use Rattle.std.specs.Cmp.Lexicographic.{pointwise, lists_equiv, nat_list_eq_equiv};
ghost use Rattle.mls_wire.specs.Reading.{header};
ghost use Rattle.mls_wire.specs.CombineReads.{without_value};
ghost use Rattle.mls_leaf.specs.declared.error.LeafError.TheVariants.{ExtensionNotAllowed};
ghost use Rattle.mls_leaf.specs.declared.extension.Extension.{Extension};
ghost use Rattle.mls_leaf.specs.Faults.{Gives, AddsSpelling, ReadsAllPast};
ghost use Rattle.mls_leaf.specs.GroupExtensions.{are_allowed, AreAllowed, allowed_extensions, group_extensions, group_extensions_nonempty, group_extensions_faults, is_short};

use crate::bytes::Bytes;
use crate::codec::{Codec, INPUT_LIMIT};
use crate::error::LeafError;
use crate::extension::Extension;
use crate::type_marks::{mark_type, no_marks, read_type};
use crate::vectors::add_vector;
use mls_wire::{Reader, Writer};
use std::alloc::{AllocError, Global};
use std::marker::Model;

/// The extensions that a group carries (RFC 9420, section 8.1). Their types are for private use, and each type stands
/// once. Their data are carried as they are.
#[derive(Debug)]
pub struct GroupExtensions {
    entries: Vec<Extension>,
}

impl Model for GroupExtensions {
    ghost Value = { List Extension };

    ghost view = { λ b. b.entries.items };

    ghost invariant = { λ b. are_allowed b.entries.items ≡ true };
}

/// The extensions that the bytes spell, which a group may carry.
fn extensions_of(alloc: Global, mut content: Reader<'_>) -> Result<Vec<Extension>, LeafError>
    ensures read { Gives (λ v. v.items) result (allowed_extensions content.entry) }
    ensures allowed { IfOk result (λ v. are_allowed v.items ≡ true) }
{
    let mut entries = Vec::new(alloc);
    let mut marks = no_marks();
    while !content.is_empty() {
        let kind = read_type(&mut content, &mut marks)?;
        let carried = Bytes::read(alloc, &mut content)?;
        entries.push(Extension {
            kind,
            content: carried,
        })?;
    }
    Ok(entries)
}

/// Whether the bytes spell extensions that a group may carry.
fn check_extensions(mut content: Reader<'_>) -> Result<(), LeafError>
    ensures { ReadsAllPast (without_value (allowed_extensions content.entry)) result }
{
    let mut marks = no_marks();
    while !content.is_empty() {
        let _kind = read_type(&mut content, &mut marks)?;
        let _carried = content.opaque()?;
    }
    Ok(())
}

/// Adds extensions that a group may carry, as a vector.
#[tactic(auto, using(crate::proofs::GroupExtensionsLaws::extensions_added))]
fn add_extensions(
    alloc: Global,
    entries: &[Extension],
    writer: &mut Writer,
) -> Result<(), LeafError>
    requires { are_allowed entries.now ≡ true }
    ensures { AddsSpelling group_extensions entries.now writer.old result writer.new }
{
    add_vector(alloc, entries, writer)
}

/// How many bytes the header of a vector has, by how many its content has.
#[tactic(auto, unfolding(mls_wire::specs::Reading::header))]
fn header_length(size: usize) -> usize
    ensures exact { result ≡ length (header size) }
    ensures few { result ≤ 4 }
{
    if size < 64 {
        1
    } else if size < 16384 {
        2
    } else {
        4
    }
}

/// Whether the list of these extensions fits into an input. It takes no memory.
fn is_short(entries: &[Extension]) -> bool
    ensures { result ≡ is_short entries.now }
{
    let mut content = 0;
    for entry in entries {
        let carried = entry.content.as_slice().len();
        if carried > INPUT_LIMIT {
            return false;
        }
        let front = header_length(carried);
        content += 2 + front + carried;
        if content > INPUT_LIMIT {
            return false;
        }
    }
    let first = header_length(content);
    first + content <= INPUT_LIMIT
}

impl GroupExtensions {
    /// No extensions.
    #[tactic(auto, unfolding(crate::specs::GroupExtensions::are_new))]
    pub fn empty(alloc: Global) -> GroupExtensions
        ensures { result ≡ [] }
    {
        GroupExtensions {
            entries: Vec::new(alloc),
        }
    }

    /// Whether a group may carry these extensions: each type is for private use, and stands once. It takes no memory.
    pub fn is_allowed(entries: &[Extension]) -> bool
        ensures { result ≡ are_allowed entries.now }
    {
        let mut marks = no_marks();
        for entry in entries {
            if !mark_type(&mut marks, entry.kind) {
                return false;
            }
        }
        true
    }

    /// Whether the list of them fits into an input. It takes no memory.
    pub fn is_short(&self) -> bool
        ensures { result ≡ is_short self.now }
    {
        is_short(&self.entries)
    }

    /// These extensions, which takes no memory. Those that a group may not carry are refused.
    pub fn new(entries: Vec<Extension>) -> Result<GroupExtensions, LeafError>
        ensures { MatchResult result
            (λ v. AreAllowed entries.items v)
            (λ e. (e ≡ ExtensionNotAllowed) × (are_allowed entries.items ≡ false)) }
    {
        if !GroupExtensions::is_allowed(&entries) {
            return Err(LeafError::ExtensionNotAllowed);
        }
        Ok(GroupExtensions { entries })
    }

    /// The extensions, which takes no memory.
    pub fn into_vec(self) -> Vec<Extension>
        ensures { result.items ≡ self }
    {
        let GroupExtensions { entries } = self;
        entries
    }

    /// The extensions.
    pub fn as_slice(&self) -> &[Extension]
        ensures entries { result.now ≡ self.now }
        ensures allowed { are_allowed result.now ≡ true }
    {
        &self.entries
    }
}

// By hand, so that a drop is one call for the proofs of those that hold the extensions of a group.
impl Drop for GroupExtensions {
    fn drop(self) {
        let GroupExtensions { entries: _ } = self;
    }
}

impl Clone for GroupExtensions {
    ghost is_clone = { λ v w. w ≡ v };

    fn clone(&self) -> Result<GroupExtensions, AllocError> {
        let entries = Vec::from_clones(*self.entries.allocator(), &self.entries)?;
        Ok(GroupExtensions { entries })
    }
}

impl PartialEq for GroupExtensions {
    ghost eq = { pointwise ⟦<Extension as PartialEq>⟧.eq };

    ghost laws = { partial_equiv_from_equiv (lists_equiv (and_equiv
        (on_equiv (λ (v : Extension). v.kind) nat_eq_equiv)
        (on_equiv (λ (v : Extension). v.content) nat_list_eq_equiv))) };

    fn eq(&self, other: &GroupExtensions) -> bool {
        self.entries == other.entries
    }
}

impl Eq for GroupExtensions {
    ghost laws = { lists_equiv (and_equiv
        (on_equiv (λ (v : Extension). v.kind) nat_eq_equiv)
        (on_equiv (λ (v : Extension). v.content) nat_list_eq_equiv)) };
}

impl Codec for GroupExtensions {
    ghost format = { group_extensions };

    ghost nonempty = { group_extensions_nonempty };

    ghost faults = { group_extensions_faults };

    #[tactic(auto, using(crate::proofs::Codecs::codecs), unfolding(crate::specs::GroupExtensions::group_extensions))]
    fn read(alloc: Global, reader: &mut Reader<'_>) -> Result<GroupExtensions, LeafError> {
        let content = reader.vector()?;
        let entries = extensions_of(alloc, content)?;
        Ok(GroupExtensions { entries })
    }

    #[tactic(auto, using(crate::proofs::Codecs::codecs), unfolding(crate::specs::GroupExtensions::group_extensions))]
    fn check(reader: &mut Reader<'_>) -> Result<(), LeafError> {
        let content = reader.vector()?;
        check_extensions(content)?;
        Ok(())
    }

    fn write(&self, alloc: Global, writer: &mut Writer) -> Result<(), LeafError> {
        add_extensions(alloc, &self.entries, writer)
    }
}
