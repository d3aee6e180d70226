//! Inputs that are only written, to be hashed or signed.

ghost use Rattle.std.specs.Prelude.{◌≡◌};
ghost use Rattle.std.specs.Option.{option_copied};
ghost use Rattle.mls_leaf.specs.Faults.{AddsOptional};
ghost use Rattle.mls_leaf.specs.InputCalls.{WritesHashedLeaf, WritesHashedParent, WritesParentHashInput, AddsLeafContent, AddsLeafPlace, WritesLeafNodeTbs, WritesKeyPackageTbs};

use crate::codec::Codec;
use crate::error::LeafError;
use crate::key_package::KeyPackage;
use crate::leaf::{LeafNode, LeafSource};
use crate::parent_node::ParentNode;
use mls_wire::Writer;
use std::alloc::Global;

/// Adds an optional value.
fn add_optional<T: Codec>(
    alloc: Global,
    value: Option<&T>,
    writer: &mut Writer,
) -> Result<(), LeafError>
    ensures { AddsOptional T.format (option_copied value.entry) writer.old result writer.new }
{
    match value {
        None => {
            writer.u8(0)?;
            Ok(())
        }
        Some(value) => {
            writer.u8(1)?;
            value.write(alloc, writer)?;
            Ok(())
        }
    }
}

/// The input of a leaf's tree hash (RFC 9420, section 7.8): 1, the leaf index, and the leaf, if the
/// place is not blank.
#[tactic(auto, using(crate::proofs::Codecs::codecs), unfolding(crate::specs::Inputs::tree_hash_input_of_leaf))]
pub fn tree_hash_input_of_leaf(
    alloc: Global,
    leaf_index: u32,
    leaf: Option<&LeafNode>,
) -> Result<Vec<u8>, LeafError>
    ensures { WritesHashedLeaf leaf_index (option_copied leaf.entry) result }
{
    let mut writer = Writer::new(alloc);
    writer.u8(1)?;
    writer.u32(leaf_index)?;
    add_optional(alloc, leaf, &mut writer)?;
    Ok(writer.into_bytes())
}

/// The input of a parent's tree hash (RFC 9420, section 7.8): 2, the parent, if the place is not
/// blank, and the tree hashes of its children.
#[tactic(auto, using(crate::proofs::Codecs::codecs), unfolding(crate::specs::Inputs::tree_hash_input_of_parent))]
pub fn tree_hash_input_of_parent(
    alloc: Global,
    parent: Option<&ParentNode>,
    left_hash: &[u8],
    right_hash: &[u8],
) -> Result<Vec<u8>, LeafError>
    ensures { WritesHashedParent (option_copied parent.entry) left_hash.now right_hash.now result }
{
    let mut writer = Writer::new(alloc);
    writer.u8(2)?;
    add_optional(alloc, parent, &mut writer)?;
    writer.opaque(left_hash)?;
    writer.opaque(right_hash)?;
    Ok(writer.into_bytes())
}

/// The input of a parent hash (RFC 9420, section 7.9): the parent's public key, its own parent hash,
/// and the tree hash that the sibling had when the parent was set, `original_sibling_tree_hash`.
#[tactic(auto, using(crate::proofs::Codecs::codecs), unfolding(crate::specs::Inputs::parent_hash_input))]
pub fn parent_hash_input(
    alloc: Global,
    encryption_key: &[u8],
    parent_hash: &[u8],
    sibling_hash: &[u8],
) -> Result<Vec<u8>, LeafError>
    ensures { WritesParentHashInput encryption_key.now parent_hash.now sibling_hash.now result }
{
    let mut writer = Writer::new(alloc);
    writer.opaque(encryption_key)?;
    writer.opaque(parent_hash)?;
    writer.opaque(sibling_hash)?;
    Ok(writer.into_bytes())
}

/// Adds the leaf without its signature.
#[tactic(auto, using(crate::proofs::Codecs::codecs), unfolding(crate::specs::Inputs::leaf_content))]
fn add_leaf_content(alloc: Global, leaf: &LeafNode, writer: &mut Writer) -> Result<(), LeafError>
    ensures { AddsLeafContent leaf.now writer.old result writer.new }
{
    leaf.encryption_key.write(alloc, writer)?;
    leaf.signature_key.write(alloc, writer)?;
    leaf.credential.write(alloc, writer)?;
    leaf.capabilities.write(alloc, writer)?;
    leaf.source.write(alloc, writer)?;
    writer.opaque(&[])?;
    Ok(())
}

/// Adds where a leaf stands, if it is made in a group.
#[tactic(auto, using(crate::proofs::Codecs::codecs))]
fn add_leaf_place(
    source: &LeafSource,
    group_id: &[u8],
    leaf_index: u32,
    writer: &mut Writer,
) -> Result<(), LeafError>
    ensures { AddsLeafPlace source.now group_id.now leaf_index writer.old result writer.new }
{
    match source {
        LeafSource::KeyPackage { .. } => Ok(()),
        LeafSource::Update => {
            writer.opaque(group_id)?;
            writer.u32(leaf_index)?;
            Ok(())
        }
        LeafSource::Commit { .. } => {
            writer.opaque(group_id)?;
            writer.u32(leaf_index)?;
            Ok(())
        }
    }
}

impl LeafNode {
    /// What is signed of a leaf (RFC 9420, section 7.2): all but the signature, and for the sources
    /// update and commit the group and the leaf index. For a leaf of a key package these two do not count.
    #[tactic(auto, using(crate::proofs::Codecs::codecs), unfolding(crate::specs::Inputs::leaf_node_tbs))]
    pub fn to_be_signed(
        &self,
        alloc: Global,
        group_id: &[u8],
        leaf_index: u32,
    ) -> Result<Vec<u8>, LeafError>
        ensures { WritesLeafNodeTbs self.now group_id.now leaf_index result }
    {
        let mut writer = Writer::new(alloc);
        add_leaf_content(alloc, self, &mut writer)?;
        add_leaf_place(&self.source, group_id, leaf_index, &mut writer)?;
        Ok(writer.into_bytes())
    }
}

impl KeyPackage {
    /// What is signed of a key package (RFC 9420, section 10): all but the signature.
    #[tactic(auto, using(crate::proofs::Codecs::codecs), unfolding(crate::specs::Inputs::key_package_tbs))]
    pub fn to_be_signed(&self, alloc: Global) -> Result<Vec<u8>, LeafError>
        ensures { WritesKeyPackageTbs self.now result }
    {
        let mut writer = Writer::new(alloc);
        writer.u16(1)?;
        self.cipher_suite.write(alloc, &mut writer)?;
        self.init_key.write(alloc, &mut writer)?;
        self.leaf_node.write(alloc, &mut writer)?;
        writer.opaque(&[])?;
        Ok(writer.into_bytes())
    }
}
