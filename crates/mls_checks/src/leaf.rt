//! Checks of one leaf.

ghost use Rattle.std.specs.Prelude.{◌≡◌, ◌<◌, ◌^◌, length, IfOk};
ghost use Rattle.mls_leaf.specs.KeyPackage.{key_package};
ghost use Rattle.mls_leaf.specs.Leaf.{leaf_node};
ghost use Rattle.mls_checks.specs.Checks.{is_package_signed};
ghost use Rattle.mls_checks.specs.Leaf.{is_signed, is_capable};
ghost use Rattle.mls_checks.specs.Short.{IsShort};

use mls_leaf::{KeyPackage, LeafNode, bytes_or_out_of_memory};
use mls_suite::{OutOfMemory, Suite, verify_with_label};
use std::alloc::Global;

/// Whether the leaf's signature is its own, in a group and at a leaf index (RFC 9420, 7.2). For a leaf of a key
/// package these two do not count.
pub fn leaf_signed<S: Suite>(
    alloc: Global,
    leaf: &LeafNode,
    group_id: &[u8],
    index: u32,
) -> Result<bool, OutOfMemory>
    requires leaf { IsShort leaf_node leaf.now }
    requires group { length group_id.now < 2 ^ 28 }
    ensures { IfOk result (λ b. b ≡ is_signed S.crypto group_id.now index leaf.now) }
{
    let content = bytes_or_out_of_memory(leaf.to_be_signed(alloc, group_id, index))?;
    verify_with_label::<S>(
        alloc,
        leaf.signature_key.as_slice(),
        "LeafNodeTBS",
        &content,
        leaf.signature.as_slice(),
    )
}

/// Whether the leaf lists version 1, the suite and credential 1 (RFC 9420, 7.2).
#[tactic(auto, unfolding(crate::specs::Leaf::is_capable))]
pub fn leaf_capable(leaf: &LeafNode, suite: u16) -> bool
    ensures { result ≡ is_capable suite leaf.now }
{
    leaf.capabilities.support(1, suite, 1)
}

/// Whether the key package's signature is its own (RFC 9420, 10).
pub(crate) fn is_package_signed<S: Suite>(
    alloc: Global,
    offered: &KeyPackage,
) -> Result<bool, OutOfMemory>
    requires { IsShort key_package offered.now }
    ensures { IfOk result (λ b. b ≡ is_package_signed S.crypto offered.now) }
{
    let content = bytes_or_out_of_memory(offered.to_be_signed(alloc))?;
    verify_with_label::<S>(
        alloc,
        offered.leaf_node.signature_key.as_slice(),
        "KeyPackageTBS",
        &content,
        offered.signature.as_slice(),
    )
}
