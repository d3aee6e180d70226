//! The context under which a path is sealed.

ghost use Rattle.std.specs.Prelude.{◌≡◌, ◌+◌, ◌<◌, ◌^◌, length, IfOk};
ghost use Rattle.mls_leaf.specs.GroupExtensions.{group_extensions};
ghost use Rattle.mls_tree.specs.Tree.{term};
ghost use Rattle.mls_public_group.specs.Short.{IsBelow, IsShortContext};
ghost use Rattle.mls_update_path.specs.Parts.{SpellsProvisional};

use mls_leaf::GroupExtensions;
use mls_public_group::{context_spelling, provisional_context};
use mls_suite::OutOfMemory;
use mls_tree::PublicTree;
use mls_types::GroupContext;
use std::alloc::Global;

/// The spelling of the next epoch's context with these extensions and this tree, and as yet the old transcript (RFC
/// 9420, 12.4.1).
pub(crate) fn provisional_bytes(
    alloc: Global,
    old: &GroupContext,
    extensions: &GroupExtensions,
    tree: &mut PublicTree,
) -> Result<Vec<u8>, OutOfMemory>
    requires short { IsShortContext old.now }
    requires extensions { IsBelow (2 ^ 27) group_extensions extensions.now }
    requires epoch { old.now.epoch + 1 < 2 ^ 64 }
    ensures bytes { IfOk result (SpellsProvisional old.now extensions.now (term tree.old)) }
    ensures short { IfOk result (λ v. length v.items < 2 ^ 30) }
    ensures same { term tree.new ≡ term tree.old }
{
    let hash = tree.tree_hash();
    let context = provisional_context(alloc, old, extensions, &hash)?;
    let bytes = context_spelling(alloc, &context)?;
    Ok(bytes)
}
