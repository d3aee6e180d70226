//! The context of the next epoch before its transcript is known, and the spelling of contexts.

ghost use Rattle.std.specs.Prelude.{◌≡◌, ◌+◌, ◌<◌, ◌^◌, IfOk, length};
ghost use Rattle.mls_types.specs.GroupContext.{group_context};
ghost use Rattle.mls_public_group.specs.Short.{IsShortContext};
ghost use Rattle.mls_public_group.specs.PublicState.{IsProvisional};

use crate::spelling::spelling;
use mls_leaf::{Bytes, GroupExtensions};
use mls_tree::Hash;
use mls_types::GroupContext;
use std::alloc::{AllocError, Global};

/// The next epoch's context with the new extensions and the new tree's hash, and as yet the old transcript (RFC 9420,
/// 12.4.1).
#[tactic(auto, unfolding(mls_model::specs::PublicState::provisional_context))]
pub fn provisional_context(
    alloc: Global,
    old: &GroupContext,
    extensions: &GroupExtensions,
    hash: &Hash,
) -> Result<GroupContext, AllocError>
    requires { old.now.epoch + 1 < 2 ^ 64 }
    ensures { IsProvisional old.now extensions.now hash.now result }
{
    Ok(GroupContext {
        cipher_suite: old.cipher_suite,
        group_id: old.group_id.clone()?,
        epoch: old.epoch + 1,
        tree_hash: Bytes::from_slice(alloc, hash)?,
        confirmed_transcript_hash: old.confirmed_transcript_hash.clone()?,
        extensions: extensions.clone()?,
    })
}

/// The spelling of a context whose texts and extensions are short (RFC 9420, 8.1), of fewer than 2^30 bytes.
pub fn context_spelling(alloc: Global, context: &GroupContext) -> Result<Vec<u8>, AllocError>
    requires { IsShortContext context.now }
    ensures spelled { IfOk result (λ v. v.items ≡ group_context.spell context.now) }
    ensures short { IfOk result (λ v. length v.items < 2 ^ 30) }
{
    let bytes = spelling::<GroupContext>(alloc, context)?;
    Ok(bytes)
}
