//! The checks of the leaf that a committer makes for itself.

ghost use Rattle.std.specs.Prelude.{◌≡◌, ◌<◌, ◌^◌, not, length, IfOk};
ghost use Rattle.std.specs.Str.{bytes_eq};
ghost use Rattle.mls_wire.specs.Checks.{require};
ghost use Rattle.mls_leaf.specs.Leaf.{leaf_node};
ghost use Rattle.mls_checks.specs.Checks.{replacement_checks};
ghost use Rattle.mls_checks.specs.Faults.{ChecksAs};
ghost use Rattle.mls_checks.specs.declared.checks.LeafUse.TheVariants.{Commit as commit};
ghost use Rattle.mls_public_group.specs.Short.{IsBelow};
ghost use Rattle.mls_update_path.specs.Parts.{IsOwnLeaf};

use mls_checks::{CheckError, LeafUse, check_replacement};
use mls_kdf::Secret;
use mls_leaf::LeafNode;
use mls_suite::{OutOfMemory, Suite};
use std::alloc::Global;

/// Whether a leaf has the public key of a private signature key.
fn has_key_of<S: Suite>(
    alloc: Global,
    leaf: &LeafNode,
    signing: &Secret,
) -> Result<bool, OutOfMemory>
    ensures { IfOk result
        (λ b. b ≡ bytes_eq (S.crypto.sig_public signing.now) leaf.now.signature_key) }
{
    let public = S::sig_public(alloc, signing)?;
    Ok(public.as_slice() == leaf.signature_key.as_slice())
}

/// `LeafKeySame` (54) where both leaves have one encryption key.
fn require_other_key(new: &LeafNode, old: &LeafNode) -> Result<(), CheckError>
    ensures { ChecksAs (require 54 (not (bytes_eq new.now.encryption_key old.now.encryption_key)))
        result }
{
    if new.encryption_key == old.encryption_key {
        return Err(CheckError::LeafKeySame);
    }
    Ok(())
}

/// The checks of a leaf that a committer made, and signed, in place of its old one (RFC 9420, 7.3): 50 to 54. Where the
/// old one has the public key of its private key, all pass but perhaps the last: that a signature which was just made
/// verifies is a law of the suite, and the others are known of what was made.
pub(crate) fn check_own_leaf<S: Suite>(
    alloc: Global,
    signing: &Secret,
    new: &LeafNode,
    old: &LeafNode,
    group_id: &[u8],
    index: u32,
) -> Result<(), CheckError>
    requires leaf { IsBelow (2 ^ 28) leaf_node new.now }
    requires group { length group_id.now < 2 ^ 28 }
    requires own { IsOwnLeaf S.crypto signing.now group_id.now index old.now new.now }
    ensures { ChecksAs (replacement_checks S.crypto new.now old.now commit group_id.now index)
        result }
{
    let is_own = has_key_of::<S>(alloc, old, signing)?;
    if !is_own {
        return check_replacement::<S>(alloc, new, old, LeafUse::Commit, group_id, index);
    }
    require_other_key(new, old)
}
