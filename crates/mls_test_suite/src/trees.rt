//! A ratchet tree as it was sent (RFC 9420, 12.4.3.3), as an auditor of a group takes it.

ghost use Rattle.std.specs.Prelude.{◌<◌, ◌^◌, length};
ghost use Rattle.mls_test_suite.specs.CheckedHash.{AnswersHash, hash_of_checked_tree};

use mls_cli_check::{CheckError, tree_in};
use mls_suite::Suite;
use mls_tree::Hash;
use std::alloc::Global;

/// Reads a ratchet tree, checks it for the group with this id, and answers its tree hash (RFC 9420, 7.8). It is refused
/// with the first fault: of decoding (2 to 7, 11 to 14), `TreeShape` (20), `TreeFull` (21), and those of the checks of
/// a good tree (23 to 26, 51, 52, 36).
pub fn hash_of_checked_tree<S: Suite>(
    alloc: Global,
    bytes: &[u8],
    group_id: &[u8],
) -> Result<Hash, CheckError>
    requires group { length group_id.now < 2 ^ 28 }
    ensures { AnswersHash (hash_of_checked_tree S.crypto group_id.now bytes.now) result }
{
    let mut tree = tree_in(alloc, bytes)?;
    tree.check::<S>(group_id)?;
    Ok(tree.tree_hash())
}
