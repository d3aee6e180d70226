//! Ratchet trees as they are sent (RFC 9420, 12.4.3.3), and their lines.

ghost use Rattle.std.specs.Prelude.{◌≡◌, map, IfOk};
ghost use Rattle.mls_wire.specs.Checks.{Answers};
ghost use Rattle.mls_tree.specs.Tree.{term};
ghost use Rattle.mls_cli_text.specs.Text.{entry_of};
ghost use Rattle.mls_cli_check.specs.Check.{tree_entries, tree_in};
ghost use Rattle.mls_cli_check.specs.CheckFaults.{number_of, RefusesNodes};
ghost use Rattle.mls_cli_check.specs.LongList.{RefusesMany};
ghost use Rattle.mls_tree.specs.ShortLeaves.{HasShortLeaves};

use crate::check_error::CheckError;
use mls_cli_text::{Field, Line, line_of};
use mls_leaf::{Bytes, Codec};
use mls_tree::PublicTree;
use mls_tree_view::refuse_long;
use mls_types::RatchetTree;
use std::alloc::{AllocError, Global};

/// Reads the tree that the bytes spell: refused with the fault of decoding (2 to 7, 11 to 14), and else with that of
/// its shape (`TreeShape` (20)) or its size (`TreeFull` (21)).
pub fn tree_in(alloc: Global, bytes: &[u8]) -> Result<PublicTree, CheckError>
    ensures tree { Answers term number_of (tree_in bytes.now) result }
    // Bytes that spell no nodes, or more than a tree has, are refused also when an allocation fails.
    ensures outright { RefusesNodes bytes.now result }
    ensures long { RefusesMany bytes.now result }
    // The leaves of an input are short, as it is itself.
    ensures short { IfOk result (λ tree. HasShortLeaves (term tree)) }
{
    refuse_long(bytes)?;
    let nodes = RatchetTree::decode(alloc, bytes)?;
    let tree = PublicTree::from_nodes(nodes.into_vec())?;
    Ok(tree)
}

/// The lines of a tree: how many leaves and members it has, and its tree hash.
#[tactic(auto, unfolding(crate::specs::Check::tree_entries))]
pub fn tree_lines(alloc: Global, tree: &mut PublicTree) -> Result<Vec<Line>, AllocError>
    ensures lines { IfOk result (λ lines. map entry_of lines.items ≡ tree_entries (term tree.old)) }
    ensures same { term tree.new ≡ term tree.old }
{
    let hash = tree.tree_hash();
    let hash = Vec::from_slice(alloc, hash.as_slice())?;
    let leaves = u64::from(tree.leaf_count());
    let members = u64::from(tree.member_count());
    Ok(vec![in alloc;
        line_of("leaves", Field::Number(leaves)),
        line_of("members", Field::Number(members)),
        line_of("tree_hash", Field::Bytes(Bytes::from_vec(hash))),
    ]?)
}
