//! The first node with a key that another has before it.

ghost use Rattle.std.specs.Prelude.{◌≡◌, ◌<◌, ◌≤◌, ◌^◌, take, length, IfOk};
ghost use Rattle.mls_tree_index.specs.Keys.{keys_of};
ghost use Rattle.mls_tree_model.specs.Sets.{is_distinct, same_bytes};
ghost use Rattle.mls_cli_place.specs.TreePlace.{IsFirstFailing, has_new_key};

use mls_tree_cells::Cells;
use mls_tree_index::{Index, KeyKind};
use mls_tree_slot::Slot;
use std::alloc::{AllocError, Global};

/// Whether no two of the first nodes have one key.
fn are_distinct_to(
    alloc: Global,
    kind: KeyKind,
    nodes: &[Slot],
    end: usize,
) -> Result<bool, AllocError>
    requires end { end ≤ length nodes.now }
    requires few { length nodes.now < 2 ^ 32 }
    ensures { IfOk result (λ v. v ≡ is_distinct same_bytes (keys_of kind (take end nodes.now))) }
{
    let cells = Cells::from_slots(Vec::from_clones(alloc, &nodes[..end])?)?;
    let index = Index::build(alloc, kind, &cells)?;
    Ok(index.are_distinct())
}

/// The first node, of those that are sent, with a key that another has before it.
pub(crate) fn first_repeated(
    alloc: Global,
    kind: KeyKind,
    nodes: &[Slot],
) -> Result<Option<usize>, AllocError>
    requires few { length nodes.now < 2 ^ 32 }
    ensures { IfOk result (λ found. IsFirstFailing
        (has_new_key kind nodes.now) (length nodes.now) found) }
{
    if are_distinct_to(alloc, kind, nodes, nodes.len())? {
        return Ok(None);
    }
    let mut low = 0usize;
    let mut high = nodes.len();
    while high - low > 1 {
        let middle = low + (high - low) / 2;
        if are_distinct_to(alloc, kind, nodes, middle)? {
            low = middle;
        } else {
            high = middle;
        }
    }
    Ok(Some(low))
}
