//! The filtered direct path of a leaf.

ghost use Rattle.std.specs.Prelude.{◌≡◌, [], ◌∷◌, ◌++◌, if◌then◌else◌, OnOk};
ghost use Rattle.mls_tree_array.specs.Additions.{AddsFilteredPath};

use crate::resolutions::is_reached;
use crate::subtree::Subtree;
use std::alloc::AllocError;

/// Adds a number where a test holds.
pub(crate) fn push_if(test: bool, x: u32, out: &mut Vec<u32>) -> Result<(), AllocError>
    ensures { OnOk result (out.new.items ≡ out.old.items ++ (if test then x ∷ [] else [])) }
{
    if test {
        out.push(x)?;
    }
    Ok(())
}

/// Adds the filtered direct path of a leaf to `out`, the lowest node first (RFC 9420, 4.1.2).
pub fn filtered_path(tree: &Subtree<'_>, leaf: u32, out: &mut Vec<u32>) -> Result<(), AllocError>
    ensures { OnOk result (AddsFilteredPath tree.now leaf out.old out.new) }
{
    match tree.step_to(leaf) {
        None => Ok(()),
        Some(step) => {
            filtered_path(&step.side, leaf, out)?;
            push_if(is_reached(&step.other), tree.number(), out)
        }
    }
}
