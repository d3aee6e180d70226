//! The tree of a saved state (RFC 9420, 12.4.3.1 and 12.4.3.3).

ghost use Rattle.std.specs.Prelude.{◌^◌, IfOk};
ghost use Rattle.mls_wire.specs.Checks.{Answers};
ghost use Rattle.mls_types.specs.GroupInfo.{ratchet_tree};
ghost use Rattle.mls_tree_model.specs.Arrays.{from_nodes};
ghost use Rattle.mls_tree.specs.Tree.{term, max_leaves};
ghost use Rattle.mls_public_group.specs.Short.{IsBelow, IsShortContext, HasLeavesBelow};
ghost use Rattle.mls_saved_state.specs.Faults.{number_of};
ghost use Rattle.mls_saved_state.specs.State.{saved_tree};

use crate::error::LoadError;
use mls_suite::Suite;
use mls_tree::PublicTree;
use mls_types::{GroupContext, RatchetTree};

/// The tree of saved nodes: `TreeShape` (20) and `TreeFull` (21) its shape and size.
fn tree_of(nodes: RatchetTree) -> Result<PublicTree, LoadError>
    requires { IsBelow (2 ^ 27) ratchet_tree nodes }
    ensures answer { Answers term number_of (from_nodes max_leaves nodes) result }
    ensures below { IfOk result (λ t. HasLeavesBelow (2 ^ 27) (term t)) }
{
    let tree = PublicTree::from_nodes(nodes.into_vec())?;
    Ok(tree)
}

/// The tree of a saved state: `TreeShape` (20) and `TreeFull` (21) its shape and size, `BadTreeHash` (103) its hash isn't
/// the context's, then the checks of a whole tree.
#[tactic(auto, unfolding(crate::specs::State::saved_tree))]
pub(crate) fn saved_tree<S: Suite>(
    context: &GroupContext,
    nodes: RatchetTree,
) -> Result<PublicTree, LoadError>
    requires context { IsShortContext context.now }
    requires nodes { IsBelow (2 ^ 27) ratchet_tree nodes }
    ensures answer { Answers term number_of (saved_tree S.crypto context.now nodes) result }
    ensures below { IfOk result (λ t. HasLeavesBelow (2 ^ 27) (term t)) }
{
    let mut tree = tree_of(nodes)?;
    if context.tree_hash.as_slice() != tree.tree_hash().as_slice() {
        return Err(LoadError::BadTreeHash);
    }
    tree.check::<S>(context.group_id.as_slice())?;
    Ok(tree)
}
