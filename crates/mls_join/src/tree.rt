//! The tree of the group that a candidate enters (RFC 9420, 12.4.3.1 and 12.4.3.3).

ghost use Rattle.std.specs.Prelude.{◌^◌, IfOk};
ghost use Rattle.mls_wire.specs.Checks.{Answers};
ghost use Rattle.mls_types.specs.GroupInfo.{group_info, ratchet_tree};
ghost use Rattle.mls_tree_model.specs.Arrays.{from_nodes};
ghost use Rattle.mls_tree.specs.Tree.{term, max_leaves};
ghost use Rattle.mls_public_group.specs.Short.{IsBelow, HasLeavesBelow};
ghost use Rattle.mls_model.specs.Join.{joined_tree};
ghost use Rattle.mls_join.specs.Faults.{number_of};

use crate::error::JoinError;
use mls_suite::Suite;
use mls_tree::PublicTree;
use mls_types::{GroupInfo, RatchetTree};

/// The tree of nodes that were sent, which shares them: `TreeShape` (20) and `TreeFull` (21) its shape and size.
fn tree_of(sent: &RatchetTree) -> Result<PublicTree, JoinError>
    requires { IsBelow (2 ^ 27) ratchet_tree sent.now }
    ensures answer { Answers term number_of (from_nodes max_leaves sent.now) result }
    ensures below { IfOk result (λ t. HasLeavesBelow (2 ^ 27) (term t)) }
{
    let nodes = sent.clone()?;
    let tree = PublicTree::from_nodes(nodes.into_vec())?;
    Ok(tree)
}

/// The tree of a GroupInfo: `NoTree` (76) there is none, `TreeShape` (20) and `TreeFull` (21) its shape and size,
/// `TreeHashWrong` (77) its hash, then the checks of a whole tree.
#[tactic(auto, unfolding(mls_model::specs::Join::joined_tree))]
pub(crate) fn joined_tree<S: Suite>(info: &GroupInfo) -> Result<PublicTree, JoinError>
    requires { IsBelow (2 ^ 27) group_info info.now }
    ensures answer { Answers term number_of (joined_tree S.crypto info.now) result }
    ensures below { IfOk result (λ t. HasLeavesBelow (2 ^ 27) (term t)) }
{
    let Some(sent) = &info.ratchet_tree else {
        return Err(JoinError::NoTree);
    };
    let mut tree = tree_of(sent)?;
    let context = &info.group_context;
    if context.tree_hash.as_slice() != tree.tree_hash().as_slice() {
        return Err(JoinError::TreeHashWrong);
    }
    tree.check::<S>(context.group_id.as_slice())?;
    Ok(tree)
}
