//! GroupInfos with more nodes than a tree has. They are refused by their bytes, as the tree would be, and not owned first:
//! 64 MiB of blank nodes would be a list of a gigabyte.

ghost use Rattle.std.specs.Prelude.{IfOk};
ghost use Rattle.mls_join.specs.FewNodes.{RefusesTree, SpellsFewNodes};

use crate::error::JoinError;
use mls_suite::Suite;
use mls_tree_view::{GroupInfoView, refuse_long_list};
use std::alloc::Global;

/// Refuses a GroupInfo of more nodes than a tree has: `GroupInfoUnreadable` (75) what is none, `WrongSuite` (71) one of
/// another suite, `TreeShape` (20) and `TreeFull` (21) its tree. Memory is taken for the context of such a one alone.
pub(crate) fn refuse_long_tree<S: Suite>(alloc: Global, plain: &[u8]) -> Result<(), JoinError>
    ensures refused { RefusesTree S.crypto plain.now result }
    ensures few { IfOk result (λ _. SpellsFewNodes plain.now) }
{
    let Ok(info) = GroupInfoView::read(plain) else {
        return Err(JoinError::GroupInfoUnreadable);
    };
    let Some(nodes) = &info.ratchet_tree else {
        return Ok(());
    };
    match refuse_long_list(nodes) {
        Ok(()) => Ok(()),
        Err(error) => {
            if info.group_context.to_owned(alloc)?.cipher_suite != S::NUMBER {
                return Err(JoinError::WrongSuite);
            }
            Err(JoinError::Tree(error))
        }
    }
}
