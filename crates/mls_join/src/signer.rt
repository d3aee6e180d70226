//! The signer of a GroupInfo (RFC 9420, 12.4.3.1).

ghost use Rattle.std.specs.Prelude.{◌≡◌, ◌<◌, ◌^◌, length, IfOk, MatchResult};
ghost use Rattle.mls_types.specs.GroupInfo.{group_info, group_info_tbs};
ghost use Rattle.mls_tree.specs.Tree.{term};
ghost use Rattle.mls_public_group.specs.Short.{IsBelow};
ghost use Rattle.mls_model.specs.Join.{signer_checks};
ghost use Rattle.mls_join.specs.Faults.{IsMemory, Passes};

use crate::error::JoinError;
use mls_candidate::Candidate;
use mls_suite::{Suite, verify_with_label};
use mls_tree::PublicTree;
use mls_types::GroupInfo;
use std::alloc::Global;

/// What the signer of a GroupInfo signs.
fn to_be_signed(alloc: Global, info: &GroupInfo) -> Result<Vec<u8>, JoinError>
    requires { IsBelow (2 ^ 27) group_info info.now }
    ensures bytes { MatchResult result (λ v. v.items ≡ group_info_tbs info.now) IsMemory }
    ensures short { IfOk result (λ v. length v.items < 2 ^ 30) }
{
    let bytes = info.to_be_signed(alloc)?;
    Ok(bytes)
}

/// `SignerWrong` (78) the signer is no member, or the candidate itself; `GroupInfoSignature` (79) its signature.
#[tactic(auto, unfolding(mls_model::specs::Join::signer_checks))]
pub(crate) fn signer_checks<S: Suite>(
    alloc: Global,
    candidate: &Candidate<S>,
    info: &GroupInfo,
    tree: &PublicTree,
) -> Result<(), JoinError>
    requires { IsBelow (2 ^ 27) group_info info.now }
    ensures { Passes (signer_checks S.crypto candidate.now info.now (term tree.now)) result }
{
    let Some(signer) = tree.leaf(info.signer) else {
        return Err(JoinError::SignerWrong);
    };
    let own = &candidate.key_package().leaf_node;
    if signer.signature_key == own.signature_key {
        return Err(JoinError::SignerWrong);
    }
    let bytes = to_be_signed(alloc, info)?;
    let key = signer.signature_key.as_slice();
    if !verify_with_label::<S>(
        alloc,
        key,
        "GroupInfoTBS",
        &bytes,
        info.signature.as_slice(),
    )? {
        return Err(JoinError::GroupInfoSignature);
    }
    Ok(())
}
