//! What a candidate does with a Welcome.

ghost use Rattle.std.specs.Prelude.{◌^◌};
ghost use Rattle.mls_leaf.specs.KeyPackage.{key_package};
ghost use Rattle.mls_types.specs.GroupInfo.{group_info};
ghost use Rattle.mls_tree.specs.Refusals.{RefusesOutright};
ghost use Rattle.mls_tree.specs.Tree.{term};
ghost use Rattle.mls_public_group.specs.Short.{IsBelow, HasLeavesBelow};
ghost use Rattle.mls_model.specs.Join.{member_of, join_verdict};
ghost use Rattle.mls_join.specs.Entrance.{welcome_outer_checks, EntersGroup, Joins};
ghost use Rattle.mls_join.specs.Faults.{number_of};
ghost use Rattle.mls_join.specs.Parts.{opened_by};

use crate::error::JoinError;
use crate::keys::{joined_keys, place_of};
use crate::opening::{Opened, opened_welcome};
use crate::signer::signer_checks;
use crate::tree::joined_tree;
use mls_candidate::Candidate;
use mls_public_group::{PublicGroup, context_spelling};
use mls_schedule::{Epoch, Transcript};
use mls_suite::Suite;
use mls_tree::PublicTree;
use mls_treekem::PrivatePath;
use std::alloc::Global;

/// What a candidate finds behind a Welcome that it follows.
#[derive(Drop)]
pub struct Entrance {
    /// The group's public state.
    pub group: PublicGroup,
    /// The epoch.
    pub epoch: Epoch,
    /// The new member's private keys.
    pub keys: PrivatePath,
    /// The bytes of the GroupInfo that was opened.
    pub group_info: Vec<u8>,
}

/// The new member with these keys in this tree: `BadConfirmationTag` (65) the confirmation tag.
#[tactic(auto, unfolding(mls_model::specs::Join::enter_group))]
fn enter_group(
    alloc: Global,
    tree: PublicTree,
    keys: PrivatePath,
    opened: Opened,
) -> Result<Entrance, JoinError>
    requires short { IsBelow (2 ^ 27) group_info opened.info }
    requires leaves { HasLeavesBelow (2 ^ 27) (term tree) }
    ensures { EntersGroup opened (term tree) keys result }
{
    let Opened {
        joiner,
        bytes: group_info,
        info,
        ..
    } = opened;
    let context = info.group_context;
    let bytes = context_spelling(alloc, &context)?;
    let epoch = Epoch::from_joiner(&joiner, &bytes).epoch;
    let confirmed = context.confirmed_transcript_hash.as_slice();
    let tag = info.confirmation_tag.as_slice();
    if tag != epoch.confirmation_tag(confirmed).as_slice() {
        return Err(JoinError::BadConfirmationTag);
    }
    let transcript = Transcript::interim(confirmed, tag);
    let group = PublicGroup::new(alloc, context, tree, transcript)?;
    Ok(Entrance {
        group,
        epoch,
        keys,
        group_info,
    })
}

/// The new member of an opened Welcome: the checks of tree and signer, `NotInTree` (80) no leaf is the candidate's,
/// `PathKeyMismatch` (34) and `KeyMissing` (35), `BadConfirmationTag` (65) the confirmation tag.
#[tactic(auto, unfolding(mls_model::specs::Join::member_of))]
fn member_of<S: Suite>(
    alloc: Global,
    candidate: &Candidate<S>,
    opened: Opened,
) -> Result<Entrance, JoinError>
    requires offered { IsBelow (2 ^ 27) key_package candidate.now.offered }
    requires short { IsBelow (2 ^ 27) group_info opened.info }
    ensures { Joins candidate.now (member_of S.crypto candidate.now (opened_by opened)) result }
{
    let tree = joined_tree::<S>(&opened.info)?;
    signer_checks::<S>(alloc, candidate, &opened.info, &tree)?;
    let Some(place) = place_of(&tree, &candidate.key_package().leaf_node) else {
        return Err(JoinError::NotInTree);
    };
    let signer = opened.info.signer;
    let keys = joined_keys::<S>(
        alloc,
        &tree,
        signer,
        place,
        candidate.leaf_key(),
        &opened.path_secret,
    )?;
    enter_group(alloc, tree, keys, opened)
}

/// The group that a Welcome leads the candidate into, or the first check that fails: decoding; `NotWelcome` (70) no
/// Welcome; `WrongSuite` (71) another suite; `NotForMe` (72) no entry for the candidate; `SecretsUnreadable` (73) and
/// `GroupInfoUnreadable` (75) what doesn't open or isn't what it has to be; `PskPresent` (74) a pre-shared key;
/// `NoTree` (76) no tree, `TreeShape` (20) and `TreeFull` (21) its shape and size, `TreeHashWrong` (77) its hash, then
/// 23 to 26, `LeafSignature` (51), `LeafCapability` (52) and `BadKey` (36) the tree; `SignerWrong` (78) and
/// `GroupInfoSignature` (79) the signer; `NotInTree` (80) no leaf is the candidate's; `PathKeyMismatch` (34) and
/// `KeyMissing` (35) its keys; `BadConfirmationTag` (65) the confirmation tag (RFC 9420, 12.4.3.1). Decoding,
/// `NotWelcome` (70) and the first `WrongSuite` (71) take no memory.
#[tactic(auto, unfolding(mls_model::specs::Join::join_verdict))]
pub fn join<S: Suite>(
    alloc: Global,
    candidate: &Candidate<S>,
    bytes: &[u8],
) -> Result<Entrance, JoinError>
    ensures answer { Joins candidate.now (join_verdict S.crypto candidate.now bytes.now) result }
    // Decoding, `NotWelcome` (70) and `WrongSuite` (71) of the Welcome come also when an allocation fails.
    ensures outright { RefusesOutright number_of (welcome_outer_checks S.crypto.number bytes.now)
        result }
{
    candidate.is_short();
    let opened = opened_welcome::<S>(alloc, candidate, bytes)?;
    member_of::<S>(alloc, candidate, opened)
}
