//! The GroupInfo of a Welcome (RFC 9420, 12.4.3).

ghost use Rattle.std.specs.Prelude.{◌≡◌, IfOk, IfErr};
ghost use Rattle.mls_model.specs.Welcome.{unsigned_info};
ghost use Rattle.mls_welcome.specs.Ranges.{IsRanged};
ghost use Rattle.mls_welcome.specs.Entries.{IsInfoRefused, SignsInfo, info_signature};

use crate::error::WelcomeError;
use crate::limits::{require_within_limit, spell_within_limit};
use crate::ranges::know_slots;
use mls_kdf::Secret;
use mls_leaf::{Bytes, Items};
use mls_public_group::PublicGroup;
use mls_suite::{Suite, sign_with_label};
use mls_types::{GroupContext, GroupInfo};
use std::alloc::{AllocError, Global};

/// The GroupInfo of a group from the leaf of its signer, not yet signed.
#[tactic(auto, unfolding(mls_model::specs::Welcome::unsigned_info))]
fn unsigned_info(
    alloc: Global,
    group: &PublicGroup,
    confirmation_tag: &Secret,
    signer: u32,
) -> Result<GroupInfo, AllocError>
    ensures info { IfOk result (λ i. i ≡ unsigned_info group.now confirmation_tag.now signer) }
    ensures ranged { IfOk result IsRanged }
{
    let context = group.context();
    // Their types bound them, for the proof.
    let _suite = context.cipher_suite;
    let _epoch = context.epoch;
    let _extensions = context.extensions.as_slice();
    let group_context = context.clone()?;
    let nodes = group.tree().to_nodes()?;
    know_slots(&nodes);
    let confirmation_tag = Vec::from_slice(alloc, confirmation_tag)?;
    Ok(GroupInfo {
        group_context,
        ratchet_tree: Some(Items::from_vec(nodes)),
        confirmation_tag: Bytes::from_vec(confirmation_tag),
        signer,
        signature: Bytes::from_vec(Vec::new(alloc)),
    })
}

/// The signature of a GroupInfo (RFC 9420, 12.4.3): `TooLong` (6) where what is to be signed is larger alone than the
/// GroupInfo may be, and then nothing is signed.
fn signature_of<S: Suite>(
    alloc: Global,
    info: &GroupInfo,
    signing: &Secret,
) -> Result<Bytes, WelcomeError>
    requires { IsRanged info.now }
    ensures signature { IfOk result (λ s. s ≡ info_signature S.crypto signing.now info.now) }
    ensures refused { IfErr result (IsInfoRefused S.crypto signing.now info.now) }
{
    let text = info.to_be_signed(alloc)?;
    require_within_limit(&text)?;
    let signature = sign_with_label::<S>(alloc, signing, "GroupInfoTBS", &text)?;
    Ok(Bytes::from_vec(signature))
}

/// The spelling of a group's GroupInfo, signed by the member at leaf `signer`: `TooLong` (6) where it is too large.
pub(crate) fn signed_info<S: Suite>(
    alloc: Global,
    group: &PublicGroup,
    confirmation_tag: &Secret,
    signer: u32,
    signing: &Secret,
) -> Result<Vec<u8>, WelcomeError>
    ensures { SignsInfo S.crypto signing.now group.now confirmation_tag.now signer result }
{
    let mut info = unsigned_info(alloc, group, confirmation_tag, signer)?;
    info.signature = signature_of::<S>(alloc, &info, signing)?;
    spell_within_limit(alloc, &info)
}
