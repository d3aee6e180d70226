//! What a candidate finds in a Welcome (RFC 9420, 12.4.3.1).

ghost use Rattle.std.specs.Prelude.{◌≡◌, ◌<◌, ◌^◌, length, true, Ok, IfOk, MatchResult};
ghost use Rattle.std.specs.Option.{option_copied};
ghost use Rattle.mls_wire.specs.Whole.{whole};
ghost use Rattle.mls_leaf.specs.KeyPackage.{key_package};
ghost use Rattle.mls_leaf.specs.Limits.{input_limit};
ghost use Rattle.mls_types.specs.GroupInfo.{group_info};
ghost use Rattle.mls_tree.specs.Refusals.{RefusesOutright};
ghost use Rattle.mls_public_group.specs.Short.{IsBelow};
ghost use Rattle.mls_model.specs.Messages.{are_bytes};
ghost use Rattle.mls_model.specs.OpenedWelcome.{or_fault, opened_welcome, find_entry, plain_info, open_for_candidate};
ghost use Rattle.mls_model.specs.Proposals.{package_reference};
ghost use Rattle.mls_join.specs.Entrance.{welcome_outer_checks};
ghost use Rattle.mls_join.specs.Faults.{number_of, Gives, GivesBytes, IsMemory};
ghost use Rattle.mls_join.specs.FewNodes.{HasFewNodes, RefusesTree};
ghost use Rattle.mls_join.specs.Parts.{Opens, OpensGroupInfo};
ghost use Rattle.mls_join.specs.Stages.{LendsWelcome, read_welcome_of_suite};

use crate::error::JoinError;
use crate::few_nodes::refuse_long_tree;
use crate::secrets::{Secrets, opened_secrets};
use mls_candidate::Candidate;
use mls_kdf::Secret;
use mls_leaf::{Codec, KeyPackage, LeafError, key_package_reference};
use mls_schedule::{Epoch, WelcomeKey};
use mls_suite::Suite;
use mls_types::{EncryptedGroupSecrets, GroupInfo, Welcome};
use mls_view::{MessageView, WelcomeView};
use mls_wire::WireError;
use std::alloc::Global;

/// What a Welcome gave to a candidate.
#[derive(Drop)]
pub(crate) struct Opened {
    /// The joiner secret.
    pub(crate) joiner: Secret,
    /// The path secret, if there is one.
    pub(crate) path_secret: Option<Secret>,
    /// The bytes of the GroupInfo.
    pub(crate) bytes: Vec<u8>,
    /// The GroupInfo.
    pub(crate) info: GroupInfo,
}

/// The Welcome that the bytes are, lent: decoding, `NotWelcome` (70). Takes no memory.
fn welcome_view<'a>(bytes: &'a [u8]) -> Result<WelcomeView<'a>, JoinError>
    ensures { LendsWelcome bytes.now result }
{
    match MessageView::read(bytes)? {
        MessageView::Welcome(view) => Ok(view),
        _ => Err(JoinError::NotWelcome),
    }
}

/// The Welcome of the suite that the bytes are: decoding, `NotWelcome` (70), `WrongSuite` (71).
fn read_welcome_of_suite<S: Suite>(alloc: Global, bytes: &[u8]) -> Result<Welcome, JoinError>
    ensures answer { Gives (read_welcome_of_suite S.crypto.number bytes.now) result }
    // Decoding, `NotWelcome` (70) and `WrongSuite` (71) come also when an allocation fails.
    ensures outright { RefusesOutright number_of (welcome_outer_checks S.crypto.number bytes.now)
        result }
    ensures short { IfOk result (λ w. length w.encrypted_group_info < 2 ^ 30) }
{
    let view = welcome_view(bytes)?;
    if view.cipher_suite != S::NUMBER {
        return Err(JoinError::WrongSuite);
    }
    let welcome = view.to_owned(alloc)?;
    Ok(welcome)
}

/// The reference of a KeyPackage (RFC 9420, 5.2).
fn package_reference(alloc: Global, offered: &KeyPackage) -> Result<Secret, JoinError>
    requires { IsBelow (2 ^ 27) key_package offered.now }
    ensures { MatchResult result (λ r. r ≡ package_reference offered.now) IsMemory }
{
    let bytes = offered.encode(alloc)?;
    Ok(key_package_reference(&bytes))
}

/// The first entry for a reference.
fn find_entry<'a>(
    reference: &Secret,
    entries: &'a [EncryptedGroupSecrets],
) -> Option<&'a EncryptedGroupSecrets>
    ensures { option_copied result ≡ find_entry reference.now entries.now }
{
    entries.iter().find(|entry| entry.new_member.as_slice() == reference.as_slice())
}

/// The GroupInfo that opened bytes are: `GroupInfoUnreadable` (75). One with more nodes than a tree has is refused before
/// it is owned: with `WrongSuite` (71) where it is of another suite, else with `TreeShape` (20) or `TreeFull` (21).
fn info_in<S: Suite>(alloc: Global, plain: &[u8]) -> Result<GroupInfo, JoinError>
    ensures info { IfOk result (λ v. or_fault 75 (whole group_info input_limit plain.now) ≡ Ok v) }
    ensures refused { RefusesTree S.crypto plain.now result }
    ensures bytes { are_bytes plain.now ≡ true }
    ensures below { IfOk result (λ v. IsBelow (2 ^ 27) group_info v) }
    ensures few { IfOk result HasFewNodes }
{
    refuse_long_tree::<S>(alloc, plain)?;
    match GroupInfo::decode(alloc, plain) {
        Ok(info) => Ok(info),
        Err(LeafError::Wire(WireError::OutOfMemory)) => {
            Err(JoinError::Leaf(LeafError::Wire(WireError::OutOfMemory)))
        }
        Err(_) => Err(JoinError::GroupInfoUnreadable),
    }
}

/// The bytes of the GroupInfo that is sealed under a joiner secret: `GroupInfoUnreadable` (75) where it doesn't open.
fn plain_info<S: Suite>(alloc: Global, joiner: &Secret, sealed: &[u8]) -> Result<Vec<u8>, JoinError>
    ensures { GivesBytes (plain_info S.crypto joiner.now sealed.now) result }
{
    let WelcomeKey { key, nonce } = Epoch::welcome_key(joiner);
    match S::aead_open(alloc, &key, &nonce, &[], sealed)? {
        Some(bytes) => Ok(bytes),
        None => Err(JoinError::GroupInfoUnreadable),
    }
}

/// What the secrets of an entry open: `GroupInfoUnreadable` (75), `WrongSuite` (71) the GroupInfo is of another suite;
/// `TreeShape` (20) and `TreeFull` (21) where it has more nodes than a tree.
#[tactic(auto, unfolding(mls_model::specs::OpenedWelcome::open_group_info))]
fn open_group_info<S: Suite>(
    alloc: Global,
    secrets: Secrets,
    sealed: &[u8],
) -> Result<Opened, JoinError>
    ensures answer { OpensGroupInfo S.crypto secrets sealed.now result }
    ensures below { IfOk result (λ o. IsBelow (2 ^ 27) group_info o.info) }
{
    let bytes = plain_info::<S>(alloc, &secrets.joiner, sealed)?;
    let info = info_in::<S>(alloc, &bytes)?;
    if info.group_context.cipher_suite != S::NUMBER {
        return Err(JoinError::WrongSuite);
    }
    Ok(Opened {
        joiner: secrets.joiner,
        path_secret: secrets.path_secret,
        bytes,
        info,
    })
}

/// What a Welcome of the suite gives to a candidate: 72 to 75, `WrongSuite` (71) the GroupInfo is of another suite,
/// `TreeShape` (20) and `TreeFull` (21) where it has more nodes than a tree.
#[tactic(auto, unfolding(mls_model::specs::OpenedWelcome::open_for_candidate))]
fn open_for_candidate<S: Suite>(
    alloc: Global,
    candidate: &Candidate<S>,
    welcome: &Welcome,
) -> Result<Opened, JoinError>
    requires offered { IsBelow (2 ^ 27) key_package candidate.now.offered }
    requires short { length welcome.now.encrypted_group_info < 2 ^ 30 }
    ensures answer { Opens S.crypto (open_for_candidate S.crypto candidate.now welcome.now) result }
    ensures below { IfOk result (λ o. IsBelow (2 ^ 27) group_info o.info) }
{
    let reference = package_reference(alloc, candidate.key_package())?;
    let Some(entry) = find_entry(&reference, welcome.secrets.as_slice()) else {
        return Err(JoinError::NotForMe);
    };
    let secrets = opened_secrets::<S>(alloc, candidate, welcome, entry)?;
    if !secrets.psks.as_slice().is_empty() {
        return Err(JoinError::PskPresent);
    }
    open_group_info::<S>(alloc, secrets, welcome.encrypted_group_info.as_slice())
}

/// What a candidate finds in a Welcome: decoding, 70 to 75, `TreeShape` (20) and `TreeFull` (21) of more nodes than a tree
/// has.
pub(crate) fn opened_welcome<S: Suite>(
    alloc: Global,
    candidate: &Candidate<S>,
    bytes: &[u8],
) -> Result<Opened, JoinError>
    requires offered { IsBelow (2 ^ 27) key_package candidate.now.offered }
    ensures answer { Opens S.crypto (opened_welcome S.crypto candidate.now bytes.now) result }
    // Decoding, `NotWelcome` (70) and `WrongSuite` (71) come also when an allocation fails.
    ensures outright { RefusesOutright number_of (welcome_outer_checks S.crypto.number bytes.now)
        result }
    ensures below { IfOk result (λ o. IsBelow (2 ^ 27) group_info o.info) }
{
    let welcome = read_welcome_of_suite::<S>(alloc, bytes)?;
    open_for_candidate::<S>(alloc, candidate, &welcome)
}
