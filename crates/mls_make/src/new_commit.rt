//! Making a commit.

ghost use Rattle.std.specs.Prelude.{◌+◌, ◌<◌, ◌^◌, IfOk, IfSome};
ghost use Rattle.mls_leaf.specs.GroupExtensions.{group_extensions};
ghost use Rattle.mls_leaf.specs.Leaf.{leaf_node};
ghost use Rattle.mls_public_group.specs.Short.{IsBelow};
ghost use Rattle.mls_make.specs.OwnPath.{IsShortWith};
ghost use Rattle.mls_make.specs.CommitCall.{AreCarriedBy, AreShortUsed, AreUsable, AreUsedBy, CommitsList, CommitsPath};

use crate::commit_welcome::{path_seals, with_welcome};
use crate::error::MakeError;
use crate::long_list::{give_long_list, refuse_long_list};
use crate::own_path::{OwnPath, own_path};
use crate::send_commit::send_commit;
use mls_kdf::Seed;
use mls_leaf::{GroupExtensions, Items};
use mls_message::Speaker;
use mls_public_group::{Edits, PublicGroup, Used};
use mls_schedule::Epoch;
use mls_suite::Suite;
use mls_treekem::PrivatePath;
use mls_types::{Commit, ProposalOrRef};
use std::alloc::Global;

/// A commit, its Welcome, and the state that they lead to.
#[derive(Drop)]
pub struct NewCommit {
    /// The message of the commit.
    pub commit: Vec<u8>,
    /// The message of the Welcome, where somebody is added.
    pub welcome: Option<Vec<u8>>,
    /// The next public state.
    pub group: PublicGroup,
    /// The next epoch.
    pub epoch: Epoch,
    /// The committer's private keys in it.
    pub keys: PrivatePath,
}

/// What a member makes by a commit of a list, with the extensions that the group then carries, these edits and this
/// path.
fn commit_from_path<S: Suite>(
    alloc: Global,
    speaker: &Speaker<'_>,
    list: Items<ProposalOrRef>,
    used: &[Used<'_>],
    extensions: &GroupExtensions,
    edits: Edits,
    own: OwnPath,
    seed: &Seed,
) -> Result<NewCommit, MakeError>
    requires epoch { speaker.now.group.now.context.epoch + 1 < 2 ^ 64 }
    requires list { AreUsedBy list used.now }
    requires used { AreShortUsed used.now }
    requires carried { AreCarriedBy speaker.now used.now extensions.now }
    requires extensions { IsBelow (2 ^ 27) group_extensions extensions.now }
    requires path { IfSome own.path (λ p. IsBelow (2 ^ 28) leaf_node p.leaf_node) }
    requires leaves { IsShortWith used.now own }
    ensures { CommitsPath S.crypto speaker.now list used.now edits own seed.now result }
{
    let OwnPath {
        path,
        secrets,
        commit_secret,
        keys,
        tree,
    } = own;
    let first_seal = path_seals(&path);
    let commit = Commit {
        proposals: list,
        path,
    };
    let sent = send_commit::<S>(
        alloc,
        speaker,
        extensions,
        commit,
        edits,
        tree,
        &commit_secret,
    )?;
    let secrets = secrets.as_ref();
    with_welcome::<S>(alloc, speaker, used, sent, secrets, keys, first_seal, seed)
}

/// What a member makes by a commit of a list that uses these proposals, with a path where one is wanted or required:
/// the first check of the commit that fails, `TooLong` (6) where a message or the GroupInfo is too long (RFC 9420,
/// 12.4.1). Lists of extensions may have any length.
pub fn make_commit<S: Suite>(
    alloc: Global,
    speaker: &Speaker<'_>,
    keys: &PrivatePath,
    list: Items<ProposalOrRef>,
    used: &[Used<'_>],
    wants_path: bool,
    seed: &Seed,
) -> Result<NewCommit, MakeError>
    requires epoch { speaker.now.group.now.context.epoch + 1 < 2 ^ 64 }
    requires list { AreUsedBy list used.now }
    requires used { AreUsable used.now }
    ensures answer { CommitsList S.crypto speaker.now keys.now list used.now wants_path seed.now
        result }
    ensures short { IfOk result (λ _. AreShortUsed used.now) }
{
    let edits = speaker
        .group
        .apply_proposals::<S>(alloc, speaker.leaf, used)?;
    if give_long_list(used) {
        let refusal = refuse_long_list::<S>(alloc, speaker, keys, &edits, used, wants_path, seed);
        return Err(refusal);
    }
    speaker.group.is_short();
    let extensions = speaker.group.extensions_after(used);
    let own = own_path::<S>(
        alloc, speaker, keys, extensions, &edits, used, wants_path, seed,
    )?;
    commit_from_path::<S>(alloc, speaker, list, used, extensions, edits, own, seed)
}
