//! The Welcome for those that a sent commit adds, and the state that the commit leads to.

ghost use Rattle.std.specs.Prelude.{◌≡◌, ◌+◌, ◌<◌, ◌%◌, ◌^◌, IfOk, length, zip};
ghost use Rattle.mls_model.specs.Make as making;
ghost use Rattle.mls_model.specs.Proposals.{adds};
ghost use Rattle.mls_public_group.specs.Short.{AreBelow, HasLeavesBelow};
ghost use Rattle.mls_welcome.specs.Joiners.{AreShortJoiners, HavePlaces};
ghost use Rattle.mls_welcome.specs.SentSecrets.{AreSentBy};
ghost use Rattle.mls_make.specs.CommitCall.{AddsWelcome};
ghost use Rattle.mls_make.specs.TwoSteps.{WelcomesFrom};

use crate::error::MakeError;
use crate::new_commit::NewCommit;
use crate::send_commit::SentCommit;
use mls_commit::Outcome;
use mls_kdf::{Secret, Seed};
use mls_message::Speaker;
use mls_public_group::{PublicGroup, Used};
use mls_suite::{OutOfMemory, Suite};
use mls_treekem::{PathSecrets, PrivatePath, seal_count_of};
use mls_types::UpdatePath;
use mls_welcome::{Joiner, joiners_of, welcome};
use std::alloc::Global;

/// How many seals a path has, as a uint32 that wraps: the number of the first seal of its commit's Welcome.
pub(crate) fn path_seals(path: &Option<UpdatePath>) -> u32
    ensures { result ≡ making.path_seals path.now % 2 ^ 32 }
{
    match path {
        Some(path) => seal_count_of(path.nodes.as_slice()),
        None => 0,
    }
}

/// Each of those whom a commit adds, with its leaf and the path secret that it is sent.
fn joiners_in<'a>(
    alloc: Global,
    used: &[Used<'a>],
    outcome: &Outcome,
    committer: u32,
    secrets: Option<&'a PathSecrets>,
) -> Result<Vec<Joiner<'a>>, OutOfMemory>
    ensures places { IfOk result (λ v. HavePlaces used.now outcome.now.change.edits v.items) }
    ensures sent { IfOk result
        (λ v. AreSentBy outcome.now.change.edits committer secrets.entry v.items) }
{
    joiners_of(alloc, used, &outcome.edits, committer, secrets)
}

/// The message of a Welcome to a group for its joiners, where there are any, from the speaker (RFC 9420, 12.4.3.1).
fn welcome_from<S: Suite>(
    alloc: Global,
    speaker: &Speaker<'_>,
    group: &PublicGroup,
    tag: &Secret,
    joiner_secret: &Secret,
    joiners: &[Joiner<'_>],
    seed: &Seed,
    first_seal: u32,
) -> Result<Option<Vec<u8>>, MakeError>
    requires short { AreShortJoiners joiners.now }
    requires seals { first_seal + length joiners.now < 2 ^ 32 }
    ensures { WelcomesFrom S.crypto speaker.now group.now tag.now
        joiner_secret.now joiners.now seed.now first_seal result }
{
    if joiners.is_empty() {
        return Ok(None);
    }
    let signing = speaker.signing;
    let message = welcome::<S>(
        alloc,
        group,
        tag,
        speaker.leaf,
        signing,
        joiner_secret,
        joiners,
        seed,
        first_seal,
    )?;
    Ok(Some(message))
}

/// A sent commit with the Welcome for those that it adds, and with the next state: `TooLong` (6) the GroupInfo or the
/// Welcome is too large, `BadKey` (36) an init key isn't fit (RFC 9420, 12.4.1). The seals of the Welcome are numbered
/// behind those of the path.
pub(crate) fn with_welcome<S: Suite>(
    alloc: Global,
    speaker: &Speaker<'_>,
    used: &[Used<'_>],
    sent: SentCommit,
    secrets: Option<&PathSecrets>,
    keys: PrivatePath,
    first_seal: u32,
    seed: &Seed,
) -> Result<NewCommit, MakeError>
    requires used { AreBelow (2 ^ 28) used.now }
    requires leaves { HasLeavesBelow (2 ^ 27) sent.outcome.change.tree }
    requires seals { first_seal + length (zip (adds used.now) sent.outcome.change.edits.added)
        < 2 ^ 32 }
    ensures { AddsWelcome S.crypto speaker.now used.now sent secrets.entry
        keys first_seal seed.now result }
{
    let SentCommit {
        message,
        outcome,
        joiner,
        epoch,
        tag,
    } = sent;
    let joiners = joiners_in(alloc, used, &outcome, speaker.leaf, secrets)?;
    let group = outcome.into_public(alloc, &tag)?;
    let welcome = welcome_from::<S>(
        alloc, speaker, &group, &tag, &joiner, &joiners, seed, first_seal,
    )?;
    Ok(NewCommit {
        commit: message,
        welcome,
        group,
        epoch,
        keys,
    })
}
