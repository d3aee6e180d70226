//! Commits that are received, and the next epoch (RFC 9420, 12.4.2). Where a call ends early, what it received is given
//! to `drop`: that is one call, and the prover doesn't take it apart there.

ghost use Rattle.std.specs.Prelude.{◌≡◌, ◌≤◌, ◌<◌, ◌+◌, ◌^◌, ◌-◌, nat_lt, length, IfSome, IfOk, IfErr};
ghost use Rattle.mls_wire.specs.Combine.{optional};
ghost use Rattle.mls_leaf.specs.Faults.{Spells};
ghost use Rattle.mls_leaf.specs.declared.error.LeafError.TheVariants.{Wire as in_wire};
ghost use Rattle.mls_wire.specs.declared.WireError.TheVariants.{OutOfMemory};
ghost use Rattle.mls_leaf.specs.Limits.{input_limit};
ghost use Rattle.mls_types.specs.UpdatePath.{update_path};
ghost use Rattle.mls_model.specs.Member.{with_epoch, after_removal};
ghost use Rattle.mls_model.specs.declared.effect.Effect.TheVariants as effect;
ghost use Rattle.mls_commit.specs.Outcome.{KeepsOwnTree};
ghost use Rattle.mls_public_group.specs.Short.{HasLeavesBelow};
ghost use Rattle.mls_member.specs.Process.{IsShortView, IsShortCommit};
ghost use Rattle.mls_member.specs.Received.{ChecksCommit, EntersEpoch, FollowsCommit, FollowsEdits, OpensPath, OpensSecret, SpellsList, TakesCommit, epoch_after, tag_after};

use crate::error::Refusal;
use crate::framing::sender_leaf;
use crate::member::Member;
use crate::message_list::read_list;
use crate::used_proposals::{find_proposals, own_key, removes};
use mls_commit::{Outcome, change_of_commit};
use mls_kdf::Secret;
use mls_leaf::{Items, LeafError};
use mls_model::Effect;
use mls_public_group::{Edits, PublicGroup, context_spelling};
use mls_schedule::Epoch;
use mls_suite::Suite;
use mls_tree::PublicTree;
use mls_treekem::PrivatePath;
use mls_types::{Commit, ProposalOrRef, UpdatePath};
use mls_view::{Part, PublicMessageView};
use std::alloc::{AllocError, Global};

/// A commit secret, and the member's private keys in the new epoch.
#[derive(Drop)]
pub(crate) struct Reached {
    secret: Secret,
    keys: PrivatePath,
}

/// The commit that a message's parts spell.
fn read_commit(
    alloc: Global,
    proposals: &Part<'_, Items<ProposalOrRef>>,
    path: &Part<'_, Option<UpdatePath>>,
) -> Result<Commit, LeafError>
    requires proposals { length proposals.now ≤ input_limit }
    requires path { length path.now ≤ input_limit }
    ensures list { IfOk result (λ k. SpellsList k.proposals proposals.now) }
    ensures path { IfOk result (λ k. Spells (optional update_path) k.path path.now) }
    ensures short { IfOk result (λ k. IsShortCommit (2 ^ 27) k) }
    ensures memory { IfErr result (λ e. e ≡ in_wire OutOfMemory) }
{
    let proposals = read_list(alloc, proposals)?;
    let path = path.to_owned(alloc)?;
    Ok(Commit { proposals, path })
}

/// The confirmation tag of a view of a commit.
fn tag_of<'a>(view: &PublicMessageView<'a>) -> &'a [u8]
    requires { IsShortView view.now }
    ensures tag { IfSome view.now.auth.confirmation_tag (λ t. result.now ≡ t.now) }
    ensures short { length result.now ≤ input_limit }
{
    match view.auth.confirmation_tag {
        Some(tag) => tag,
        None => &[],
    }
}

/// The private keys after the edits that made a tree, with the leaf's new key where there is one (RFC 9420, 7.7 and
/// 12.1).
fn follow_edits(
    keys: &PrivatePath,
    tree: &PublicTree,
    own: Option<&Secret>,
) -> Result<PrivatePath, AllocError>
    ensures keys { IfOk result (FollowsEdits own.entry tree.now keys.now) }
    ensures leaf { IfOk result (λ k. k.leaf ≡ keys.now.leaf) }
{
    let mut copy = keys.clone()?;
    copy.follow_edit(tree, own)?;
    Ok(copy)
}

/// What a member takes of a commit's path (RFC 9420, 7.5), with the keys that it has after the commit's edits.
fn open_commit_path<S: Suite>(
    edits: &Edits,
    committer: u32,
    path: &UpdatePath,
    keys: PrivatePath,
    context: &[u8],
) -> Result<Reached, Refusal>
    requires { length context.now < 2 ^ 30 }
    ensures answer { OpensPath S.crypto edits.now committer path.now keys context.now result }
    ensures leaf { IfOk result (λ r. r.keys.leaf ≡ keys.leaf) }
{
    let nodes = path.nodes.as_slice();
    let mut keys = keys;
    let secret = keys.open_path::<S>(
        edits.tree.as_tree(),
        committer,
        &edits.added,
        nodes,
        context,
    )?;
    Ok(Reached { secret, keys })
}

impl<S: Suite> Member<S> {
    /// Begins the next epoch in a group that has begun it, and drops kept proposals and a pending commit. It takes no
    /// memory.
    #[tactic(auto, unfolding(mls_model::specs::Member::with_epoch))]
    fn begin_epoch(&mut self, epoch: Epoch, keys: PrivatePath) -> Effect
        ensures effect { result ≡ effect.Advanced self.old.public.context.epoch }
        ensures member { self.new ≡ with_epoch self.old self.old.public epoch keys }
    {
        let number = self.group.context().epoch;
        self.epoch = epoch;
        self.keys = keys;
        self.kept.clear();
        self.pending = None;
        Effect::Advanced { epoch: number }
    }

    /// Begins the next epoch in this group, and drops kept proposals and a pending commit. It takes no memory.
    #[tactic(auto, unfolding(mls_model::specs::Member::with_epoch))]
    pub(crate) fn advance(&mut self, group: PublicGroup, epoch: Epoch, keys: PrivatePath) -> Effect
        ensures effect { result ≡ effect.Advanced group.context.epoch }
        ensures member { self.new ≡ with_epoch self.old group epoch keys }
    {
        self.group = group;
        self.begin_epoch(epoch, keys)
    }

    /// The member was removed: a pending commit is dropped, and nothing else changes. It takes no memory.
    #[tactic(auto, unfolding(mls_model::specs::Member::after_removal))]
    fn leave(&mut self)
        ensures { self.new ≡ after_removal self.old }
    {
        self.gone = true;
        self.pending = None;
    }

    /// What a commit makes of the public state, and whether it removes the member: `UnknownReference` (60) a reference
    /// isn't kept, then the checks of all that is public.
    #[tactic(auto, unfolding(crate::specs::Process::check_commit))]
    fn check_commit(
        &self,
        committer: u32,
        commit: &Commit,
        said: &[u8],
        signature: &[u8],
    ) -> Result<(Outcome, bool), Refusal>
        requires epoch { self.now.public.context.epoch + 1 < 2 ^ 64 }
        requires commit { IsShortCommit (2 ^ 27) commit.now }
        requires signature { length signature.now < 2 ^ 30 }
        ensures answer { ChecksCommit S.crypto self.now committer commit.now
            said.now signature.now result }
        ensures leaves { IfOk result (λ x. HasLeavesBelow (2 ^ 27) x.0.change.tree) }
        ensures own { IfOk result (λ x. KeepsOwnTree self.now.public.tree x.0) }
    {
        let list = commit.proposals.as_slice();
        let used = find_proposals(self.alloc, &self.kept, committer, list)?;
        let proposals = used.as_slice();
        let group = &self.group;
        group.is_short();
        let received = change_of_commit::<S>(
            self.alloc, group, committer, proposals, commit, said, signature,
        )?;
        let is_removed = removes(proposals, self.keys.leaf());
        Ok((received, is_removed))
    }

    /// The commit secret, and the keys that the member has in the new tree: without a path zeros (RFC 9420, 8) and the
    /// keys after the edits, with one what it opens of it (7.5).
    #[tactic(auto, unfolding(mls_model::specs::Verdict::open_path_secret))]
    fn open_path_secret(
        &self,
        committer: u32,
        received: &Outcome,
        commit: &Commit,
    ) -> Result<Reached, Refusal>
        ensures answer { OpensSecret S.crypto self.now committer received.now commit.now result }
        ensures leaf { IfOk result (λ r. r.keys.leaf ≡ self.now.keys.leaf) }
    {
        let edits = &received.edits;
        let own = own_key(&self.kept, commit.proposals.as_slice());
        let keys = follow_edits(&self.keys, edits.tree.as_tree(), own)?;
        match &commit.path {
            Some(path) => {
                let context = context_spelling(self.alloc, &received.provisional)?;
                open_commit_path::<S>(edits, committer, path, keys, &context)
            }
            None => Ok(Reached {
                secret: [0; 32],
                keys,
            }),
        }
    }

    /// The epoch that a commit secret leads to, and its confirmation tag (RFC 9420, 8 and 6.1).
    fn next_epoch(&self, received: &Outcome, secret: &Secret) -> Result<(Epoch, Secret), AllocError>
        ensures epoch { IfOk result (λ r. r.0 ≡ epoch_after self.now secret.now received.now) }
        ensures tag { IfOk result (λ r. r.1 ≡ tag_after r.0 received.now) }
    {
        let context = context_spelling(self.alloc, &received.context)?;
        let start = Epoch::next(self.epoch.init_secret(), secret, &context);
        let confirmed = received.context.confirmed_transcript_hash.as_slice();
        let tag = start.epoch.confirmation_tag(confirmed);
        Ok((start.epoch, tag))
    }

    /// Enters the next epoch: `BadConfirmationTag` (65) where the confirmation tag isn't that of it (RFC 9420, 6.1).
    #[tactic(auto, unfolding(mls_model::specs::Verdict::enter_epoch_with, mls_model::specs::Member::with_epoch))]
    fn enter_epoch(
        &mut self,
        received: Outcome,
        reached: Reached,
        tag: &[u8],
    ) -> Result<Effect, Refusal>
        requires own { KeepsOwnTree self.old.public.tree received }
        requires leaves { HasLeavesBelow (2 ^ 27) received.change.tree }
        requires tag { length tag.now < 2 ^ 30 }
        ensures { EntersEpoch received reached tag.now self.old self.new result }
    {
        let Reached { secret, keys } = reached;
        let (epoch, due) = match self.next_epoch(&received, &secret) {
            Ok(next) => next,
            Err(error) => {
                drop(received);
                return Err(error.into());
            }
        };
        if tag != due.as_slice() {
            drop(received); // The group hasn't entered it.
            return Err(Refusal::BadConfirmationTag);
        }
        received.enter(self.alloc, &mut self.group, tag)?;
        Ok(self.begin_epoch(epoch, keys))
    }

    /// Whether an epoch can come after this.
    pub(crate) fn has_next(&self) -> bool
        ensures { result ≡ nat_lt self.now.public.context.epoch (2 ^ 64 - 1) }
    {
        self.group.context().epoch < u64::MAX
    }

    /// Follows a commit that isn't the last one that epochs leave room for.
    fn follow_commit(
        &mut self,
        committer: u32,
        commit: &Commit,
        said: &[u8],
        signature: &[u8],
        tag: &[u8],
    ) -> Result<Effect, Refusal>
        requires epoch { self.old.public.context.epoch + 1 < 2 ^ 64 }
        requires commit { IsShortCommit (2 ^ 27) commit.now }
        requires signature { length signature.now < 2 ^ 30 }
        requires tag { length tag.now < 2 ^ 30 }
        ensures { FollowsCommit S.crypto committer commit.now said.now signature.now tag.now
            self.old self.new result }
    {
        let (received, is_removed) = self.check_commit(committer, commit, said, signature)?;
        if is_removed {
            drop(received);
            self.leave();
            return Ok(Effect::Removed);
        }
        let reached = match self.open_path_secret(committer, &received, commit) {
            Ok(reached) => reached,
            Err(error) => {
                drop(received);
                return Err(error);
            }
        };
        self.enter_epoch(received, reached, tag)
    }

    /// Follows a commit: `EpochEnd` (66) no epoch comes after this, `UnknownReference` (60) a reference isn't kept,
    /// then the checks of all that is public. There a member that is removed stops; others take the path's secret,
    /// `OpenFailed` (32) to `PathKeyMismatch` (34), and `BadConfirmationTag` (65) where the confirmation tag isn't that
    /// of the new epoch (RFC 9420, 12.4.2).
    pub(crate) fn commit_verdict(
        &mut self,
        view: &PublicMessageView<'_>,
        proposals: &Part<'_, Items<ProposalOrRef>>,
        path: &Part<'_, Option<UpdatePath>>,
    ) -> Result<Effect, Refusal>
        requires view { IsShortView view.now }
        requires proposals { length proposals.now ≤ input_limit }
        requires path { length path.now ≤ input_limit }
        ensures { TakesCommit S.crypto view.now proposals.now path.now self.old self.new result }
    {
        if !self.has_next() {
            return Err(Refusal::EpochEnd);
        }
        let committer = sender_leaf(&view.content.sender);
        let tag = tag_of(view);
        let commit = read_commit(self.alloc, proposals, path)?;
        let said = view.framed_content;
        self.follow_commit(committer, &commit, said, view.auth.signature, tag)
    }
}
