//! Where a commit leads, before its confirmation tag is known or checked.

ghost use Rattle.std.specs.Prelude.{◌≡◌, ◌+◌, ◌<◌, ◌^◌, length, IfOk, OnOk, OnErr};
ghost use Rattle.mls_commit.specs.Outcome.{KeepsOwnTree, HasChange};
ghost use Rattle.mls_leaf.specs.GroupExtensions.{group_extensions};
ghost use Rattle.mls_model.specs.Commit.{public_with};
ghost use Rattle.mls_model.specs.PublicState as model;
ghost use Rattle.mls_public_group.specs.NextTree.{next_term, is_merged, IsPreparedFor};
ghost use Rattle.mls_public_group.specs.Short.{HasLeavesBelow, IsBelow};
ghost use Rattle.mls_schedule.specs.Transcript.{interim_hash};
ghost use Rattle.mls_tree.specs.Tree.{term};

use mls_leaf::{Bytes, GroupExtensions};
use mls_public_group::{Edits, NextTree, PublicGroup, SharedTree, provisional_context};
use mls_schedule::Transcript;
use mls_tree::PublicTree;
use mls_types::GroupContext;
use std::alloc::{AllocError, Global};
use std::marker::Model;

/// The tree after the proposals of a commit, that with its path merged, the context under which its path is sealed, and
/// the context of the new epoch.
#[derive(Drop)]
pub struct Outcome {
    /// The tree after the proposals, and the leaves that they added.
    pub edits: Edits,
    // The tree with the path merged.
    tree: NextTree,
    /// The new epoch's context with the old transcript (RFC 9420, 12.4.1).
    pub provisional: GroupContext,
    /// The new epoch's context (RFC 9420, 8.1).
    pub context: GroupContext,
}

impl Model for Outcome {
    ghost use Rattle.mls_public_group.specs.NextTree.{next_term, is_merged, IsPreparedFor};
    ghost use Rattle.mls_public_group.specs.Short.{IsShortContext};
    ghost use Rattle.mls_commit.specs.Outcome as model;
    ghost use Rattle.mls_commit.specs.Codes.{coded_outcome};

    ghost Value = { model.Outcome };

    ghost coded = { coded_outcome };

    ghost view = { λ o. record {
      change = record {
        edits = o.edits;
        tree = next_term o.edits.tree o.tree;
        provisional = o.provisional;
        context = o.context;
      };
      on_own = is_merged o.tree;
    } };

    ghost invariant = { λ o. IsShortContext o.provisional
        × IsShortContext o.context
        × IsPreparedFor o.edits.tree o.tree };
}

/// The new epoch's context with the new transcript.
#[tactic(auto, unfolding(mls_model::specs::PublicState::confirmed_context))]
fn confirmed_context(
    alloc: Global,
    provisional: &GroupContext,
    confirmed: &[u8],
) -> Result<GroupContext, AllocError>
    ensures { IfOk result (λ g. g ≡ model.confirmed_context provisional.now confirmed.now) }
{
    Ok(GroupContext {
        cipher_suite: provisional.cipher_suite,
        group_id: provisional.group_id.clone()?,
        epoch: provisional.epoch,
        tree_hash: provisional.tree_hash.clone()?,
        confirmed_transcript_hash: Bytes::from_slice(alloc, confirmed)?,
        extensions: provisional.extensions.clone()?,
    })
}

/// The transcript of the new epoch, with the commit's confirmation tag (RFC 9420, 8.2), which has less than 2^30 bytes.
fn next_transcript(context: &GroupContext, tag: &[u8]) -> Transcript
    requires { length tag.now < 2 ^ 30 }
    ensures { result ≡ interim_hash context.now.confirmed_transcript_hash tag.now }
{
    Transcript::interim(context.confirmed_transcript_hash.as_slice(), tag)
}

impl Outcome {
    /// Where these extensions, these edits and this tree lead, its path merged: nothing is checked. `said` is the
    /// spelling of the commit's FramedContent, and `signature` its signature (RFC 9420, 8.1, 8.2 and 12.4.1).
    #[tactic(auto, unfolding(mls_model::specs::Commit::change_of))]
    pub(crate) fn new(
        alloc: Global,
        group: &PublicGroup,
        extensions: &GroupExtensions,
        edits: Edits,
        tree: NextTree,
        said: &[u8],
        signature: &[u8],
    ) -> Result<Outcome, AllocError>
        requires epoch { group.now.context.epoch + 1 < 2 ^ 64 }
        requires extensions { IsBelow (2 ^ 27) group_extensions extensions.now }
        requires signature { length signature.now < 2 ^ 30 }
        requires follows { IsPreparedFor edits.tree tree }
        ensures change { IfOk result
            (HasChange group.now extensions.now edits (next_term edits.tree tree)
            said.now signature.now) }
        ensures own { IfOk result (λ o. o.on_own ≡ is_merged tree) }
    {
        group.is_short();
        let hash = tree.tree_hash();
        let provisional = provisional_context(alloc, group.context(), extensions, &hash)?;
        let confirmed = group.transcript().confirm(1, said, signature);
        let context = confirmed_context(alloc, &provisional, &confirmed)?;
        Ok(Outcome {
            edits,
            tree,
            provisional,
            context,
        })
    }

    /// Where these extensions, these edits and this tree lead, in which the path is merged. `said` is the spelling of
    /// the commit's FramedContent, and `signature` its signature, of less than 2^30 bytes (RFC 9420, 8.1, 8.2 and
    /// 12.4.1).
    #[tactic(auto, unfolding(mls_public_group::specs::NextTree::next_term, mls_public_group::specs::NextTree::IsPreparedFor))]
    pub fn with_tree(
        alloc: Global,
        group: &PublicGroup,
        extensions: &GroupExtensions,
        edits: Edits,
        tree: PublicTree,
        said: &[u8],
        signature: &[u8],
    ) -> Result<Outcome, AllocError>
        requires epoch { group.now.context.epoch + 1 < 2 ^ 64 }
        requires extensions { IsBelow (2 ^ 27) group_extensions extensions.now }
        requires signature { length signature.now < 2 ^ 30 }
        ensures { IfOk result
            (HasChange group.now extensions.now edits (term tree) said.now signature.now) }
    {
        let merged = NextTree::Edited(SharedTree::new(alloc, tree)?);
        Outcome::new(alloc, group, extensions, edits, merged, said, signature)
    }

    /// The next public state, with the commit's confirmation tag (RFC 9420, 8.2), which has less than 2^30 bytes.
    #[tactic(auto, unfolding(mls_model::specs::Commit::public_with))]
    pub fn into_public(self, alloc: Global, tag: &[u8]) -> Result<PublicGroup, AllocError>
        requires leaves { HasLeavesBelow (2 ^ 27) self.change.tree }
        requires tag { length tag.now < 2 ^ 30 }
        ensures { IfOk result (λ g. g ≡ public_with self.change tag.now) }
    {
        let Outcome {
            edits,
            tree,
            context,
            ..
        } = self;
        let transcript = next_transcript(&context, tag);
        PublicGroup::next(alloc, context, edits.tree, tree, transcript)
    }

    /// Begins the next epoch in the group that the commit was received in, with its confirmation tag (RFC 9420, 8.2),
    /// which has less than 2^30 bytes. Nothing of a tree is copied: the path is merged into the group's own where there
    /// are no proposals, and else into the edited one, which becomes the group's. Without memory the group is as
    /// before.
    #[tactic(auto, unfolding(mls_model::specs::Commit::public_with))]
    pub fn enter(self, alloc: Global, group: &mut PublicGroup, tag: &[u8]) -> Result<(), AllocError>
        requires of { KeepsOwnTree group.old.tree self }
        requires leaves { HasLeavesBelow (2 ^ 27) self.change.tree }
        requires tag { length tag.now < 2 ^ 30 }
        ensures next { OnOk result (group.new ≡ public_with self.change tag.now) }
        ensures same { OnErr result (group.new ≡ group.old) }
    {
        let Outcome {
            edits,
            tree,
            context,
            ..
        } = self;
        // What the path is merged into is held once then.
        drop(edits);
        let transcript = next_transcript(&context, tag);
        group.enter(alloc, context, tree, transcript)?;
        Ok(())
    }
}
