//! The public state of a group.

ghost use Rattle.std.specs.Prelude.{◌≡◌, ◌^◌, IfOk, OnOk, OnErr};
ghost use Rattle.mls_types.specs.GroupContext.{group_context};
ghost use Rattle.mls_tree.specs.Tree.{term};
ghost use Rattle.mls_public_group.specs.NextTree.{next_term, IsPreparedFor, next_state};
ghost use Rattle.mls_public_group.specs.Short.{HasLeavesBelow, IsShortContext};
ghost use Rattle.mls_public_group.specs.PublicState.{public_of};

use crate::next_tree::NextTree;
use crate::shared_tree::SharedTree;
use crate::spelling::spelling;
use mls_leaf::Codec;
use mls_schedule::Transcript;
use mls_tree::PublicTree;
use mls_types::GroupContext;
use std::alloc::{AllocError, Global};
use std::marker::Model;

/// The public state of a group in an epoch: its GroupContext (RFC 9420, 8.1), its ratchet tree (7.1) and its interim
/// transcript hash (8.2).
pub struct PublicGroup {
    pub(crate) context: GroupContext,
    // The spelling of the context, which signatures, tags and secrets are made over.
    bytes: Vec<u8>,
    pub(crate) tree: SharedTree,
    transcript: Transcript,
}

impl Drop for PublicGroup {
    fn drop(self) {
        let PublicGroup {
            context: _,
            bytes: _,
            tree: _,
            transcript: _,
        } = self;
    }
}

impl Model for PublicGroup {
    ghost use Rattle.std.specs.Prelude.{◌≡◌, ◌^◌};
    ghost use Rattle.mls_types.specs.GroupContext.{group_context};
    ghost use Rattle.mls_tree.specs.Tree.{term};
    ghost use Rattle.mls_public_group.specs.Short.{HasLeavesBelow, IsShortContext};
    ghost use Rattle.mls_model.specs.PublicState.{PublicState};
    ghost use Rattle.mls_public_group.specs.PublicCodes.{coded_public};

    ghost Value = { PublicState };

    ghost coded = { coded_public };

    ghost view = { λ g. record {
      context = g.context;
      tree = term g.tree;
      interim = g.transcript;
    } };

    ghost invariant = { λ g. (g.bytes.items ≡ group_context.spell g.context)
        × IsShortContext g.context
        × HasLeavesBelow (2 ^ 27) (term g.tree) };
}

impl PublicGroup {
    /// The public state with these parts.
    pub fn new(
        alloc: Global,
        context: GroupContext,
        tree: PublicTree,
        transcript: Transcript,
    ) -> Result<PublicGroup, AllocError>
        requires context { IsShortContext context }
        requires leaves { HasLeavesBelow (2 ^ 27) (term tree) }
        ensures { IfOk result (λ g. g ≡ public_of context (term tree) transcript) }
    {
        let bytes = spelling(alloc, &context)?;
        let tree = SharedTree::new(alloc, tree)?;
        Ok(PublicGroup {
            context,
            bytes,
            tree,
            transcript,
        })
    }

    /// The public state of the next epoch, with this context and transcript, and the next tree of the one after a
    /// commit's edits.
    pub fn next(
        alloc: Global,
        context: GroupContext,
        edited: SharedTree,
        tree: NextTree,
        transcript: Transcript,
    ) -> Result<PublicGroup, AllocError>
        requires context { IsShortContext context }
        requires follows { IsPreparedFor (term edited) tree }
        requires leaves { HasLeavesBelow (2 ^ 27) (next_term (term edited) tree) }
        ensures { IfOk result
            (λ g. g ≡ public_of context (next_term (term edited) tree) transcript) }
    {
        let bytes = spelling(alloc, &context)?;
        let mut shared = edited;
        shared.enter(tree)?;
        Ok(PublicGroup {
            context,
            bytes,
            tree: shared,
            transcript,
        })
    }

    /// Begins the next epoch, with this context, tree and transcript. Without memory the group is as before.
    pub fn enter(
        &mut self,
        alloc: Global,
        context: GroupContext,
        tree: NextTree,
        transcript: Transcript,
    ) -> Result<(), AllocError>
        requires context { IsShortContext context }
        requires follows { IsPreparedFor self.old.tree tree }
        requires leaves { HasLeavesBelow (2 ^ 27) (next_term self.old.tree tree) }
        ensures next { OnOk result (self.new ≡ next_state self.old context tree transcript) }
        ensures same { OnErr result (self.new ≡ self.old) }
    {
        let bytes = spelling(alloc, &context)?;
        self.tree.enter(tree)?;
        self.context = context;
        self.bytes = bytes;
        self.transcript = transcript;
        Ok(())
    }

    /// The context of the epoch (RFC 9420, 8.1).
    pub fn context(&self) -> &GroupContext
        ensures { result.now ≡ self.now.context }
    {
        &self.context
    }

    /// The spelling of the context.
    pub fn context_bytes(&self) -> &[u8]
        ensures { result.now ≡ group_context.spell self.now.context }
    {
        &self.bytes
    }

    /// The ratchet tree (RFC 9420, 7.1).
    pub fn tree(&self) -> &PublicTree
        ensures { term result.now ≡ self.now.tree }
    {
        self.tree.as_tree()
    }

    /// The transcript, by its interim hash (RFC 9420, 8.2).
    pub fn transcript(&self) -> &Transcript
        ensures { result.now ≡ self.now.interim }
    {
        &self.transcript
    }

    /// A law: its context is short, and so are its leaves.
    pub fn is_short(&self)
        ensures context { IsShortContext self.now.context }
        ensures leaves { HasLeavesBelow (2 ^ 27) self.now.tree }
    {
        let _context = &self.context;
    }
}
