//! A member.

ghost use Rattle.std.specs.Prelude.{◌≡◌, ◌==◌, is_some, length, IfOk};
ghost use Rattle.std.specs.Option.{option_copied};
ghost use Rattle.mls_types.specs.GroupContext.{group_context};
ghost use Rattle.mls_types.specs.GroupInfo.{ratchet_tree};
ghost use Rattle.mls_leaf.specs.Faults.{Encodes};
ghost use Rattle.mls_tree_model.specs.Arrays.{to_nodes};
ghost use Rattle.mls_treekem_model.specs.Height.{ArePairs};
ghost use Rattle.mls_model.specs.MemberInvariant.{IsGoodMember};
ghost use Rattle.mls_model.specs.Member as model;
ghost use Rattle.mls_member.specs.Answers.{kept_message, pending_message, pending_secret};

use crate::kept_and_pending::{KeptProposal, Pending};
use crate::used_proposals::kept_under;
use mls_kdf::Secret;
use mls_leaf::{Codec, LeafError};
use mls_public_group::PublicGroup;
use mls_schedule::Epoch;
use mls_suite::{OutOfMemory, Suite};
use mls_treekem::PrivatePath;
use mls_types::RatchetTree;
use std::alloc::Global;
use std::marker::{Model, PhantomData};

/// Is a member of a group: the public state of the group, the epoch's secrets, its private keys, the proposals that it
/// keeps, and its pending commit. One that a good candidate created or joined as is good, and stays so over each call:
/// its tree is good, and it holds exactly the private keys that are due to it.
pub struct Member<S: Suite> {
    pub(crate) gone: bool,
    pub(crate) group: PublicGroup,
    pub(crate) epoch: Epoch,
    pub(crate) keys: PrivatePath,
    pub(crate) signing: Secret,
    pub(crate) kept: Vec<KeptProposal>,
    pub(crate) pending: Option<Pending>,
    pub(crate) alloc: Global,
    pub(crate) suite: PhantomData<S>,
}

impl<S: Suite> Drop for Member<S> {
    fn drop(self) {
        let Member {
            gone: _,
            group: _,
            epoch: _,
            keys: _,
            signing: _,
            kept: _,
            pending: _,
            alloc: _,
            suite: _,
        } = self;
    }
}

impl<S: Suite> Model for Member<S> {
    ghost use Rattle.mls_model.specs.Member as model;
    ghost use Rattle.mls_member.specs.Codes.{coded_member};

    ghost Value = { model.Member };

    ghost coded = { coded_member };

    ghost view = { λ m. record {
      gone = m.gone;
      public = m.group;
      epoch_secret = m.epoch;
      keys = m.keys;
      signing = m.signing;
      kept = m.kept.items;
      pending = m.pending;
    } };
}

impl<S: Suite> Member<S> {
    /// Tells whether it was removed.
    pub fn is_gone(&self) -> bool
        ensures { result ≡ self.now.gone }
    {
        self.gone
    }

    /// Lends the public state of its group: context, tree and transcript.
    pub fn group(&self) -> &PublicGroup
        ensures { result.now ≡ self.now.public }
    {
        &self.group
    }

    /// Lends the secrets of the epoch (RFC 9420, 8).
    pub fn secrets(&self) -> &Epoch
        ensures { result.now ≡ self.now.epoch_secret }
    {
        &self.epoch
    }

    /// Lends its leaf and its private keys.
    pub fn keys(&self) -> &PrivatePath
        ensures { result.now ≡ self.now.keys }
    {
        &self.keys
    }

    /// Gives the index of its leaf.
    pub fn leaf_index(&self) -> u32
        ensures { result ≡ self.now.keys.leaf }
    {
        self.keys.leaf()
    }

    /// Lends the group's identifier (RFC 9420, 8.1).
    pub fn group_id(&self) -> &[u8]
        ensures { result.now ≡ self.now.public.context.group_id }
    {
        self.group.context().group_id.as_slice()
    }

    /// Gives the number of the epoch (RFC 9420, 8.1).
    pub fn epoch(&self) -> u64
        ensures { result ≡ self.now.public.context.epoch }
    {
        self.group.context().epoch
    }

    /// Lends the spelling of the GroupContext (RFC 9420, 8.1).
    pub fn context_bytes(&self) -> &[u8]
        ensures { result.now ≡ group_context.spell self.now.public.context }
    {
        self.group.context_bytes()
    }

    /// Spells the ratchet tree (RFC 9420, 12.4.3.3). `TooLong` (6) it has 2^30 bytes or more.
    pub fn tree_bytes(&self) -> Result<Vec<u8>, LeafError>
        ensures { Encodes ratchet_tree (to_nodes self.now.public.tree) result }
    {
        let nodes = RatchetTree::from_vec(self.group.tree().to_nodes()?);
        nodes.encode(self.alloc)
    }

    /// Lends the confirmed transcript hash (RFC 9420, 8.2).
    pub fn confirmed_transcript_hash(&self) -> &[u8]
        ensures { result.now ≡ self.now.public.context.confirmed_transcript_hash }
    {
        self.group.context().confirmed_transcript_hash.as_slice()
    }

    /// Lends the interim transcript hash (RFC 9420, 8.2).
    pub fn interim_transcript_hash(&self) -> &Secret
        ensures { result.now ≡ self.now.public.interim }
    {
        self.group.transcript().interim_hash()
    }

    /// Gives the private keys that it holds, each with the number of its node, by rising number.
    pub fn held_keys(&self) -> Result<Vec<(u64, Secret)>, OutOfMemory>
        ensures { IfOk result (λ v. ArePairs self.now.keys v.items) }
    {
        self.keys.keys()
    }

    /// Tells whether it keeps no proposal (RFC 9420, 12.1).
    pub fn keeps_none(&self) -> bool
        ensures { result ≡ (length self.now.kept == 0) }
    {
        self.kept.is_empty()
    }

    /// The message of the proposal that it keeps under a reference (RFC 9420, 12.1).
    pub fn kept_message(&self, reference: &[u8]) -> Option<&[u8]>
        ensures { option_copied result ≡ kept_message self.now reference.now }
    {
        match kept_under(&self.kept, reference) {
            Some(k) => Some(&k.message),
            None => None,
        }
    }

    /// Lends the message of its pending commit, as `commit` answered it (RFC 9420, 12.4.1). The Welcome isn't kept.
    pub fn pending_message(&self) -> Option<&[u8]>
        ensures { option_copied result ≡ pending_message self.now }
    {
        match &self.pending {
            Some(p) => Some(&p.message),
            None => None,
        }
    }

    /// Lends the epoch secret that its pending commit leads to.
    pub fn pending_secret(&self) -> Option<&Secret>
        ensures { option_copied result ≡ pending_secret self.now }
    {
        match &self.pending {
            Some(p) => Some(p.epoch.epoch_secret()),
            None => None,
        }
    }

    /// Forgets the pending commit, and answers whether there was one. It takes no memory. The member can't follow a commit
    /// of its own that it forgot: one that others may have got is to be dropped only once another commit is in its place.
    #[tactic(auto, unfolding(mls_model::specs::Member::without_pending))]
    pub fn drop_pending(&mut self) -> bool
        ensures had { result ≡ is_some self.old.pending }
        ensures none { self.new ≡ model.without_pending self.old }
        ensures good { IsGoodMember S.crypto self.old → IsGoodMember S.crypto self.new }
    {
        let had = self.pending.is_some();
        self.pending = None;
        had
    }
}
