//! What a member keeps beside its state.

use mls_kdf::Secret;
use mls_leaf::Proposal;
use mls_public_group::PublicGroup;
use mls_schedule::Epoch;
use mls_treekem::PrivatePath;
use std::marker::Model;

/// A proposal that a member keeps for a commit of its epoch (RFC 9420, 12.1).
#[derive(Drop)]
pub struct KeptProposal {
    /// Its reference.
    pub(crate) reference: Secret,
    /// Its message.
    pub(crate) message: Vec<u8>,
    /// What it says.
    pub(crate) proposal: Proposal,
    /// The leaf of its sender.
    pub(crate) sender: u32,
    /// Of the member's own update, the new private key of its leaf.
    pub(crate) own_key: Option<Secret>,
}

impl Model for KeptProposal {
    ghost use Rattle.std.specs.Prelude.{◌^◌, option_map};
    ghost use Rattle.mls_leaf.specs.Proposal.{proposal as proposal_format};
    ghost use Rattle.mls_public_group.specs.Short.{IsBelow};
    ghost use Rattle.mls_model.specs.Member as model;
    ghost use Rattle.mls_member.specs.Codes.{coded_kept};

    ghost Value = { model.KeptProposal };

    ghost coded = { coded_kept };

    ghost view = { λ k. record {
      reference = k.reference;
      message = k.message.items;
      proposal = k.proposal;
      sender = k.sender;
      own_key = k.own_key;
    } };

    ghost invariant = { λ k. IsBelow (2 ^ 27) proposal_format k.proposal };
}

/// A commit that a member made and may yet follow (RFC 9420, 12.4.1).
#[derive(Drop)]
pub(crate) struct Pending {
    /// Its message.
    pub(crate) message: Vec<u8>,
    /// The next public state.
    pub(crate) group: PublicGroup,
    /// The next epoch.
    pub(crate) epoch: Epoch,
    /// The member's private keys in it.
    pub(crate) keys: PrivatePath,
}

impl Model for Pending {
    ghost use Rattle.mls_model.specs.Member as model;
    ghost use Rattle.mls_member.specs.Codes.{coded_pending};

    ghost Value = { model.Pending };

    ghost coded = { coded_pending };

    ghost view = { λ p. record {
      message = p.message.items;
      public = p.group;
      epoch_secret = p.epoch;
      keys = p.keys;
    } };
}
