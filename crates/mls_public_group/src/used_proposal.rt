//! The proposals that a commit uses.

use mls_leaf::Proposal;
use std::marker::Model;

/// A proposal that a commit uses, with its sender: one that the commit gives in full, or one that it names by reference
/// (RFC 9420, 12.4).
#[derive(Drop)]
pub struct Used<'a> {
    /// What is proposed.
    pub proposal: &'a Proposal,
    /// The leaf of the sender.
    pub sender: u32,
    /// Whether the commit gives it in full.
    pub is_full: bool,
}

impl<'a> Model for Used<'a> {
    ghost use Rattle.mls_model.specs.PublicState as model;

    ghost Value = { model.Used };

    ghost view = { λ u. record {
      proposal = u.proposal.now;
      sender = u.sender;
      is_full = u.is_full;
    } };
}
