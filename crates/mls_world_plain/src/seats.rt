//! What a world stores beside its messages and journals.

use mls_candidate::Candidate;
use mls_kdf::Secret;
use mls_leaf::Bytes;
use mls_member::Member;
use mls_suite::Suite;
use std::marker::Model;

/// A candidate, and whether it became a member.
#[derive(Drop)]
pub(crate) struct Entrant<S: Suite> {
    pub(crate) candidate: Candidate<S>,
    pub(crate) is_spent: bool,
}

impl<S: Suite> Model for Entrant<S> {
    ghost use Rattle.mls_model.specs.World as model;
    ghost use Rattle.mls_world_plain.specs.Codes.{coded_entrant};

    ghost Value = { model.Entrant };

    ghost coded = { coded_entrant };

    ghost view = { λ e. record { candidate = e.candidate; is_spent = e.is_spent } };
}

/// A member, and the number of its journal.
#[derive(Drop)]
pub(crate) struct Seat<S: Suite> {
    pub(crate) member: Member<S>,
    pub(crate) journal: usize,
}

impl<S: Suite> Model for Seat<S> {
    ghost use Rattle.mls_world_plain.specs.StoredWorld.{Seated};
    ghost use Rattle.mls_world_plain.specs.Codes.{coded_seated};

    ghost Value = { Seated };

    ghost coded = { coded_seated };

    ghost view = { λ s. record { member = s.member; journal = s.journal } };
}

/// A commit that was made: its maker, the number of the journal whose latest entry it is, the epoch secret that it
/// reaches, the KeyPackages that it adds, as bytes, and its Welcome with the number of that message.
#[derive(Drop)]
pub(crate) struct Making {
    pub(crate) maker: usize,
    pub(crate) journal: usize,
    pub(crate) epoch_secret: Secret,
    pub(crate) adds: Vec<Bytes>,
    pub(crate) welcome: Option<(usize, Bytes)>,
}

impl Model for Making {
    ghost use Rattle.mls_world_plain.specs.StoredWorld as stored;

    ghost Value = { stored.Making };

    ghost view = { λ d. record {
      maker = d.maker;
      journal = d.journal;
      epoch_secret = d.epoch_secret;
      adds = d.adds.items;
      welcome = d.welcome;
    } };
}
