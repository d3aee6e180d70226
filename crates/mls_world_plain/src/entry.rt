//! What journals are made of.

ghost use Rattle.std.specs.Prelude.{◌≡◌, ◌↔◌, IsTrue};

use mls_leaf::Bytes;
use mls_model::Origin;
use std::marker::Model;

/// A commit that a member followed, and in the commit's order the messages of the proposals that it named by reference.
#[derive(Drop)]
pub struct Entry {
    pub(crate) commit: Bytes,
    pub(crate) names: Vec<Bytes>,
}

impl Model for Entry {
    ghost use Rattle.mls_model.specs.Journal as model;

    ghost Value = { model.Entry };

    ghost view = { λ e. record { commit = e.commit; named_messages = e.names.items } };
}

impl Entry {
    /// The message of the commit.
    pub fn commit(&self) -> &[u8]
        ensures { result.now ≡ self.now.commit }
    {
        self.commit.as_slice()
    }

    /// The messages of the proposals.
    pub fn names(&self) -> &[Bytes]
        ensures { result.now ≡ self.now.named_messages }
    {
        &self.names
    }

    /// Whether two entries are the same.
    pub(crate) fn is_same(&self, other: &Entry) -> bool
        ensures { IsTrue result ↔ (self.now ≡ other.now) }
    {
        if self.commit != other.commit {
            return false;
        }
        self.names == other.names
    }
}

/// How a journal begins, or goes on from one that stands before it in the store.
#[derive(Drop)]
pub(crate) enum JournalStep {
    Begun(Origin),
    Followed { before: usize, entry: Entry },
}

/// A step, and the number of the latest one that goes on from it, where one does.
#[derive(Drop)]
pub(crate) struct StoredStep {
    pub(crate) step: JournalStep,
    pub(crate) follower: Option<usize>,
}
