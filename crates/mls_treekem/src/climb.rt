//! A climb over a leaf, from a path secret upwards (RFC 9420, 7.4).

ghost use Rattle.std.specs.Prelude.{◌≡◌, IfOk};
ghost use Rattle.mls_wire.specs.Checks.{Answers};
ghost use Rattle.mls_treekem_model.specs.Make.{climb_past_key, climb_past_blank};
ghost use Rattle.mls_treekem.specs.Faults.{number_of};
ghost use Rattle.mls_treekem.specs.Place.{is_beside};

use crate::TreeKemError;
use crate::places::Place;
use crate::secrets::{next_secret, node_pair};
use mls_kdf::{HmacKey, Secret};
use mls_suite::{OutOfMemory, Suite};
use std::marker::Model;

/// Where a climb stands. It is made with the secret that it begins with, and the keys below.
#[derive(Drop)]
pub(crate) struct Climb {
    /// The path secret of the next node.
    pub(crate) secret: Secret,
    /// The private keys so far, the lowest node's first, without the leaf's.
    pub(crate) above: Vec<Option<Secret>>,
}

// The keys are seen in the order of the way to the leaf.
impl Model for Climb {
    ghost use Rattle.std.specs.Prelude.{reverse};
    ghost use Rattle.mls_treekem_model.specs.Make.{Climb};

    ghost Value = { Climb };

    ghost view = { λ m. record { secret = m.secret; keys = reverse m.above.items } };
}

impl Climb {
    /// Goes past a node with this public key: takes its private key, and the next secret. `PathKeyMismatch` (34) where
    /// the derived public key is another (RFC 9420, 7.5).
    pub(crate) fn climb_past_key<S: Suite>(self, public_key: &[u8]) -> Result<Climb, TreeKemError>
        ensures { Answers (λ m. m) number_of (climb_past_key S.crypto public_key.now self) result }
    {
        let mut climb = self;
        let alloc = *climb.above.allocator();
        let key = HmacKey::new(&climb.secret);
        let next = next_secret(&key);
        let pair = node_pair::<S>(alloc, &key)?;
        if pair.pk.as_slice() != public_key {
            return Err(TreeKemError::PathKeyMismatch);
        }
        climb.above.push(Some(pair.sk))?;
        climb.secret = next;
        Ok(climb)
    }

    /// Goes past a node that has no key.
    pub(crate) fn climb_past_blank(self) -> Result<Climb, OutOfMemory>
        ensures { IfOk result (λ m. m ≡ climb_past_blank self) }
    {
        let mut climb = self;
        climb.above.push(None)?;
        Ok(climb)
    }
}

impl Place {
    /// Whether a leaf is below the child beside.
    pub(crate) fn is_beside(&self, leaf: u32) -> bool
        ensures { result ≡ is_beside self.now leaf }
    {
        self.first <= leaf && leaf - self.first < self.leaves
    }
}
