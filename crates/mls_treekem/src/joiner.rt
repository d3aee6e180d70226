//! The path secret that a joiner is sent (RFC 9420, 12.4.3.1).

ghost use Rattle.std.specs.Prelude.{◌≡◌, ◌≤◌, length, IfOk};
ghost use Rattle.std.specs.Option.{option_copied};
ghost use Rattle.mls_tree.specs.Tree.{term};
ghost use Rattle.mls_treekem_model.specs.Make.{filtered_count};
ghost use Rattle.mls_treekem.specs.Place.{ArePlaced, steps_at};
ghost use Rattle.mls_treekem.specs.Secrets.{secret_over, AnswersSecret, AnswersSent};

use crate::PathSecrets;
use crate::open::is_filtered;
use crate::places::{Place, parents_over};
use mls_kdf::Secret;
use mls_suite::OutOfMemory;
use mls_tree::PublicTree;
use std::alloc::Global;

/// How many of these parents the filtered direct path takes in.
fn filtered_count(tree: &PublicTree, places: &[Place]) -> usize
    requires low { length places.now ≤ 31 }
    requires placed { ArePlaced (term tree.now) places.now }
    ensures count { result ≡ filtered_count (steps_at (term tree.now) places.now) }
    ensures few { result ≤ length places.now }
{
    let Some((place, below)) = places.split_first() else {
        return 0;
    };
    let count = filtered_count(tree, below);
    if is_filtered(tree, place) {
        return count + 1;
    }
    count
}

impl PathSecrets {
    /// The secret of the parent with leaf `joiner` beside it, among these, which are highest first: None where there is
    /// no such parent.
    fn secret_over(&self, tree: &PublicTree, places: &[Place], joiner: u32) -> Option<&Secret>
        requires low { length places.now ≤ 31 }
        requires placed { ArePlaced (term tree.now) places.now }
        ensures { option_copied result ≡ secret_over self.now (term tree.now) places.now joiner }
    {
        let Some((place, below)) = places.split_first() else {
            return None;
        };
        if place.is_beside(joiner) {
            return self.secrets.get(filtered_count(tree, below));
        }
        self.secret_over(tree, below, joiner)
    }

    /// The path secret of the lowest node over both leaves, which the committer sends to a leaf that it adds
    /// (RFC 9420, 12.4.3.1). These are the secrets of the committer's filtered direct path in the tree after the edits,
    /// with the path merged or not. None where no parent over the committer has the joiner on its other side, or that
    /// parent has no secret here. Refused for want of memory alone.
    pub fn secret_for(
        &self,
        alloc: Global,
        tree: &PublicTree,
        committer: u32,
        joiner: u32,
    ) -> Result<Option<&Secret>, OutOfMemory>
        ensures answer { IfOk result (AnswersSecret (term tree.now) committer joiner self.now) }
        ensures chain { IfOk result (AnswersSent (term tree.now) committer joiner self.now) }
    {
        let places = parents_over(alloc, tree, committer)?;
        Ok(self.secret_over(tree, &places, joiner))
    }
}
