//! What a joiner takes from a path secret, and which keys it must have.

ghost use Rattle.std.specs.Prelude.{◌≡◌, ◌+◌, ◌^◌, ◌≤◌, length, IfOk, OnErr};
ghost use Rattle.std.specs.Option.{option_copied};
ghost use Rattle.mls_tree_model.specs.Sets.{has};
ghost use Rattle.mls_tree.specs.Tree.{term};
ghost use Rattle.mls_treekem_model.specs.Join.{is_due};
ghost use Rattle.mls_treekem.specs.Place.{ArePlaced};
ghost use Rattle.mls_treekem.specs.Taking.{StartsClimb, ClimbsPast, TakesAlong, ClimbsFrom, TakesSecret, has_due_below, AnswersDue, is_complete_at};

use crate::climb::Climb;
use crate::make::push_none;
use crate::places::{Place, parent_in, parents_over, side_of};
use crate::{PrivatePath, TreeKemError};
use mls_kdf::Secret;
use mls_leaf::ParentNode;
use mls_suite::Suite;
use mls_tree::PublicTree;
use std::alloc::Global;

/// Whether a parent lists a leaf as unmerged.
pub(crate) fn lists(parent: &ParentNode, leaf: u32) -> bool
    ensures { result ≡ has parent.now.unmerged_leaves leaf }
{
    parent.unmerged_leaves().contains(&leaf)
}

/// The climb at the parent where the ways part, which is so far above the leaves: `PathKeyMismatch` (34) where it is
/// blank.
fn start_climb(
    alloc: Global,
    tree: &PublicTree,
    place: &Place,
    height: usize,
    secret: &Secret,
) -> Result<Climb, TreeKemError>
    ensures { StartsClimb tree.now place.now height secret.now result }
{
    if !place.has_parent(tree) {
        return Err(TreeKemError::PathKeyMismatch);
    }
    let mut above = Vec::new(alloc);
    push_none(height, &mut above)?;
    Ok(Climb {
        secret: *secret,
        above,
    })
}

/// The climb past a parent: a blank one takes no step; `PathKeyMismatch` (34) where another one lists the joiner or
/// hasn't the derived key.
fn climb_past_parent<S: Suite>(
    tree: &PublicTree,
    place: &Place,
    joiner: u32,
    climb: Climb,
) -> Result<Climb, TreeKemError>
    ensures { ClimbsPast S.crypto joiner tree.now place.now climb result }
{
    let Some(parent) = place.parent(tree) else {
        return Ok(climb.climb_past_blank()?);
    };
    if lists(parent, joiner) {
        return Err(TreeKemError::PathKeyMismatch);
    }
    climb.climb_past_key::<S>(parent.encryption_key())
}

/// The joiner's climb over the parents above the signer, from the one where the ways part: `PathKeyMismatch` (34) where
/// there is none.
fn climb_along<S: Suite>(
    alloc: Global,
    tree: &PublicTree,
    places: &[Place],
    joiner: u32,
    secret: &Secret,
) -> Result<Climb, TreeKemError>
    requires { ArePlaced (term tree.now) places.now }
    ensures { TakesAlong S.crypto tree.now places.now joiner secret.now result }
{
    let Some((place, lower)) = places.split_first() else {
        return Err(TreeKemError::PathKeyMismatch);
    };
    if place.is_beside(joiner) {
        let climb = start_climb(alloc, tree, place, lower.len(), secret)?;
        return climb_past_parent::<S>(tree, place, joiner, climb);
    }
    let climb = climb_along::<S>(alloc, tree, lower, joiner, secret)?;
    climb_past_parent::<S>(tree, place, joiner, climb)
}

/// Whether a parent is blank, lists the joiner, or has a key.
fn is_due(parent: Option<&ParentNode>, joiner: u32, key: &Option<Secret>) -> bool
    ensures { result ≡ is_due joiner (option_copied parent.entry) key.now }
{
    match parent {
        Some(parent) => lists(parent, joiner) || key.is_some(),
        None => true,
    }
}

/// Whether each of these parents is blank, lists the joiner, or has a key; the keys come the lowest one's first.
fn is_complete(tree: &PublicTree, places: &[Place], joiner: u32, above: &[Option<Secret>]) -> bool
    ensures { result ≡ is_complete_at joiner tree.now places.now above.now }
{
    let Some((place, lower)) = places.split_first() else {
        return true;
    };
    let Some((key, lower_keys)) = above.split_last() else {
        return false;
    };
    is_due(place.parent(tree), joiner, key) && is_complete(tree, lower, joiner, lower_keys)
}

impl PrivatePath {
    /// What the member takes.
    fn climb_from_secret<S: Suite>(
        &self,
        tree: &PublicTree,
        signer: u32,
        secret: &Secret,
    ) -> Result<Climb, TreeKemError>
        ensures answer { ClimbsFrom S.crypto tree.now signer self.now secret.now result }
        ensures low { IfOk result (λ m. length m.keys ≤ 31) }
    {
        if signer >= tree.leaf_count() {
            return Err(TreeKemError::PathKeyMismatch);
        }
        let alloc = *self.above.allocator();
        let joiner = self.leaf();
        let signers = parents_over(alloc, tree, signer)?;
        let joiners = parents_over(alloc, tree, joiner)?;
        let climb = climb_along::<S>(alloc, tree, &signers, joiner, secret)?;
        if !is_complete(tree, &joiners, joiner, &climb.above) {
            return Err(TreeKemError::KeyMissing);
        }
        Ok(climb)
    }

    /// Takes a path secret as a joiner, in a whole tree with the signer's path: the secret is that of the parent where
    /// the ways of signer and joiner part, from there up each parent that isn't blank takes a step, and the keys that
    /// were held above the leaf are dropped (RFC 9420, 12.4.3.1). Answers the commit secret. Refused with
    /// `PathKeyMismatch` (34) where signer and joiner are not two leaves of the tree, the first of those parents is
    /// blank, or one lists the joiner or has another public key than the derived one; then with `KeyMissing` (35)
    /// where a parent over the joiner isn't blank, doesn't list it and got no key. After a refusal the keys are as
    /// before.
    pub fn take_secret<S: Suite>(
        &mut self,
        tree: &PublicTree,
        signer: u32,
        secret: &Secret,
    ) -> Result<Secret, TreeKemError>
        ensures answer { TakesSecret S.crypto tree.now signer secret.now self.old self.new result }
        ensures leaf { self.new.leaf ≡ self.old.leaf }
        ensures own { self.new.own ≡ self.old.own }
        ensures err { OnErr result (self.new ≡ self.old) }
    {
        let Climb { secret, above } = self.climb_from_secret::<S>(tree, signer, secret)?;
        self.above = above;
        Ok(secret)
    }

    /// Whether each parent over the member in a subtree of this height is blank, lists it, or has a key.
    fn has_due_keys(&self, tree: &PublicTree, height: u32, first: u32) -> bool
        requires low { height ≤ 31 }
        requires fits { first + 2 ^ height ≤ 2 ^ 31 }
        ensures { result ≡ has_due_below height first tree.now self.now }
    {
        if height == 0 {
            return true;
        }
        let leaf = self.leaf();
        let half = side_of(height);
        let parent = parent_in(tree.node(2 * first + (2 * half - 1)));
        if !is_due(parent, leaf, &self.key_at(height)) {
            return false;
        }
        if leaf < first + half {
            self.has_due_keys(tree, height - 1, first)
        } else {
            self.has_due_keys(tree, height - 1, first + half)
        }
    }

    /// Checks the keys of a joiner that gets no path secret, in a whole tree (RFC 9420, 12.4.3.1). Refused with
    /// `KeyMissing` (35) exactly where a parent over it isn't blank, doesn't list it and has no key here; the parents
    /// over a leaf outside the tree are those over its last leaf. Takes no memory.
    pub fn require_keys(&self, tree: &PublicTree) -> Result<(), TreeKemError>
        ensures { AnswersDue tree.now self.now result }
    {
        if !self.has_due_keys(tree, tree.leaf_count().trailing_zeros(), 0) {
            return Err(TreeKemError::KeyMissing);
        }
        Ok(())
    }
}
