//! What a member takes of a path that it receives (RFC 9420, 7.5 and 7.6).

ghost use Rattle.std.specs.Prelude.{◌≡◌, ◌+◌, ◌^◌, ◌<◌, ◌≤◌, not, length, reverse, IfOk, OnErr};
ghost use Rattle.mls_wire.specs.Checks.{AnswersOutright};
ghost use Rattle.mls_types.specs.Ciphertexts.{ciphertext_lent};
ghost use Rattle.mls_tree_model.specs.Places.{resolution_at};
ghost use Rattle.mls_tree_model.specs.Resolution.{is_empty};
ghost use Rattle.mls_tree.specs.Tree.{term};
ghost use Rattle.mls_treekem.specs.Faults.{number_of, AnswersValue};
ghost use Rattle.mls_treekem_model.specs.Open.{secret_of, nodes_below};
ghost use Rattle.mls_treekem_model.specs.Open.{secret_in};
ghost use Rattle.mls_treekem.specs.Opening.{IsKeyOf, AreKeysUpTo, OpensFirst, OpensAtAncestor, OpensAlong, OpensPath, PassesParent};
ghost use Rattle.mls_treekem.specs.Place.{IsPlaced, ArePlaced, steps_at};

use crate::climb::Climb;
use crate::places::{Place, parents_over, side_of};
use crate::{PrivatePath, TreeKemError};
use mls_kdf::Secret;
use mls_suite::{OutOfMemory, Suite, decrypt_with_label};
use mls_tree::PublicTree;
use mls_tree_array::is_leaf_among;
use mls_types::{CiphertextRef, Ciphertexts, UpdatePathNode};
use std::alloc::Global;

/// The path secret that these bytes are: `SecretLength` (33) unless there are 32.
fn secret_of(bytes: &[u8]) -> Result<Secret, TreeKemError>
    ensures { AnswersOutright (λ s. s) number_of (secret_of bytes.now) result }
{
    match <[u8; 32]>::try_from(bytes) {
        Ok(secret) => Ok(secret),
        Err(_) => Err(TreeKemError::SecretLength),
    }
}

/// The path secret in a ciphertext (RFC 9420, 7.6): `OpenFailed` (32) where the key doesn't open it.
fn open_secret<S: Suite>(
    alloc: Global,
    key: &Secret,
    sealed: CiphertextRef<'_>,
    context: &[u8],
) -> Result<Secret, TreeKemError>
    requires { length context.now < 2 ^ 30 }
    ensures { AnswersValue
        (secret_in S.crypto context.now key.now (ciphertext_lent sealed.entry)) result }
{
    let opened = decrypt_with_label::<S>(
        alloc,
        key,
        "UpdatePathNode",
        context,
        sealed.kem_output,
        sealed.ciphertext,
    )?;
    match opened {
        Some(bytes) => secret_of(&bytes),
        None => Err(TreeKemError::OpenFailed),
    }
}

/// Whether the filtered direct path takes a parent in.
pub(crate) fn is_filtered(tree: &PublicTree, place: &Place) -> bool
    ensures { result ≡ not (is_empty (resolution_at 0 (term tree.now) place.now.beside)) }
{
    tree.is_reached(place.beside)
}

/// The nodes of the path below a parent.
fn nodes_below(is_filtered: bool, path: &[UpdatePathNode]) -> &[UpdatePathNode]
    ensures { reverse result.now ≡ nodes_below is_filtered (reverse path.now) }
{
    if !is_filtered {
        return path;
    }
    match path.split_last() {
        Some((_, below)) => below,
        None => path,
    }
}

/// Goes past a parent, for which the highest node of the path is made where it is filtered (RFC 9420, 7.5).
fn climb_past_parent<S: Suite>(
    is_filtered: bool,
    path: &[UpdatePathNode],
    climb: Climb,
) -> Result<Climb, TreeKemError>
    ensures { PassesParent S.crypto is_filtered path.now climb result }
{
    if !is_filtered {
        return Ok(climb.climb_past_blank()?);
    }
    match path.split_last() {
        Some((node, _)) => climb.climb_past_key::<S>(node.encryption_key.as_slice()),
        None => Err(TreeKemError::PathKeyMismatch),
    }
}

impl PrivatePath {
    /// The key of a node of a perfect subtree that has this first leaf.
    fn key_of(&self, height: u32, first: u64, node: u64) -> Option<Secret>
        requires low { height ≤ 31 }
        requires fits { first + 2 ^ height ≤ 2 ^ 33 }
        ensures { IsKeyOf height first self.now node result }
    {
        let leaf = self.leaf() as u64;
        if height == 0 {
            if node == 2 * leaf {
                return self.key_at(0);
            }
            return None;
        }
        let half = side_of(height) as u64;
        if node == 2 * first + (2 * half - 1) {
            return self.key_at(height);
        }
        if leaf < first + half {
            self.key_of(height - 1, first, node)
        } else {
            self.key_of(height - 1, first + half, node)
        }
    }

    /// The path secret that is sealed to the first of some nodes whose key is held (RFC 9420, 7.6): `OpenFailed` (32)
    /// where none is.
    fn open_first<S: Suite>(
        &self,
        height: u32,
        first: u32,
        nodes: &[u64],
        added: &[u32],
        ciphertexts: &Ciphertexts,
        context: &[u8],
    ) -> Result<Secret, TreeKemError>
        requires context { length context.now < 2 ^ 30 }
        requires low { height ≤ 31 }
        ensures { OpensFirst S.crypto context.now height first self.now added.now nodes.now
            ciphertexts.now result }
    {
        let alloc = *self.above.allocator();
        let mut number = 0;
        for node in nodes {
            if is_leaf_among(added, *node) {
                continue;
            }
            if let Some(key) = self.key_of(height, first as u64, *node) {
                let Some(sealed) = ciphertexts.get(number) else {
                    return Err(TreeKemError::OpenFailed);
                };
                return open_secret::<S>(alloc, &key, sealed, context);
            }
            number += 1;
        }
        Err(TreeKemError::OpenFailed)
    }

    /// The keys up to this height, the lowest first, without the leaf's. There is room for as many as are held now.
    fn keys_up_to(&self, height: u32) -> Result<Vec<Option<Secret>>, OutOfMemory>
        ensures { IfOk result (λ v. AreKeysUpTo height self.now v.items) }
    {
        let mut above = Vec::with_capacity(*self.above.allocator(), self.above.len())?;
        for i in 0..height {
            above.push(self.key_at(i + 1))?;
        }
        Ok(above)
    }

    /// What is opened at the parent where the ways part, with the keys below.
    fn open_at_ancestor<S: Suite>(
        &self,
        tree: &PublicTree,
        place: &Place,
        height: u32,
        added: &[u32],
        path: &[UpdatePathNode],
        context: &[u8],
    ) -> Result<Climb, TreeKemError>
        requires context { length context.now < 2 ^ 30 }
        requires low { height ≤ 31 }
        requires placed { IsPlaced (term tree.now) height place.now }
        ensures { OpensAtAncestor S.crypto context.now added.now (term tree.now) height place.now
            self.now path.now result }
    {
        let Some((node, _)) = path.split_last() else {
            return Err(TreeKemError::OpenFailed);
        };
        let nodes = tree.resolution(place.beside)?;
        let above = self.keys_up_to(height)?;
        let secret = self.open_first::<S>(
            height,
            place.first,
            &nodes,
            added,
            &node.ciphertexts,
            context,
        )?;
        Ok(Climb { secret, above })
    }

    /// The member's climb along the committer's way, whose parents are given with the highest first.
    fn climb_along<S: Suite>(
        &self,
        tree: &PublicTree,
        places: &[Place],
        added: &[u32],
        path: &[UpdatePathNode],
        context: &[u8],
    ) -> Result<Climb, TreeKemError>
        requires context { length context.now < 2 ^ 30 }
        requires low { length places.now ≤ 31 }
        requires placed { ArePlaced (term tree.now) places.now }
        ensures { OpensAlong S.crypto context.now added.now (steps_at (term tree.now) places.now)
            self.now path.now result }
    {
        let Some((place, below)) = places.split_first() else {
            return Err(TreeKemError::OpenFailed);
        };
        let is_filtered = is_filtered(tree, place);
        if place.is_beside(self.leaf()) {
            let height = below.len() as u32;
            let climb = self.open_at_ancestor::<S>(tree, place, height, added, path, context)?;
            return climb_past_parent::<S>(is_filtered, path, climb);
        }
        let rest = nodes_below(is_filtered, path);
        let climb = self.climb_along::<S>(tree, below, added, rest, context)?;
        climb_past_parent::<S>(is_filtered, path, climb)
    }

    /// Takes the commit secret and the new keys of a path that leaf `committer` made, whose nodes come the lowest
    /// first (RFC 9420, 7.5). The tree is the one after the commit's edits, with the path merged or not, and `added`
    /// are the leaves that the commit added. Keys of nodes that the path blanks are dropped. `OpenFailed` (32) where
    /// no ciphertext is for the member or its own doesn't open, `SecretLength` (33) where what it holds hasn't 32
    /// bytes, `PathKeyMismatch` (34) where a derived public key isn't the one that the path gives. After a refusal the
    /// keys are as before. A context has fewer than 2^30 bytes.
    pub fn open_path<S: Suite>(
        &mut self,
        tree: &PublicTree,
        committer: u32,
        added: &[u32],
        path: &[UpdatePathNode],
        context: &[u8],
    ) -> Result<Secret, TreeKemError>
        requires { length context.now < 2 ^ 30 }
        ensures answer { OpensPath S.crypto context.now added.now tree.now committer path.now
            self.old self.new result }
        ensures leaf { self.new.leaf ≡ self.old.leaf }
        ensures err { OnErr result (self.new ≡ self.old) }
    {
        let alloc = *self.above.allocator();
        let places = parents_over(alloc, tree, committer)?;
        let climb = self.climb_along::<S>(tree, &places, added, path, context)?;
        let Climb { secret, above } = climb;
        self.above = above;
        Ok(secret)
    }
}
