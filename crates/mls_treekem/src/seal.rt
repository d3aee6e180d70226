//! A commit's path, sealed to those who need it (RFC 9420, 7.5 and 7.6).

ghost use Rattle.std.specs.Prelude.{◌≡◌, ℕ, ◌<◌, ◌^◌, ◌%◌, length, IfOk, IfErr};
ghost use Rattle.std.specs.Option.{option_copied, option_map};
ghost use Rattle.mls_tree_slot.specs.Nodes.{lent_node};
ghost use Rattle.mls_tree.specs.Tree.{term};
ghost use Rattle.mls_treekem.specs.NodeKeys.{encryption_key_of};
ghost use Rattle.mls_treekem.specs.Faults.{IsMemoryOrKey};
ghost use Rattle.mls_treekem.specs.Sealing.{SealsTo, SealsBeside, SealsAt, HasSeals, SealsAlong, HasNodes, HasSealsAlong, HasSealCount, SealsPath, SealsChain};
ghost use Rattle.mls_treekem.specs.Place.{IsPlaced, ArePlaced, key_beside};
ghost use Rattle.mls_treekem_model.specs.Seeds.{seal_count_of};

use crate::places::{Place, parents_over};
use crate::{PathSecrets, TreeKemError, seal_seed_of};
use mls_kdf::{HmacKey, Secret};
use mls_leaf::Bytes;
use mls_suite::{Suite, encrypt_with_label};
use mls_tree::PublicTree;
use mls_tree_array::is_leaf_among;
use mls_tree_slot::NodeRef;
use mls_types::{Ciphertexts, HpkeCiphertext, UpdatePathNode};
use std::alloc::Global;

/// The low 32 bits of a number.
fn low_bits(n: usize) -> u32
    ensures { result ≡ n % 2 ^ 32 }
{
    (n % (1 << 32)) as u32
}

/// How many seals nodes of a path have, as a uint32 that wraps: the number of the first seal of the commit's Welcome.
/// Takes no memory.
pub fn seal_count_of(nodes: &[UpdatePathNode]) -> u32
    ensures { result ≡ seal_count_of nodes.now % 2 ^ 32 }
{
    let mut count: u32 = 0;
    for node in nodes {
        count = count.wrapping_add(low_bits(node.ciphertexts.len()));
    }
    count
}

/// The encryption key of what stands at a node.
fn encryption_key_of(node: Option<NodeRef<'_>>) -> Option<&[u8]>
    ensures { option_copied result ≡ encryption_key_of (option_map lent_node node.entry) }
{
    match node {
        Some(NodeRef::Leaf(leaf)) => Some(leaf.encryption_key.as_slice()),
        Some(NodeRef::Parent(parent)) => Some(parent.encryption_key()),
        None => None,
    }
}

impl Place {
    /// The encryption key of a node that is below the other child, or is that child: None where it is blank or
    /// elsewhere. An entry of a list of unmerged leaves may be anywhere.
    fn key_beside<'a>(&self, tree: &'a PublicTree, node: u64) -> Option<&'a [u8]>
        requires { (h : ℕ) × IsPlaced (term tree.now) h self.now }
        ensures { option_copied result ≡ key_beside (term tree.now) self.now node }
    {
        let start = 2 * u64::from(self.first);
        let end = start + 2 * u64::from(self.leaves) - 1;
        if node < start || node >= end || node >= 2 * u64::from(tree.leaf_count()) {
            return None;
        }
        encryption_key_of(tree.node(node as u32))
    }
}

/// A path secret sealed to a public key: `BadKey` (36) where there is none, or it isn't fit.
fn seal_to<S: Suite>(
    alloc: Global,
    context: &[u8],
    secret: &Secret,
    key: Option<&[u8]>,
    rnd: &Secret,
) -> Result<HpkeCiphertext, TreeKemError>
    requires { length context.now < 2 ^ 30 }
    ensures { SealsTo S.crypto context.now secret.now key.entry rnd.now result }
{
    let Some(pk) = key else {
        return Err(TreeKemError::BadKey);
    };
    match encrypt_with_label::<S>(alloc, pk, "UpdatePathNode", context, secret, rnd)? {
        Some(sealed) => Ok(HpkeCiphertext {
            kem_output: Bytes::from_vec(sealed.kem),
            ciphertext: Bytes::from_vec(sealed.ct),
        }),
        None => Err(TreeKemError::BadKey),
    }
}

/// What a commit's path is sealed with, at each of its nodes.
#[derive(Clone, Copy)]
struct Sealer<'a, 'b> {
    tree: &'a PublicTree,
    added: &'a [u32],
    path: &'a PathSecrets,
    context: &'a [u8],
    seed: &'a HmacKey<'b>,
}

impl Sealer<'_, '_> {
    /// A path secret sealed to the nodes that aren't leaves just added, of those that reach all members beside a place;
    /// seals are numbered from `first` on. `BadKey` (36) where a key is missing or isn't fit.
    fn seal_all<S: Suite>(
        &self,
        alloc: Global,
        place: &Place,
        reached: &[u64],
        secret: &Secret,
        first: u32,
    ) -> Result<Vec<HpkeCiphertext>, TreeKemError>
        requires context { length self.now.context.now < 2 ^ 30 }
        requires placed { (h : ℕ) × IsPlaced (term self.now.tree.now) h place.now }
        ensures { SealsBeside S.crypto self.now place.now reached.now secret.now first result }
    {
        let mut sealed = Vec::new(alloc);
        let mut number = first;
        for node in reached {
            if is_leaf_among(self.added, *node) {
                continue;
            }
            let key = place.key_beside(self.tree, *node);
            let rnd = seal_seed_of(self.seed, number);
            let ciphertext = seal_to::<S>(alloc, self.context, secret, key, &rnd)?;
            sealed.push(ciphertext)?;
            number = number.wrapping_add(1);
        }
        Ok(sealed)
    }

    /// The node of a path at a place: the public key of path secret number `count`, and that secret sealed.
    fn seal_node<S: Suite>(
        &self,
        alloc: Global,
        place: &Place,
        reached: &[u64],
        count: usize,
        first: u32,
    ) -> Result<UpdatePathNode, TreeKemError>
        requires context { length self.now.context.now < 2 ^ 30 }
        requires placed { (h : ℕ) × IsPlaced (term self.now.tree.now) h place.now }
        ensures answer { SealsAt S.crypto self.now place.now reached.now count first result }
        ensures seals { IfOk result (HasSeals self.now reached.now) }
        ensures refused { IfErr result IsMemoryOrKey }
    {
        let Some(secret) = self.path.secrets.get(count) else {
            return Err(TreeKemError::BadKey);
        };
        let Some(pair) = self.path.pairs.get(count) else {
            return Err(TreeKemError::BadKey);
        };
        let ciphertexts = self.seal_all::<S>(alloc, place, reached, secret, first)?;
        let key = Vec::from_slice(alloc, &pair.pk)?;
        Ok(UpdatePathNode {
            encryption_key: Bytes::from_vec(key),
            ciphertexts: Ciphertexts::from_vec(ciphertexts),
        })
    }

    /// The path at these places, the highest first.
    fn seal_places<S: Suite>(
        &self,
        alloc: Global,
        places: &[Place],
    ) -> Result<Vec<UpdatePathNode>, TreeKemError>
        requires context { length self.now.context.now < 2 ^ 30 }
        requires placed { ArePlaced (term self.now.tree.now) places.now }
        ensures answer { SealsAlong S.crypto self.now places.now result }
        ensures count { IfOk result (HasNodes self.now places.now) }
        ensures seals { IfOk result (HasSealsAlong self.now places.now) }
        ensures refused { IfErr result IsMemoryOrKey }
    {
        let Some((place, below)) = places.split_first() else {
            return Ok(Vec::new(alloc));
        };
        let mut nodes = self.seal_places::<S>(alloc, below)?;
        let resolution = self.tree.resolution(place.beside)?;
        let reached = resolution.as_slice();
        if reached.is_empty() {
            return Ok(nodes);
        }
        let count = nodes.as_slice().len();
        let first = seal_count_of(&nodes);
        let node = self.seal_node::<S>(alloc, place, reached, count, first)?;
        nodes.push(node)?;
        Ok(nodes)
    }
}

/// The nodes of the path that a committer sends, the lowest first: the public key of each node of its filtered direct
/// path, and its path secret sealed to the resolution of its child on the copath, without the leaves just added (RFC
/// 9420, 7.5 and 7.6). The tree is the one after the edits, before the path is merged or after; `path` has a secret
/// and a key pair for each node of the filtered direct path, the lowest first, and any more are left out; the context
/// is the group's, below 2^30 bytes; `seed` is the commit's. Refused with `BadKey` (36) exactly where a node that a
/// secret is sealed to has no key, or one that isn't fit, or `path` has too few secrets or key pairs.
pub fn seal_path<S: Suite>(
    alloc: Global,
    tree: &PublicTree,
    committer: u32,
    added: &[u32],
    path: &PathSecrets,
    context: &[u8],
    seed: &Secret,
) -> Result<Vec<UpdatePathNode>, TreeKemError>
    requires { length context.now < 2 ^ 30 }
    ensures answer { SealsPath S.crypto context.now added.now seed.now path.now tree.now
        committer result }
    ensures chain { SealsChain S.crypto context.now added.now seed.now path.now tree.now
        committer result }
    ensures seals { IfOk result (HasSealCount added.now tree.now committer) }
    ensures refused { IfErr result IsMemoryOrKey }
{
    let places = parents_over(alloc, tree, committer)?;
    let key = HmacKey::new(seed);
    let sealer = Sealer {
        tree,
        added,
        path,
        context,
        seed: &key,
    };
    sealer.seal_places::<S>(alloc, &places)
}
