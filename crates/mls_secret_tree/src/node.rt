//! The nodes of the secret tree: what is held for the leaves below each.

ghost use Rattle.std.specs.Prelude.{◌≡◌, ◌<◌, ◌≤◌, ◌==◌, IfOk};
ghost use Rattle.std.specs.Int.{bit_at};
ghost use Rattle.mls_treemath.specs.Paths.{leaf_path};
ghost use Rattle.mls_secret_tree.specs.Faults.{Gives, RefusesOutright};
ghost use Rattle.mls_secret_tree.specs.Held.{Whole, beside, take_from_ratchet, take_whole, take_below, put_below, next_below, is_whole};

mod saved;

use crate::SecretTreeError;
use crate::ratchet::Ratchet;
use crate::secrets::{MessageKey, child_secret};
use mls_kdf::{HmacKey, Secret};
use std::alloc::{AllocError, Global};
use std::marker::Model;

/// What is held for the leaves below a node.
#[cycle(node)]
#[derive(Drop)]
pub(crate) struct SecretNode {
    kind: Kind,
}

#[cycle(node)]
#[derive(Drop)]
enum Kind {
    // The node's secret.
    Secret(Secret),
    // The leaf's ratchet.
    Ratchet(Ratchet),
    // The left and the right child.
    Parted(Box<SecretNode>, Box<SecretNode>),
}

// It is seen as what it holds.
impl Model for SecretNode {
    ghost use Rattle.mls_secret_tree.specs.Held.{Held, depth};
    ghost use Rattle.mls_secret_tree.specs.Codes.{coded_held};

    ghost Value = { Held };

    ghost coded = { coded_held };

    ghost use Rattle.mls_secret_tree.specs.HeldFields.{held_of};

    ghost view = { λ n. held_of n.kind };

    ghost size = { depth };

    ghost use Rattle.mls_secret_tree.specs.HeldDepth.{depth_of-children};

    ghost size_decreases = { λ n h. depth_of-children n.kind };
}

/// Whether a leaf lies to the right below a node, whose children have this height.
fn is_right(leaf: u32, level: u32) -> bool
    requires { level < 32 }
    ensures { result ≡ (bit_at leaf level == 1) }
{
    (leaf >> level) % 2 == 1
}

/// What was taken below a node, where this is held below the other child.
#[tactic(auto, unfolding(crate::specs::Held::beside))]
fn beside(
    alloc: Global,
    to_right: bool,
    other: SecretNode,
    taken: (MessageKey, SecretNode),
) -> Result<(MessageKey, SecretNode), AllocError>
    ensures { IfOk result (λ t. t ≡ beside to_right other taken) }
{
    let (key, own) = taken;
    let own = Box::new(alloc, own)?;
    let other = Box::new(alloc, other)?;
    let kind = if to_right {
        Kind::Parted(other, own)
    } else {
        Kind::Parted(own, other)
    };
    Ok((key, SecretNode { kind }))
}

/// The key of a generation, taken from a ratchet, with the ratchet behind it.
fn take_key(
    alloc: Global,
    ratchet: &Ratchet,
    generation: u32,
) -> Result<(MessageKey, SecretNode), SecretTreeError>
    ensures answer { Gives (take_from_ratchet ratchet.now generation) result }
    // The ratchet's refusals come also when an allocation fails.
    ensures refused { RefusesOutright (take_from_ratchet ratchet.now generation) result }
{
    let (key, ratchet) = ratchet.take_key(alloc, generation)?;
    Ok((
        key,
        SecretNode {
            kind: Kind::Ratchet(ratchet),
        },
    ))
}

/// The key of a generation of a leaf so far below a node with this secret, and what is held in place of the secret.
fn take_whole(
    alloc: Global,
    secret: &Secret,
    leaf: u32,
    level: u32,
    generation: u32,
) -> Result<(MessageKey, SecretNode), SecretTreeError>
    requires { level ≤ 32 }
    ensures answer { Gives (take_whole secret.now (leaf_path level leaf) generation) result }
    // The ratchet's refusals come also when an allocation fails.
    ensures refused { RefusesOutright (take_whole secret.now (leaf_path level leaf) generation)
        result }
{
    if level == 0 {
        return take_key(alloc, &Ratchet::first(alloc, secret), generation);
    }
    let to_right = is_right(leaf, level - 1);
    let parent = HmacKey::new(secret);
    let own = child_secret(&parent, to_right);
    let other = SecretNode::whole(&child_secret(&parent, !to_right));
    let taken = take_whole(alloc, &own, leaf, level - 1, generation)?;
    Ok(beside(alloc, to_right, other, taken)?)
}

impl SecretNode {
    /// The node with this secret.
    pub fn whole(secret: &Secret) -> SecretNode
        ensures { result ≡ Whole secret.now }
    {
        SecretNode {
            kind: Kind::Secret(*secret),
        }
    }

    /// Whether the node's secret is held still.
    #[tactic(auto, unfolding(crate::specs::Held::is_whole))]
    pub fn is_whole(&self) -> bool
        ensures { result ≡ is_whole self.now }
    {
        match &self.kind {
            Kind::Secret(_) => true,
            Kind::Ratchet(_) => false,
            Kind::Parted(_, _) => false,
        }
    }

    /// The key of a generation of a leaf so far below the node, and what is to be put in place of what is held on the
    /// way to the leaf. `SenderWithoutLeaf` (114) where the way ends above the leaf, `GenerationTooFar` (115) beyond
    /// the window, `KeyUsed` (116) where the key was used or is gone.
    pub fn take_below(
        &self,
        alloc: Global,
        leaf: u32,
        level: u32,
        generation: u32,
    ) -> Result<(MessageKey, SecretNode), SecretTreeError>
        requires { level ≤ 32 }
        ensures answer { Gives (take_below self.now (leaf_path level leaf) generation) result }
        // The three numbers come also when an allocation fails.
        ensures refused { RefusesOutright (take_below self.now (leaf_path level leaf) generation)
            result }
    {
        match &self.kind {
            Kind::Secret(secret) => take_whole(alloc, secret, leaf, level, generation),
            Kind::Ratchet(ratchet) => take_key(alloc, ratchet, generation),
            Kind::Parted(left, right) => {
                if level == 0 {
                    Err(SecretTreeError::SenderWithoutLeaf)
                } else if is_right(leaf, level - 1) {
                    right.take_below(alloc, leaf, level - 1, generation)
                } else {
                    left.take_below(alloc, leaf, level - 1, generation)
                }
            }
        }
    }

    /// Puts a node in place of what is held on the way to a leaf so far below.
    pub fn put_below(&mut self, leaf: u32, level: u32, node: SecretNode)
        requires { level ≤ 32 }
        ensures { self.new ≡ put_below self.old (leaf_path level leaf) node }
    {
        match &mut self.kind {
            Kind::Parted(left, right) => {
                if level == 0 {
                    *self = node;
                } else if is_right(leaf, level - 1) {
                    right.put_below(leaf, level - 1, node);
                } else {
                    left.put_below(leaf, level - 1, node);
                }
            }
            Kind::Secret(_) => *self = node,
            Kind::Ratchet(_) => *self = node,
        }
    }

    /// The first generation of which no key was made yet, of a leaf so far below.
    pub fn next_below(&self, leaf: u32, level: u32) -> u64
        requires { level ≤ 32 }
        ensures { result ≡ next_below self.now (leaf_path level leaf) }
    {
        match &self.kind {
            Kind::Secret(_) => 0,
            Kind::Ratchet(ratchet) => ratchet.next(),
            Kind::Parted(left, right) => {
                if level == 0 {
                    0
                } else if is_right(leaf, level - 1) {
                    right.next_below(leaf, level - 1)
                } else {
                    left.next_below(leaf, level - 1)
                }
            }
        }
    }
}
