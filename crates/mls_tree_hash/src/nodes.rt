//! Leaves and parents, added to the input of a hash as they are spelled (RFC 9420, 7.1 and 7.2).

ghost use Rattle.std.specs.Prelude.{◌≡◌, true};
ghost use Rattle.mls_leaf.specs.Leaf.{capabilities as capabilities_format, credential as credential_format, leaf_node, leaf_source};
ghost use Rattle.mls_leaf.specs.Parent.{rises};
ghost use Rattle.mls_leaf.specs.ParentNode.{parent_node};
ghost use Rattle.mls_tree_hash.specs.Feeds.{Feeds};
ghost use Rattle.mls_tree_hash.specs.Originals.{parent_without};

use crate::feed::Feed;
use crate::pieces::{add_entries, add_remaining, add_u8, add_u16, add_u64, add_vector};
use mls_leaf::{Credential, LeafNode, LeafSource, ParentNode, SpelledCapabilities};

#[tactic(auto, using(crate::proofs::Feeding::feeding), unfolding(mls_leaf::specs::Leaf::credential))]
fn add_credential(feed: &mut Feed, credential: &Credential)
    ensures { Feeds feed.old (credential_format.spell credential.now) feed.new }
{
    add_u16(feed, 1);
    add_vector(feed, credential.identity.as_slice());
}

fn add_capabilities(feed: &mut Feed, capabilities: &SpelledCapabilities)
    ensures { Feeds feed.old (capabilities_format.spell capabilities.now) feed.new }
{
    feed.add(capabilities.bytes());
}

#[tactic(auto, using(crate::proofs::Feeding::feeding), unfolding(mls_leaf::specs::Leaf::leaf_source))]
fn add_source(feed: &mut Feed, source: &LeafSource)
    ensures { Feeds feed.old (leaf_source.spell source.now) feed.new }
{
    match source {
        LeafSource::KeyPackage {
            not_before,
            not_after,
        } => {
            add_u8(feed, 1);
            add_u64(feed, *not_before);
            add_u64(feed, *not_after);
        }
        LeafSource::Update => add_u8(feed, 2),
        LeafSource::Commit { parent_hash } => {
            add_u8(feed, 3);
            add_vector(feed, parent_hash.as_slice());
        }
    }
}

/// A leaf. It has no extensions.
#[tactic(auto, using(crate::proofs::Feeding::feeding), unfolding(mls_leaf::specs::Leaf::leaf_node))]
pub(crate) fn add_leaf(feed: &mut Feed, leaf: &LeafNode)
    ensures { Feeds feed.old (leaf_node.spell leaf.now) feed.new }
{
    add_vector(feed, leaf.encryption_key.as_slice());
    add_vector(feed, leaf.signature_key.as_slice());
    add_credential(feed, &leaf.credential);
    add_capabilities(feed, &leaf.capabilities);
    add_source(feed, &leaf.source);
    add_vector(feed, &[]);
    add_vector(feed, leaf.signature.as_slice());
}

/// A parent.
#[tactic(auto, using(crate::proofs::Feeding::feeding), unfolding(mls_leaf::specs::ParentNode::parent_node))]
pub(crate) fn add_parent(feed: &mut Feed, parent: &ParentNode)
    ensures { Feeds feed.old (parent_node.spell parent.now) feed.new }
{
    add_vector(feed, parent.encryption_key());
    add_vector(feed, parent.parent_hash());
    add_entries(feed, parent.unmerged_leaves());
}

/// A parent with some leaves taken out of its list.
#[tactic(auto, using(crate::proofs::Feeding::feeding), unfolding(mls_leaf::specs::ParentNode::parent_node))]
pub(crate) fn add_parent_without(feed: &mut Feed, unmerged: &[u32], parent: &ParentNode)
    requires { rises unmerged.now ≡ true }
    ensures { Feeds feed.old (parent_node.spell (parent_without unmerged.now parent.now)) feed.new }
{
    add_vector(feed, parent.encryption_key());
    add_vector(feed, parent.parent_hash());
    add_remaining(feed, parent.unmerged_leaves(), unmerged);
}
