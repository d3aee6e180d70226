//! Nodes as places lend them.

use mls_leaf::{LeafNode, ParentNode};

/// A node that a place lends: a leaf or a parent.
#[derive(Clone, Copy, Debug)]
pub enum NodeRef<'a> {
    Leaf(&'a LeafNode),
    Parent(&'a ParentNode),
}
