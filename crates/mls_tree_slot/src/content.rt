//! What a place holds.

use mls_leaf::{LeafNode, ParentNode};
use std::rc::Rc;

/// What a place holds. A leaf and a parent each take the memory of their own size.
#[derive(Debug, Drop)]
pub(crate) enum Content {
    Blank,
    Leaf(Rc<LeafNode>),
    Parent(Rc<ParentNode>),
}
