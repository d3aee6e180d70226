//! A leaf and a parent with the memory that a slot needs for them, so that putting them into a tree takes none.

ghost use Rattle.std.specs.Prelude.{◌≡◌, Some, IfOk};
ghost use Rattle.mls_leaf.specs.declared.node.Node.TheVariants.{Leaf as in_leaf, Parent as in_parent};

use crate::content::Content;
use crate::slot::Slot;
use mls_leaf::{LeafNode, ParentNode};
use std::alloc::{AllocError, Global};
use std::marker::Model;
use std::rc::Rc;

/// A leaf that a slot can take.
pub struct SharedLeaf {
    leaf: Rc<LeafNode>,
}

impl Drop for SharedLeaf {
    fn drop(self) {
        let SharedLeaf { leaf: _ } = self;
    }
}

impl Model for SharedLeaf {
    ghost use Rattle.mls_leaf.specs.declared.leaf.LeafNode.{LeafNode};

    ghost Value = { LeafNode };

    ghost view = { λ s. s.leaf.value };
}

/// A parent that a slot can take.
pub struct SharedParent {
    parent: Rc<ParentNode>,
}

impl Drop for SharedParent {
    fn drop(self) {
        let SharedParent { parent: _ } = self;
    }
}

impl Model for SharedParent {
    ghost use Rattle.mls_leaf.specs.Parent.{Parent};

    ghost Value = { Parent };

    ghost view = { λ s. s.parent.value };
}

impl SharedLeaf {
    /// Takes a leaf.
    pub fn new(alloc: Global, leaf: LeafNode) -> Result<SharedLeaf, AllocError>
        ensures { IfOk result (λ s. s ≡ leaf) }
    {
        match Rc::new(alloc, leaf) {
            Ok(leaf) => Ok(SharedLeaf { leaf }),
            // Want of memory: the place behind the pointer, which fails for nothing else.
            Err(_) => Err(AllocError),
        }
    }

    /// The slot with it, which takes no memory.
    pub fn into_slot(self) -> Slot
        ensures { result ≡ Some (in_leaf self) }
    {
        let SharedLeaf { leaf } = self;
        Slot {
            content: Content::Leaf(leaf),
        }
    }
}

impl SharedParent {
    /// Takes a parent.
    pub fn new(alloc: Global, parent: ParentNode) -> Result<SharedParent, AllocError>
        ensures { IfOk result (λ s. s ≡ parent) }
    {
        match Rc::new(alloc, parent) {
            Ok(parent) => Ok(SharedParent { parent }),
            // Want of memory: the place behind the pointer, which fails for nothing else.
            Err(_) => Err(AllocError),
        }
    }

    /// The parent.
    pub fn parent(&self) -> &ParentNode
        ensures { result.now ≡ self.now }
    {
        self.parent.as_ref()
    }

    /// The slot with it, which takes no memory.
    pub fn into_slot(self) -> Slot
        ensures { result ≡ Some (in_parent self) }
    {
        let SharedParent { parent } = self;
        Slot {
            content: Content::Parent(parent),
        }
    }
}
