//! Places in a ratchet tree.

ghost use Rattle.mls_cli_place.specs.Text.{tree_place_text};
ghost use Rattle.mls_cli_place.specs.TextLaws.{tree_place_nonempty};

use mls_cli_text::{Printed, push_number};
use std::alloc::{AllocError, Global};

/// A place in a ratchet tree.
#[derive(Clone, Copy, Debug, PartialEq, Eq)]
pub enum TreePlace {
    /// A node, by its index (RFC 9420, appendix C).
    Node(usize),
    /// A leaf, by its index.
    Leaf(u32),
}

impl Printed for TreePlace {
    ghost text = { tree_place_text };

    ghost nonempty = { tree_place_nonempty };

    fn text_bytes(&self, alloc: Global) -> Result<Vec<u8>, AllocError> {
        let mut text = Vec::new(alloc);
        match self {
            TreePlace::Node(index) => {
                text.extend_from_slice(b"node: ")?;
                push_number(alloc, &mut text, *index as u64)?;
            }
            TreePlace::Leaf(index) => {
                text.extend_from_slice(b"leaf: ")?;
                push_number(alloc, &mut text, u64::from(*index))?;
            }
        }
        text.push(b'\n')?;
        Ok(text)
    }
}
