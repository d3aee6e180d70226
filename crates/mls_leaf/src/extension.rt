//! Extensions.

ghost use Rattle.std.specs.Prelude.{◌≡◌};
ghost use Rattle.mls_leaf.specs.Extension.{extension, extension_nonempty};
ghost use Rattle.mls_leaf.specs.ReadFaults.{extension_faults};

use crate::bytes::Bytes;
use crate::codec::Codec;
use crate::error::LeafError;
use mls_wire::{Reader, Writer};
use std::alloc::{AllocError, Global};

/// An extension, whose data this crate doesn't look into (RFC 9420, section 7.2).
#[derive(Debug, PartialEq, Eq, Drop)]
pub struct Extension {
    /// The number of its type (RFC 9420, section 17.3).
    pub kind: u16,
    /// What it says.
    pub content: Bytes,
}

impl Clone for Extension {
    ghost is_clone = { λ v w. w ≡ v };

    fn clone(&self) -> Result<Extension, AllocError> {
        Ok(Extension {
            kind: self.kind,
            content: self.content.clone()?,
        })
    }
}

impl Codec for Extension {
    ghost format = { extension };

    ghost nonempty = { extension_nonempty };

    ghost faults = { extension_faults };

    #[tactic(auto, using(crate::proofs::Codecs::codecs), unfolding(crate::specs::Extension::extension))]
    fn read(alloc: Global, reader: &mut Reader<'_>) -> Result<Extension, LeafError> {
        let kind = u16::read(alloc, reader)?;
        let content = Bytes::read(alloc, reader)?;
        Ok(Extension { kind, content })
    }

    #[tactic(auto, using(crate::proofs::Codecs::codecs), unfolding(crate::specs::Extension::extension))]
    fn check(reader: &mut Reader<'_>) -> Result<(), LeafError> {
        u16::check(reader)?;
        Bytes::check(reader)?;
        Ok(())
    }

    #[tactic(auto, using(crate::proofs::Codecs::codecs), unfolding(crate::specs::Extension::extension))]
    fn write(&self, alloc: Global, writer: &mut Writer) -> Result<(), LeafError> {
        self.kind.write(alloc, writer)?;
        self.content.write(alloc, writer)?;
        Ok(())
    }
}
