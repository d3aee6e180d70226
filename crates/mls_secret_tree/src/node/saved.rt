//! What is held below a node, as it is saved.

ghost use Rattle.mls_leaf.specs.Faults.{ReadsFront, ReadsPast, AddsSpelling};
ghost use Rattle.mls_secret_tree.specs.Saved.{saved_leaf, saved_held};

use crate::node::{Kind, SecretNode};
use crate::ratchet::Ratchet;
use crate::sized::{read_sized, write_sized};
use mls_leaf::{Codec, LeafError};
use mls_wire::{Reader, WireError, Writer};
use std::alloc::Global;

/// Reads what is held at a leaf.
#[tactic(auto, using(mls_leaf::proofs::Codecs::codecs), unfolding(crate::specs::Saved::saved_leaf))]
fn read_leaf(alloc: Global, reader: &mut Reader<'_>) -> Result<SecretNode, LeafError>
    ensures { ReadsFront saved_leaf reader.old result reader.new }
{
    match reader.u8()? {
        0 => {
            let secret = read_sized(reader)?;
            Ok(SecretNode::whole(&secret))
        }
        1 => {
            let ratchet = Ratchet::read(alloc, reader)?;
            Ok(SecretNode {
                kind: Kind::Ratchet(ratchet),
            })
        }
        _ => Err(LeafError::BadTag),
    }
}

/// Reads past what is held at a leaf.
#[tactic(auto, using(mls_leaf::proofs::Codecs::codecs), unfolding(crate::specs::Saved::saved_leaf))]
fn check_leaf(reader: &mut Reader<'_>) -> Result<(), LeafError>
    ensures { ReadsPast saved_leaf.pass reader.old result reader.new }
{
    match reader.u8()? {
        0 => {
            let _: [u8; 32] = read_sized(reader)?;
            Ok(())
        }
        1 => Ratchet::check(reader),
        _ => Err(LeafError::BadTag),
    }
}

impl SecretNode {
    /// Reads what is held below a node of this height: `BadTag` (7) behind another byte than 0 and 1.
    #[tactic(auto, using(mls_leaf::proofs::Codecs::codecs), unfolding(crate::specs::Saved::saved_parent))]
    pub fn read_below(
        alloc: Global,
        reader: &mut Reader<'_>,
        height: u32,
    ) -> Result<SecretNode, LeafError>
        ensures { ReadsFront (saved_held height) reader.old result reader.new }
    {
        if height == 0 {
            return read_leaf(alloc, reader);
        }
        match reader.u8()? {
            0 => {
                let secret = read_sized(reader)?;
                Ok(SecretNode::whole(&secret))
            }
            1 => {
                let left = SecretNode::read_below(alloc, reader, height - 1)?;
                let right = SecretNode::read_below(alloc, reader, height - 1)?;
                let left = Box::new(alloc, left)?;
                let right = Box::new(alloc, right)?;
                Ok(SecretNode {
                    kind: Kind::Parted(left, right),
                })
            }
            _ => Err(LeafError::BadTag),
        }
    }

    /// Reads past what is held below a node of this height. It makes no value and takes no memory.
    #[tactic(auto, using(mls_leaf::proofs::Codecs::codecs), unfolding(crate::specs::Saved::saved_parent))]
    pub fn check_below(reader: &mut Reader<'_>, height: u32) -> Result<(), LeafError>
        ensures { ReadsPast (saved_held height).pass reader.old result reader.new }
    {
        if height == 0 {
            return check_leaf(reader);
        }
        match reader.u8()? {
            0 => {
                let _: [u8; 32] = read_sized(reader)?;
                Ok(())
            }
            1 => {
                SecretNode::check_below(reader, height - 1)?;
                SecretNode::check_below(reader, height - 1)
            }
            _ => Err(LeafError::BadTag),
        }
    }

    /// Adds what is held below the node, which has this height: `TooLong` (6) where that has no saved form, as more
    /// kept keys than a vector holds, or a ratchet that isn't at a leaf.
    #[tactic(auto, using(mls_leaf::proofs::Codecs::codecs), unfolding(crate::specs::Saved::saved_leaf, crate::specs::Saved::saved_parent))]
    pub fn write_below(
        &self,
        alloc: Global,
        writer: &mut Writer,
        height: u32,
    ) -> Result<(), LeafError>
        ensures { AddsSpelling (saved_held height) self.now writer.old result writer.new }
    {
        match &self.kind {
            Kind::Secret(secret) => {
                writer.u8(0)?;
                write_sized(secret, writer)
            }
            Kind::Ratchet(ratchet) => {
                if height != 0 {
                    return Err(LeafError::Wire(WireError::TooLong));
                }
                writer.u8(1)?;
                ratchet.write(alloc, writer)
            }
            Kind::Parted(left, right) => {
                if height == 0 {
                    return Err(LeafError::Wire(WireError::TooLong));
                }
                writer.u8(1)?;
                left.write_below(alloc, writer, height - 1)?;
                right.write_below(alloc, writer, height - 1)
            }
        }
    }
}
