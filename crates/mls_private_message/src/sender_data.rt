//! Sender data (RFC 9420, 6.3.2).

ghost use Rattle.std.specs.Prelude.{◌≡◌};
ghost use Rattle.mls_leaf.specs.Faults.{ReadsFrontNow, Writes};
ghost use Rattle.mls_private_message.specs.SenderData.{sender_data, sender_data_nonempty, whole_sender_data};
ghost use Rattle.mls_private_message.specs.ReadFaults.{sender_data_faults};

use mls_leaf::{Codec, LeafError};
use mls_wire::{Reader, Writer};
use std::alloc::Global;

/// Who sent a private message, and under which key (RFC 9420, 6.3.2).
#[derive(Clone, Copy, Debug, PartialEq, Eq)]
pub struct SenderData {
    /// The sender's leaf.
    pub leaf_index: u32,
    /// The generation of the sender's ratchet.
    pub generation: u32,
    /// Four random bytes, which the nonce is combined with.
    pub reuse_guard: u32,
}

/// Reads the fields. Takes no memory. After a refusal it is left open how far the reader has come.
#[tactic(auto, using(mls_leaf::proofs::Codecs::codecs), unfolding(crate::specs::SenderData::sender_data))]
fn read_fields(reader: &mut Reader<'_>) -> Result<SenderData, LeafError>
    ensures { ReadsFrontNow sender_data reader.old result reader.new }
{
    let leaf_index = reader.u32()?;
    let generation = reader.u32()?;
    let reuse_guard = reader.u32()?;
    Ok(SenderData {
        leaf_index,
        generation,
        reuse_guard,
    })
}

/// The sender data that all of the bytes spell. Takes no memory.
pub(crate) fn read_sender_data(bytes: &[u8]) -> Option<SenderData>
    ensures { result ≡ whole_sender_data bytes.now }
{
    let mut reader = Reader::new(bytes);
    let Ok(sender_data) = read_fields(&mut reader) else {
        return None;
    };
    if reader.is_empty() {
        Some(sender_data)
    } else {
        None
    }
}

/// The spelling of sender data.
#[tactic(auto, using(mls_leaf::proofs::Codecs::codecs), unfolding(crate::specs::SenderData::sender_data))]
pub(crate) fn spell_sender_data(alloc: Global, of: &SenderData) -> Result<Vec<u8>, LeafError>
    ensures { Writes (Unit {0}) (sender_data.spell of.now) result }
{
    let mut writer = Writer::new(alloc);
    writer.u32(of.leaf_index)?;
    writer.u32(of.generation)?;
    writer.u32(of.reuse_guard)?;
    Ok(writer.into_bytes())
}

impl Codec for SenderData {
    ghost format = { sender_data };

    ghost nonempty = { sender_data_nonempty };

    ghost faults = { sender_data_faults };

    #[tactic(auto, using(mls_leaf::proofs::Codecs::codecs), unfolding(crate::specs::SenderData::sender_data))]
    fn read(alloc: Global, reader: &mut Reader<'_>) -> Result<SenderData, LeafError> {
        let leaf_index = u32::read(alloc, reader)?;
        let generation = u32::read(alloc, reader)?;
        let reuse_guard = u32::read(alloc, reader)?;
        Ok(SenderData {
            leaf_index,
            generation,
            reuse_guard,
        })
    }

    #[tactic(auto, using(mls_leaf::proofs::Codecs::codecs), unfolding(crate::specs::SenderData::sender_data))]
    fn check(reader: &mut Reader<'_>) -> Result<(), LeafError> {
        u32::check(reader)?;
        u32::check(reader)?;
        u32::check(reader)?;
        Ok(())
    }

    #[tactic(auto, using(mls_leaf::proofs::Codecs::codecs), unfolding(crate::specs::SenderData::sender_data))]
    fn write(&self, alloc: Global, writer: &mut Writer) -> Result<(), LeafError> {
        self.leaf_index.write(alloc, writer)?;
        self.generation.write(alloc, writer)?;
        self.reuse_guard.write(alloc, writer)?;
        Ok(())
    }
}
