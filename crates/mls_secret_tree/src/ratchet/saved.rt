//! A ratchet, as it is saved.

ghost use Rattle.std.specs.Prelude.{◌≤◌, ◌^◌, IfOk};
ghost use Rattle.mls_secret_tree.specs.Saved.{saved_key, saved_key_nonempty, saved_ratchet, saved_ratchet_nonempty};
ghost use Rattle.mls_secret_tree.specs.SavedFaults.{saved_key_faults, saved_ratchet_faults};
ghost use Rattle.mls_secret_tree.specs.Saved.{next_number};
ghost use Rattle.mls_leaf.specs.Faults.{ReadsFrontNow};

use crate::ratchet::{KeptKey, Ratchet};
use crate::secrets::MessageKey;
use crate::sized::{read_sized, write_sized};
use mls_leaf::{Codec, Items, LeafError};
use mls_wire::{Reader, Writer};
use std::alloc::Global;

/// Reads the number of a next generation: `BadTag` (7) above 2^32.
#[tactic(auto, unfolding(crate::specs::Saved::next_number))]
fn read_next(reader: &mut Reader<'_>) -> Result<u64, LeafError>
    ensures read { ReadsFrontNow next_number reader.old result reader.new }
    ensures bound { IfOk result (λ n. n ≤ 2 ^ 32) }
{
    let next = reader.u64()?;
    if next > 1 << 32 {
        return Err(LeafError::BadTag);
    }
    Ok(next)
}

impl Codec for KeptKey {
    ghost format = { saved_key };

    ghost nonempty = { saved_key_nonempty };

    ghost faults = { saved_key_faults };

    #[tactic(auto, using(mls_leaf::proofs::Codecs::codecs), unfolding(crate::specs::Saved::saved_key))]
    fn read(_alloc: Global, reader: &mut Reader<'_>) -> Result<KeptKey, LeafError> {
        let generation = reader.u32()?;
        let key = read_sized(reader)?;
        let nonce = read_sized(reader)?;
        Ok(KeptKey {
            generation,
            key: MessageKey { key, nonce },
        })
    }

    #[tactic(auto, using(mls_leaf::proofs::Codecs::codecs), unfolding(crate::specs::Saved::saved_key))]
    fn check(reader: &mut Reader<'_>) -> Result<(), LeafError> {
        let _ = reader.u32()?;
        let _: [u8; 16] = read_sized(reader)?;
        let _: [u8; 12] = read_sized(reader)?;
        Ok(())
    }

    #[tactic(auto, using(mls_leaf::proofs::Codecs::codecs), unfolding(crate::specs::Saved::saved_key))]
    fn write(&self, _alloc: Global, writer: &mut Writer) -> Result<(), LeafError> {
        writer.u32(self.generation)?;
        write_sized(&self.key.key, writer)?;
        write_sized(&self.key.nonce, writer)?;
        Ok(())
    }
}

impl Codec for Ratchet {
    ghost format = { saved_ratchet };

    ghost nonempty = { saved_ratchet_nonempty };

    ghost faults = { saved_ratchet_faults };

    #[tactic(auto, using(mls_leaf::proofs::Codecs::codecs), unfolding(crate::specs::Saved::saved_ratchet))]
    fn read(alloc: Global, reader: &mut Reader<'_>) -> Result<Ratchet, LeafError> {
        let next = read_next(reader)?;
        let secret = read_sized(reader)?;
        let kept = Items::<KeptKey>::read(alloc, reader)?;
        Ok(Ratchet { next, secret, kept })
    }

    #[tactic(auto, using(mls_leaf::proofs::Codecs::codecs), unfolding(crate::specs::Saved::saved_ratchet, crate::specs::Saved::next_number, crate::specs::Saved::sized))]
    fn check(reader: &mut Reader<'_>) -> Result<(), LeafError> {
        let _ = read_next(reader)?;
        let _: [u8; 32] = read_sized(reader)?;
        Items::<KeptKey>::check(reader)?;
        Ok(())
    }

    #[tactic(auto, using(mls_leaf::proofs::Codecs::codecs), unfolding(crate::specs::Saved::saved_ratchet, crate::specs::Saved::next_number))]
    fn write(&self, alloc: Global, writer: &mut Writer) -> Result<(), LeafError> {
        writer.u64(self.next)?;
        write_sized(&self.secret, writer)?;
        self.kept.write(alloc, writer)?;
        Ok(())
    }
}
