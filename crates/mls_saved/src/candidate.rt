//! A candidate, as it is saved.

ghost use Rattle.mls_saved.specs.Candidate.{saved_candidate, saved_candidate_nonempty};
ghost use Rattle.mls_saved.specs.ReadFaults.{saved_candidate_faults};

use mls_leaf::{Bytes, Codec, KeyPackage, LeafError, pass_mark};
use mls_wire::{Reader, Writer};
use std::alloc::Global;

/// What a saved candidate begins with: the version of its form, which is none of a member's.
const CANDIDATE_MARK: u16 = 2;

/// A candidate: its KeyPackage and the private keys of it.
#[derive(Drop)]
pub struct SavedCandidate {
    /// What it offers (RFC 9420, 10).
    pub key_package: KeyPackage,
    /// The private key of the KeyPackage's init key.
    pub init: Bytes,
    /// The private key of its leaf.
    pub leaf: Bytes,
    /// Its private signature key.
    pub signing: Bytes,
}

impl Codec for SavedCandidate {
    ghost format = { saved_candidate };

    ghost nonempty = { saved_candidate_nonempty };

    ghost faults = { saved_candidate_faults };

    #[tactic(auto, using(mls_leaf::proofs::Codecs::codecs), unfolding(crate::specs::Candidate::saved_candidate))]
    fn read(alloc: Global, reader: &mut Reader<'_>) -> Result<SavedCandidate, LeafError> {
        pass_mark(reader, CANDIDATE_MARK, LeafError::BadTag)?;
        let key_package = KeyPackage::read(alloc, reader)?;
        let init = Bytes::read(alloc, reader)?;
        let leaf = Bytes::read(alloc, reader)?;
        let signing = Bytes::read(alloc, reader)?;
        Ok(SavedCandidate {
            key_package,
            init,
            leaf,
            signing,
        })
    }

    #[tactic(auto, using(mls_leaf::proofs::Codecs::codecs), unfolding(crate::specs::Candidate::saved_candidate))]
    fn check(reader: &mut Reader<'_>) -> Result<(), LeafError> {
        pass_mark(reader, CANDIDATE_MARK, LeafError::BadTag)?;
        KeyPackage::check(reader)?;
        Bytes::check(reader)?;
        Bytes::check(reader)?;
        Bytes::check(reader)?;
        Ok(())
    }

    #[tactic(auto, using(mls_leaf::proofs::Codecs::codecs), unfolding(crate::specs::Candidate::saved_candidate))]
    fn write(&self, alloc: Global, writer: &mut Writer) -> Result<(), LeafError> {
        writer.u16(CANDIDATE_MARK)?;
        self.key_package.write(alloc, writer)?;
        self.init.write(alloc, writer)?;
        self.leaf.write(alloc, writer)?;
        self.signing.write(alloc, writer)?;
        Ok(())
    }
}
