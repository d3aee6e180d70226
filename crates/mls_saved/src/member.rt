//! A member, as it is saved.

ghost use Rattle.mls_saved.specs.Member.{standing, saved_pending, saved_member, standing_nonempty, saved_pending_nonempty, saved_member_nonempty};
ghost use Rattle.mls_saved.specs.ReadFaults.{standing_faults, saved_pending_faults, saved_member_faults};

use crate::proposal::SavedProposal;
use crate::state::SavedState;
use mls_leaf::{Bytes, Codec, Items, LeafError, pass_mark};
use mls_wire::{Reader, Writer};
use std::alloc::Global;

/// What a saved member begins with: the version of its form.
const MEMBER_MARK: u16 = 1;

/// Whether a member was removed.
#[derive(Clone, Copy, Debug, PartialEq, Eq)]
pub enum Standing {
    /// It is in the group, 0.
    Present,
    /// It was removed, 1.
    Removed,
}

/// A commit that a member made and may yet follow (RFC 9420, 12.4.1).
#[derive(Drop)]
pub struct SavedPending {
    /// Its message.
    pub message: Bytes,
    /// What the member knows of the epoch that it leads to.
    pub state: SavedState,
}

/// A member: all that it needs to go on.
#[derive(Drop)]
pub struct SavedMember {
    /// Whether it was removed.
    pub standing: Standing,
    /// What it knows of its epoch.
    pub state: SavedState,
    /// Its private signature key.
    pub signing: Bytes,
    /// The proposals that it keeps, the oldest first.
    pub kept: Items<SavedProposal>,
    /// Its pending commit.
    pub pending: Option<SavedPending>,
}

impl Codec for Standing {
    ghost format = { standing };

    ghost nonempty = { standing_nonempty };

    ghost faults = { standing_faults };

    #[tactic(auto, using(mls_leaf::proofs::Codecs::codecs), unfolding(crate::specs::Member::standing))]
    fn read(_alloc: Global, reader: &mut Reader<'_>) -> Result<Standing, LeafError> {
        match reader.u8()? {
            0 => Ok(Standing::Present),
            1 => Ok(Standing::Removed),
            _ => Err(LeafError::BadTag),
        }
    }

    #[tactic(auto, using(mls_leaf::proofs::Codecs::codecs), unfolding(crate::specs::Member::standing))]
    fn check(reader: &mut Reader<'_>) -> Result<(), LeafError> {
        match reader.u8()? {
            0 => Ok(()),
            1 => Ok(()),
            _ => Err(LeafError::BadTag),
        }
    }

    #[tactic(auto, using(mls_leaf::proofs::Codecs::codecs), unfolding(crate::specs::Member::standing))]
    fn write(&self, _alloc: Global, writer: &mut Writer) -> Result<(), LeafError> {
        match self {
            Standing::Present => {
                writer.u8(0)?;
                Ok(())
            }
            Standing::Removed => {
                writer.u8(1)?;
                Ok(())
            }
        }
    }
}

impl Codec for SavedPending {
    ghost format = { saved_pending };

    ghost nonempty = { saved_pending_nonempty };

    ghost faults = { saved_pending_faults };

    #[tactic(auto, using(mls_leaf::proofs::Codecs::codecs), unfolding(crate::specs::Member::saved_pending))]
    fn read(alloc: Global, reader: &mut Reader<'_>) -> Result<SavedPending, LeafError> {
        let message = Bytes::read(alloc, reader)?;
        let state = SavedState::read(alloc, reader)?;
        Ok(SavedPending { message, state })
    }

    #[tactic(auto, using(mls_leaf::proofs::Codecs::codecs), unfolding(crate::specs::Member::saved_pending))]
    fn check(reader: &mut Reader<'_>) -> Result<(), LeafError> {
        Bytes::check(reader)?;
        SavedState::check(reader)?;
        Ok(())
    }

    #[tactic(auto, using(mls_leaf::proofs::Codecs::codecs), unfolding(crate::specs::Member::saved_pending))]
    fn write(&self, alloc: Global, writer: &mut Writer) -> Result<(), LeafError> {
        self.message.write(alloc, writer)?;
        self.state.write(alloc, writer)?;
        Ok(())
    }
}

impl Codec for SavedMember {
    ghost format = { saved_member };

    ghost nonempty = { saved_member_nonempty };

    ghost faults = { saved_member_faults };

    #[tactic(auto, using(mls_leaf::proofs::Codecs::codecs), unfolding(crate::specs::Member::saved_member))]
    fn read(alloc: Global, reader: &mut Reader<'_>) -> Result<SavedMember, LeafError> {
        pass_mark(reader, MEMBER_MARK, LeafError::BadTag)?;
        let standing = Standing::read(alloc, reader)?;
        let state = SavedState::read(alloc, reader)?;
        let signing = Bytes::read(alloc, reader)?;
        let kept = Items::<SavedProposal>::read(alloc, reader)?;
        let pending = Option::<SavedPending>::read(alloc, reader)?;
        Ok(SavedMember {
            standing,
            state,
            signing,
            kept,
            pending,
        })
    }

    #[tactic(auto, using(mls_leaf::proofs::Codecs::codecs), unfolding(crate::specs::Member::saved_member))]
    fn check(reader: &mut Reader<'_>) -> Result<(), LeafError> {
        pass_mark(reader, MEMBER_MARK, LeafError::BadTag)?;
        Standing::check(reader)?;
        SavedState::check(reader)?;
        Bytes::check(reader)?;
        Items::<SavedProposal>::check(reader)?;
        Option::<SavedPending>::check(reader)?;
        Ok(())
    }

    #[tactic(auto, using(mls_leaf::proofs::Codecs::codecs), unfolding(crate::specs::Member::saved_member))]
    fn write(&self, alloc: Global, writer: &mut Writer) -> Result<(), LeafError> {
        writer.u16(MEMBER_MARK)?;
        self.standing.write(alloc, writer)?;
        self.state.write(alloc, writer)?;
        self.signing.write(alloc, writer)?;
        self.kept.write(alloc, writer)?;
        self.pending.write(alloc, writer)?;
        Ok(())
    }
}
