//! Saving a member.

ghost use Rattle.std.specs.Prelude.{◌≡◌, map, option_map, Ok, IfOk};
ghost use Rattle.mls_member.specs.Saved.{standing_of, saved_proposal_of, saved_pending_of, saved_of, Saves, load_all_kept, HasSecretsIfPending, IsLoaded, IsLoadedIfGood, LoadsAsWas};

use crate::kept_and_pending::{KeptProposal, Pending};
use crate::member::Member;
use mls_leaf::{Bytes, Codec, INPUT_LIMIT, Items, LeafError};
use mls_saved::{SavedMember, SavedPending, SavedProposal, Standing};
use mls_saved_state::{optional_saved_secret, save_state, saved_secret};
use mls_suite::{OutOfMemory, Suite};
use mls_wire::WireError;
use std::alloc::{AllocError, Global};

/// Whether a member was removed, as it is saved.
fn standing_of(gone: bool) -> Standing
    ensures { result ≡ standing_of gone }
{
    if gone {
        Standing::Removed
    } else {
        Standing::Present
    }
}

/// A kept proposal as it is saved, which is loaded as it was.
#[tactic(auto, unfolding(crate::specs::Saved::load_kept))]
fn saved_proposal(alloc: Global, kept: &KeptProposal) -> Result<SavedProposal, AllocError>
    ensures same { IfOk result (λ k. k ≡ saved_proposal_of kept.now) }
    ensures loads { IfOk result (λ _. IsLoaded kept.now) }
{
    let reference = saved_secret(alloc, &kept.reference)?;
    let message = Bytes::from_vec(Vec::from_slice(alloc, &kept.message)?);
    let own_key = optional_saved_secret(alloc, &kept.own_key)?;
    Ok(SavedProposal {
        reference,
        message,
        proposal: kept.proposal.clone()?,
        sender: kept.sender,
        own_key,
    })
}

/// Kept proposals as they are saved, which are loaded as they were.
fn saved_proposals(alloc: Global, kept: &[KeptProposal]) -> Result<Vec<SavedProposal>, AllocError>
    ensures same { IfOk result (λ v. v.items ≡ map saved_proposal_of kept.now) }
    ensures loads { IfOk result (λ v. load_all_kept v.items ≡ Ok kept.now) }
{
    let mut saved = Vec::new(alloc);
    for one in kept {
        let proposal = saved_proposal(alloc, one)?;
        saved.push(proposal)?;
    }
    Ok(saved)
}

/// A pending commit as it is saved, if there is one.
fn saved_if_pending(
    alloc: Global,
    pending: &Option<Pending>,
) -> Result<Option<SavedPending>, AllocError>
    ensures same { IfOk result (λ o. o ≡ option_map saved_pending_of pending.now) }
    ensures secrets { IfOk result HasSecretsIfPending }
{
    let Some(pending) = pending else {
        return Ok(None);
    };
    let message = Bytes::from_vec(Vec::from_slice(alloc, &pending.message)?);
    let state = save_state(alloc, &pending.group, &pending.epoch, &pending.keys)?;
    Ok(Some(SavedPending { message, state }))
}

impl<S: Suite> Member<S> {
    /// The member as it is saved, which is loaded as it was where it is good.
    #[tactic(auto, unfolding(crate::specs::Saved::saved_of))]
    fn to_saved(&self) -> Result<SavedMember, OutOfMemory>
        ensures same { IfOk result (λ s. s ≡ saved_of self.now) }
        ensures loads { IfOk result (λ _. IsLoadedIfGood S.crypto self.now) }
    {
        let state = save_state(self.alloc, &self.group, &self.epoch, &self.keys)?;
        let signing = saved_secret(self.alloc, &self.signing)?;
        let kept = saved_proposals(self.alloc, &self.kept)?;
        let pending = saved_if_pending(self.alloc, &self.pending)?;
        Ok(SavedMember {
            standing: standing_of(self.gone),
            state,
            signing,
            kept: Items::from_vec(kept),
            pending,
        })
    }

    /// The member as bytes, which `load` makes it of again: its public state, secrets, keys, kept proposals and pending
    /// commit. `TooLong` (6) where there are more bytes than an input has; a kept proposal takes twice its length, until it
    /// is committed or `forget_proposal` has it go. The bytes hold its secrets. What was made before, a message or a
    /// Welcome, is to be stored with them and sent only then: what is sent and not saved can't be followed.
    #[tactic(auto, using(crate::proofs::Saving::unfit, crate::proofs::Saving::too_long, crate::proofs::Saving::bytes_loaded))]
    pub fn save(&self) -> Result<Vec<u8>, LeafError>
        ensures saved { Saves (saved_of self.now) result }
        // A good member is loaded as it was.
        ensures loads { IfOk result (λ bytes. LoadsAsWas S.crypto self.now bytes.items) }
    {
        let saved = self.to_saved()?;
        let bytes = saved.encode(self.alloc)?;
        if bytes.len() > INPUT_LIMIT {
            return Err(LeafError::Wire(WireError::TooLong));
        }
        Ok(bytes)
    }
}
