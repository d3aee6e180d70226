//! Loading a member that was saved.

ghost use Rattle.std.specs.Prelude.{◌≡◌, ◌^◌};
ghost use Rattle.mls_wire.specs.Checks.{Answers, require};
ghost use Rattle.mls_leaf.specs.Proposal.{proposal as proposal_format};
ghost use Rattle.mls_saved.specs.Loading.{Loads, Passes};
ghost use Rattle.mls_saved.specs.Member.{saved_member};
ghost use Rattle.mls_saved_state.specs.Faults.{number_of};
ghost use Rattle.mls_tree_model.specs.Term.{leaf_of};
ghost use Rattle.mls_public_group.specs.Short.{IsBelow};
ghost use Rattle.mls_member.specs.Saved.{is_removed, signs_as, load, load_kept, load_all_kept, load_if_pending, load_member, AreSavedBelow, IsBelowIfPending, RefusesUndecoded};

use crate::kept_and_pending::{KeptProposal, Pending};
use crate::member::Member;
use mls_kdf::Secret;
use mls_leaf::Codec;
use mls_saved::{SavedMember, SavedPending, SavedProposal, Standing};
use mls_saved_state::{EpochState, LoadError, load_state, optional_secret_of, secret_of};
use mls_suite::Suite;
use std::alloc::Global;
use std::marker::PhantomData;

/// Whether a saved member was removed.
fn is_removed(standing: Standing) -> bool
    ensures { result ≡ is_removed standing }
{
    match standing {
        Standing::Present => false,
        Standing::Removed => true,
    }
}

/// A kept proposal: `BadSecret` (101) its reference or its key is no secret.
#[tactic(auto, unfolding(crate::specs::Saved::load_kept))]
fn load_kept(alloc: Global, saved: &SavedProposal) -> Result<KeptProposal, LoadError>
    requires { IsBelow (2 ^ 27) proposal_format saved.now.proposal }
    ensures { Loads number_of (load_kept saved.now) result }
{
    let reference = secret_of(&saved.reference)?;
    let own_key = optional_secret_of(&saved.own_key)?;
    let message = Vec::from_slice(alloc, saved.message.as_slice())?;
    let proposal = saved.proposal.clone()?;
    Ok(KeptProposal {
        reference,
        message,
        proposal,
        sender: saved.sender,
        own_key,
    })
}

/// Kept proposals, in their order: `BadSecret` (101) a reference or a key is no secret.
fn load_all_kept(alloc: Global, saved: &[SavedProposal]) -> Result<Vec<KeptProposal>, LoadError>
    requires { AreSavedBelow (2 ^ 27) saved.now }
    ensures { Answers (λ v. v.items) number_of (load_all_kept saved.now) result }
{
    let mut kept = Vec::new(alloc);
    for one in saved {
        match load_kept(alloc, one) {
            Ok(proposal) => kept.push(proposal)?,
            Err(error) => return Err(error),
        }
    }
    Ok(kept)
}

/// A pending commit, if there is one: what is refused of the state that it leads to.
#[tactic(auto, unfolding(crate::specs::Saved::load_pending))]
fn load_if_pending<S: Suite>(
    alloc: Global,
    saved: Option<SavedPending>,
) -> Result<Option<Pending>, LoadError>
    requires { IsBelowIfPending (2 ^ 27) saved }
    ensures { Loads number_of (load_if_pending S.crypto saved) result }
{
    let Some(SavedPending { message, state }) = saved else {
        return Ok(None);
    };
    let EpochState { group, epoch, keys } = load_state::<S>(alloc, state)?;
    Ok(Some(Pending {
        message: Vec::from_slice(alloc, message.as_slice())?,
        group,
        epoch,
        keys,
    }))
}

/// Refuses a signature key that isn't that of the member's leaf (`OtherKey` 104).
fn check_signing<S: Suite>(
    alloc: Global,
    now: &EpochState,
    signing: &Secret,
) -> Result<(), LoadError>
    ensures { Passes number_of (require 104 (signs_as S.crypto
        (leaf_of now.now.group.tree now.now.keys.leaf) signing.now)) result }
{
    let Some(leaf) = now.group.tree().leaf(now.keys.leaf()) else {
        return Err(LoadError::OtherKey);
    };
    if leaf.signature_key.as_slice() != S::sig_public(alloc, signing)?.as_slice() {
        return Err(LoadError::OtherKey);
    }
    Ok(())
}

impl<S: Suite> Member<S> {
    /// The member that was saved so: what is refused of its epoch, `BadSecret` (101) its signature key is no secret,
    /// `OtherKey` (104) its leaf has another, then what is refused of kept proposals and of the pending commit.
    #[tactic(auto, unfolding(crate::specs::Saved::load_member))]
    fn of_saved(alloc: Global, saved: SavedMember) -> Result<Member<S>, LoadError>
        requires { IsBelow (2 ^ 27) saved_member saved }
        ensures { Loads number_of (load_member S.crypto saved) result }
    {
        let SavedMember {
            standing,
            state,
            signing,
            kept,
            pending,
        } = saved;
        let now = load_state::<S>(alloc, state)?;
        let signing = secret_of(&signing)?;
        check_signing::<S>(alloc, &now, &signing)?;
        let kept = load_all_kept(alloc, kept.as_slice())?;
        let pending = load_if_pending::<S>(alloc, pending)?;
        let EpochState { group, epoch, keys } = now;
        Ok(Member {
            gone: is_removed(standing),
            group,
            epoch,
            keys,
            signing,
            kept,
            pending,
            alloc,
            suite: PhantomData,
        })
    }

    /// The member that `save` made the bytes of, or the first check that fails: decoding, then `OtherSuite` (100)
    /// another suite, `BadSecret` (101) what is no secret, 20, 21, 23 to 26, 36, 51, 52 and `BadTreeHash` (103) the tree,
    /// `NotAMember` (102) no member is at its leaf, `OtherKey` (104) a private key is missing, isn't due or isn't that
    /// of its public key; the same of the state that a pending commit leads to.
    #[tactic(auto, unfolding(crate::specs::Saved::load))]
    pub fn load(alloc: Global, bytes: &[u8]) -> Result<Member<S>, LoadError>
        ensures answer { Loads number_of (load S.crypto bytes.now) result }
        // Faults of decoding come also when an allocation fails.
        ensures outright { RefusesUndecoded bytes.now result }
    {
        let saved = SavedMember::decode(alloc, bytes)?;
        Member::of_saved(alloc, saved)
    }
}
