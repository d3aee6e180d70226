//! Calls that save, and that load or restore what was saved.

ghost use Rattle.std.specs.Prelude.{◌≡◌};
ghost use Rattle.mls_calls.specs.Calls.{Changes, Does, Makes, SavesConversation, SavesHeld, SavesHeldConversation, SavesIfConversation, SavesIfMember, SavesMember, a_conversation, a_member, candidate_load, candidate_save, conversation_restore, make_loaded_candidate, make_loaded_member, make_saved_candidate, member_load, restore_keys};
ghost use Rattle.mls_calls.specs.Given.{text};
ghost use Rattle.mls_calls.specs.Shown.{shown};
ghost use Rattle.mls_calls.specs.declared.held.Held.TheVariants.{Nothing};

use crate::done::{Done, Fruit};
use crate::given::Given;
use crate::held::Held;
use crate::make::{fill, fill_bytes, number, room};
use crate::taken::{bytes_in, candidate_of, conversation_of, member_of, take_conversation};
use mls::{Candidate, Conversation, Member, Suite0001};
use std::alloc::Global;

/// The bytes that a candidate is saved as, in a handle.
#[tactic(auto, unfolding(crate::specs::Calls::make_saved_candidate))]
fn make_saved_candidate(alloc: Global, held: &Held) -> Result<Fruit, u32>
    ensures { Makes (make_saved_candidate (shown held.now)) result }
{
    let candidate = candidate_of(held)?;
    let room = room(alloc)?;
    match candidate.save(alloc) {
        Ok(saved) => Ok(fill_bytes(room, saved)),
        Err(error) => Err(error.number() as u32),
    }
}

/// The bytes that a candidate is saved as.
#[tactic(auto, unfolding(crate::specs::Calls::candidate_save))]
pub(crate) fn candidate_save(alloc: Global, held: Held) -> Done
    ensures does { Does (candidate_save (shown held)) (shown held) result }
    ensures stays { held ≡ Nothing → result.held ≡ Nothing }
{
    let outcome = make_saved_candidate(alloc, &held);
    Done { held, outcome }
}

/// The candidate that was saved so, in a handle.
#[tactic(auto, unfolding(crate::specs::Calls::make_loaded_candidate))]
fn make_loaded_candidate(alloc: Global, saved: &Given) -> Result<Fruit, u32>
    ensures { Makes (make_loaded_candidate (text saved.now)) result }
{
    let saved = bytes_in(saved)?;
    let room = room(alloc)?;
    match Candidate::<Suite0001>::load(alloc, saved) {
        Ok(candidate) => Ok(fill(room, Held::Candidate(candidate))),
        Err(error) => Err(error.number() as u32),
    }
}

/// The candidate that was saved so.
#[tactic(auto, unfolding(crate::specs::Calls::candidate_load))]
pub(crate) fn candidate_load(alloc: Global, held: Held, saved: &Given) -> Done
    ensures does { Does (candidate_load (shown held) (text saved.now)) (shown held) result }
    ensures stays { held ≡ Nothing → result.held ≡ Nothing }
{
    let outcome = make_loaded_candidate(alloc, saved);
    Done { held, outcome }
}

/// The bytes that a member is saved as, in a handle.
#[tactic(auto, using(crate::proofs::Decoded::unsaved))]
fn save_member(alloc: Global, member: &Member<Suite0001>) -> Result<Fruit, u32>
    ensures { SavesMember member.now result }
{
    let room = room(alloc)?;
    match member.save() {
        Ok(saved) => Ok(fill_bytes(room, saved)),
        Err(error) => Err(error.number() as u32),
    }
}

/// The bytes that the member of a handle is saved as, in a handle.
fn make_saved_member(alloc: Global, held: &Held) -> Result<Fruit, u32>
    ensures { SavesIfMember (a_member (shown held.now)) result }
{
    match member_of(held) {
        Ok(member) => save_member(alloc, member),
        Err(number) => Err(number),
    }
}

/// The bytes that the member of a handle is saved as.
pub(crate) fn member_save(alloc: Global, held: Held) -> Done
    ensures does { SavesHeld (shown held) result }
    ensures stays { held ≡ Nothing → result.held ≡ Nothing }
{
    let outcome = make_saved_member(alloc, &held);
    Done { held, outcome }
}

/// The member that was saved so, in a handle.
#[tactic(auto, unfolding(crate::specs::Calls::make_loaded_member))]
fn make_loaded_member(alloc: Global, saved: &Given) -> Result<Fruit, u32>
    ensures { Makes (make_loaded_member (text saved.now)) result }
{
    let saved = bytes_in(saved)?;
    let room = room(alloc)?;
    match Member::<Suite0001>::load(alloc, saved) {
        Ok(member) => Ok(fill(room, Held::Member(member))),
        Err(error) => Err(error.number() as u32),
    }
}

/// The member that was saved so.
#[tactic(auto, unfolding(crate::specs::Calls::member_load))]
pub(crate) fn member_load(alloc: Global, held: Held, saved: &Given) -> Done
    ensures does { Does (member_load (shown held) (text saved.now)) (shown held) result }
    ensures stays { held ≡ Nothing → result.held ≡ Nothing }
{
    let outcome = make_loaded_member(alloc, saved);
    Done { held, outcome }
}

/// The bytes that a conversation is saved as, in a handle.
#[tactic(auto, using(crate::proofs::Decoded::unsaved))]
fn save_conversation(alloc: Global, conversation: &Conversation<Suite0001>) -> Result<Fruit, u32>
    ensures { SavesConversation conversation.now result }
{
    let room = room(alloc)?;
    match conversation.save() {
        Ok(saved) => Ok(fill_bytes(room, saved)),
        Err(error) => Err(error.number() as u32),
    }
}

/// The bytes that the conversation of a handle is saved as, in a handle.
fn make_saved_conversation(alloc: Global, held: &Held) -> Result<Fruit, u32>
    ensures { SavesIfConversation (a_conversation (shown held.now)) result }
{
    match conversation_of(held) {
        Ok(conversation) => save_conversation(alloc, conversation),
        Err(number) => Err(number),
    }
}

/// The bytes that the conversation of a handle is saved as.
pub(crate) fn conversation_save(alloc: Global, held: Held) -> Done
    ensures does { SavesHeldConversation (shown held) result }
    ensures stays { held ≡ Nothing → result.held ≡ Nothing }
{
    let outcome = make_saved_conversation(alloc, &held);
    Done { held, outcome }
}

/// A conversation goes on with the keys that bytes hold.
#[tactic(auto, unfolding(crate::specs::Calls::restore_keys))]
fn restore_keys(conversation: &mut Conversation<Suite0001>, saved: &Given) -> Result<Fruit, u32>
    ensures { Changes (restore_keys (text saved.now) conversation.old)
        conversation.old conversation.new result }
{
    let saved = bytes_in(saved)?;
    match conversation.restore(saved) {
        Ok(()) => Ok(number(0)),
        Err(error) => Err(error.number() as u32),
    }
}

/// The conversation of a handle goes on as the one that was saved so.
#[tactic(auto, unfolding(crate::specs::Calls::conversation_restore, crate::specs::Calls::on_conversation, crate::specs::Calls::a_conversation))]
pub(crate) fn conversation_restore(held: Held, saved: &Given) -> Done
    ensures does { Does (conversation_restore (shown held) (text saved.now)) (shown held) result }
    ensures stays { held ≡ Nothing → result.held ≡ Nothing }
{
    match take_conversation(held) {
        Ok(mut conversation) => {
            let outcome = restore_keys(&mut conversation, saved);
            Done::of_conversation(conversation, outcome)
        }
        Err((held, number)) => Done::of_refusal(held, number),
    }
}
