//! Calls on conversations.

ghost use Rattle.std.specs.Prelude.{◌≡◌};
ghost use Rattle.mls_calls.specs.Calls.{Changes, Does, Makes, a_seed, conversation_new, conversation_open, conversation_seal, make_conversation, on_conversation, open_data, seal_data};
ghost use Rattle.mls_calls.specs.Given.{text};
ghost use Rattle.mls_calls.specs.Shown.{shown};
ghost use Rattle.mls_calls.specs.declared.held.Held.TheVariants.{Nothing};

use crate::done::{Done, Fruit};
use crate::given::Given;
use crate::held::Held;
use crate::make::{fill, fill_bytes, room, two};
use crate::taken::{bytes_in, member_of, seed_of, take_conversation};
use mls::{Conversation, Suite0001};
use std::alloc::Global;

/// The conversation of a member, in a handle.
#[tactic(auto, unfolding(crate::specs::Calls::make_conversation))]
fn make_conversation(alloc: Global, held: &Held) -> Result<Fruit, u32>
    ensures { Makes (make_conversation (shown held.now)) result }
{
    let member = member_of(held)?;
    let room = room(alloc)?;
    match Conversation::<Suite0001>::of(alloc, member) {
        Ok(conversation) => Ok(fill(room, Held::Conversation(conversation))),
        Err(error) => Err(error.number() as u32),
    }
}

/// The conversation of a member.
#[tactic(auto, unfolding(crate::specs::Calls::conversation_new))]
pub(crate) fn conversation_new(alloc: Global, held: Held) -> Done
    ensures does { Does (conversation_new (shown held)) (shown held) result }
    ensures stays { held ≡ Nothing → result.held ≡ Nothing }
{
    let outcome = make_conversation(alloc, &held);
    Done { held, outcome }
}

/// A sealed message of a conversation.
#[tactic(auto, unfolding(crate::specs::Calls::seal_data))]
fn seal_data(
    alloc: Global,
    conversation: &mut Conversation<Suite0001>,
    padding: u64,
    application_data: &Given,
    authenticated_data: &Given,
    seed: &Given,
) -> Result<Fruit, u32>
    ensures { Changes (seal_data (text application_data.now) (text authenticated_data.now) padding
        (text seed.now) conversation.old) conversation.old conversation.new result }
{
    let application_data = bytes_in(application_data)?;
    let authenticated_data = bytes_in(authenticated_data)?;
    let seed = seed_of(seed)?;
    let room = room(alloc)?;
    match conversation.seal(
        application_data,
        authenticated_data,
        padding as usize,
        &seed,
    ) {
        Ok(message) => Ok(fill_bytes(room, message)),
        Err(error) => Err(error.number() as u32),
    }
}

/// A sealed message of a handle's conversation.
#[tactic(auto, unfolding(crate::specs::Calls::conversation_seal, crate::specs::Calls::on_conversation, crate::specs::Calls::a_conversation))]
pub(crate) fn conversation_seal(
    alloc: Global,
    held: Held,
    padding: u64,
    application_data: &Given,
    authenticated_data: &Given,
    seed: &Given,
) -> Done
    ensures does { Does (conversation_seal (shown held) padding (text application_data.now)
        (text authenticated_data.now) (text seed.now)) (shown held) result }
    ensures stays { held ≡ Nothing → result.held ≡ Nothing }
{
    match take_conversation(held) {
        Ok(mut conversation) => {
            let outcome = seal_data(
                alloc,
                &mut conversation,
                padding,
                application_data,
                authenticated_data,
                seed,
            );
            Done::of_conversation(conversation, outcome)
        }
        Err((held, number)) => Done::of_refusal(held, number),
    }
}

/// What a conversation opens of a message. All memory is taken before it is opened, so that no key is lost.
#[tactic(auto, unfolding(crate::specs::Calls::open_data))]
fn open_data(
    alloc: Global,
    conversation: &mut Conversation<Suite0001>,
    message: &Given,
) -> Result<Fruit, u32>
    ensures { Changes (open_data (text message.now) conversation.old)
        conversation.old conversation.new result }
{
    let message = bytes_in(message)?;
    let data_room = room(alloc)?;
    let authenticated_room = room(alloc)?;
    match conversation.open(message) {
        Ok(opened) => Ok(two(
            data_room,
            authenticated_room,
            opened.application_data,
            Some(opened.authenticated_data),
            opened.leaf_index as u64,
        )),
        Err(error) => Err(error.number() as u32),
    }
}

/// What the conversation of a handle opens of a message.
#[tactic(auto, unfolding(crate::specs::Calls::conversation_open, crate::specs::Calls::on_conversation, crate::specs::Calls::a_conversation))]
pub(crate) fn conversation_open(alloc: Global, held: Held, message: &Given) -> Done
    ensures does { Does (conversation_open (shown held) (text message.now)) (shown held) result }
    ensures stays { held ≡ Nothing → result.held ≡ Nothing }
{
    match take_conversation(held) {
        Ok(mut conversation) => {
            let outcome = open_data(alloc, &mut conversation, message);
            Done::of_conversation(conversation, outcome)
        }
        Err((held, number)) => Done::of_refusal(held, number),
    }
}
