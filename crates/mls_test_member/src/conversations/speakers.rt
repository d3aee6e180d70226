//! The conversations of the three in their epoch, and what they are called with.

use crate::conversations::trio::{Trio, create_trio};
use mls_conversation::{Conversation, ConversationError, ExchangeError, Opened};
use mls_member::Member;
use mls_suite::Suite;
use std::alloc::{AllocError, Global};
use std::test::Fail;

/// The conversations of Alice, Bob and Carol.
#[derive(Drop)]
pub(crate) struct Speakers<S: Suite> {
    pub alice: Box<Conversation<S>>,
    pub bob: Box<Conversation<S>>,
    pub carol: Box<Conversation<S>>,
}

/// A text that is said.
#[derive(Clone, Copy)]
pub(crate) struct Text {
    pub application_data: &'static [u8],
    pub authenticated_data: &'static [u8],
    pub padding: usize,
    pub seed: u8,
}

/// The bytes of hex digits.
pub(crate) fn bytes_of(alloc: Global, digits: &str) -> Result<Vec<u8>, AllocError> {
    match hex::decode(alloc, digits.as_bytes()) {
        Ok(bytes) => Ok(bytes),
        Err(_) => Err(AllocError),
    }
}

/// A value in a box.
fn boxed<T: Drop>(alloc: Global, value: T) -> Result<Box<T>, AllocError> {
    Ok(Box::new(alloc, value)?)
}

/// A member's conversation, in a box.
pub(crate) fn converse<S: Suite>(
    alloc: Global,
    member: &Member<S>,
) -> Result<Box<Conversation<S>>, ConversationError> {
    let conversation = Conversation::of(alloc, member)?;
    Ok(boxed(alloc, conversation)?)
}

/// The number with which a member has no conversation, 0 where it has one.
pub(crate) fn number_of_conversing<S: Suite>(alloc: Global, member: &Member<S>) -> u8 {
    match converse(alloc, member) {
        Ok(_) => 0,
        Err(error) => error.number(),
    }
}

/// Seals a text.
pub(crate) fn say<S: Suite>(
    conversation: &mut Conversation<S>,
    text: &Text,
) -> Result<Vec<u8>, ExchangeError> {
    conversation.seal(
        text.application_data,
        text.authenticated_data,
        text.padding,
        &[text.seed; 32],
    )
}

/// The number that a message is refused with, 0 where it opens.
pub(crate) fn number_of_hearing<S: Suite>(conversation: &mut Conversation<S>, bytes: &[u8]) -> u8 {
    match conversation.open(bytes) {
        Ok(_) => 0,
        Err(error) => error.number(),
    }
}

/// Whether what was opened is a generation of a leaf, with these data.
pub(crate) fn is_said(opened: &Opened, leaf: u32, generation: u32, data: &[u8]) -> bool {
    opened.leaf_index == leaf
        && opened.generation == generation
        && opened.application_data.as_slice() == data
}

/// Whether a message opens as a generation of a leaf, with these data.
pub(crate) fn hears<S: Suite>(
    conversation: &mut Conversation<S>,
    bytes: &[u8],
    leaf: u32,
    generation: u32,
    data: &[u8],
) -> Result<bool, ExchangeError> {
    let opened = conversation.open(bytes)?;
    Ok(is_said(&opened, leaf, generation, data))
}

/// The conversations of three members.
pub(crate) fn converse_all<S: Suite>(
    alloc: Global,
    members: &Trio<S>,
) -> Result<Speakers<S>, ConversationError> {
    let alice = converse(alloc, &members.alice)?;
    let bob = converse(alloc, &members.bob)?;
    let carol = converse(alloc, &members.carol)?;
    Ok(Speakers { alice, bob, carol })
}

/// The conversations of three members of a new group of this name.
pub(crate) fn new_speakers<S: Suite>(alloc: Global, group_id: &[u8]) -> Result<Speakers<S>, Fail> {
    let members = create_trio::<S>(alloc, group_id)?;
    Ok(converse_all(alloc, &members)?)
}

impl<S: Suite> Speakers<S> {
    /// The one at leaf 0 or 1 seals a text, Carol where it is another leaf.
    pub(crate) fn say(&mut self, leaf: u32, text: &Text) -> Result<Vec<u8>, ExchangeError> {
        match leaf {
            0 => say(&mut self.alice, text),
            1 => say(&mut self.bob, text),
            _ => say(&mut self.carol, text),
        }
    }

    /// The same one opens a message.
    pub(crate) fn hear(&mut self, leaf: u32, bytes: &[u8]) -> Result<Opened, ExchangeError> {
        match leaf {
            0 => self.alice.open(bytes),
            1 => self.bob.open(bytes),
            _ => self.carol.open(bytes),
        }
    }
}
