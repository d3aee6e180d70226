//! A conversation that was saved goes on as it was.

use crate::conversations::speakers::{Text, converse, hears, number_of_hearing, say};
use crate::conversations::trio::create_trio;
use mls_conversation::{Conversation, ExchangeError};
use mls_leaf::LeafError;
use mls_suite::{Glass, Suite};
use std::alloc::Global;
use std::test::Fail;

const HELLO: Text = Text {
    application_data: b"hello",
    authenticated_data: b"",
    padding: 0,
    seed: 7,
};

/// The number that `restore` refuses bytes with, 0 where it goes on with them.
fn number_of_restoring<S: Suite>(conversation: &mut Conversation<S>, bytes: &[u8]) -> u8 {
    match conversation.restore(bytes) {
        Ok(()) => 0,
        Err(error) => error.number(),
    }
}

/// Two messages, in their order.
struct Pair {
    first: Vec<u8>,
    second: Vec<u8>,
}

impl Drop for Pair {
    fn drop(self) {
        let Pair {
            first: _,
            second: _,
        } = self;
    }
}

/// Two messages that one says.
fn say_twice<S: Suite>(conversation: &mut Conversation<S>) -> Result<Pair, ExchangeError> {
    let first = say(conversation, &HELLO)?;
    let second = say(conversation, &HELLO)?;
    Ok(Pair { first, second })
}

/// What Alice is saved as, once she said something and opened the second of two messages.
fn saved_after<S: Suite>(alice: &mut Conversation<S>, heard: &[u8]) -> Result<Vec<u8>, LeafError> {
    let _ = number_of_hearing(alice, heard);
    let _ = say(alice, &HELLO);
    alice.save()
}

/// What the conversation of Alice at first answers: to Bob's save, to a save of hers without its last byte, to the save, to
/// the same once more, then to the second message of Bob's and to the first.
fn answers_of<S: Suite>(
    alice: &mut Conversation<S>,
    saved: &[u8],
    other: &[u8],
    said: &Pair,
) -> [u8; 6] {
    [
        number_of_restoring(alice, other),
        number_of_restoring(alice, &saved[..saved.len().saturating_sub(1)]),
        number_of_restoring(alice, saved),
        number_of_restoring(alice, saved),
        number_of_hearing(alice, &said.second),
        number_of_hearing(alice, &said.first),
    ]
}

/// `answers_of` in a new group, and whether Bob hears what Alice says next as her second message.
fn answers_after_saving(alloc: Global) -> Result<([u8; 6], bool), Fail> {
    let members = create_trio::<Glass>(alloc, b"group")?;
    let mut bob = converse(alloc, &members.bob)?;
    let mut before = converse(alloc, &members.alice)?;
    let mut alice = converse(alloc, &members.alice)?;
    drop(members);
    let said = say_twice(&mut bob)?;
    let saved = saved_after(&mut before, &said.second)?;
    let other = bob.save()?;
    let answers = answers_of(&mut alice, &saved, &other, &said);
    let next = say(&mut alice, &HELLO)?;
    Ok((answers, hears(&mut bob, &next, 0, 1, b"hello")?))
}

#[test]
fn a_saved_conversation_goes_on(rt: HostRuntime) -> Result<(), Fail> {
    assert_eq!(rt;
        answers_after_saving(rt.alloc())?,
        ([7, 2, 0, 116, 116, 0], true)
    );
    Ok(())
}
