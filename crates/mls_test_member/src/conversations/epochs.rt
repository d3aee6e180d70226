//! Other groups, other epochs, and a member that is gone.

use crate::conversations::speakers::{
    Speakers, Text, bytes_of, converse, converse_all, new_speakers, number_of_conversing,
    number_of_hearing, say,
};
use crate::conversations::trio::{Trio, create_trio};
use mls_conversation::{Conversation, ExchangeError};
use mls_suite::{Glass, Suite};
use std::alloc::Global;
use std::test::Fail;

const HELLO: Text = Text {
    application_data: b"hello",
    authenticated_data: b"aad",
    padding: 3,
    seed: 6,
};

/// What Bob answers to a message of the other group's Alice, and what the other Bob does.
fn answers_to_other<S: Suite>(
    here: &mut Speakers<S>,
    there: &mut Speakers<S>,
) -> Result<(u8, u8), ExchangeError> {
    let message = there.say(0, &HELLO)?;
    let here = number_of_hearing(&mut here.bob, &message);
    Ok((here, number_of_hearing(&mut there.bob, &message)))
}

/// `answers_to_other` in two new groups of the same candidates.
fn answers_elsewhere(alloc: Global) -> Result<(u8, u8), Fail> {
    let mut here = new_speakers::<Glass>(alloc, b"group")?;
    let mut there = new_speakers::<Glass>(alloc, b"groep")?;
    Ok(answers_to_other(&mut here, &mut there)?)
}

#[test]
fn another_group(rt: HostRuntime) -> Result<(), Fail> {
    assert_eq!(rt; answers_elsewhere(rt.alloc())?, (111, 0));
    Ok(())
}

/// A message that says it is of leaf 2, in the epoch after that was removed: tools/application-messages prints it.
const OF_GONE: &str =
    "000100020567726f7570000000000000000201002c8bd1fee2e848181fea41ec9198004ebed7329990512dd64f1bfec81a99f8e9d0ade31b1cec70c99e0e5bd9c4404745a125a7afa1ef1594503d1ac1b071ebe915afc2dda502ee53d33037159122ef3831290150f577a20a557eef80bc823e638b3ef42307321ecfe764484e6fbca76efda13f5497bc";

/// What is answered after Carol was removed: by Bob and Carol of the epoch before to Alice's message, by Bob to Carol's last
/// one and to one in her name, and then by Bob of each epoch to the message of his epoch.
fn answers_across<S: Suite>(
    alloc: Global,
    before: &mut Speakers<S>,
    alice: &mut Conversation<S>,
    bob: &mut Conversation<S>,
) -> Result<[u8; 6], ExchangeError> {
    let last = before.say(2, &HELLO)?;
    let message = say(alice, &HELLO)?;
    let of_gone = bytes_of(alloc, OF_GONE)?;
    Ok([
        number_of_hearing(&mut before.bob, &message),
        number_of_hearing(&mut before.carol, &message),
        number_of_hearing(bob, &last),
        number_of_hearing(bob, &of_gone),
        number_of_hearing(&mut before.bob, &last),
        number_of_hearing(bob, &message),
    ])
}

/// What is answered after Carol was removed, by conversations of the members that followed the removal.
fn answers_after<S: Suite>(
    alloc: Global,
    before: &mut Speakers<S>,
    members: &Trio<S>,
) -> Result<[u8; 6], Fail> {
    let mut alice = converse(alloc, &members.alice)?;
    let mut bob = converse(alloc, &members.bob)?;
    Ok(answers_across(alloc, before, &mut alice, &mut bob)?)
}

/// The number with which Carol has no conversation after her removal, and what the others answer.
fn answers_of_removal<S: Suite>(
    alloc: Global,
    members: &mut Trio<S>,
) -> Result<(u8, [u8; 6]), Fail> {
    let mut before = converse_all(alloc, members)?;
    members.remove_carol(alloc)?;
    let of_carol = number_of_conversing(alloc, &members.carol);
    Ok((of_carol, answers_after(alloc, &mut before, members)?))
}

/// `answers_of_removal` in a new group.
fn removal_answers(alloc: Global) -> Result<(u8, [u8; 6]), Fail> {
    let mut members = create_trio::<Glass>(alloc, b"group")?;
    answers_of_removal(alloc, &mut members)
}

#[test]
fn a_member_is_removed(rt: HostRuntime) -> Result<(), Fail> {
    assert_eq!(rt;
        removal_answers(rt.alloc())?,
        (40, [112, 112, 112, 114, 0, 0])
    );
    Ok(())
}
