//! Conversations: made of a member, a message sealed, a message opened, each twice.

use crate::group::Trio;
use crate::page::{print_bytes, print_member, print_refusal};
use crate::trial::{Trial, try_twice};
use anyhow::Result;
use mls_conversation::{Conversation, ConversationError, ExchangeError, Opened};
use mls_member::Member;
use mls_suite::Glass;
use std::alloc::Global;

/// What a conversation does behind both calls.
const THEN: &str = "then";

/// A member's conversation, in a box.
pub(crate) fn converse(alloc: Global, member: &Member<Glass>) -> Result<Box<Conversation<Glass>>> {
    let conversation = Conversation::of(alloc, member)?;
    Ok(Box::new(alloc, conversation)?)
}

/// Seals "hi".
fn say(conversation: &mut Conversation<Glass>) -> Result<Vec<u8>, ExchangeError> {
    conversation.seal(b"hi", b"aad", 1, &[9; 32])
}

/// The conversations of three members.
#[derive(Drop)]
struct Talk {
    first: Box<Conversation<Glass>>,
    second: Box<Conversation<Glass>>,
    third: Box<Conversation<Glass>>,
}

impl Talk {
    /// Those of the trio.
    fn new(alloc: Global) -> Result<Talk> {
        let group = Trio::new(alloc)?;
        Ok(Talk {
            first: converse(alloc, &group.first)?,
            second: converse(alloc, &group.second)?,
            third: converse(alloc, &group.third)?,
        })
    }
}

/// All that a conversation shows.
fn print_conversation(
    rt: &impl Print,
    alloc: Global,
    part: &str,
    conversation: &Conversation<Glass>,
) -> Result<()> {
    println!(rt; "{part}: epoch: {}", conversation.epoch())?;
    print_bytes(rt, alloc, part, "group_id", conversation.group_id())
}

/// A sealed message, or why there is none.
fn print_sealed(
    rt: &impl Print,
    alloc: Global,
    part: &str,
    answer: Result<Vec<u8>, ExchangeError>,
) -> Result<()> {
    match answer {
        Ok(message) => print_bytes(rt, alloc, part, "message", &message),
        Err(error) => print_refusal(rt, part, error.number(), error.name()),
    }
}

/// What was opened.
fn print_heard(rt: &impl Print, alloc: Global, part: &str, opened: &Opened) -> Result<()> {
    println!(rt; "{part}: leaf: {}", opened.leaf_index)?;
    println!(rt; "{part}: generation: {}", opened.generation)?;
    print_bytes(rt, alloc, part, "identity", opened.identity.as_slice())?;
    let (data, added) = (&opened.application_data, &opened.authenticated_data);
    print_bytes(rt, alloc, part, "data", data.as_slice())?;
    print_bytes(rt, alloc, part, "authenticated_data", added.as_slice())
}

/// An opened message, or why it isn't opened.
fn print_opened(
    rt: &impl Print,
    alloc: Global,
    part: &str,
    answer: Result<Opened, ExchangeError>,
) -> Result<()> {
    match answer {
        Ok(opened) => print_heard(rt, alloc, part, &opened),
        Err(error) => print_refusal(rt, part, error.number(), error.name()),
    }
}

/// What a conversation opens of messages behind both calls.
fn print_openings(
    rt: &impl Print,
    alloc: Global,
    conversation: &mut Conversation<Glass>,
    messages: &[Vec<u8>],
) -> Result<()> {
    for message in messages {
        print_opened(rt, alloc, THEN, conversation.open(message))?;
    }
    Ok(())
}

/// All that a conversation shows, and what it seals first.
fn print_begun(
    rt: &impl Print,
    alloc: Global,
    part: &str,
    conversation: &mut Conversation<Glass>,
) -> Result<()> {
    print_conversation(rt, alloc, part, conversation)?;
    print_sealed(rt, alloc, part, say(conversation))
}

/// A member that begins a conversation.
#[derive(Drop)]
struct Beginning {
    member: Box<Member<Glass>>,
}

impl Trial for Beginning {
    type Answer = Result<Conversation<Glass>, ConversationError>;

    fn print_held(&self, rt: &impl Print, alloc: Global, part: &str) -> Result<()> {
        print_member(rt, alloc, part, &self.member, &[])
    }

    fn call(&mut self, alloc: Global) -> Result<Conversation<Glass>, ConversationError> {
        Conversation::of(alloc, &self.member)
    }

    fn print_answer(
        &self,
        rt: &impl Print,
        alloc: Global,
        part: &str,
        answer: Result<Conversation<Glass>, ConversationError>,
    ) -> Result<()> {
        match answer {
            Ok(mut conversation) => print_begun(rt, alloc, part, &mut conversation),
            Err(error) => print_refusal(rt, part, error.number(), error.name()),
        }
    }
}

/// The second of three begins a conversation.
pub(crate) fn try_converse(rt: &impl Print, alloc: Global) -> Result<()> {
    let Trio { second: member, .. } = Trio::new(alloc)?;
    let mut beginning = Beginning { member };
    try_twice(rt, alloc, &mut beginning)
}

/// A conversation that seals.
#[derive(Drop)]
struct Sealing {
    conversation: Box<Conversation<Glass>>,
}

impl Trial for Sealing {
    type Answer = Result<Vec<u8>, ExchangeError>;

    fn print_held(&self, rt: &impl Print, alloc: Global, part: &str) -> Result<()> {
        print_conversation(rt, alloc, part, &self.conversation)
    }

    fn call(&mut self, _alloc: Global) -> Result<Vec<u8>, ExchangeError> {
        say(&mut self.conversation)
    }

    fn print_answer(
        &self,
        rt: &impl Print,
        alloc: Global,
        part: &str,
        answer: Result<Vec<u8>, ExchangeError>,
    ) -> Result<()> {
        print_sealed(rt, alloc, part, answer)
    }
}

/// The first of three seals, and then opens what the others say.
pub(crate) fn try_seal(rt: &impl Print, alloc: Global) -> Result<()> {
    let Talk {
        first: conversation,
        mut second,
        mut third,
    } = Talk::new(alloc)?;
    let others = [say(&mut second)?, say(&mut third)?];
    let mut sealing = Sealing { conversation };
    try_twice(rt, alloc, &mut sealing)?;
    print_openings(rt, alloc, &mut sealing.conversation, &others)
}

/// A conversation that opens a message.
#[derive(Drop)]
struct Opening {
    conversation: Box<Conversation<Glass>>,
    message: Vec<u8>,
}

impl Trial for Opening {
    type Answer = Result<Opened, ExchangeError>;

    fn print_held(&self, rt: &impl Print, alloc: Global, part: &str) -> Result<()> {
        print_conversation(rt, alloc, part, &self.conversation)
    }

    fn call(&mut self, _alloc: Global) -> Result<Opened, ExchangeError> {
        self.conversation.open(&self.message)
    }

    fn print_answer(
        &self,
        rt: &impl Print,
        alloc: Global,
        part: &str,
        answer: Result<Opened, ExchangeError>,
    ) -> Result<()> {
        print_opened(rt, alloc, part, answer)
    }
}

/// A message is opened, and then others. Then the conversation seals.
fn open_and_go_on(
    rt: &impl Print,
    alloc: Global,
    opening: Opening,
    others: &[Vec<u8>],
) -> Result<()> {
    let mut opening = opening;
    try_twice(rt, alloc, &mut opening)?;
    print_openings(rt, alloc, &mut opening.conversation, others)?;
    print_sealed(rt, alloc, THEN, say(&mut opening.conversation))
}

/// The third of three opens the third message of the first, and then the two that it passed over and one of the second.
pub(crate) fn try_open(rt: &impl Print, alloc: Global) -> Result<()> {
    let Talk {
        mut first,
        mut second,
        third: conversation,
    } = Talk::new(alloc)?;
    let others = [say(&mut first)?, say(&mut first)?, say(&mut second)?];
    let message = say(&mut first)?;
    let opening = Opening {
        conversation,
        message,
    };
    open_and_go_on(rt, alloc, opening, &others)
}

/// The third of three, which opened the third message of the first, opens the first one, and then the second and one of
/// the second member.
pub(crate) fn try_open_passed(rt: &impl Print, alloc: Global) -> Result<()> {
    let Talk {
        mut first,
        mut second,
        third: mut conversation,
    } = Talk::new(alloc)?;
    let message = say(&mut first)?;
    let others = [say(&mut first)?, say(&mut second)?];
    conversation.open(&say(&mut first)?)?;
    let opening = Opening {
        conversation,
        message,
    };
    open_and_go_on(rt, alloc, opening, &others)
}
