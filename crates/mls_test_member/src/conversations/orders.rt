//! Messages in whatever order, each once.

use crate::conversations::speakers::{
    Speakers, Text, converse, converse_all, hears, new_speakers, number_of_hearing, say,
};
use crate::conversations::trio::{Trio, create_trio};
use mls_conversation::{Conversation, ExchangeError};
use mls_member::Member;
use mls_suite::{Glass, Suite};
use std::alloc::{AllocError, Global};
use std::test::Fail;

/// The data of message N of ten: Alice's are the even ones, Bob's the others.
const DATA: [&[u8]; 10] = [b"0", b"1", b"2", b"3", b"4", b"5", b"6", b"7", b"8", b"9"];

/// The orders in which Carol gets the ten messages.
const ORDERS: [[u8; 10]; 6] = [
    [0, 1, 2, 3, 4, 5, 6, 7, 8, 9],
    [9, 8, 7, 6, 5, 4, 3, 2, 1, 0],
    [8, 6, 4, 2, 0, 1, 3, 5, 7, 9],
    [5, 0, 9, 4, 7, 2, 3, 8, 1, 6],
    [0, 2, 1, 4, 3, 6, 5, 8, 7, 9],
    [4, 9, 8, 5, 0, 7, 6, 1, 2, 3],
];

/// A text with these data.
fn text_of(data: &'static [u8]) -> Text {
    Text {
        application_data: data,
        authenticated_data: b"",
        padding: 0,
        seed: 9,
    }
}

/// Puts a message behind others.
fn add(messages: &mut Vec<Vec<u8>>, message: Vec<u8>) -> Result<(), AllocError> {
    Ok(messages.push(message)?)
}

/// The ten messages.
fn ten_messages<S: Suite>(
    alloc: Global,
    speakers: &mut Speakers<S>,
) -> Result<Vec<Vec<u8>>, ExchangeError> {
    let mut messages = Vec::new(alloc);
    let mut leaf = 0;
    for data in DATA {
        add(&mut messages, speakers.say(leaf, &text_of(data))?)?;
        leaf = if leaf == 0 { 1 } else { 0 };
    }
    Ok(messages)
}

/// Whether message N opens as what was said, and a second time is refused as used (116).
fn hears_once<S: Suite>(
    conversation: &mut Conversation<S>,
    messages: &[Vec<u8>],
    number: u8,
) -> Result<bool, ExchangeError> {
    let place = usize::from(number);
    let (Some(message), Some(data)) = (messages.get(place), DATA.get(place)) else {
        return Ok(false);
    };
    let (leaf, generation) = (u32::from(number % 2), u32::from(number / 2));
    let is_heard = hears(conversation, message, leaf, generation, data)?;
    Ok(is_heard && number_of_hearing(conversation, message) == 116)
}

/// How many of the ten open in an order, each once.
fn heard_in_order<S: Suite>(
    conversation: &mut Conversation<S>,
    messages: &[Vec<u8>],
    order: &[u8; 10],
) -> Result<u32, ExchangeError> {
    let mut count: u32 = 0;
    for number in *order {
        if hears_once(conversation, messages, number)? {
            count = count.saturating_add(1);
        }
    }
    Ok(count)
}

/// How many of some messages are refused as used.
fn count_used<S: Suite>(conversation: &mut Conversation<S>, messages: &[Vec<u8>]) -> u32 {
    let mut count: u32 = 0;
    for message in messages {
        if number_of_hearing(conversation, message) == 116 {
            count = count.saturating_add(1);
        }
    }
    count
}

/// How many open in an order, each once, at a member that used no key before, and how many are refused as used then.
fn heard_and_used<S: Suite>(
    alloc: Global,
    member: &Member<S>,
    messages: &[Vec<u8>],
    order: &[u8; 10],
) -> Result<(u32, u32), Fail> {
    let mut conversation = converse(alloc, member)?;
    let heard = heard_in_order(&mut conversation, messages, order)?;
    Ok((heard, count_used(&mut conversation, messages)))
}

/// How many orders are heard whole, and then used up.
fn count_orders<S: Suite>(
    alloc: Global,
    carol: &Member<S>,
    messages: &[Vec<u8>],
) -> Result<u32, Fail> {
    let mut count: u32 = 0;
    for order in ORDERS {
        if heard_and_used(alloc, carol, messages, &order)? == (10, 10) {
            count = count.saturating_add(1);
        }
    }
    Ok(count)
}

/// How many orders are heard whole by Carol, and how many of the ten Alice, who sealed five of them, has used.
fn answers_of<S: Suite>(alloc: Global, members: &Trio<S>) -> Result<(u32, u32), Fail> {
    let mut speakers = converse_all(alloc, members)?;
    let messages = ten_messages(alloc, &mut speakers)?;
    let own = count_used(&mut speakers.alice, &messages);
    Ok((count_orders(alloc, &members.carol, &messages)?, own))
}

/// `answers_of` in a new group.
fn answers(alloc: Global) -> Result<(u32, u32), Fail> {
    let members = create_trio::<Glass>(alloc, b"group")?;
    answers_of(alloc, &members)
}

#[test]
fn ten_messages_in_six_orders(rt: HostRuntime) -> Result<(), Fail> {
    assert_eq!(rt; answers(rt.alloc())?, (6, 5));
    Ok(())
}

/// Which of Alice's generations are kept for the window's ends.
const KEPT: [u32; 4] = [0, 1, 1000, 1001];

/// Which of them a reader gets, by their place, and with which number each is refused, 0 where it opens: beyond the window,
/// at its end, a second time, and 1,000 generations back.
const AT_WINDOW: [(usize, u8); 8] = [
    (3, 115),
    (2, 0),
    (2, 116),
    (0, 0),
    (0, 116),
    (3, 0),
    (1, 0),
    (1, 116),
];

/// What another reader answers: generation 0 lies 1,001 behind the last that was used.
const BEHIND_WINDOW: [(usize, u8); 4] = [(2, 0), (3, 0), (0, 116), (1, 0)];

/// The messages of the kept generations.
fn kept_messages<S: Suite>(
    alloc: Global,
    conversation: &mut Conversation<S>,
) -> Result<Vec<Vec<u8>>, ExchangeError> {
    let mut kept = Vec::new(alloc);
    for generation in 0..1002_u32 {
        let message = say(conversation, &text_of(b"tick"))?;
        if KEPT.contains(&generation) {
            add(&mut kept, message)?;
        }
    }
    Ok(kept)
}

/// How many steps of a list answer as they should.
fn right_steps<S: Suite>(
    conversation: &mut Conversation<S>,
    messages: &[Vec<u8>],
    steps: &[(usize, u8)],
) -> u32 {
    let mut count: u32 = 0;
    for (place, number) in steps {
        if let Some(message) = messages.get(*place)
            && number_of_hearing(conversation, message) == *number
        {
            count = count.saturating_add(1);
        }
    }
    count
}

/// How many steps of both readers answer as they should.
fn window_steps<S: Suite>(
    alloc: Global,
    speakers: &mut Speakers<S>,
) -> Result<(u32, u32), ExchangeError> {
    let kept = kept_messages(alloc, &mut speakers.alice)?;
    let at = right_steps(&mut speakers.bob, &kept, &AT_WINDOW);
    let behind = right_steps(&mut speakers.carol, &kept, &BEHIND_WINDOW);
    Ok((at, behind))
}

/// `window_steps` in a new group.
fn window_answers(alloc: Global) -> Result<(u32, u32), Fail> {
    let mut speakers = new_speakers::<Glass>(alloc, b"group")?;
    Ok(window_steps(alloc, &mut speakers)?)
}

#[test]
fn ends_of_the_window(rt: HostRuntime) -> Result<(), Fail> {
    assert_eq!(rt; window_answers(rt.alloc())?, (8, 4));
    Ok(())
}
