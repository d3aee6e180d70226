//! Each bit of a message changed, and each end cut off.

use crate::conversations::speakers::{
    Speakers, Text, bytes_of, hears, new_speakers, number_of_hearing,
};
use mls_conversation::{Conversation, ExchangeError};
use mls_suite::{Glass, Suite};
use std::alloc::{AllocError, Global};
use std::test::Fail;

/// Alice's first message, as tools/application-messages prints it.
const HELLO: Text = Text {
    application_data: b"hello",
    authenticated_data: b"aad",
    padding: 3,
    seed: 6,
};

const MESSAGE: &str =
    "000100020567726f7570000000000000000101036161642c2db840942c023b4a5936fbd2a9711f740b981a0152a130615e562918132f2a643bdcadf37002ea64926ae053404ae6f55dbbf817e4530f3a3fe4e59086e7c76a8432f0fffbad38f16e0b9457ae4b3d7569f73491212e88c2e9d8bd006a11841f9921db62ee4c4c4292e5c7444ed58a2298f074e7ae5664c5";

/// How many changes of a bit in the bytes from the first to before the last are refused with a number.
#[derive(Clone, Copy)]
struct Part {
    first: usize,
    last: usize,
    number: u8,
    count: u32,
}

/// By the part of the message that the bit lies in. The counts of headers are by the reader of that tool.
const PARTS: [Part; 18] = [
    // The version.
    Part {
        first: 0,
        last: 2,
        number: 7,
        count: 16,
    },
    // The wire format.
    Part {
        first: 2,
        last: 4,
        number: 7,
        count: 16,
    },
    // The header of the group's identifier: then it ends elsewhere, and other bytes are the content type.
    Part {
        first: 4,
        last: 5,
        number: 2,
        count: 3,
    },
    Part {
        first: 4,
        last: 5,
        number: 7,
        count: 5,
    },
    // The group's identifier.
    Part {
        first: 5,
        last: 10,
        number: 111,
        count: 40,
    },
    // The epoch.
    Part {
        first: 10,
        last: 18,
        number: 112,
        count: 64,
    },
    // The content type.
    Part {
        first: 18,
        last: 19,
        number: 7,
        count: 8,
    },
    // The header of the authenticated data.
    Part {
        first: 19,
        last: 20,
        number: 2,
        count: 8,
    },
    // The authenticated data, with which the content is sealed.
    Part {
        first: 20,
        last: 23,
        number: 117,
        count: 24,
    },
    // The header of the sender data.
    Part {
        first: 23,
        last: 24,
        number: 2,
        count: 7,
    },
    Part {
        first: 23,
        last: 24,
        number: 4,
        count: 1,
    },
    // The sender data.
    Part {
        first: 24,
        last: 68,
        number: 113,
        count: 352,
    },
    // The header of the ciphertext, of two bytes.
    Part {
        first: 68,
        last: 70,
        number: 2,
        count: 11,
    },
    Part {
        first: 68,
        last: 70,
        number: 3,
        count: 3,
    },
    Part {
        first: 68,
        last: 70,
        number: 4,
        count: 1,
    },
    Part {
        first: 68,
        last: 70,
        number: 5,
        count: 1,
    },
    // The ciphertext: its first 32 bytes are the sample that the sender data is sealed under.
    Part {
        first: 70,
        last: 144,
        number: 113,
        count: 256,
    },
    Part {
        first: 70,
        last: 144,
        number: 117,
        count: 336,
    },
];

/// The message with a bit of a byte changed.
fn flipped(alloc: Global, message: &[u8], place: usize, bit: u32) -> Result<Vec<u8>, AllocError> {
    let mut changed = Vec::from_slice(alloc, message)?;
    if let Some(byte) = changed.get_mut(place) {
        *byte = *byte ^ 1_u8.rotate_left(bit);
    }
    Ok(changed)
}

/// How many changes of a bit in a part are refused with its number.
fn count_part<S: Suite>(
    alloc: Global,
    conversation: &mut Conversation<S>,
    message: &[u8],
    part: &Part,
) -> Result<u32, AllocError> {
    let mut count: u32 = 0;
    for place in part.first..part.last {
        for bit in 0..8 {
            let changed = flipped(alloc, message, place, bit)?;
            if number_of_hearing(conversation, &changed) == part.number {
                count = count.saturating_add(1);
            }
        }
    }
    Ok(count)
}

/// How many parts are refused as they should be, and how many bits they have.
fn count_parts<S: Suite>(
    alloc: Global,
    conversation: &mut Conversation<S>,
    message: &[u8],
) -> Result<(u32, u32), AllocError> {
    let (mut right, mut bits): (u32, u32) = (0, 0);
    for part in PARTS {
        let count = count_part(alloc, conversation, message, &part)?;
        bits = bits.saturating_add(count);
        if count == part.count {
            right = right.saturating_add(1);
        }
    }
    Ok((right, bits))
}

/// How many ends of a message, cut off, leave what is refused as cut (2).
fn count_prefixes<S: Suite>(conversation: &mut Conversation<S>, message: &[u8]) -> usize {
    let mut count: usize = 0;
    for end in 0..message.len() {
        if number_of_hearing(conversation, &message[..end]) == 2 {
            count = count.saturating_add(1);
        }
    }
    count
}

/// What Alice's first message is answered by Bob, with each bit changed, and each end cut off; and whether it is the one by
/// hand and opens then.
fn answers_of<S: Suite>(
    alloc: Global,
    speakers: &mut Speakers<S>,
) -> Result<((u32, u32), usize, bool, bool), ExchangeError> {
    let message = speakers.say(0, &HELLO)?;
    let counts = count_parts(alloc, &mut speakers.bob, &message)?;
    let prefixes = count_prefixes(&mut speakers.bob, &message);
    let is_by_hand = message.as_slice() == bytes_of(alloc, MESSAGE)?.as_slice();
    let opens = hears(&mut speakers.bob, &message, 0, 0, b"hello")?;
    Ok((counts, prefixes, is_by_hand, opens))
}

/// `answers_of` in a new group of three.
fn answers(alloc: Global) -> Result<((u32, u32), usize, bool, bool), Fail> {
    let mut speakers = new_speakers::<Glass>(alloc, b"group")?;
    Ok(answers_of(alloc, &mut speakers)?)
}

#[test]
fn each_bit_and_each_prefix(rt: HostRuntime) -> Result<(), Fail> {
    // All bits of the 144 bytes are told, and nothing is changed by the refusals.
    assert_eq!(rt; answers(rt.alloc())?, ((18, 1152), 144, true, true));
    Ok(())
}
