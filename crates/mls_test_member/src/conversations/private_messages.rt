//! Private messages of any sender, with any key, signature and padding, by RFC 9420, 6.3, with Python's hashlib and hmac:
//! tools/mls_private_message/rows prints them.

use crate::conversations::speakers::bytes_of;
use mls_leaf::{Bytes, Codec, LeafError};
use mls_private_message::{
    PrivateMessage, PrivateMessageError, SenderData, open_content, open_sender_data, read_content,
    seal_content, seal_sender_data, write_content,
};
use mls_secret_tree::MessageKey;
use mls_suite::Glass;
use mls_wire::WireError;
use std::alloc::{AllocError, Global};
use std::test::Fail;

const SENDER_DATA_SECRET: [u8; 32] = [3; 32];

const KEY: MessageKey = MessageKey {
    key: [4; 16],
    nonce: [5; 12],
};

const SENDER: SenderData = SenderData {
    leaf_index: 2,
    generation: 9,
    reuse_guard: 0x0102_0304,
};

/// A message and what it is made of.
#[derive(Clone, Copy)]
struct SealedRow {
    group_id: &'static [u8],
    epoch: u64,
    authenticated_data: &'static [u8],
    application_data: &'static [u8],
    signature: &'static [u8],
    padding: usize,
    sender: SenderData,
    message: &'static str,
}

const SHORT: SealedRow = SealedRow {
    group_id: b"group",
    epoch: 7,
    authenticated_data: b"aad",
    application_data: b"hello",
    signature: &[9; 4],
    padding: 3,
    sender: SENDER,
    message: "000100020567726f7570000000000000000701036161642c53429d54f84d804f6b8aa6bdd66b74599fab0726592dbc574017b00b5866e03a5d2f772483ef55c1edde14172ea5738cdd65950e1eabdc053216194fabc4b130116050667ff739a2fdf4dca82e5ad3501d10e83a617b1d098a4baa",
};

const EMPTY: SealedRow = SealedRow {
    group_id: b"",
    epoch: 0,
    authenticated_data: b"",
    application_data: b"",
    signature: b"",
    padding: 0,
    sender: SenderData {
        leaf_index: 0,
        generation: 0,
        reuse_guard: 0,
    },
    message: "0001000200000000000000000001002cccdfdbe4e7b767036f7383b119e055979ebdda689337c1972287910796ec35711deb6ba804565a8cf82c251d22b6520e7a8ba19661fd8068a7e3fa7ca3429009c59c527be5e27be2a671ecc874b119",
};

const LONG: SealedRow = SealedRow {
    group_id: &[b'g'; 64],
    epoch: u64::MAX,
    authenticated_data: &[b'a'; 70],
    application_data: &[b'd'; 70],
    signature: &[10; 64],
    padding: 40,
    sender: SenderData {
        leaf_index: u32::MAX,
        generation: u32::MAX,
        reuse_guard: 0xfffe_fdfc,
    },
    message: "00010002404067676767676767676767676767676767676767676767676767676767676767676767676767676767676767676767676767676767676767676767676767676767ffffffffffffffff014046616161616161616161616161616161616161616161616161616161616161616161616161616161616161616161616161616161616161616161616161616161616161616161612c01a4023a5e96a9519742c2ce4bc6a318e154406f754cde606de0fd96009e5ec649975d838eb51e391fb4d40140d2e9b1e3fbde7456c4cf9f3e8b00caf6fe8544f4afc4fcabeedb69d7b2ce05e20f67115bc8c57e9c1493c08d5d6a1ec5a7edac29dcc737864ab444ffb6715618dea35ac9f19c0b75a2846e84a3659520e3148c7c3182df08693a783949ec940d5155352a2e1b2a1467f1d06597d9c633b6992d357ff6e5087144ae70306759d539687dafa9716ca4d9652a1033b9994b59127f06e471edad5e8d7aaa912ad9444eeafde143fdad3d2dbe907bd45119318455d28876653053d0d273ffb7ec2b91bc81a3c11895482138169645a1c07e6c981768",
};

/// Messages that stay shut, or whose content is none, and the number of the refusal.
const REFUSED: [(&str, u8); 8] = [
    // Sender data of 11 bytes, and of 13.
    (
        "000100020567726f7570000000000000000701036161642b53429d54f84d804f6b8aa6418d58441496079e84b66c64e6a405cff548bc6fcbf53581577a2da885d4750c2ea5738cdd65950e1eabdc053216194fabc4b130116050667ff739a2fdf4dca82e5ad3501d10e83a617b1d098a4baa",
        113,
    ),
    (
        "000100020567726f7570000000000000000701036161642d53429d54f84d804f6b8aa6bd6a79ea2a09966e9a5b8761e9a4004926ea5ee6a629b2d68df022bfe04b53cbc4ba2ea5738cdd65950e1eabdc053216194fabc4b130116050667ff739a2fdf4dca82e5ad3501d10e83a617b1d098a4baa",
        113,
    ),
    // Sender data under the first 31 bytes of the ciphertext, and under 33.
    (
        "000100020567726f7570000000000000000701036161642c2c0ef53e7aa5f0a5522155c0b81938a2dce7f060f073581df660613b0cbd26715da36b1574fa101d6e7842d72ea5738cdd65950e1eabdc053216194fabc4b130116050667ff739a2fdf4dca82e5ad3501d10e83a617b1d098a4baa",
        113,
    ),
    (
        "000100020567726f7570000000000000000701036161642c8747fbdd4dbd101f6c77c3607f32e0515c3e8c02ea9974e56e9da086e30af69fa7131e4d9a7cd85c461ae51b2ea5738cdd65950e1eabdc053216194fabc4b130116050667ff739a2fdf4dca82e5ad3501d10e83a617b1d098a4baa",
        113,
    ),
    // A content under the nonce of the ratchet, with no guard.
    (
        "000100020567726f7570000000000000000701036161642c547d172342034d0f12739acdbed10a681b13fe3410d882e270381b4eff65d16c0002ea6b69f6f04c844b27a62e8d127f373baef2d064e1c32826bcd09e1a64645897158ad75575589b287fa7c14e064a27fbf76755c7091093bbfa",
        117,
    ),
    // Padding that ends in 01, and padding that begins with 80.
    (
        "000100020567726f7570000000000000000701036161642c4a1e75c5b0087b30d9069b2e179be6e6c6d8d40d1631ae26df0f29f59b0eba52a302eab6154c548b35955b742ea5738cdd65950e1eabdc053216187e37afd2c1db94a22ca4b882ebd109c502f4e413c2b6084bbf5530eac3a7ac35",
        118,
    ),
    (
        "000100020567726f7570000000000000000701036161642c3a3cfc4f27d634df287afc441f99490ab2fe0c5d6b8ce4fbd24bcbd1f1573b55461f64be8a355a9021958f562ea5738cdd65950e1eabdc05b216197006e58705f298435b0510c2f19248d289245e99342b804ac0768967a3960ab2",
        118,
    ),
    // A content without a signature.
    (
        "000100020567726f7570000000000000000701036161642c47ac88b1fa50479e3ca51539a18024af2c7118384668a8d93eb2b86429dbd861ecdd2a34999102d6bc395f6026a5738cdd659513c16420e87f6f0fc6dee34031eb79135a4a3dc4a1a68c764e9f7c3f4c69841f",
        2,
    ),
];

/// Seals what a row says.
fn seal_row(alloc: Global, row: &SealedRow) -> Result<Vec<u8>, LeafError> {
    let content = write_content(alloc, row.application_data, row.signature, row.padding)?;
    let ciphertext = seal_content::<Glass>(
        alloc,
        &KEY,
        row.sender.reuse_guard,
        row.group_id,
        row.epoch,
        row.authenticated_data,
        &content,
    )?;
    let sealed = seal_sender_data::<Glass>(
        alloc,
        &SENDER_DATA_SECRET,
        row.group_id,
        row.epoch,
        &ciphertext,
        &row.sender,
    )?;
    let message = PrivateMessage {
        group_id: Bytes::from_slice(alloc, row.group_id)?,
        epoch: row.epoch,
        authenticated_data: Bytes::from_slice(alloc, row.authenticated_data)?,
        encrypted_sender_data: Bytes::from_vec(sealed),
        ciphertext: Bytes::from_vec(ciphertext),
    };
    message.encode(alloc)
}

/// The sender data and the content of a message.
fn open_private(alloc: Global, bytes: &[u8]) -> Result<(SenderData, Vec<u8>), PrivateMessageError> {
    let message = PrivateMessage::decode(alloc, bytes)?;
    let sender = open_sender_data::<Glass>(alloc, &SENDER_DATA_SECRET, &message)?;
    let content = open_content::<Glass>(alloc, &KEY, sender.reuse_guard, &message)?;
    Ok((sender, content))
}

/// The number that bytes are refused with as a content, 0 where they are one.
fn number_of_reading(content: &[u8]) -> u8 {
    match read_content(content) {
        Ok(_) => 0,
        Err(error) => error.number(),
    }
}

/// The number that a message is refused with, 0 where it opens. Want of memory is passed on.
fn number_of_opening(alloc: Global, bytes: &[u8]) -> Result<u8, AllocError> {
    match open_private(alloc, bytes) {
        Ok((_, content)) => Ok(number_of_reading(&content)),
        Err(PrivateMessageError::Leaf(LeafError::Wire(WireError::OutOfMemory))) => Err(AllocError),
        Err(error) => Ok(error.number()),
    }
}

/// Whether a row is sealed as by hand.
fn seals_row(alloc: Global, row: &SealedRow) -> Result<bool, LeafError> {
    let message = bytes_of(alloc, row.message)?;
    let sealed = seal_row(alloc, row)?;
    Ok(sealed.as_slice() == message.as_slice())
}

/// Whether a content shows what a row says.
fn content_shows(row: &SealedRow, content: &[u8]) -> bool {
    match read_content(content) {
        Ok(read) => {
            read.application_data == row.application_data && read.signature == row.signature
        }
        Err(_) => false,
    }
}

/// Whether the message by hand opens to what a row says.
fn opens_row(alloc: Global, row: &SealedRow) -> Result<bool, PrivateMessageError> {
    let message = bytes_of(alloc, row.message)?;
    let (sender, content) = open_private(alloc, &message)?;
    Ok(sender == row.sender && content_shows(row, &content))
}

#[test]
fn private_messages_by_hand(rt: HostRuntime) -> Result<(), Fail> {
    for row in [SHORT, EMPTY, LONG] {
        assert_eq!(rt; seals_row(rt.alloc(), &row)?, true);
        assert_eq!(rt; opens_row(rt.alloc(), &row)?, true);
    }
    Ok(())
}

/// How many messages are refused with their number.
fn count_refused(alloc: Global) -> Result<u32, AllocError> {
    let mut count: u32 = 0;
    for (digits, number) in REFUSED {
        let message = bytes_of(alloc, digits)?;
        if number_of_opening(alloc, &message)? == number {
            count = count.saturating_add(1);
        }
    }
    Ok(count)
}

#[test]
fn private_messages_stay_shut(rt: HostRuntime) -> Result<(), Fail> {
    assert_eq!(rt; count_refused(rt.alloc())?, 8);
    Ok(())
}

/// One byte of a message changed, at a place from its front, and the number of the refusal: the version, the wire format,
/// the group, the epoch, the content type, the authenticated data, the sealed sender data, the sample, and what is behind.
const CHANGED: [(usize, u8); 9] = [
    (1, 7),
    (3, 7),
    (5, 113),
    (17, 113),
    (18, 7),
    (20, 117),
    (24, 113),
    (69, 113),
    (114, 117),
];

/// The number of the short message with a byte changed.
fn number_of_change(alloc: Global, place: usize) -> Result<u8, AllocError> {
    let mut message = bytes_of(alloc, SHORT.message)?;
    if let Some(byte) = message.get_mut(place) {
        *byte ^= 1;
    }
    number_of_opening(alloc, &message)
}

#[test]
fn changed_bytes_are_refused(rt: HostRuntime) -> Result<(), Fail> {
    for (place, number) in CHANGED {
        assert_eq!(rt; number_of_change(rt.alloc(), place)?, number);
    }
    Ok(())
}

/// How many beginnings of a message are refused as cut (2).
fn count_cut(alloc: Global, message: &[u8]) -> Result<usize, AllocError> {
    let mut count: usize = 0;
    for end in 0..message.len() {
        if number_of_opening(alloc, &message[..end])? == 2 {
            count = count.saturating_add(1);
        }
    }
    Ok(count)
}

/// How many bytes the short message has, how many of its beginnings are refused as cut, and the number of the message with
/// a byte behind it.
fn answers_at_ends(alloc: Global) -> Result<(usize, usize, u8), AllocError> {
    let mut message = bytes_of(alloc, SHORT.message)?;
    let count = count_cut(alloc, &message)?;
    let length = message.len();
    message.push(0)?;
    Ok((length, count, number_of_opening(alloc, &message)?))
}

#[test]
fn ends_of_a_private_message(rt: HostRuntime) -> Result<(), Fail> {
    assert_eq!(rt; answers_at_ends(rt.alloc())?, (115, 115, 3));
    Ok(())
}

/// Whether the sender data beside a ciphertext of five bytes is sealed as by hand: the sample is all of them.
fn seals_beside_short(alloc: Global) -> Result<bool, LeafError> {
    let sealed = seal_sender_data::<Glass>(
        alloc,
        &SENDER_DATA_SECRET,
        b"group",
        7,
        b"short",
        &SENDER,
    )?;
    let by_hand = bytes_of(
        alloc,
        "f7229897da4c6c1b08f2a4da4a31ab7601d26548f910ab382095648e9b5b042ac42fa015f9c17d98e70cedde",
    )?;
    Ok(sealed.as_slice() == by_hand.as_slice())
}

#[test]
fn sample_of_a_short_ciphertext(rt: HostRuntime) -> Result<(), Fail> {
    assert_eq!(rt; seals_beside_short(rt.alloc())?, true);
    Ok(())
}

#[test]
fn sender_data_as_a_codec(rt: HostRuntime) -> Result<(), Fail> {
    let spelled = SENDER.encode(rt.alloc())?;
    let by_hand = bytes_of(rt.alloc(), "000000020000000901020304")?;
    assert_eq!(rt; spelled.as_slice(), by_hand.as_slice());
    assert_eq!(rt; SenderData::decode(rt.alloc(), &spelled)? == SENDER, true);
    let cut = bytes_of(rt.alloc(), "0000000200000009010203")?;
    assert_eq!(rt; SenderData::check_all(&cut).is_err(), true);
    Ok(())
}

#[test]
fn contents_read(rt: HostRuntime) {
    assert_eq!(rt; number_of_reading(&[1, 7, 0, 0, 0]), 0);
    assert_eq!(rt; number_of_reading(&[1, 7, 0, 0, 1]), 118);
    assert_eq!(rt; number_of_reading(&[1, 7]), 2);
}

/// Refusals with their names and texts.
const NAMES: [(PrivateMessageError, &str, &str); 4] = [
    (
        PrivateMessageError::SenderDataUnreadable,
        "SenderDataUnreadable",
        "the sender data can't be read",
    ),
    (
        PrivateMessageError::ContentUnreadable,
        "ContentUnreadable",
        "the content doesn't open",
    ),
    (
        PrivateMessageError::PaddingNotZero,
        "PaddingNotZero",
        "the padding isn't zero",
    ),
    (
        PrivateMessageError::Leaf(LeafError::Wire(WireError::Truncated)),
        "Truncated",
        "the bytes end too early",
    ),
];

/// Whether a refusal has this name and this text.
fn is_named(
    alloc: Global,
    error: PrivateMessageError,
    name: &str,
    text: &str,
) -> Result<bool, AllocError> {
    let shown = format!(in alloc; "{error}")?;
    Ok(error.name() == name && shown.as_str() == text)
}

#[test]
fn names_and_texts(rt: HostRuntime) -> Result<(), Fail> {
    for (error, name, text) in NAMES {
        assert_eq!(rt; is_named(rt.alloc(), error, name, text)?, true);
    }
    Ok(())
}
