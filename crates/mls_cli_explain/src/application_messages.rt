//! The names of the refusals of application messages (110 to 119), and what is told of each.

ghost use Rattle.std.specs.Prelude.{◌≡◌, option_map};
ghost use Rattle.mls_wire.specs.Names.{name_in};
ghost use Rattle.mls_cli_explain.specs.Explanations.{about_application_messages, explanation_view, found_in, names_of_application_messages};

use crate::explanations::{Explanation, told};

/// The name of a refusal of application messages (110 to 119), or nothing.
pub fn name_of_application_message(number: u8) -> &'static str
    ensures { result.now ≡ name_in names_of_application_messages number }
{
    match number {
        110 => "RatchetSpent",
        111 => "OtherGroup",
        112 => "OtherEpoch",
        113 => "SenderDataUnreadable",
        114 => "SenderWithoutLeaf",
        115 => "GenerationTooFar",
        116 => "KeyUsed",
        117 => "ContentUnreadable",
        118 => "PaddingNotZero",
        119 => "BadMessageSignature",
        _ => "",
    }
}

/// What is told of refusals of application messages (110 to 119): a row for each number.
pub fn about_application_messages(number: u8) -> Option<Explanation>
    ensures { option_map explanation_view result ≡ found_in about_application_messages number }
{
    match number {
        110 => told(
            "no generation is left",
            "the sender hasn't sent its generation 2^32 - 1 (RFC 9420, 9.1)",
            "commit, and seal in the next epoch",
        ),
        111 => told(
            "a message of another group",
            "the message has the group's id",
            "open the message in its own group",
        ),
        112 => told(
            "a message of another epoch",
            "the message is of the conversation's epoch",
            "open the message with the conversation of its epoch",
        ),
        113 => told(
            "the sender data can't be read",
            "the sender data open, and are a leaf, a generation and a reuse guard (RFC 9420, 6.3.2)",
            "the receiver drops the message",
        ),
        114 => told(
            "the sender has no leaf",
            "a member is at the sender's leaf (RFC 9420, 6.3.2)",
            "the receiver drops the message",
        ),
        115 => told(
            "the generation is too far ahead",
            "at most 1000 generations of the sender's ratchet are passed over",
            "open the messages between first",
        ),
        116 => told(
            "the key was used",
            "the generation's key wasn't used, and lies at most 1000 generations before the last one that was",
            "open each message once, and none long after later ones",
        ),
        117 => told(
            "the content doesn't open",
            "the content opens under the key of its generation (RFC 9420, 6.3.1)",
            "the receiver drops the message",
        ),
        118 => told(
            "the padding isn't zero",
            "each byte of the padding is 0 (RFC 9420, 6.3.1)",
            "the receiver drops the message; the sender pads with zeros",
        ),
        119 => told(
            "the message's signature doesn't verify",
            "the content is signed by the sender's leaf (RFC 9420, 6.1)",
            "the receiver drops the message; the sender signs with the key of its leaf",
        ),
        _ => None,
    }
}
