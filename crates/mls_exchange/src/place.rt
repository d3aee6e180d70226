//! Where a message belongs, by its first fields.

ghost use Rattle.std.specs.Prelude.{◌≡◌};
ghost use Rattle.mls_wire.specs.Checks.{AnswersOutright};
ghost use Rattle.mls_leaf.specs.Faults.{number_of as number_of_leaf};
ghost use Rattle.mls_exchange.specs.MessagePlace.{kind_of_format, place_read};

use mls_leaf::LeafError;
use mls_wire::Reader;
use std::marker::Model;

/// The kind of a message of a group (RFC 9420, 6 and 17.2).
#[derive(Clone, Copy, Debug, PartialEq, Eq)]
pub enum MessageKind {
    /// mls_public_message, 1, which `process` of a member takes.
    PublicMessage,
    /// mls_private_message, 2, which `open` of a conversation takes.
    PrivateMessage,
}

/// Where a message says that it belongs (RFC 9420, 6).
#[derive(Drop)]
pub struct MessagePlace<'a> {
    /// Its kind.
    pub kind: MessageKind,
    /// The group's identifier.
    pub group_id: &'a [u8],
    /// The number of the epoch.
    pub epoch: u64,
}

impl<'a> Model for MessagePlace<'a> {
    ghost use Rattle.mls_exchange.specs.MessagePlace as model;

    ghost Value = { model.MessagePlace };

    ghost view = { λ p. record {
      kind = p.kind;
      group_id = p.group_id.now;
      epoch = p.epoch;
    } };
}

/// The kind of message of a wire format: `BadTag` (7) it is of no group's message.
#[tactic(auto, unfolding(crate::specs::MessagePlace::kind_of_format))]
fn kind_of_format(number: u16) -> Result<MessageKind, LeafError>
    ensures { AnswersOutright (λ k. k) number_of_leaf (kind_of_format number) result }
{
    match number {
        1 => Ok(MessageKind::PublicMessage),
        2 => Ok(MessageKind::PrivateMessage),
        _ => Err(LeafError::BadTag),
    }
}

/// Where the bytes of a message say that it belongs, by its first fields, of which nothing else is read or checked; or the
/// first fault: `BadTag` (7) another version, or no PublicMessage or PrivateMessage; those of decoding (RFC 9420, 6). It
/// takes no memory.
#[tactic(auto, unfolding(crate::specs::MessagePlace::place_read))]
pub fn message_place(bytes: &[u8]) -> Result<MessagePlace<'_>, LeafError>
    ensures { AnswersOutright (λ p. p) number_of_leaf (place_read bytes.now) result }
{
    let mut reader = Reader::new(bytes);
    if reader.u16()? != 1 {
        return Err(LeafError::BadTag);
    }
    let kind = kind_of_format(reader.u16()?)?;
    let group_id = reader.opaque()?;
    let epoch = reader.u64()?;
    Ok(MessagePlace {
        kind,
        group_id,
        epoch,
    })
}
