//! Places of faults of whole inputs.

ghost use Rattle.std.specs.Prelude.{◌≡◌, ◌≤◌, IfSome, Ok, length};
ghost use Rattle.mls_wire.specs.Format.{IsBytes};
ghost use Rattle.mls_wire.specs.Whole.{whole};
ghost use Rattle.mls_leaf.specs.Limits.{input_limit};
ghost use Rattle.mls_types.specs.GroupInfo.{ratchet_tree};
ghost use Rattle.mls_types.specs.Message.{mls_message};
ghost use Rattle.mls_cli_place.specs.Message.{body_walk, mls_message_walk};
ghost use Rattle.mls_cli_place.specs.MessageFinding.{mls_message_finds};
ghost use Rattle.mls_cli_place.specs.Place.{IsFaultOf, IsOfRefusal, first_fault, place_in_message, place_in_tree, whole_end};
ghost use Rattle.mls_cli_place.specs.Walk.{Walks};

use crate::located::{Located, pass_field, pass_mark_field};
use crate::place::{Found, Place};
use crate::step::{GroupField, LeafField, MessageField, Step};
use mls_leaf::{INPUT_LIMIT, KeyPackage, LeafError};
use mls_types::{GroupInfo, MlsMessage, PublicMessage, RatchetTree, Welcome};
use mls_wire::{Reader, WireError};

/// Reads past all from the wire format on.
#[tactic(auto, unfolding(crate::specs::Message::body_walk))]
fn pass_body(reader: &mut Reader<'_>) -> Result<(), Found>
    ensures { Walks body_walk reader.old result reader.new }
{
    let step = Step::Message(MessageField::WireFormat);
    let left = reader.rest().len();
    match reader.u16() {
        Ok(1) => pass_field::<PublicMessage>(reader, Step::Message(MessageField::PublicMessage)),
        Ok(3) => pass_field::<Welcome>(reader, Step::Message(MessageField::Welcome)),
        Ok(4) => pass_field::<GroupInfo>(reader, Step::Message(MessageField::GroupInfo)),
        Ok(5) => pass_field::<KeyPackage>(reader, Step::Leaf(LeafField::KeyPackage)),
        Ok(_) => Err(Found::at(left, LeafError::BadTag).inside(step)),
        Err(error) => Err(Found::at(left, LeafError::Wire(error)).inside(step)),
    }
}

impl Located for MlsMessage {
    ghost walk = { mls_message_walk };

    ghost finds = { mls_message_finds };

    #[tactic(auto, unfolding(crate::specs::Message::mls_message_walk))]
    fn locate(reader: &mut Reader<'_>) -> Result<(), Found> {
        pass_mark_field(reader, Step::Leaf(LeafField::Version), 1, LeafError::BadTag)?;
        pass_body(reader)
    }
}

/// The first fault of a whole input.
fn first_fault<T: Located>(bytes: &[u8]) -> Option<Found>
    ensures found { result ≡ first_fault T.walk bytes.now }
    ensures bytes { IsBytes bytes.now }
{
    let mut reader = Reader::new(bytes);
    let _ = reader.is_empty();
    let size = bytes.len();
    if INPUT_LIMIT < size {
        return Some(Found::at(size, LeafError::Wire(WireError::TooLong)));
    }
    match T::locate(&mut reader) {
        Ok(()) => fault_behind(&reader),
        Err(found) => Some(found),
    }
}

/// The fault of bytes that are left behind a whole, if there are some.
fn fault_behind(reader: &Reader<'_>) -> Option<Found>
    ensures { result ≡ whole_end (Ok reader.now) }
{
    let left = reader.rest().len();
    if left == 0 {
        return None;
    }
    Some(Found::at(left, LeafError::Wire(WireError::Trailing)))
}

/// The first fault of a whole input, which is the one that decoding answers.
fn fault_of<T: Located>(bytes: &[u8]) -> Option<Found>
    ensures found { result ≡ first_fault T.walk bytes.now }
    ensures refusal { IsFaultOf (whole T.format input_limit bytes.now) result }
    ensures within { IfSome result (λ f. f.left ≤ length bytes.now) }
{
    first_fault::<T>(bytes)
}

/// Where bytes that spell no MLSMessage (RFC 9420, 6) have their first fault: the field, the offset at which it begins,
/// and the fault's number (2 to 7, 11 to 14). None where they spell one. It takes no memory.
#[tactic(auto, unfolding(crate::specs::Place::place_in_message))]
pub fn place_of_message(bytes: &[u8]) -> Option<Place>
    ensures place { result ≡ place_in_message bytes.now }
    // A place is answered exactly when decoding refuses, and has the same number.
    ensures refusal { IsOfRefusal (whole mls_message input_limit bytes.now) result }
    ensures within { IfSome result (λ p. p.offset ≤ length bytes.now) }
{
    match fault_of::<MlsMessage>(bytes) {
        Some(found) => {
            let found = found.of_whole(Step::Message(MessageField::MlsMessage));
            Some(found.from_front(bytes.len()))
        }
        None => None,
    }
}

/// Where bytes that spell no ratchet tree (RFC 9420, 12.4.3.3) have their first fault: the field, the offset at which it
/// begins, and the fault's number (2 to 7, 11 to 14). None where they spell one. It takes no memory.
#[tactic(auto, unfolding(crate::specs::Place::place_in_tree))]
pub fn place_of_tree(bytes: &[u8]) -> Option<Place>
    ensures place { result ≡ place_in_tree bytes.now }
    // A place is answered exactly when decoding refuses, and has the same number.
    ensures refusal { IsOfRefusal (whole ratchet_tree input_limit bytes.now) result }
    ensures within { IfSome result (λ p. p.offset ≤ length bytes.now) }
{
    match fault_of::<RatchetTree>(bytes) {
        Some(found) => {
            let found = found.inside(Step::Group(GroupField::RatchetTree));
            Some(found.from_front(bytes.len()))
        }
        None => None,
    }
}
