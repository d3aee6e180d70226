//! Calls that tell who a member, a client or a sender is, and where a message belongs.

ghost use Rattle.std.specs.Prelude.{◌≡◌, MatchResult};
ghost use Rattle.mls_calls.specs.Calls.{Does, Makes, TellsMember, conversation_member_at, key_package_identity, make_identity, make_package_identity, make_place, make_sender_identity, member_at, message_place, tells_place};
ghost use Rattle.mls_calls.specs.Given.{text};
ghost use Rattle.mls_calls.specs.Shown.{fruits, shown};
ghost use Rattle.mls_calls.specs.declared.held.Held.TheVariants.{Nothing};

use crate::done::{Done, Fruit};
use crate::given::{Given, copy_of};
use crate::held::Held;
use crate::make::{fill_copy, room, two};
use crate::members::package_of;
use crate::taken::{NO_SUCH_LEAF, bytes_in, conversation_of, leaf_of, member_of};
use mls::{Bytes, LeafNode, MessagePlace};
use std::alloc::Global;

/// An identity and a signature key, in handles, or `OutOfMemory` (1).
fn tell_client(alloc: Global, identity: &[u8], signature_key: &[u8]) -> Result<Fruit, u32>
    ensures { TellsMember identity.now signature_key.now result }
{
    let identity_room = room(alloc)?;
    let key_room = room(alloc)?;
    let identity = Bytes::from_vec(copy_of(alloc, identity)?);
    let key = Bytes::from_vec(copy_of(alloc, signature_key)?);
    Ok(two(identity_room, key_room, identity, Some(key), 0))
}

/// The identity and the signature key of a leaf, in handles, or `OutOfMemory` (1).
fn tell_leaf(alloc: Global, leaf: &LeafNode) -> Result<Fruit, u32>
    ensures { TellsMember leaf.now.credential.identity leaf.now.signature_key result }
{
    let identity = leaf.credential.identity.as_slice();
    tell_client(alloc, identity, leaf.signature_key.as_slice())
}

/// The identity and the signature key of the member at a leaf, in handles, or `NoSuchLeaf` (22).
#[tactic(auto, unfolding(crate::specs::Calls::make_identity))]
fn make_identity(alloc: Global, held: &Held, leaf: u64) -> Result<Fruit, u32>
    ensures { Makes (make_identity (shown held.now) leaf) result }
{
    let member = member_of(held)?;
    let leaf = leaf_of(leaf)?;
    match member.member_at(leaf) {
        Some(found) => tell_client(alloc, found.identity, found.signature_key),
        None => Err(NO_SUCH_LEAF),
    }
}

/// The identity and the signature key of the member at a leaf.
#[tactic(auto, unfolding(crate::specs::Calls::member_at))]
pub(crate) fn member_at(alloc: Global, held: Held, leaf: u64) -> Done
    ensures does { Does (member_at (shown held) leaf) (shown held) result }
    ensures stays { held ≡ Nothing → result.held ≡ Nothing }
{
    let outcome = make_identity(alloc, &held, leaf);
    Done { held, outcome }
}

/// The identity and the signature key of the member at a leaf, in handles, by a conversation's tree, or `NoSuchLeaf` (22).
#[tactic(auto, unfolding(crate::specs::Calls::make_sender_identity))]
fn make_sender_identity(alloc: Global, held: &Held, leaf: u64) -> Result<Fruit, u32>
    ensures { Makes (make_sender_identity (shown held.now) leaf) result }
{
    let conversation = conversation_of(held)?;
    let leaf = leaf_of(leaf)?;
    match conversation.leaf_at(leaf) {
        Some(found) => tell_leaf(alloc, found),
        None => Err(NO_SUCH_LEAF),
    }
}

/// The identity and the signature key of the member at a leaf, as the tree of the conversation's epoch has them.
#[tactic(auto, unfolding(crate::specs::Calls::conversation_member_at))]
pub(crate) fn conversation_member_at(alloc: Global, held: Held, leaf: u64) -> Done
    ensures does { Does (conversation_member_at (shown held) leaf) (shown held) result }
    ensures stays { held ≡ Nothing → result.held ≡ Nothing }
{
    let outcome = make_sender_identity(alloc, &held, leaf);
    Done { held, outcome }
}

/// The identity and the signature key of the client that a KeyPackage's message offers, in handles.
#[tactic(auto, unfolding(crate::specs::Calls::make_package_identity))]
fn make_package_identity(alloc: Global, message: &Given) -> Result<Fruit, u32>
    ensures { Makes (make_package_identity (text message.now)) result }
{
    let short = package_of(alloc, message)?;
    tell_leaf(alloc, &short.as_key_package().leaf_node)
}

/// The identity and the signature key of the client that a KeyPackage's message offers (RFC 9420, 10).
#[tactic(auto, unfolding(crate::specs::Calls::key_package_identity))]
pub(crate) fn key_package_identity(alloc: Global, held: Held, message: &Given) -> Done
    ensures does { Does (key_package_identity (shown held) (text message.now))
        (shown held) result }
    ensures stays { held ≡ Nothing → result.held ≡ Nothing }
{
    let outcome = make_package_identity(alloc, message);
    Done { held, outcome }
}

/// The group's identifier of a message's place, in a handle, and the epoch, or `OutOfMemory` (1).
fn tell_place(alloc: Global, place: MessagePlace<'_>) -> Result<Fruit, u32>
    ensures { MatchResult result (λ f. fruits f ≡ tells_place place.entry) (λ n. n ≡ 1) }
{
    let mut told = fill_copy(alloc, place.group_id)?;
    told.value = place.epoch;
    Ok(told)
}

/// The group's identifier and the epoch that a message says it is of.
#[tactic(auto, using(crate::proofs::Decoded::fault_of), unfolding(crate::specs::Calls::make_place))]
fn make_place(alloc: Global, message: &Given) -> Result<Fruit, u32>
    ensures { Makes (make_place (text message.now)) result }
{
    let bytes = bytes_in(message)?;
    match mls::message_place(bytes) {
        Ok(place) => tell_place(alloc, place),
        Err(error) => Err(error.number() as u32),
    }
}

/// The group's identifier and the epoch that a message says it is of (RFC 9420, 6).
#[tactic(auto, unfolding(crate::specs::Calls::message_place))]
pub(crate) fn message_place(alloc: Global, held: Held, message: &Given) -> Done
    ensures does { Does (message_place (shown held) (text message.now)) (shown held) result }
    ensures stays { held ≡ Nothing → result.held ≡ Nothing }
{
    let outcome = make_place(alloc, message);
    Done { held, outcome }
}
