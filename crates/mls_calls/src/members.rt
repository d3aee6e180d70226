//! Calls that change a member.

ghost use Rattle.std.specs.Prelude.{◌≡◌};
ghost use Rattle.mls_wire.specs.Checks.{Answers, AnswersOutright};
ghost use Rattle.mls_calls.specs.Calls.{Changes, Does, Makes, a_package, propose_package, effect_number, member_process, member_propose_add, member_propose_update, on_member, package_in, follow_message, propose_key, propose_removal, member_propose_remove, forget_pending, member_drop_pending, propose_extension_list, some_extensions, member_propose_extensions, make_inspection, member_inspect, shows_member, forget_given, member_forget_proposal};
ghost use Rattle.mls_model.specs.Messages.{decode_message};
ghost use Rattle.mls_calls.specs.Given.{text};
ghost use Rattle.mls_calls.specs.Shown.{fruits, shown};
ghost use Rattle.mls_calls.specs.declared.held.Held.TheVariants.{Nothing};

use crate::done::{Done, Fruit};
use crate::error::MisuseError;
use crate::given::{Given, OUT_OF_MEMORY};
use crate::held::Held;
use crate::make::{fill_bytes, number, room};
use crate::taken::{bytes_in, leaf_of, member_of, seed_of, take_member};
use mls::{
    Codec, Effect, GroupExtensions, Inspection, KeyPackage, Member, MlsMessage, ShortKeyPackage,
    Suite0001,
};
use std::alloc::Global;

/// What a message did, as a number.
fn effect_number(effect: Effect) -> u64
    ensures { result ≡ effect_number effect }
{
    match effect {
        Effect::Proposed { reference: _ } => 1,
        Effect::Known { reference: _ } => 2,
        Effect::Advanced { epoch: _ } => 3,
        Effect::Removed => 4,
    }
}

/// What a message does to a member.
#[tactic(auto, unfolding(crate::specs::Calls::follow_message))]
fn follow_message(member: &mut Member<Suite0001>, message: &Given) -> Result<Fruit, u32>
    ensures { Changes (follow_message (text message.now) member.old) member.old member.new result }
{
    let message = bytes_in(message)?;
    match member.process(message) {
        Ok(effect) => Ok(number(effect_number(effect))),
        Err(error) => Err(error.number() as u32),
    }
}

/// What a message does to the member of a handle.
#[tactic(auto, unfolding(crate::specs::Calls::member_process, crate::specs::Calls::on_member, crate::specs::Calls::a_member))]
pub(crate) fn member_process(held: Held, message: &Given) -> Done
    ensures does { Does (member_process (shown held) (text message.now)) (shown held) result }
    ensures stays { held ≡ Nothing → result.held ≡ Nothing }
{
    match take_member(held) {
        Ok(mut member) => {
            let outcome = follow_message(&mut member, message);
            Done::of_member(member, outcome)
        }
        Err((held, number)) => Done::of_refusal(held, number),
    }
}

/// What an inspection shows: the member, in a handle, and the effect, as a number.
fn fill_inspection(mut room: Box<Held>, found: Inspection<Suite0001>) -> Fruit
    ensures { fruits result ≡ shows_member found.effect found.member }
{
    let Inspection { effect, member } = found;
    *room = Held::Member(member);
    Fruit {
        made: Some(room),
        other: None,
        value: effect_number(effect),
    }
}

/// What a message would do to the member of a handle, and the member after it.
#[tactic(auto, unfolding(crate::specs::Calls::make_inspection))]
fn make_inspection(alloc: Global, held: &Held, message: &Given) -> Result<Fruit, u32>
    ensures { Makes (make_inspection (shown held.now) (text message.now)) result }
{
    let member = member_of(held)?;
    let message = bytes_in(message)?;
    let room = room(alloc)?;
    match member.inspect(message) {
        Ok(found) => Ok(fill_inspection(room, found)),
        Err(error) => Err(error.number() as u32),
    }
}

/// What a message would do to a member, and the member after it, in a handle; the member itself stays.
#[tactic(auto, unfolding(crate::specs::Calls::member_inspect))]
pub(crate) fn member_inspect(alloc: Global, held: Held, message: &Given) -> Done
    ensures does { Does (member_inspect (shown held) (text message.now)) (shown held) result }
    ensures stays { held ≡ Nothing → result.held ≡ Nothing }
{
    let outcome = make_inspection(alloc, &held, message);
    Done { held, outcome }
}

/// The KeyPackage in a message.
#[tactic(auto, unfolding(crate::specs::Calls::package_in))]
fn package_in(message: MlsMessage) -> Result<KeyPackage, u32>
    ensures { Answers (λ k. k) (λ n. n) (package_in message) result }
{
    match message {
        MlsMessage::KeyPackage(key_package) => Ok(key_package),
        MlsMessage::PublicMessage(_) | MlsMessage::Welcome(_) | MlsMessage::GroupInfo(_) => {
            Err(MisuseError::NotKeyPackage.number())
        }
    }
}

/// A proposal of a new key for a member's leaf.
#[tactic(auto, unfolding(crate::specs::Calls::propose_key))]
fn propose_key(alloc: Global, member: &mut Member<Suite0001>, seed: &Given) -> Result<Fruit, u32>
    ensures { Changes (propose_key (text seed.now) member.old) member.old member.new result }
{
    let seed = seed_of(seed)?;
    let room = room(alloc)?;
    match member.propose_update(&seed) {
        Ok(message) => Ok(fill_bytes(room, message)),
        Err(error) => Err(error.number() as u32),
    }
}

/// A proposal of a new key for the leaf of a handle's member.
#[tactic(auto, unfolding(crate::specs::Calls::member_propose_update, crate::specs::Calls::on_member, crate::specs::Calls::a_member))]
pub(crate) fn member_propose_update(alloc: Global, held: Held, seed: &Given) -> Done
    ensures does { Does (member_propose_update (shown held) (text seed.now)) (shown held) result }
    ensures stays { held ≡ Nothing → result.held ≡ Nothing }
{
    match take_member(held) {
        Ok(mut member) => {
            let outcome = propose_key(alloc, &mut member, seed);
            Done::of_member(member, outcome)
        }
        Err((held, number)) => Done::of_refusal(held, number),
    }
}

/// The message that bytes spell.
#[tactic(auto, using(crate::proofs::Decoded::not_decoded, crate::proofs::Decoded::decoded))]
fn message_of(alloc: Global, bytes: &[u8]) -> Result<MlsMessage, u32>
    ensures { Answers (λ m. m) (λ n. n) (decode_message bytes.now) result }
{
    match MlsMessage::decode(alloc, bytes) {
        Ok(message) => Ok(message),
        Err(error) => Err(error.number() as u32),
    }
}

/// The KeyPackage in bytes. One that was decoded is short, so what refuses it then is memory alone.
#[tactic(auto, unfolding(crate::specs::Calls::a_package))]
pub(crate) fn package_of(alloc: Global, bytes: &Given) -> Result<ShortKeyPackage, u32>
    ensures { Answers (λ k. k) (λ n. n) (a_package (text bytes.now)) result }
{
    let bytes = bytes_in(bytes)?;
    let message = message_of(alloc, bytes)?;
    let key_package = package_in(message)?;
    match ShortKeyPackage::new(alloc, key_package) {
        Ok(short) => Ok(short),
        Err(_) => Err(OUT_OF_MEMORY),
    }
}

/// A proposal to add a KeyPackage.
#[tactic(auto, unfolding(crate::specs::Calls::propose_package))]
fn propose_package(
    alloc: Global,
    member: &mut Member<Suite0001>,
    key_package: &Given,
) -> Result<Fruit, u32>
    ensures { Changes (propose_package (text key_package.now) member.old)
        member.old member.new result }
{
    let key_package = package_of(alloc, key_package)?;
    let room = room(alloc)?;
    match member.propose_add(key_package.as_key_package()) {
        Ok(message) => Ok(fill_bytes(room, message)),
        Err(error) => Err(error.number() as u32),
    }
}

/// A proposal to add a KeyPackage, of a handle's member.
#[tactic(auto, unfolding(crate::specs::Calls::member_propose_add, crate::specs::Calls::on_member, crate::specs::Calls::a_member))]
pub(crate) fn member_propose_add(alloc: Global, held: Held, key_package: &Given) -> Done
    ensures does { Does (member_propose_add (shown held) (text key_package.now))
        (shown held) result }
    ensures stays { held ≡ Nothing → result.held ≡ Nothing }
{
    match take_member(held) {
        Ok(mut member) => {
            let outcome = propose_package(alloc, &mut member, key_package);
            Done::of_member(member, outcome)
        }
        Err((held, number)) => Done::of_refusal(held, number),
    }
}

/// A proposal to remove a leaf.
#[tactic(auto, unfolding(crate::specs::Calls::propose_removal))]
fn propose_removal(alloc: Global, member: &mut Member<Suite0001>, leaf: u64) -> Result<Fruit, u32>
    ensures { Changes (propose_removal leaf member.old) member.old member.new result }
{
    let leaf = leaf_of(leaf)?;
    let room = room(alloc)?;
    match member.propose_remove(leaf) {
        Ok(message) => Ok(fill_bytes(room, message)),
        Err(error) => Err(error.number() as u32),
    }
}

/// A proposal to remove a leaf, of a handle's member.
#[tactic(auto, unfolding(crate::specs::Calls::member_propose_remove, crate::specs::Calls::on_member, crate::specs::Calls::a_member))]
pub(crate) fn member_propose_remove(alloc: Global, held: Held, leaf: u64) -> Done
    ensures does { Does (member_propose_remove (shown held) leaf) (shown held) result }
    ensures stays { held ≡ Nothing → result.held ≡ Nothing }
{
    match take_member(held) {
        Ok(mut member) => {
            let outcome = propose_removal(alloc, &mut member, leaf);
            Done::of_member(member, outcome)
        }
        Err((held, number)) => Done::of_refusal(held, number),
    }
}

/// The pending commit of a handle's member is forgotten.
#[tactic(auto, unfolding(crate::specs::Calls::member_drop_pending, crate::specs::Calls::on_member, crate::specs::Calls::a_member, crate::specs::Calls::forget_pending))]
pub(crate) fn member_drop_pending(held: Held) -> Done
    ensures does { Does (member_drop_pending (shown held)) (shown held) result }
    ensures stays { held ≡ Nothing → result.held ≡ Nothing }
{
    match take_member(held) {
        Ok(mut member) => {
            let had = if member.drop_pending() { 1 } else { 0 };
            Done::of_member(member, Ok(number(had)))
        }
        Err((held, number)) => Done::of_refusal(held, number),
    }
}

/// The proposal that a member keeps under a reference is forgotten.
#[tactic(auto, unfolding(crate::specs::Calls::forget_given))]
fn forget_given(member: &mut Member<Suite0001>, reference: &Given) -> Result<Fruit, u32>
    ensures { Changes (forget_given (text reference.now) member.old) member.old member.new result }
{
    let reference = bytes_in(reference)?;
    match member.forget_proposal(reference) {
        Ok(had) => Ok(number(if had { 1 } else { 0 })),
        Err(error) => Err(error.number() as u32),
    }
}

/// A kept proposal of a handle's member is forgotten.
#[tactic(auto, unfolding(crate::specs::Calls::member_forget_proposal, crate::specs::Calls::on_member, crate::specs::Calls::a_member))]
pub(crate) fn member_forget_proposal(held: Held, reference: &Given) -> Done
    ensures does { Does (member_forget_proposal (shown held) (text reference.now))
        (shown held) result }
    ensures stays { held ≡ Nothing → result.held ≡ Nothing }
{
    match take_member(held) {
        Ok(mut member) => {
            let outcome = forget_given(&mut member, reference);
            Done::of_member(member, outcome)
        }
        Err((held, number)) => Done::of_refusal(held, number),
    }
}

/// The extensions in bytes.
#[tactic(auto, using(crate::proofs::Decoded::fault_of), unfolding(crate::specs::Calls::some_extensions))]
fn extensions_of(alloc: Global, extensions: &Given) -> Result<GroupExtensions, u32>
    ensures { Answers (λ xs. xs) (λ n. n) (some_extensions (text extensions.now)) result }
{
    let bytes = bytes_in(extensions)?;
    match GroupExtensions::decode(alloc, bytes) {
        Ok(extensions) => Ok(extensions),
        Err(error) => Err(error.number() as u32),
    }
}

/// A proposal that the group carry extensions.
#[tactic(auto, unfolding(crate::specs::Calls::propose_extension_list))]
fn propose_extension_list(
    alloc: Global,
    member: &mut Member<Suite0001>,
    extensions: &Given,
) -> Result<Fruit, u32>
    ensures { Changes (propose_extension_list (text extensions.now) member.old)
        member.old member.new result }
{
    let room = room(alloc)?;
    let extensions = extensions_of(alloc, extensions)?;
    match member.propose_extensions(extensions) {
        Ok(message) => Ok(fill_bytes(room, message)),
        Err(error) => Err(error.number() as u32),
    }
}

/// A proposal that the group carry extensions, of a handle's member.
#[tactic(auto, unfolding(crate::specs::Calls::member_propose_extensions, crate::specs::Calls::on_member, crate::specs::Calls::a_member))]
pub(crate) fn member_propose_extensions(alloc: Global, held: Held, extensions: &Given) -> Done
    ensures does { Does (member_propose_extensions (shown held) (text extensions.now))
        (shown held) result }
    ensures stays { held ≡ Nothing → result.held ≡ Nothing }
{
    match take_member(held) {
        Ok(mut member) => {
            let outcome = propose_extension_list(alloc, &mut member, extensions);
            Done::of_member(member, outcome)
        }
        Err((held, number)) => Done::of_refusal(held, number),
    }
}
