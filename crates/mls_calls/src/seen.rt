//! Calls that look at a member: its group, its secrets, what it keeps.

ghost use Rattle.std.specs.Prelude.{◌≡◌, ◌≤◌, MatchResult, length};
ghost use Rattle.mls_kdf.specs.Kdf.{max_output};
ghost use Rattle.mls_schedule.specs.Epoch.{export_secret};
ghost use Rattle.mls_calls.specs.Calls.{Does, Makes, SpellsExtensions, SpellsHeld, SpellsIfMember, a_member, make_export, make_missing_proposal, make_pending_commit, make_reference, member_export, member_leaf_count, member_missing_proposal, member_pending_commit, member_reference};
ghost use Rattle.mls_calls.specs.Given.{text};
ghost use Rattle.mls_calls.specs.Shown.{shown};
ghost use Rattle.mls_calls.specs.declared.held.Held.TheVariants.{Nothing};

use crate::done::{Done, Fruit};
use crate::given::{Given, OUT_OF_MEMORY};
use crate::held::Held;
use crate::make::{fill_bytes, fill_copy, number, room};
use crate::taken::{bytes_in, label_of, member_of, output_of};
use mls::{Codec, Epoch, Member, Suite0001};
use std::alloc::Global;

/// The number of leaves of a member's group.
#[tactic(auto, unfolding(crate::specs::Calls::member_leaf_count))]
pub(crate) fn member_leaf_count(held: Held) -> Done
    ensures does { Does (member_leaf_count (shown held)) (shown held) result }
    ensures stays { held ≡ Nothing → result.held ≡ Nothing }
{
    let outcome = match member_of(&held) {
        Ok(member) => Ok(number(member.group().tree().leaf_count() as u64)),
        Err(number) => Err(number),
    };
    Done { held, outcome }
}

/// A secret of so many bytes, exported under a label and a context, or `OutOfMemory` (1).
fn export_secret(
    alloc: Global,
    epoch: &Epoch,
    label: &str,
    context: &[u8],
    count: usize,
) -> Result<Vec<u8>, u32>
    requires label { length label.now ≤ 200 }
    requires output { count ≤ max_output }
    ensures { MatchResult result
        (λ v. v.items ≡ export_secret epoch.now label.now context.now count) (λ n. n ≡ 1) }
{
    let mut secret = match Vec::from_elem(alloc, 0, count) {
        Ok(secret) => secret,
        Err(_) => return Err(OUT_OF_MEMORY),
    };
    match epoch.export(label, context, &mut secret) {
        Ok(()) => Ok(secret),
        Err(error) => Err(error.number() as u32),
    }
}

/// An exported secret, in a handle.
#[tactic(auto, unfolding(crate::specs::Calls::make_export))]
fn make_export(
    alloc: Global,
    held: &Held,
    label: &Given,
    context: &Given,
    count: u64,
) -> Result<Fruit, u32>
    ensures { Makes (make_export (shown held.now) (text label.now) (text context.now) count)
        result }
{
    let member = member_of(held)?;
    let label = label_of(label)?;
    let context = bytes_in(context)?;
    let count = output_of(count)?;
    let room = room(alloc)?;
    let secret = export_secret(alloc, member.secrets(), label, context, count)?;
    Ok(fill_bytes(room, secret))
}

/// An exported secret of a member (RFC 9420, 8.5).
#[tactic(auto, unfolding(crate::specs::Calls::member_export))]
pub(crate) fn member_export(
    alloc: Global,
    held: Held,
    label: &Given,
    context: &Given,
    count: u64,
) -> Done
    ensures does { Does (member_export (shown held) (text label.now) (text context.now) count)
        (shown held) result }
    ensures stays { held ≡ Nothing → result.held ≡ Nothing }
{
    let outcome = make_export(alloc, &held, label, context, count);
    Done { held, outcome }
}

/// The extensions that a member's group carries, spelled, in a handle.
#[tactic(auto, using(crate::proofs::Decoded::unsaved))]
fn spell_extensions(alloc: Global, member: &Member<Suite0001>) -> Result<Fruit, u32>
    ensures { SpellsExtensions member.now.public.context.extensions result }
{
    let room = room(alloc)?;
    match member.group().context().extensions.encode(alloc) {
        Ok(bytes) => Ok(fill_bytes(room, bytes)),
        Err(error) => Err(error.number() as u32),
    }
}

/// The extensions that the group of a handle's member carries, spelled, in a handle.
fn make_extensions(alloc: Global, held: &Held) -> Result<Fruit, u32>
    ensures { SpellsIfMember (a_member (shown held.now)) result }
{
    match member_of(held) {
        Ok(member) => spell_extensions(alloc, member),
        Err(number) => Err(number),
    }
}

/// The extensions that a member's group carries (RFC 9420, 8.1).
pub(crate) fn member_extensions(alloc: Global, held: Held) -> Done
    ensures does { SpellsHeld (shown held) result }
    ensures stays { held ≡ Nothing → result.held ≡ Nothing }
{
    let outcome = make_extensions(alloc, &held);
    Done { held, outcome }
}

/// The reference of the proposal that a handle's member keeps with a message, in a handle, if it keeps one.
#[tactic(auto, unfolding(crate::specs::Calls::make_reference))]
fn make_reference(alloc: Global, held: &Held, message: &Given) -> Result<Fruit, u32>
    ensures { Makes (make_reference (shown held.now) (text message.now)) result }
{
    let member = member_of(held)?;
    let message = bytes_in(message)?;
    match member.reference_of(message) {
        Some(reference) => fill_copy(alloc, reference.as_slice()),
        None => Ok(number(0)),
    }
}

/// The reference of a kept proposal, by its message (RFC 9420, 5.2).
#[tactic(auto, unfolding(crate::specs::Calls::member_reference))]
pub(crate) fn member_reference(alloc: Global, held: Held, message: &Given) -> Done
    ensures does { Does (member_reference (shown held) (text message.now)) (shown held) result }
    ensures stays { held ≡ Nothing → result.held ≡ Nothing }
{
    let outcome = make_reference(alloc, &held, message);
    Done { held, outcome }
}

/// The reference at an index of those that a commit names and a handle's member lacks, in a handle, if there is one.
#[tactic(auto, unfolding(crate::specs::Calls::make_missing_proposal))]
fn make_missing_proposal(
    alloc: Global,
    held: &Held,
    commit: &Given,
    index: u64,
) -> Result<Fruit, u32>
    ensures { Makes (make_missing_proposal (shown held.now) (text commit.now) index) result }
{
    let member = member_of(held)?;
    let commit = bytes_in(commit)?;
    let missing = match member.missing_proposals(commit) {
        Ok(missing) => missing,
        Err(error) => return Err(error.number() as u32),
    };
    match missing.get(index as usize) {
        Some(reference) => fill_copy(alloc, reference.as_slice()),
        None => Ok(number(0)),
    }
}

/// The reference at an index of those that a commit names and a member lacks (RFC 9420, 12.4).
#[tactic(auto, unfolding(crate::specs::Calls::member_missing_proposal))]
pub(crate) fn member_missing_proposal(alloc: Global, held: Held, commit: &Given, index: u64) -> Done
    ensures does { Does (member_missing_proposal (shown held) (text commit.now) index)
        (shown held) result }
    ensures stays { held ≡ Nothing → result.held ≡ Nothing }
{
    let outcome = make_missing_proposal(alloc, &held, commit, index);
    Done { held, outcome }
}

/// The message of the pending commit of a handle's member, in a handle, if there is one.
#[tactic(auto, unfolding(crate::specs::Calls::make_pending_commit))]
fn make_pending_commit(alloc: Global, held: &Held) -> Result<Fruit, u32>
    ensures { Makes (make_pending_commit (shown held.now)) result }
{
    let member = member_of(held)?;
    match member.pending_message() {
        Some(message) => fill_copy(alloc, message),
        None => Ok(number(0)),
    }
}

/// The message of a member's pending commit (RFC 9420, 12.4.1).
#[tactic(auto, unfolding(crate::specs::Calls::member_pending_commit))]
pub(crate) fn member_pending_commit(alloc: Global, held: Held) -> Done
    ensures does { Does (member_pending_commit (shown held)) (shown held) result }
    ensures stays { held ≡ Nothing → result.held ≡ Nothing }
{
    let outcome = make_pending_commit(alloc, &held);
    Done { held, outcome }
}
