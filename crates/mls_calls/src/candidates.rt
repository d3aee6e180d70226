//! Calls on bytes, calls that make candidates and members, and a member's epoch, group and leaf.

ghost use Rattle.std.specs.Prelude.{◌≡◌};
ghost use Rattle.mls_calls.specs.Calls.{Does, Makes, bytes_at, bytes_length, candidate_new, candidate_key_package, make_candidate, make_group, make_group_id, make_joiner, make_package, member_create, member_epoch, member_group_id, member_join, member_leaf_index};
ghost use Rattle.mls_calls.specs.Given.{text};
ghost use Rattle.mls_calls.specs.Shown.{shown};
ghost use Rattle.mls_calls.specs.declared.held.Held.TheVariants.{Nothing};

use crate::done::{Done, Fruit};
use crate::error::MisuseError;
use crate::given::Given;
use crate::held::Held;
use crate::make::{fill, fill_copy, number, room};
use crate::taken::{bytes_in, bytes_of, candidate_of, member_of, seed_of};
use mls::{Candidate, Member, Suite0001};
use std::alloc::Global;

/// The length of bytes.
#[tactic(auto, unfolding(crate::specs::Calls::bytes_length))]
pub(crate) fn bytes_length(held: Held) -> Done
    ensures does { Does (bytes_length (shown held)) (shown held) result }
    ensures stays { held ≡ Nothing → result.held ≡ Nothing }
{
    let outcome = match bytes_of(&held) {
        Ok(bytes) => Ok(number(bytes.len() as u64)),
        Err(number) => Err(number),
    };
    Done { held, outcome }
}

/// A candidate in a handle of its own.
#[tactic(auto, unfolding(crate::specs::Calls::make_candidate))]
fn make_candidate(alloc: Global, identity: &Given, seed: &Given) -> Result<Fruit, u32>
    ensures { Makes (make_candidate (text identity.now) (text seed.now)) result }
{
    let identity = bytes_in(identity)?;
    let seed = seed_of(seed)?;
    let room = room(alloc)?;
    match Candidate::new(alloc, identity, &seed) {
        Ok(candidate) => Ok(fill(room, Held::Candidate(candidate))),
        Err(error) => Err(error.number() as u32),
    }
}

/// A candidate of an identity and a seed.
#[tactic(auto, unfolding(crate::specs::Calls::candidate_new))]
pub(crate) fn candidate_new(alloc: Global, held: Held, identity: &Given, seed: &Given) -> Done
    ensures does { Does (candidate_new (shown held) (text identity.now) (text seed.now))
        (shown held) result }
    ensures stays { held ≡ Nothing → result.held ≡ Nothing }
{
    let outcome = make_candidate(alloc, identity, seed);
    Done { held, outcome }
}

/// The message of a candidate's KeyPackage in a handle.
#[tactic(auto, unfolding(crate::specs::Calls::make_package))]
fn make_package(alloc: Global, held: &Held) -> Result<Fruit, u32>
    ensures { Makes (make_package (shown held.now)) result }
{
    let candidate = candidate_of(held)?;
    fill_copy(alloc, candidate.message())
}

/// The message of a candidate's KeyPackage.
#[tactic(auto, unfolding(crate::specs::Calls::candidate_key_package))]
pub(crate) fn candidate_key_package(alloc: Global, held: Held) -> Done
    ensures does { Does (candidate_key_package (shown held)) (shown held) result }
    ensures stays { held ≡ Nothing → result.held ≡ Nothing }
{
    let outcome = make_package(alloc, &held);
    Done { held, outcome }
}

/// The group of a candidate alone, in a handle.
#[tactic(auto, unfolding(crate::specs::Calls::make_group))]
fn make_group(alloc: Global, held: &Held, group: &Given, seed: &Given) -> Result<Fruit, u32>
    ensures { Makes (make_group (shown held.now) (text group.now) (text seed.now)) result }
{
    let candidate = candidate_of(held)?;
    let group = bytes_in(group)?;
    let seed = seed_of(seed)?;
    let room = room(alloc)?;
    match Member::<Suite0001>::create(alloc, candidate, group, &seed) {
        Ok(member) => Ok(fill(room, Held::Member(member))),
        Err(error) => Err(error.number() as u32),
    }
}

/// The group of a candidate alone.
#[tactic(auto, unfolding(crate::specs::Calls::member_create))]
pub(crate) fn member_create(alloc: Global, held: Held, group: &Given, seed: &Given) -> Done
    ensures does { Does (member_create (shown held) (text group.now) (text seed.now))
        (shown held) result }
    ensures stays { held ≡ Nothing → result.held ≡ Nothing }
{
    let outcome = make_group(alloc, &held, group, seed);
    Done { held, outcome }
}

/// The member that a Welcome makes of a candidate, in a handle.
#[tactic(auto, unfolding(crate::specs::Calls::make_joiner))]
fn make_joiner(alloc: Global, held: &Held, welcome: &Given) -> Result<Fruit, u32>
    ensures { Makes (make_joiner (shown held.now) (text welcome.now)) result }
{
    let candidate = candidate_of(held)?;
    let welcome = bytes_in(welcome)?;
    let room = room(alloc)?;
    match Member::<Suite0001>::join(alloc, candidate, welcome) {
        Ok(joined) => Ok(fill(room, Held::Member(joined.member))),
        Err(error) => Err(error.number() as u32),
    }
}

/// The member that a Welcome makes of a candidate.
#[tactic(auto, unfolding(crate::specs::Calls::member_join))]
pub(crate) fn member_join(alloc: Global, held: Held, welcome: &Given) -> Done
    ensures does { Does (member_join (shown held) (text welcome.now)) (shown held) result }
    ensures stays { held ≡ Nothing → result.held ≡ Nothing }
{
    let outcome = make_joiner(alloc, &held, welcome);
    Done { held, outcome }
}

/// The number of a member's epoch.
#[tactic(auto, unfolding(crate::specs::Calls::member_epoch))]
pub(crate) fn member_epoch(held: Held) -> Done
    ensures does { Does (member_epoch (shown held)) (shown held) result }
    ensures stays { held ≡ Nothing → result.held ≡ Nothing }
{
    let outcome = match member_of(&held) {
        Ok(member) => Ok(number(member.epoch())),
        Err(number) => Err(number),
    };
    Done { held, outcome }
}

/// The identifier of a member's group in a handle.
#[tactic(auto, unfolding(crate::specs::Calls::make_group_id))]
fn make_group_id(alloc: Global, held: &Held) -> Result<Fruit, u32>
    ensures { Makes (make_group_id (shown held.now)) result }
{
    let member = member_of(held)?;
    fill_copy(alloc, member.group_id())
}

/// The identifier of a member's group.
#[tactic(auto, unfolding(crate::specs::Calls::member_group_id))]
pub(crate) fn member_group_id(alloc: Global, held: Held) -> Done
    ensures does { Does (member_group_id (shown held)) (shown held) result }
    ensures stays { held ≡ Nothing → result.held ≡ Nothing }
{
    let outcome = make_group_id(alloc, &held);
    Done { held, outcome }
}

/// The index of a member's leaf.
#[tactic(auto, unfolding(crate::specs::Calls::member_leaf_index))]
pub(crate) fn member_leaf_index(held: Held) -> Done
    ensures does { Does (member_leaf_index (shown held)) (shown held) result }
    ensures stays { held ≡ Nothing → result.held ≡ Nothing }
{
    let outcome = match member_of(&held) {
        Ok(member) => Ok(number(member.leaf_index() as u64)),
        Err(number) => Err(number),
    };
    Done { held, outcome }
}

/// The byte at an index, or `BufferLength` (135).
#[tactic(auto, unfolding(crate::specs::Calls::bytes_at))]
pub(crate) fn bytes_at(held: Held, index: u64) -> Done
    ensures does { Does (bytes_at (shown held) index) (shown held) result }
    ensures stays { held ≡ Nothing → result.held ≡ Nothing }
{
    let outcome = match bytes_of(&held) {
        Ok(bytes) => {
            let at = index as usize;
            if at < bytes.len() {
                Ok(number(bytes[at] as u64))
            } else {
                Err(MisuseError::BufferLength.number())
            }
        }
        Err(number) => Err(number),
    };
    Done { held, outcome }
}
