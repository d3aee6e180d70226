//! Calls that commit.

ghost use Rattle.std.specs.Prelude.{◌≡◌, option_map, map, IfOk};
ghost use Rattle.mls_wire.specs.Checks.{Answers};
ghost use Rattle.mls_model.specs.Make.{list_item_of};
ghost use Rattle.mls_member.specs.Answers.{IsShortItem, AreShortItems};
ghost use Rattle.mls_calls.specs.Calls.{Changes, Does, commit_kept_list, commit_given_list, member_commit, member_commit_kept, on_member, some_proposals};
ghost use Rattle.mls_calls.specs.Given.{text};
ghost use Rattle.mls_calls.specs.Listing.{IsShortListed, AreShortListed, ListsItems};
ghost use Rattle.mls_calls.specs.Shown.{shown};
ghost use Rattle.mls_calls.specs.declared.held.Held.TheVariants.{Nothing};

use crate::done::{Done, Fruit};
use crate::given::{Given, OUT_OF_MEMORY};
use crate::held::Held;
use crate::make::{room, two};
use crate::taken::{bytes_in, seed_of, take_member};
use mls::{Bytes, Item, Member, Suite0001};
use mls_leaf::{Codec, Items};
use mls_types::ProposalOrRef;
use std::alloc::{AllocError, Global};

/// A Welcome, if there is one, as a byte string.
fn welcome_of(welcome: Option<Vec<u8>>) -> Option<Bytes>
    ensures { result ≡ option_map (λ v. v.items) welcome }
{
    match welcome {
        Some(welcome) => Some(Bytes::from_vec(welcome)),
        None => None,
    }
}

/// A commit of what a member keeps.
#[tactic(auto, unfolding(crate::specs::Calls::commit_kept_list))]
fn commit_kept_list(
    alloc: Global,
    member: &mut Member<Suite0001>,
    path: u64,
    seed: &Given,
) -> Result<Fruit, u32>
    ensures { Changes (commit_kept_list path (text seed.now) member.old)
        member.old member.new result }
{
    let seed = seed_of(seed)?;
    let commit_room = room(alloc)?;
    let welcome_room = room(alloc)?;
    match member.commit_kept(path != 0, &seed) {
        Ok(kept) => {
            let commit = Bytes::from_vec(kept.made.commit);
            let welcome = welcome_of(kept.made.welcome);
            Ok(two(commit_room, welcome_room, commit, welcome, 0))
        }
        Err(error) => Err(error.number() as u32),
    }
}

/// A commit of what a handle's member keeps.
#[tactic(auto, unfolding(crate::specs::Calls::member_commit_kept, crate::specs::Calls::on_member, crate::specs::Calls::a_member))]
pub(crate) fn member_commit_kept(alloc: Global, held: Held, path: u64, seed: &Given) -> Done
    ensures does { Does (member_commit_kept (shown held) path (text seed.now)) (shown held) result }
    ensures stays { held ≡ Nothing → result.held ≡ Nothing }
{
    match take_member(held) {
        Ok(mut member) => {
            let outcome = commit_kept_list(alloc, &mut member, path, seed);
            Done::of_member(member, outcome)
        }
        Err((held, number)) => Done::of_refusal(held, number),
    }
}

/// The list of a commit in bytes (RFC 9420, 12.4).
#[tactic(auto, using(crate::proofs::Decoded::fault_of, crate::proofs::Listing::read_short), unfolding(crate::specs::Calls::some_proposals))]
fn list_of(alloc: Global, proposals: &Given) -> Result<Items<ProposalOrRef>, u32>
    ensures list { Answers (λ l. l) (λ n. n) (some_proposals (text proposals.now)) result }
    ensures short { IfOk result (λ l. AreShortListed l) }
{
    let bytes = bytes_in(proposals)?;
    match Items::<ProposalOrRef>::decode(alloc, bytes) {
        Ok(list) => Ok(list),
        Err(error) => Err(error.number() as u32),
    }
}

/// A proposal of a commit's list, as a commit call takes it.
fn item_of(alloc: Global, listed: &ProposalOrRef) -> Result<Item, AllocError>
    requires { IsShortListed listed.now }
    ensures item { IfOk result (λ i. list_item_of i ≡ listed.now) }
    ensures short { IfOk result IsShortItem }
{
    match listed {
        ProposalOrRef::Proposal(proposal) => Ok(Item::Full(proposal.clone()?)),
        ProposalOrRef::Reference(reference) => {
            Ok(Item::Ref(Vec::from_slice(alloc, reference.as_slice())?))
        }
    }
}

/// A commit's list, as a commit call takes it.
fn items_of(alloc: Global, list: &[ProposalOrRef]) -> Result<Vec<Item>, AllocError>
    requires { AreShortListed list.now }
    ensures items { IfOk result (λ v. map list_item_of v.items ≡ list.now) }
    ensures short { IfOk result (λ v. AreShortItems v.items) }
{
    let mut items = Vec::new(alloc);
    let mut rest = list;
    while let Some((listed, later)) = rest.split_first() {
        rest = later;
        let item = item_of(alloc, listed)?;
        items.push(item)?;
    }
    Ok(items)
}

/// The list of a commit in bytes, as a commit call takes it.
fn given_items(alloc: Global, proposals: &Given) -> Result<Vec<Item>, u32>
    ensures items { ListsItems (some_proposals (text proposals.now)) result }
    ensures short { IfOk result (λ v. AreShortItems v.items) }
{
    let list = list_of(alloc, proposals)?;
    match items_of(alloc, list.as_slice()) {
        Ok(items) => Ok(items),
        Err(_) => Err(OUT_OF_MEMORY),
    }
}

/// A commit of a list.
#[tactic(auto, unfolding(crate::specs::Calls::commit_given_list))]
fn commit_given_list(
    alloc: Global,
    member: &mut Member<Suite0001>,
    proposals: &Given,
    path: u64,
    seed: &Given,
) -> Result<Fruit, u32>
    ensures { Changes (commit_given_list (text proposals.now) path (text seed.now) member.old)
        member.old member.new result }
{
    let items = given_items(alloc, proposals)?;
    let seed = seed_of(seed)?;
    let commit_room = room(alloc)?;
    let welcome_room = room(alloc)?;
    match member.commit(&items, path != 0, &seed) {
        Ok(made) => {
            let commit = Bytes::from_vec(made.commit);
            let welcome = welcome_of(made.welcome);
            Ok(two(commit_room, welcome_room, commit, welcome, 0))
        }
        Err(error) => Err(error.number() as u32),
    }
}

/// A commit of a list, of a handle's member.
#[tactic(auto, unfolding(crate::specs::Calls::member_commit, crate::specs::Calls::on_member, crate::specs::Calls::a_member))]
pub(crate) fn member_commit(
    alloc: Global,
    held: Held,
    proposals: &Given,
    path: u64,
    seed: &Given,
) -> Done
    ensures does { Does (member_commit (shown held) (text proposals.now) path (text seed.now))
        (shown held) result }
    ensures stays { held ≡ Nothing → result.held ≡ Nothing }
{
    match take_member(held) {
        Ok(mut member) => {
            let outcome = commit_given_list(alloc, &mut member, proposals, path, seed);
            Done::of_member(member, outcome)
        }
        Err((held, number)) => Done::of_refusal(held, number),
    }
}
