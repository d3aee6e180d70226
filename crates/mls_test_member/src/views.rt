//! What a member shows to an application: who is in the group, what it keeps, and what a message would do.

use mls_candidate::Candidate;
use mls_kdf::Secret;
use mls_leaf::Proposal;
use mls_member::{KeptCommit, KeptProposal, Member, Refusal, message_sender};
use mls_suite::Glass;
use mls_test_pair::{Pair, Seeds, share};
use std::alloc::Global;
use std::test::Fail;

const SEEDS: Seeds = Seeds {
    alice: [1; 32],
    bob: [2; 32],
    group: [3; 32],
    addition: [4; 32],
    renewal: [5; 32],
};

/// Two members of a group, in a box.
fn new_pair(alloc: Global) -> Result<Box<Pair<Glass>>, Refusal> {
    let pair = share(alloc, b"g", &SEEDS)?;
    Ok(Box::new(alloc, pair)?)
}

/// A member takes a message, and the effect is let go.
fn process(member: &mut Member<Glass>, message: &[u8]) -> Result<(), Refusal> {
    let _effect = member.process(message)?;
    Ok(())
}

/// A member's commit with a path.
fn commit(member: &mut Member<Glass>) -> Result<Vec<u8>, Refusal> {
    Ok(member.commit(&[], true, &[7; 32])?.commit)
}

/// A member's update.
fn update(member: &mut Member<Glass>, seed: u8) -> Result<Vec<u8>, Refusal> {
    member.propose_update(&[seed; 32])
}

/// Whether the member's group is that of "alice" at leaf 0 and "bob" at leaf 1.
fn has_both(member: &Member<Glass>) -> bool {
    let mut members = member.members();
    let (first, second) = (members.next(), members.next());
    match (first, second, members.next()) {
        (Some(first), Some(second), None) => {
            (first.leaf, first.identity) == (0, b"alice".as_slice())
                && (second.leaf, second.identity) == (1, b"bob".as_slice())
        }
        _ => false,
    }
}

/// The identity of the member at a leaf.
fn identity_at<'a>(member: &'a Member<Glass>, leaf: u32) -> &'a [u8] {
    match member.member_at(leaf) {
        Some(found) => found.identity,
        None => b"",
    }
}

/// Whether both know who is in the group, and the second knows its own name.
fn know_each_other(pair: &Pair<Glass>) -> bool {
    has_both(&pair.first)
        && has_both(&pair.second)
        && pair.second.own_identity() == Some(b"bob".as_slice())
        && identity_at(&pair.second, 0) == b"alice".as_slice()
        && identity_at(&pair.second, 2) == b"".as_slice()
}

#[test]
fn who_is_in_the_group(rt: HostRuntime) -> Result<(), Fail> {
    let pair = new_pair(rt.alloc())?;
    assert!(rt; know_each_other(&pair));
    Ok(())
}

/// Whether it is an update of leaf 1 with this message.
fn is_update(kept: &KeptProposal, message: &[u8]) -> bool {
    let is_update = match kept.proposal() {
        Proposal::Update(_) => true,
        _ => false,
    };
    is_update && kept.sender() == 1 && kept.message() == message
}

/// Whether a member keeps one proposal, the update of leaf 1 with this message, and knows its reference.
fn keeps_update(member: &Member<Glass>, message: &[u8]) -> bool {
    match (member.kept_proposals(), member.reference_of(message)) {
        ([kept], Some(reference)) => is_update(kept, message) && kept.reference() == reference,
        _ => false,
    }
}

/// The second proposes an update, and the first takes it. Whether both keep it then.
fn propose(pair: &mut Pair<Glass>) -> Result<bool, Refusal> {
    let update = update(&mut pair.second, 6)?;
    let is_none = pair.first.reference_of(&update).is_none();
    process(&mut pair.first, &update)?;
    Ok(is_none && keeps_update(&pair.first, &update) && keeps_update(&pair.second, &update))
}

#[test]
fn what_is_kept(rt: HostRuntime) -> Result<(), Fail> {
    let mut pair = new_pair(rt.alloc())?;
    assert!(rt; propose(&mut pair)?);
    Ok(())
}

/// The first commits with a path, and the second inspects that: the epoch that it would come to.
fn inspect(pair: &mut Pair<Glass>) -> Result<u64, Refusal> {
    let commit = commit(&mut pair.first)?;
    let inspected = pair.second.inspect(&commit)?;
    Ok(inspected.member.epoch())
}

#[test]
fn what_a_message_would_do(rt: HostRuntime) -> Result<(), Fail> {
    let mut pair = new_pair(rt.alloc())?;
    assert_eq!(rt; inspect(&mut pair)?, 3);
    Ok(())
}

/// A member's commit of what it keeps, in a box.
fn kept(alloc: Global, member: &mut Member<Glass>, seed: u8) -> Result<Box<KeptCommit>, Refusal> {
    let kept = member.commit_kept(false, &[seed; 32])?;
    Ok(Box::new(alloc, kept)?)
}

/// Whether a commit leaves out a member's own proposal alone.
fn leaves_out(member: &Member<Glass>, kept: &KeptCommit, own: &[u8]) -> bool {
    match member.reference_of(own) {
        Some(reference) => kept.left_out.as_slice() == [*reference].as_slice(),
        None => false,
    }
}

/// Both propose updates, which the first has then: its own.
fn propose_both(pair: &mut Pair<Glass>) -> Result<Vec<u8>, Refusal> {
    let own = update(&mut pair.first, 6)?;
    let other = update(&mut pair.second, 7)?;
    process(&mut pair.first, &other)?;
    Ok(own)
}

/// Both propose updates, and the first commits what it keeps. Whether it leaves out its own alone, and the second follows.
fn commit_kept(alloc: Global, pair: &mut Pair<Glass>) -> Result<bool, Refusal> {
    let own = propose_both(pair)?;
    let kept = kept(alloc, &mut pair.first, 8)?;
    let is_own = leaves_out(&pair.first, &kept, &own);
    process(&mut pair.second, &kept.made.commit)?;
    Ok(is_own && message_sender(&kept.made.commit) == Some(0))
}

#[test]
fn what_goes_together(rt: HostRuntime) -> Result<(), Fail> {
    let mut pair = new_pair(rt.alloc())?;
    assert!(rt; commit_kept(rt.alloc(), &mut pair)?);
    assert_eq!(rt; pair.second.epoch(), 3);
    Ok(())
}

/// The candidate that the second was.
fn second_again(alloc: Global) -> Result<Box<Candidate<Glass>>, Refusal> {
    let candidate = Candidate::new(alloc, b"bob", &SEEDS.bob)?;
    Ok(Box::new(alloc, candidate)?)
}

/// A member proposes to add a candidate.
fn offer(member: &mut Member<Glass>, candidate: &Candidate<Glass>) -> Result<Vec<u8>, Refusal> {
    candidate.is_short();
    member.propose_add(candidate.key_package())
}

/// A member proposes to add the second, who is there.
fn offer_again(alloc: Global, member: &mut Member<Glass>) -> Result<Vec<u8>, Refusal> {
    let candidate = second_again(alloc)?;
    offer(member, &candidate)
}

/// The first proposes to add the second, and commits what it keeps. Whether it leaves out that addition alone.
fn leaves_out_offer(alloc: Global, pair: &mut Pair<Glass>) -> Result<bool, Refusal> {
    let offer = offer_again(alloc, &mut pair.first)?;
    let kept = kept(alloc, &mut pair.first, 8)?;
    process(&mut pair.second, &kept.made.commit)?;
    Ok(leaves_out(&pair.first, &kept, &offer) && kept.made.welcome.is_none())
}

#[test]
fn no_member_joins_twice(rt: HostRuntime) -> Result<(), Fail> {
    let mut pair = new_pair(rt.alloc())?;
    assert!(rt; leaves_out_offer(rt.alloc(), &mut pair)?);
    assert_eq!(rt; pair.second.epoch(), 3);
    Ok(())
}

/// The first takes the second's update of its leaf into a commit, so that the leaf hasn't the key of the candidate that the
/// second was.
fn renew_second(alloc: Global, pair: &mut Pair<Glass>) -> Result<(), Refusal> {
    let update = update(&mut pair.second, 7)?;
    process(&mut pair.first, &update)?;
    let kept = kept(alloc, &mut pair.first, 8)?;
    process(&mut pair.first, &kept.made.commit)
}

/// The first proposes to remove the second and to add it anew, and commits what it keeps. How many it leaves out, and
/// whether somebody is welcome.
fn readmit(alloc: Global, pair: &mut Pair<Glass>) -> Result<(usize, bool), Refusal> {
    renew_second(alloc, pair)?;
    let _removal = pair.first.propose_remove(1)?;
    let _offer = offer_again(alloc, &mut pair.first)?;
    let kept = kept(alloc, &mut pair.first, 9)?;
    Ok((kept.left_out.len(), kept.made.welcome.is_some()))
}

#[test]
fn who_is_removed_is_added_again(rt: HostRuntime) -> Result<(), Fail> {
    let mut pair = new_pair(rt.alloc())?;
    assert_eq!(rt; readmit(rt.alloc(), &mut pair)?, (0, true));
    Ok(())
}

/// Whether a member lists one proposal of a commit, of leaf 1, and lacks none.
fn lists_all(member: &Member<Glass>, commit: &[u8]) -> Result<bool, Refusal> {
    let listed = member.commit_proposals(commit)?;
    let is_of_second = match listed.as_slice() {
        [one] => one.sender == 1,
        _ => false,
    };
    Ok(is_of_second && member.missing_proposals(commit)?.is_empty())
}

/// Whether a member lacks the proposal of a commit, by its reference, and so can't list it.
fn lacks(member: &Member<Glass>, commit: &[u8], reference: &Secret) -> Result<bool, Refusal> {
    let missing = member.missing_proposals(commit)?;
    let is_lacking = match missing.as_slice() {
        [one] => one.as_slice() == reference.as_slice(),
        _ => false,
    };
    let is_refused = match member.commit_proposals(commit) {
        Ok(_) => false,
        Err(error) => error.number() == 60,
    };
    Ok(is_lacking && is_refused)
}

/// A member forgets the proposal with this message. Its reference.
fn forget(member: &mut Member<Glass>, message: &[u8]) -> Result<Option<Secret>, Refusal> {
    let found = match member.reference_of(message) {
        Some(reference) => Some(*reference),
        None => None,
    };
    if let Some(reference) = &found {
        let _had = member.forget_proposal(reference.as_slice())?;
    }
    Ok(found)
}

/// The first commits an update of the second. Whether the second has all that the commit names, until it forgets it.
fn tell_missing(alloc: Global, pair: &mut Pair<Glass>) -> Result<bool, Refusal> {
    let update = update(&mut pair.second, 6)?;
    process(&mut pair.first, &update)?;
    let kept = kept(alloc, &mut pair.first, 8)?;
    let has_all = lists_all(&pair.second, &kept.made.commit)?;
    match forget(&mut pair.second, &update)? {
        Some(reference) => Ok(has_all && lacks(&pair.second, &kept.made.commit, &reference)?),
        None => Ok(false),
    }
}

#[test]
fn what_is_missing(rt: HostRuntime) -> Result<(), Fail> {
    let mut pair = new_pair(rt.alloc())?;
    assert!(rt; tell_missing(rt.alloc(), &mut pair)?);
    Ok(())
}
