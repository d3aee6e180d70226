//! Groups of two and three members, and what crosses between them.

use crate::worlds::script::{
    Act, Part, Parts, Said, Sent, reload_members, run_in_each_way, run_with_reloads,
};
use mls_model::{Effect, Event, Origin, Reply, Source};
use mls_suite::{Glass, OutOfMemory};
use mls_world::World;
use std::alloc::Global;
use std::process::Abort;
use std::test::Fail;

/// Whether members i and j hold one public context and one epoch secret.
fn agree(world: &World<Glass>, i: usize, j: usize) -> bool {
    match (world.member(i), world.member(j)) {
        (Some(m), Some(n)) => {
            m.context_bytes() == n.context_bytes()
                && m.secrets().epoch_secret() == n.secrets().epoch_secret()
        }
        _ => false,
    }
}

/// The first member adds the second, who joins. The commit is message 2, the Welcome message 3.
fn two_members(rt: &impl Abort, alloc: Global) -> Result<World<Glass>, OutOfMemory> {
    let add = Parts::One(Part::Add(Sent::Made(1)));
    let acts = [
        (Act::Candidate(b'a', 1), Said::Candidate(0, 0)),
        (Act::Create(0, 2), Said::Created(0)),
        (Act::Candidate(b'b', 3), Said::Candidate(1, 1)),
        (Act::Commit(0, add, true, 4), Said::Welcome(2, 3)),
        (Act::Deliver(0, Sent::Made(2)), Said::Advanced(1)),
        (Act::Join(1, Sent::Made(3)), Said::Joined(1, 1)),
    ];
    run_in_each_way(rt, alloc, &acts)
}

/// Whether the journal of member k begins with a creation by the first member, and has that message as its one commit.
fn follows_one(world: &World<Glass>, k: usize, commit: usize) -> bool {
    let (Some(journal), Some(message)) = (world.journal(k), world.message(commit)) else {
        return false;
    };
    let (Some(entry), Some(earlier)) = (journal.latest(), journal.earlier()) else {
        return false;
    };
    let is_first = earlier.latest().is_none() && matches!(earlier.origin(), Origin::Creation(0));
    entry.commit() == message && entry.names().is_empty() && is_first
}

#[test]
fn one_is_added(rt: HostRuntime) -> Result<(), Fail> {
    let mut world = two_members(&rt, rt.alloc())?;
    let removal = Parts::One(Part::Ref(4));
    let acts = [
        // It is spent, and its Welcome is no message for a member.
        (Act::Join(1, Sent::Made(3)), Said::Refused(91)),
        (Act::Deliver(1, Sent::Made(3)), Said::Refused(41)),
        (Act::Remove(1, 0), Said::Proposal(4)),
        (Act::Commit(1, removal, true, 5), Said::Commit(5)),
        (Act::Deliver(0, Sent::Made(4)), Said::Proposed),
        (Act::Deliver(0, Sent::Made(5)), Said::Removed),
        (Act::Deliver(0, Sent::Made(5)), Said::Refused(40)),
        (Act::Deliver(1, Sent::Made(5)), Said::Advanced(2)),
    ];
    assert!(rt; agree(&world, 0, 1));
    assert!(rt; follows_one(&world, 0, 2));
    assert!(rt; follows_one(&world, 1, 2));
    assert!(rt; world.journal(2).is_none());
    world.headline();
    run_with_reloads(&rt, rt.alloc(), &mut world, &acts)?;
    assert!(rt; !agree(&world, 0, 1));
    Ok(())
}

#[test]
fn an_update_by_reference(rt: HostRuntime) -> Result<(), Fail> {
    let mut world = two_members(&rt, rt.alloc())?;
    let add = Parts::One(Part::Ref(5));
    let update = Parts::One(Part::Ref(8));
    let acts = [
        // A third, added by a proposal.
        (Act::Candidate(b'c', 5), Said::Candidate(2, 4)),
        (Act::Add(1, Sent::Made(4)), Said::Proposal(5)),
        (Act::Deliver(0, Sent::Made(5)), Said::Proposed),
        (Act::Commit(0, add, false, 6), Said::Welcome(6, 7)),
        (Act::Deliver(0, Sent::Made(6)), Said::Advanced(2)),
        (Act::Deliver(1, Sent::Made(6)), Said::Advanced(2)),
        (Act::Join(2, Sent::Made(7)), Said::Joined(2, 2)),
        (Act::Update(2, 7), Said::Proposal(8)),
        (Act::Deliver(1, Sent::Made(8)), Said::Proposed),
        (Act::Deliver(1, Sent::Made(8)), Said::Known),
        (Act::Deliver(0, Sent::Made(8)), Said::Proposed),
        (Act::Commit(1, update, false, 8), Said::Commit(9)),
        (Act::Deliver(0, Sent::Made(9)), Said::Advanced(3)),
        (Act::Deliver(1, Sent::Made(9)), Said::Advanced(3)),
        (Act::Deliver(2, Sent::Made(9)), Said::Advanced(3)),
        (Act::Deliver(2, Sent::Made(9)), Said::Refused(43)),
    ];
    run_with_reloads(&rt, rt.alloc(), &mut world, &acts)?;
    assert!(rt; agree(&world, 0, 1));
    assert!(rt; agree(&world, 0, 2));
    Ok(())
}

// Given bytes are followed before they are made here: the journal becomes homemade, and the maker joins it.
#[test]
fn followed_before_it_is_made(rt: HostRuntime) -> Result<(), Fail> {
    let alloc = rt.alloc();
    let commit = [(Act::Commit(0, Parts::Nothing, true, 6), Said::Commit(4))];
    let mut twin = two_members(&rt, alloc)?;
    run_with_reloads(&rt, alloc, &mut twin, &commit)?;
    let Some(message) = twin.message(4) else {
        return Err("no commit".into());
    };
    let event = Event::Deliver {
        member: 1,
        bytes: Source::Given(message.to_vec(alloc)?),
    };
    let mut world = two_members(&rt, alloc)?;
    let effect = Effect::Advanced { epoch: 2 };
    assert_eq!(rt; world.step(&event)?, Reply::Delivered { effect });
    reload_members(&rt, &mut world);
    run_with_reloads(&rt, alloc, &mut world, &commit)?;
    run_with_reloads(
        &rt,
        alloc,
        &mut world,
        &[(Act::Deliver(0, Sent::Made(4)), Said::Advanced(2))],
    )?;
    assert!(rt; agree(&world, 0, 1));
    Ok(())
}

#[test]
fn crossing_commits(rt: HostRuntime) -> Result<(), Fail> {
    let mut world = two_members(&rt, rt.alloc())?;
    let nothing = Parts::Nothing;
    let acts = [
        (Act::Commit(0, nothing, true, 6), Said::Commit(4)),
        (Act::Commit(1, nothing, true, 7), Said::Commit(5)),
        (Act::Commit(1, nothing, true, 8), Said::Refused(67)),
        // Each follows the other's.
        (Act::Deliver(0, Sent::Made(5)), Said::Advanced(2)),
        (Act::Deliver(0, Sent::Made(4)), Said::Refused(43)),
        (Act::Deliver(1, Sent::Made(4)), Said::Advanced(2)),
        (Act::Commit(1, nothing, true, 9), Said::Commit(6)),
        // And what one makes then is not for the other.
        (Act::Deliver(0, Sent::Made(6)), Said::Refused(46)),
        (Act::Drop(1), Said::Dropped(true)),
        (Act::Deliver(1, Sent::Made(6)), Said::Refused(48)),
    ];
    run_with_reloads(&rt, rt.alloc(), &mut world, &acts)?;
    assert!(rt; !agree(&world, 0, 1));
    Ok(())
}

#[test]
fn extensions_of_a_group(rt: HostRuntime) -> Result<(), Fail> {
    let first = Parts::Two(Part::Extension(0xf001), Part::Add(Sent::Made(1)));
    let second = Parts::Two(Part::Ref(4), Part::Extension(0xf001));
    let by_reference = Parts::One(Part::Ref(4));
    let acts = [
        (Act::Candidate(b'a', 1), Said::Candidate(0, 0)),
        (Act::Create(0, 2), Said::Created(0)),
        (Act::Candidate(b'b', 3), Said::Candidate(1, 1)),
        (Act::Commit(0, first, true, 4), Said::Welcome(2, 3)),
        (Act::Deliver(0, Sent::Made(2)), Said::Advanced(1)),
        (Act::Join(1, Sent::Made(3)), Said::Joined(1, 1)),
        (Act::Extend(1, 0xf002), Said::Proposal(4)),
        (Act::Deliver(0, Sent::Made(4)), Said::Proposed),
        // Two lists for one group.
        (Act::Commit(0, second, true, 5), Said::Refused(68)),
        (Act::Commit(0, by_reference, true, 5), Said::Commit(5)),
        (Act::Deliver(1, Sent::Made(5)), Said::Advanced(2)),
        (Act::Deliver(0, Sent::Made(5)), Said::Advanced(2)),
    ];
    let world = run_in_each_way(&rt, rt.alloc(), &acts)?;
    let length = |n| world.message(n).map(|message| message.len());
    assert_eq!(rt; length(2), Some(522));
    assert_eq!(rt; length(3), Some(696));
    assert!(rt; agree(&world, 0, 1));
    Ok(())
}
