//! The numbers that a world answers before its members do.

use crate::worlds::script::{Act, Part, Parts, Said, Sent, run_in_each_way};
use std::test::Fail;

#[test]
fn candidates(rt: HostRuntime) -> Result<(), Fail> {
    let acts = [
        (Act::Candidate(b'a', 1), Said::Candidate(0, 0)),
        // The seed of an earlier one.
        (Act::Candidate(b'b', 1), Said::Refused(93)),
        (Act::Candidate(b'a', 2), Said::Candidate(1, 1)),
        (Act::Create(2, 3), Said::Refused(92)),
        (Act::Create(0, 3), Said::Created(0)),
        // One that became a member is spent.
        (Act::Create(0, 3), Said::Refused(91)),
        (Act::Join(0, Sent::Made(9)), Said::Refused(91)),
        (Act::Join(2, Sent::Made(9)), Said::Refused(92)),
        (Act::Join(1, Sent::Made(9)), Said::Refused(94)),
        // A KeyPackage is no Welcome.
        (Act::Join(1, Sent::Made(0)), Said::Refused(70)),
        // One whose KeyPackage no group added is not in the Welcome.
        (Act::Join(1, Sent::Welcome), Said::Refused(72)),
        (Act::Join(1, Sent::Cut), Said::Refused(2)),
        (Act::Create(1, 3), Said::Created(1)),
    ];
    let _world = run_in_each_way(&rt, rt.alloc(), &acts)?;
    Ok(())
}

#[test]
fn members(rt: HostRuntime) -> Result<(), Fail> {
    let acts = [
        (Act::Deliver(0, Sent::Made(0)), Said::Refused(90)),
        (Act::Candidate(b'a', 1), Said::Candidate(0, 0)),
        (Act::Create(0, 2), Said::Created(0)),
        (Act::Deliver(1, Sent::Made(9)), Said::Refused(90)),
        (Act::Deliver(0, Sent::Made(9)), Said::Refused(94)),
        // What is delivered is the member's to judge.
        (Act::Deliver(0, Sent::Made(0)), Said::Refused(41)),
        (Act::Deliver(0, Sent::Cut), Said::Refused(2)),
        (Act::Update(1, 3), Said::Refused(90)),
        (Act::Remove(1, 0), Said::Refused(90)),
        (Act::Extend(1, 3), Said::Refused(90)),
        // No group carries a type below f000.
        (Act::Extend(0, 3), Said::Refused(14)),
        (Act::Drop(1), Said::Refused(90)),
        (Act::Drop(0), Said::Dropped(false)),
    ];
    let _world = run_in_each_way(&rt, rt.alloc(), &acts)?;
    Ok(())
}

#[test]
fn sources(rt: HostRuntime) -> Result<(), Fail> {
    let none = Parts::One(Part::Ref(9));
    let package = Parts::One(Part::Ref(0));
    let welcome = Parts::One(Part::Add(Sent::Welcome));
    let both = Parts::Two(Part::Add(Sent::Cut), Part::Ref(9));
    let forbidden = Parts::Two(Part::Extension(3), Part::Ref(9));
    let behind = Parts::Two(Part::Ref(9), Part::Extension(3));
    let acts = [
        (Act::Candidate(b'a', 1), Said::Candidate(0, 0)),
        (Act::Create(0, 2), Said::Created(0)),
        (Act::Add(1, Sent::Made(0)), Said::Refused(90)),
        (Act::Add(0, Sent::Made(1)), Said::Refused(94)),
        (Act::Add(0, Sent::Cut), Said::Refused(2)),
        (Act::Add(0, Sent::Welcome), Said::Refused(95)),
        (Act::Commit(1, none, true, 3), Said::Refused(90)),
        (Act::Commit(0, none, true, 3), Said::Refused(94)),
        // A KeyPackage is no proposal, a Welcome no KeyPackage.
        (Act::Commit(0, package, true, 3), Said::Refused(95)),
        (Act::Commit(0, welcome, true, 3), Said::Refused(95)),
        // The first source decides.
        (Act::Commit(0, both, true, 3), Said::Refused(2)),
        (Act::Commit(0, forbidden, true, 3), Said::Refused(14)),
        (Act::Commit(0, behind, true, 3), Said::Refused(94)),
    ];
    let _world = run_in_each_way(&rt, rt.alloc(), &acts)?;
    Ok(())
}
