//! A run of events, cut where memory runs out, and a run of the events left.

use crate::page::{print_bytes, print_member};
use crate::trial::{BEGIN, END};
use anyhow::{Result, bail};
use mls_model::{Event, Reply, Source, WorldItem};
use mls_suite::Glass;
use mls_world::World;
use std::alloc::Global;

/// Somebody with a name of one byte comes.
fn candidate(alloc: Global, name: u8, seed: u8) -> Result<Event> {
    let identity = [name].to_vec(alloc)?;
    Ok(Event::Candidate {
        identity,
        seed: [seed; 32],
    })
}

/// The first creates the group "g".
fn creation(alloc: Global) -> Result<Event> {
    let group = b"g".to_vec(alloc)?;
    Ok(Event::Create {
        candidate: 0,
        group,
        seed: [2; 32],
    })
}

/// The first member adds the second candidate.
fn addition(alloc: Global) -> Result<Event> {
    let mut items = Vec::new(alloc);
    items.push(WorldItem::Add(Source::Message(1)))?;
    Ok(Event::Commit {
        member: 0,
        items,
        path: true,
        seed: [4; 32],
    })
}

/// "a" creates a group, and "b" comes.
fn first_events(alloc: Global) -> Result<Vec<Event>> {
    let mut events = Vec::new(alloc);
    events.push(candidate(alloc, b'a', 1)?)?;
    events.push(creation(alloc)?)?;
    events.push(candidate(alloc, b'b', 3)?)?;
    Ok(events)
}

/// "a" creates a group and adds "b", who joins.
fn all_events(alloc: Global) -> Result<Vec<Event>> {
    let mut events = first_events(alloc)?;
    events.push(addition(alloc)?)?;
    let bytes = Source::Message(2);
    events.push(Event::Deliver { member: 0, bytes })?;
    let bytes = Source::Message(3);
    events.push(Event::Join {
        candidate: 1,
        bytes,
    })?;
    Ok(events)
}

/// The messages and the members of a world.
fn print_world(rt: &impl Print, alloc: Global, part: &str, world: &World<Glass>) -> Result<()> {
    for number in 0..4 {
        if let Some(message) = world.message(number) {
            print_bytes(rt, alloc, part, "message", message)?;
        }
    }
    for number in 0..2 {
        if let Some(member) = world.member(number) {
            println!(rt; "{part}: member: {number}")?;
            print_member(rt, alloc, part, member, &[])?;
        }
    }
    Ok(())
}

/// The replies of a run, and whether it ran to its end.
fn print_replies(rt: &impl Print, part: &str, replies: &[Reply], whole: bool) -> Result<()> {
    for reply in replies {
        println!(rt; "{part}: reply: {reply:?}")?;
    }
    println!(rt; "{part}: whole: {whole}")?;
    Ok(())
}

/// A step, and before it the world.
fn print_step(
    rt: &impl Print,
    alloc: Global,
    world: &mut World<Glass>,
    number: usize,
    event: &Event,
) -> Result<()> {
    let part = format!(in alloc; "world {number}")?;
    print_world(rt, alloc, &part, world)?;
    world.step(event)?;
    Ok(())
}

/// The world before each event.
fn print_steps(rt: &impl Print, alloc: Global, events: &[Event]) -> Result<()> {
    let mut world = World::new(alloc);
    for (number, event) in events.iter().enumerate() {
        print_step(rt, alloc, &mut world, number, event)?;
    }
    Ok(())
}

/// The run under trial, and how many replies it gives.
fn first_run(
    rt: &impl Print,
    alloc: Global,
    world: &mut World<Glass>,
    events: &[Event],
) -> Result<usize> {
    let mut replies = Vec::new(alloc);
    rt.println(BEGIN)?;
    let ran = world.run(events, &mut replies);
    rt.println(END)?;
    print_replies(rt, "answer", &replies, ran.is_ok())?;
    Ok(replies.len())
}

/// A run of the events that are left.
fn second_run(
    rt: &impl Print,
    alloc: Global,
    world: &mut World<Glass>,
    left: &[Event],
) -> Result<()> {
    let mut replies = Vec::new(alloc);
    let ran = world.run(left, &mut replies);
    print_replies(rt, "again", &replies, ran.is_ok())
}

/// Both runs, with the world behind each.
fn run_twice(
    rt: &impl Print,
    alloc: Global,
    world: &mut World<Glass>,
    events: &[Event],
) -> Result<()> {
    let count = first_run(rt, alloc, world, events)?;
    print_world(rt, alloc, "after", world)?;
    let Some(left) = events.get(count..) else {
        bail!("more replies than events");
    };
    second_run(rt, alloc, world, left)?;
    print_world(rt, alloc, "last", world)
}

/// The world before each event, and then a run of them all.
pub(crate) fn try_run(rt: &impl Print, alloc: Global) -> Result<()> {
    let events = all_events(alloc)?;
    print_steps(rt, alloc, &events)?;
    let mut world = World::new(alloc);
    run_twice(rt, alloc, &mut world, &events)
}
