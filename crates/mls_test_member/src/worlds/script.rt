//! Events and replies in short forms.

use mls_leaf::{Bytes, Extension};
use mls_model::{Effect, Event, Reply, Source, WorldItem};
use mls_suite::{Glass, OutOfMemory};
use mls_world::{World, WorldError};
use std::alloc::Global;
use std::process::Abort;

/// Where bytes come from.
#[derive(Clone, Copy)]
pub enum Sent {
    /// The message of this number.
    Made(usize),
    /// A Welcome for nobody.
    Welcome,
    /// The beginning of a message.
    Cut,
}

/// A proposal of a commit.
#[derive(Clone, Copy)]
pub enum Part {
    Ref(usize),
    Add(Sent),
    Remove(u32),
    /// One extension, of this type, with the data "hi".
    Extension(u16),
}

/// The proposals of a commit.
#[derive(Clone, Copy)]
pub enum Parts {
    Nothing,
    One(Part),
    Two(Part, Part),
}

/// An event. A name has one byte, and so has a seed, which stands 32 times; the group is "g".
#[derive(Clone, Copy)]
pub enum Act {
    Candidate(u8, u8),
    Create(usize, u8),
    Add(usize, Sent),
    Update(usize, u8),
    Remove(usize, u32),
    /// Of a member, with the type of one extension, whose data are "hi".
    Extend(usize, u16),
    /// Of a member, with whether a path is wanted.
    Commit(usize, Parts, bool, u8),
    Drop(usize),
    Deliver(usize, Sent),
    Join(usize, Sent),
}

/// A reply, without the references of proposals.
#[derive(Clone, Copy, Debug, PartialEq, Eq)]
pub enum Said {
    Candidate(usize, usize),
    Created(usize),
    Proposal(usize),
    Commit(usize),
    Welcome(usize, usize),
    Dropped(bool),
    Proposed,
    Known,
    Advanced(u64),
    Removed,
    Joined(usize, u64),
    Refused(u8),
}

fn source_of(alloc: Global, from: Sent) -> Result<Source, OutOfMemory> {
    match from {
        Sent::Made(number) => Ok(Source::Message(number)),
        Sent::Welcome => { Ok(Source::Given([0, 1, 0, 3, 0xf0, 1, 0, 0].to_vec(alloc)?)) }
        Sent::Cut => Ok(Source::Given([0].to_vec(alloc)?)),
    }
}

fn extensions_of(alloc: Global, kind: u16) -> Result<Vec<Extension>, OutOfMemory> {
    let content = Bytes::from_vec(b"hi".to_vec(alloc)?);
    let mut list = Vec::new(alloc);
    list.push(Extension { kind, content })?;
    Ok(list)
}

fn item_of(alloc: Global, part: Part) -> Result<WorldItem, OutOfMemory> {
    match part {
        Part::Ref(number) => Ok(WorldItem::RefOf(Source::Message(number))),
        Part::Add(from) => Ok(WorldItem::Add(source_of(alloc, from)?)),
        Part::Remove(leaf) => Ok(WorldItem::Remove(leaf)),
        Part::Extension(kind) => Ok(WorldItem::Extensions(extensions_of(alloc, kind)?)),
    }
}

fn items_of(alloc: Global, parts: Parts) -> Result<Vec<WorldItem>, OutOfMemory> {
    let mut list = Vec::new(alloc);
    match parts {
        Parts::Nothing => {}
        Parts::One(part) => list.push(item_of(alloc, part)?)?,
        Parts::Two(first, second) => {
            list.push(item_of(alloc, first)?)?;
            list.push(item_of(alloc, second)?)?;
        }
    }
    Ok(list)
}

fn candidate_event(alloc: Global, name: u8, seed: u8) -> Result<Event, OutOfMemory> {
    let identity = [name].to_vec(alloc)?;
    Ok(Event::Candidate {
        identity,
        seed: [seed; 32],
    })
}

fn create_event(alloc: Global, candidate: usize, seed: u8) -> Result<Event, OutOfMemory> {
    let group = b"g".to_vec(alloc)?;
    Ok(Event::Create {
        candidate,
        group,
        seed: [seed; 32],
    })
}

fn commit_event(
    alloc: Global,
    member: usize,
    parts: Parts,
    path: bool,
    seed: u8,
) -> Result<Event, OutOfMemory> {
    let items = items_of(alloc, parts)?;
    Ok(Event::Commit {
        member,
        items,
        path,
        seed: [seed; 32],
    })
}

/// The event that an act stands for.
fn event_of(alloc: Global, act: Act) -> Result<Event, OutOfMemory> {
    match act {
        Act::Candidate(name, seed) => candidate_event(alloc, name, seed),
        Act::Create(n, seed) => create_event(alloc, n, seed),
        Act::Add(member, from) => Ok(Event::ProposeAdd {
            member,
            key_package: source_of(alloc, from)?,
        }),
        Act::Update(member, seed) => Ok(Event::ProposeUpdate {
            member,
            seed: [seed; 32],
        }),
        Act::Remove(member, leaf) => Ok(Event::ProposeRemove { member, leaf }),
        Act::Extend(member, kind) => Ok(Event::ProposeExtensions {
            member,
            extensions: extensions_of(alloc, kind)?,
        }),
        Act::Commit(member, parts, path, seed) => commit_event(alloc, member, parts, path, seed),
        Act::Drop(member) => Ok(Event::DropPending { member }),
        Act::Deliver(member, from) => Ok(Event::Deliver {
            member,
            bytes: source_of(alloc, from)?,
        }),
        Act::Join(candidate, from) => Ok(Event::Join {
            candidate,
            bytes: source_of(alloc, from)?,
        }),
    }
}

fn said_of_effect(effect: Effect) -> Said {
    match effect {
        Effect::Proposed { .. } => Said::Proposed,
        Effect::Known { .. } => Said::Known,
        Effect::Advanced { epoch } => Said::Advanced(epoch),
        Effect::Removed => Said::Removed,
    }
}

fn said_of_reply(reply: Reply) -> Said {
    match reply {
        Reply::Candidate { candidate, message } => Said::Candidate(candidate, message),
        Reply::Created { member } => Said::Created(member),
        Reply::Proposal { message } => Said::Proposal(message),
        Reply::Commit {
            message,
            welcome: None,
        } => Said::Commit(message),
        Reply::Commit {
            message,
            welcome: Some(welcome),
        } => Said::Welcome(message, welcome),
        Reply::Dropped { pending } => Said::Dropped(pending),
        Reply::Delivered { effect: e } => said_of_effect(e),
        Reply::Joined { member, epoch } => Said::Joined(member, epoch),
        Reply::Refused { number } => Said::Refused(number),
    }
}

/// Runs acts in a world, each of which has its reply.
fn run(
    rt: &impl Abort,
    alloc: Global,
    world: &mut World<Glass>,
    acts: &[(Act, Said)],
) -> Result<(), OutOfMemory> {
    let mut events = Vec::new(alloc);
    for (act, _) in acts {
        events.push(event_of(alloc, *act)?)?;
    }
    let mut replies = Vec::new(alloc);
    world.run(&events, &mut replies)?;
    assert_eq!(rt; replies.len(), acts.len());
    for (reply, (_, wanted)) in replies.iter().zip(acts) {
        assert_eq!(rt; said_of_reply(*reply), *wanted);
    }
    Ok(())
}

/// What the call that an event is answers: candidates, groups and joins.
fn call_event(alloc: Global, world: &mut World<Glass>, event: &Event) -> Result<Said, WorldError> {
    match event {
        Event::Candidate { identity, seed } => {
            let new = world.candidate(identity, seed)?;
            Ok(Said::Candidate(new.candidate, new.message))
        }
        Event::Create {
            candidate,
            group,
            seed,
        } => Ok(Said::Created(world.create(*candidate, group, seed)?)),
        Event::Join { candidate, bytes } => {
            let new = world.join(*candidate, bytes)?;
            Ok(Said::Joined(new.member, new.epoch))
        }
        _ => call_proposal(alloc, world, event),
    }
}

/// What members propose.
fn call_proposal(
    alloc: Global,
    world: &mut World<Glass>,
    event: &Event,
) -> Result<Said, WorldError> {
    match event {
        Event::ProposeAdd {
            member,
            key_package,
        } => Ok(Said::Proposal(world.propose_add(*member, key_package)?)),
        Event::ProposeUpdate { member, seed } => {
            Ok(Said::Proposal(world.propose_update(*member, seed)?))
        }
        Event::ProposeRemove { member, leaf } => {
            Ok(Said::Proposal(world.propose_remove(*member, *leaf)?))
        }
        Event::ProposeExtensions { member, extensions } => {
            let copy = Vec::from_clones(alloc, extensions)?;
            Ok(Said::Proposal(world.propose_extensions(*member, copy)?))
        }
        _ => call_commit_or_delivery(world, event),
    }
}

/// What members commit and follow.
fn call_commit_or_delivery(world: &mut World<Glass>, event: &Event) -> Result<Said, WorldError> {
    match event {
        Event::Commit {
            member,
            items,
            path,
            seed,
        } => {
            let new = world.commit(*member, items, *path, seed)?;
            match new.welcome {
                Some(welcome) => Ok(Said::Welcome(new.message, welcome)),
                None => Ok(Said::Commit(new.message)),
            }
        }
        Event::DropPending { member } => Ok(Said::Dropped(world.drop_pending(*member)?)),
        Event::Deliver { member, bytes } => Ok(said_of_effect(world.deliver(*member, bytes)?)),
        _ => Ok(Said::Refused(0)),
    }
}

/// Calls what each act is, which answers its reply.
fn call_each(
    rt: &impl Abort,
    alloc: Global,
    world: &mut World<Glass>,
    acts: &[(Act, Said)],
) -> Result<(), OutOfMemory> {
    for (act, wanted) in acts {
        let event = event_of(alloc, *act)?;
        let said = match call_event(alloc, world, &event) {
            Ok(said) => said,
            Err(error) => Said::Refused(error.number()),
        };
        assert_eq!(rt; said, *wanted);
    }
    Ok(())
}

/// Saves each member of a world that wasn't removed, and loads it of these bytes.
pub fn reload_members(rt: &impl Abort, world: &mut World<Glass>) {
    for k in 0..world.member_count() {
        assert!(rt; world.reload(k).is_ok());
    }
}

/// Runs acts one by one in a world, each of which has its reply, and after each saves the members and loads them.
pub fn run_with_reloads(
    rt: &impl Abort,
    alloc: Global,
    world: &mut World<Glass>,
    acts: &[(Act, Said)],
) -> Result<(), OutOfMemory> {
    for act in acts {
        run(rt, alloc, world, &[*act])?;
        reload_members(rt, world);
    }
    Ok(())
}

/// Runs acts in a new world.
fn run_anew(rt: &impl Abort, alloc: Global, acts: &[(Act, Said)]) -> Result<(), OutOfMemory> {
    let mut world = World::new(alloc);
    run(rt, alloc, &mut world, acts)
}

/// Calls acts in a new world.
fn call_anew(rt: &impl Abort, alloc: Global, acts: &[(Act, Said)]) -> Result<(), OutOfMemory> {
    let mut world = World::new(alloc);
    call_each(rt, alloc, &mut world, acts)
}

/// Runs acts in one world, calls them in another, and runs them with reloads in a third, which it answers.
pub fn run_in_each_way(
    rt: &impl Abort,
    alloc: Global,
    acts: &[(Act, Said)],
) -> Result<World<Glass>, OutOfMemory> {
    run_anew(rt, alloc, acts)?;
    call_anew(rt, alloc, acts)?;
    let mut world = World::new(alloc);
    run_with_reloads(rt, alloc, &mut world, acts)?;
    Ok(world)
}
