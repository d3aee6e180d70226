//! Events in short forms.

use mls_leaf::{Bytes, Extension};
use mls_model::{Event, Source, WorldItem};
use std::alloc::{AllocError, Global};

/// The proposals of a commit.
#[derive(Clone, Copy)]
pub enum Parts {
    Nothing,
    /// The proposal of a message, by its reference.
    Named(usize),
    /// The removal of a leaf.
    Removal(u32),
    /// The KeyPackages of so many messages, one after another.
    Added { first: usize, count: usize },
}

/// An event. A name has one byte, and so has a seed, which stands 32 times.
#[derive(Clone, Copy)]
pub enum Act {
    Candidate {
        name: u8,
        seed: u8,
    },
    /// A candidate creates group "g".
    Create {
        candidate: usize,
        seed: u8,
    },
    Update {
        member: usize,
        seed: u8,
    },
    Remove {
        member: usize,
        leaf: u32,
    },
    /// Two extensions of types for private use are proposed for the group.
    Extensions {
        member: usize,
    },
    Commit {
        member: usize,
        parts: Parts,
        path: bool,
        seed: u8,
    },
    Deliver {
        member: usize,
        message: usize,
    },
    Join {
        candidate: usize,
        message: usize,
    },
}

/// The KeyPackage of a message, added in full.
fn addition(message: usize) -> WorldItem {
    WorldItem::Add(Source::Message(message))
}

/// The KeyPackages of messages, one after another.
pub fn additions(alloc: Global, first: usize, count: usize) -> Result<Vec<WorldItem>, AllocError> {
    let mut items = Vec::new(alloc);
    for k in 0..count {
        items.push(addition(first.saturating_add(k)))?;
    }
    Ok(items)
}

fn items_of(alloc: Global, parts: Parts) -> Result<Vec<WorldItem>, AllocError> {
    match parts {
        Parts::Nothing => Ok(Vec::new(alloc)),
        Parts::Named(message) => Ok(vec![in alloc; WorldItem::RefOf(Source::Message(message))]?),
        Parts::Removal(leaf) => Ok(vec![in alloc; WorldItem::Remove(leaf)]?),
        Parts::Added { first, count } => additions(alloc, first, count),
    }
}

fn candidate_event(alloc: Global, name: u8, seed: u8) -> Result<Event, AllocError> {
    let identity = Vec::from_slice(alloc, &[name])?;
    Ok(Event::Candidate {
        identity,
        seed: [seed; 32],
    })
}

fn create_event(alloc: Global, candidate: usize, seed: u8) -> Result<Event, AllocError> {
    let group = Vec::from_slice(alloc, b"g")?;
    Ok(Event::Create {
        candidate,
        group,
        seed: [seed; 32],
    })
}

fn commit_event(
    alloc: Global,
    member: usize,
    parts: Parts,
    path: bool,
    seed: u8,
) -> Result<Event, AllocError> {
    let items = items_of(alloc, parts)?;
    Ok(Event::Commit {
        member,
        items,
        path,
        seed: [seed; 32],
    })
}

/// An extension of a type.
fn extension(alloc: Global, kind: u16) -> Result<Extension, AllocError> {
    let content = Bytes::from_slice(alloc, &[5, 6])?;
    Ok(Extension { kind, content })
}

fn extensions_event(alloc: Global, member: usize) -> Result<Event, AllocError> {
    let mut extensions = Vec::new(alloc);
    extensions.push(extension(alloc, 0xf000)?)?;
    extensions.push(extension(alloc, 0xffff)?)?;
    Ok(Event::ProposeExtensions { member, extensions })
}

/// The event that an act stands for.
pub fn event_of(alloc: Global, act: Act) -> Result<Event, AllocError> {
    match act {
        Act::Candidate { name, seed } => candidate_event(alloc, name, seed),
        Act::Create { candidate, seed } => create_event(alloc, candidate, seed),
        Act::Update { member, seed } => Ok(Event::ProposeUpdate {
            member,
            seed: [seed; 32],
        }),
        Act::Remove { member, leaf } => Ok(Event::ProposeRemove { member, leaf }),
        Act::Extensions { member } => extensions_event(alloc, member),
        Act::Commit {
            member,
            parts,
            path,
            seed,
        } => commit_event(alloc, member, parts, path, seed),
        Act::Deliver { member, message } => Ok(Event::Deliver {
            member,
            bytes: Source::Message(message),
        }),
        Act::Join { candidate, message } => Ok(Event::Join {
            candidate,
            bytes: Source::Message(message),
        }),
    }
}
