//! A group of forty: a Welcome for twenty, and commits of thirty proposals. Each answer is one that was worked out by
//! hand: member k stands at leaf k, except for members 40 to 44, who are added at leaves 20 to 24.

use crate::acts::{Act, Parts, event_of};
use crate::outcome::Outcome;
use crate::stage::Stage;
use anyhow::{Result, bail};
use mls_model::{Event, Source, WorldItem};
use std::alloc::{AllocError, Global};
use std::io::Print;

/// What an act is answered, which has to be this.
fn check_answer(stage: &mut Stage, alloc: Global, act: Act, due: Outcome) -> Result<()> {
    let event = event_of(alloc, act)?;
    let answer = stage.answer(&event);
    drop(event);
    let answer = answer?;
    if answer != due {
        bail!("answered {answer}, and not {due}");
    }
    Ok(())
}

/// Gives a message to the members from one on and before another.
fn deliver(
    stage: &mut Stage,
    alloc: Global,
    members: (usize, usize),
    message: usize,
    due: Outcome,
) -> Result<()> {
    for member in members.0..members.1 {
        check_answer(stage, alloc, Act::Deliver { member, message }, due)?;
    }
    Ok(())
}

/// The candidates from one on and before another join by a Welcome.
fn join(
    stage: &mut Stage,
    alloc: Global,
    candidates: (usize, usize),
    message: usize,
    epoch: u64,
) -> Result<()> {
    for candidate in candidates.0..candidates.1 {
        let due = Outcome::Joined(epoch);
        check_answer(stage, alloc, Act::Join { candidate, message }, due)?;
    }
    Ok(())
}

/// Whether two members stand in one state: one context, and one epoch secret.
fn stand_together(stage: &Stage, one: usize, other: usize) -> Result<bool> {
    let one = stage.member(one)?;
    let other = stage.member(other)?;
    let is_public = one.context_bytes() == other.context_bytes();
    Ok(is_public && one.secrets().epoch_secret() == other.secrets().epoch_secret())
}

/// How many of the members from one on and before another stand where a member does.
fn count_standing(stage: &Stage, members: (usize, usize), with: usize) -> Result<usize> {
    let mut count: usize = 0;
    for member in members.0..members.1 {
        if stand_together(stage, member, with)? {
            count = count.saturating_add(1);
        }
    }
    Ok(count)
}

/// How many members stand where one does, of how many in its tree, and in which epoch.
fn print_standing(
    rt: &impl Print,
    stage: &Stage,
    what: &str,
    members: &[(usize, usize)],
    with: usize,
) -> Result<()> {
    let mut count: usize = 0;
    for range in members {
        count = count.saturating_add(count_standing(stage, *range, with)?);
    }
    let member = stage.member(with)?;
    let all = member.group().tree().member_count();
    let epoch = member.epoch();
    println!(rt; "  {what}: {count} of {all} members in one state, epoch {epoch}")?;
    Ok(())
}

/// Fifty-three candidates, whose KeyPackages are messages 0 to 52; the first is alone in a group.
fn candidates(alloc: Global) -> Result<Vec<Act>, AllocError> {
    let mut acts = Vec::new(alloc);
    for name in 0..53u8 {
        acts.push(Act::Candidate {
            name,
            seed: name.saturating_add(1),
        })?;
    }
    acts.push(Act::Create {
        candidate: 0,
        seed: 100,
    })?;
    Ok(acts)
}

/// A commit of additions alone.
fn adds(stage: &mut Stage, alloc: Global, member: usize, parts: Parts, path: bool) -> Result<()> {
    let commit = Act::Commit {
        member,
        parts,
        path,
        seed: 101,
    };
    stage.acts(alloc, &[commit])
}

/// A commit of a list, with a path.
fn commit(
    stage: &mut Stage,
    alloc: Global,
    member: usize,
    items: Vec<WorldItem>,
    seed: u8,
) -> Result<()> {
    let event = Event::Commit {
        member,
        items,
        path: true,
        seed: [seed; 32],
    };
    let answered = stage.event(alloc, &event);
    drop(event);
    answered
}

/// Messages 53 and 54: nineteen are added without a path. Messages 55 and 56: the eighth member adds twenty, with a
/// path.
fn add_all(stage: &mut Stage, alloc: Global) -> Result<()> {
    let nineteen = Parts::Added {
        first: 1,
        count: 19,
    };
    adds(stage, alloc, 0, nineteen, false)?;
    deliver(stage, alloc, (0, 1), 53, Outcome::Advanced(1))?;
    join(stage, alloc, (1, 20), 54, 1)?;
    let twenty = Parts::Added {
        first: 20,
        count: 20,
    };
    adds(stage, alloc, 7, twenty, true)?;
    deliver(stage, alloc, (0, 20), 55, Outcome::Advanced(2))?;
    join(stage, alloc, (20, 40), 56, 2)
}

/// Messages 57 to 66: the members 1 to 10 propose updates, which all are given.
fn update_ten(stage: &mut Stage, alloc: Global) -> Result<()> {
    for k in 0..10u8 {
        let member = usize::from(k).saturating_add(1);
        let message = usize::from(k).saturating_add(57);
        let update = Act::Update {
            member,
            seed: k.saturating_add(110),
        };
        stage.acts(alloc, &[update])?;
        deliver(stage, alloc, (0, member), message, Outcome::Proposed)?;
        let next = member.saturating_add(1);
        deliver(stage, alloc, (member, next), message, Outcome::Known)?;
        deliver(stage, alloc, (next, 40), message, Outcome::Proposed)?;
    }
    Ok(())
}

fn references(items: &mut Vec<WorldItem>, messages: (usize, usize)) -> Result<(), AllocError> {
    for message in messages.0..messages.1 {
        items.push(WorldItem::RefOf(Source::Message(message)))?;
    }
    Ok(())
}

fn removals(items: &mut Vec<WorldItem>, leaves: (u32, u32)) -> Result<(), AllocError> {
    for leaf in leaves.0..leaves.1 {
        items.push(WorldItem::Remove(leaf))?;
    }
    Ok(())
}

fn additions(items: &mut Vec<WorldItem>, messages: (usize, usize)) -> Result<(), AllocError> {
    for message in messages.0..messages.1 {
        items.push(WorldItem::Add(Source::Message(message)))?;
    }
    Ok(())
}

/// Messages 67 and 68: the first member commits the ten updates, fifteen removals and five additions.
fn commit_thirty(stage: &mut Stage, alloc: Global) -> Result<()> {
    let mut items = Vec::new(alloc);
    references(&mut items, (57, 67))?;
    removals(&mut items, (20, 35))?;
    additions(&mut items, (40, 45))?;
    commit(stage, alloc, 0, items, 102)?;
    deliver(stage, alloc, (0, 20), 67, Outcome::Advanced(3))?;
    deliver(stage, alloc, (20, 35), 67, Outcome::Removed)?;
    deliver(stage, alloc, (35, 40), 67, Outcome::Advanced(3))?;
    join(stage, alloc, (40, 45), 68, 3)
}

/// Messages 69 and 70: the fortieth member commits twenty-two removals and eight additions.
fn commit_thirty_more(stage: &mut Stage, alloc: Global) -> Result<()> {
    let mut items = Vec::new(alloc);
    removals(&mut items, (0, 22))?;
    additions(&mut items, (45, 53))?;
    commit(stage, alloc, 39, items, 103)?;
    deliver(stage, alloc, (0, 20), 69, Outcome::Removed)?;
    deliver(stage, alloc, (35, 40), 69, Outcome::Advanced(4))?;
    deliver(stage, alloc, (40, 42), 69, Outcome::Removed)?;
    deliver(stage, alloc, (42, 45), 69, Outcome::Advanced(4))?;
    join(stage, alloc, (45, 53), 70, 4)
}

/// Prints where the members of the group stand after each of its commits.
pub fn run(rt: &impl Print, alloc: Global) -> Result<()> {
    println!(rt; "a group of forty")?;
    let acts = candidates(alloc)?;
    let mut stage = Stage::after(alloc, &acts, acts.len())?;
    add_all(&mut stage, alloc)?;
    print_standing(rt, &stage, "20 added with a path", &[(0, 40)], 39)?;
    update_ten(&mut stage, alloc)?;
    commit_thirty(&mut stage, alloc)?;
    let active = [(0, 20), (35, 45)];
    print_standing(
        rt,
        &stage,
        "10 updates, 15 removals, 5 additions",
        &active,
        44,
    )?;
    commit_thirty_more(&mut stage, alloc)?;
    let active = [(35, 40), (42, 53)];
    print_standing(rt, &stage, "22 removals, 8 additions", &active, 52)
}
