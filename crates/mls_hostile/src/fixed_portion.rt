//! The part that is fixed: each message as it is to each state, some changes, and single wrong messages.

use crate::acts::Act;
use crate::built::try_large_tree;
use crate::changes::{lengths, lowest_bits};
use crate::checks::{answer_elsewhere, forged_answers, welcome_answers, wrong_adds};
use crate::groups;
use crate::outcome::{Outcome, Runs};
use crate::shape::{ciphertexts, held_nodes, listing_nodes, path_nodes, resolution};
use crate::stage::{Receiver, Stage};
use crate::states::{Group, State, states_of};
use crate::trial::Trial;
use anyhow::{Result, bail};
use std::alloc::Global;
use std::io::Print;

/// Prints what places are answered.
fn print_runs(rt: &impl Print, runs: &Runs) -> Result<()> {
    for run in runs.as_slice() {
        println!(rt; "  {run}")?;
    }
    Ok(())
}

/// The state of a receiver after so many acts.
fn state_at(alloc: Global, group: &Group, acts: usize, of: Receiver) -> Result<State> {
    let stage = Stage::after(alloc, &group.acts, acts)?;
    let page = stage.page(alloc, of, &group.references)?;
    Ok(State { acts, of, page })
}

/// What a message with its lowest bits turned, cut or lengthened is answered by a receiver after so many acts.
fn changes(
    rt: &impl Print,
    alloc: Global,
    group: &Group,
    acts: usize,
    of: Receiver,
    message: usize,
) -> Result<()> {
    let Some(bytes) = group.messages.get(message) else {
        bail!("no message {message}");
    };
    let state = state_at(alloc, group, acts, of)?;
    let mut trial = Trial::new(alloc, group, &state)?;
    let length = bytes.len();
    println!(rt; "message {message} of {length} bytes to {of}, the lowest bit of a byte turned")?;
    print_runs(rt, &lowest_bits(alloc, &mut trial, bytes)?)?;
    println!(rt; "and of another length")?;
    print_runs(rt, &lengths(alloc, &mut trial, bytes)?)
}

/// What a message is answered when it is given to a state twice, one answer where both are alike.
fn print_twice(
    rt: &impl Print,
    alloc: Global,
    trial: &mut Trial<'_>,
    message: &[u8],
) -> Result<()> {
    let first = trial.give(alloc, message)?;
    let second = trial.give_again(alloc, message)?;
    if first == second {
        print!(rt; " {first}")?;
    } else {
        print!(rt; " {first}/{second}")?;
    }
    if !first.is_refused() {
        trial.reset(alloc)?;
    }
    Ok(())
}

/// Each message of a group, twice, to each state of each member and candidate.
fn print_in_any_order(rt: &impl Print, alloc: Global, name: &str, acts: Vec<Act>) -> Result<()> {
    let group = Group::of(alloc, acts)?;
    println!(rt; "{name}: each message twice, to each state")?;
    for state in states_of(alloc, &group)? {
        let mut trial = Trial::new(alloc, &group, &state)?;
        let (count, of) = (state.acts, state.of);
        print!(rt; "  after {count} events {of}:")?;
        for message in &group.messages {
            print_twice(rt, alloc, &mut trial, message)?;
        }
        println!(rt; "")?;
    }
    Ok(())
}

/// The removal of the third of three, changed, to the first; the Welcome of a pair, changed, to the second.
fn print_changes(rt: &impl Print, alloc: Global) -> Result<()> {
    let removal = Group::of(alloc, groups::removal(alloc)?)?;
    changes(rt, alloc, &removal, 9, Receiver::Member(0), 5)?;
    let pair = Group::of(alloc, groups::pair(alloc)?)?;
    changes(rt, alloc, &pair, 5, Receiver::Candidate(1), 3)
}

/// Of a commit's path the nodes, and the number of ciphertexts of each.
fn print_path(
    rt: &impl Print,
    alloc: Global,
    stage: &Stage,
    member: usize,
    message: usize,
) -> Result<()> {
    let nodes = path_nodes(stage, member)?;
    let nodes = nodes.as_slice();
    print!(rt; "  commit {message}: path {nodes:?}")?;
    let counts = ciphertexts(alloc, stage.message(message)?)?;
    let counts = counts.as_slice();
    println!(rt; ", ciphertexts {counts:?}")?;
    Ok(())
}

/// The nodes that list the fourth leaf.
fn print_lists(rt: &impl Print, alloc: Global, stage: &Stage) -> Result<()> {
    let listing = listing_nodes(alloc, stage.member(0)?.group().tree(), 3)?;
    let nodes = listing.as_slice();
    println!(rt; "  leaf 3 is listed by {nodes:?}")?;
    Ok(())
}

/// What stands for node 3, and the nodes of which members hold keys.
fn print_keys(rt: &impl Print, alloc: Global, stage: &Stage) -> Result<()> {
    let resolution = resolution(stage, 0, 3)?;
    let nodes = resolution.as_slice();
    println!(rt; "  node 3 stands for {nodes:?}")?;
    for member in [0, 1, 2, 4, 5] {
        let held = held_nodes(alloc, stage, member)?;
        let nodes = held.as_slice();
        println!(rt; "  member {member} holds keys of {nodes:?}")?;
    }
    Ok(())
}

/// The group of four adds, after the removal.
fn print_removed(rt: &impl Print, alloc: Global, acts: &[Act]) -> Result<()> {
    let stage = Stage::after(alloc, acts, 15)?;
    print_path(rt, alloc, &stage, 0, 8)
}

/// After the second addition.
fn print_added(rt: &impl Print, alloc: Global, acts: &[Act]) -> Result<()> {
    let stage = Stage::after(alloc, acts, 25)?;
    print_lists(rt, alloc, &stage)
}

/// After all of it.
fn print_end(rt: &impl Print, alloc: Global, acts: &[Act]) -> Result<()> {
    let stage = Stage::after(alloc, acts, acts.len())?;
    print_path(rt, alloc, &stage, 4, 11)?;
    print_keys(rt, alloc, &stage)
}

/// The group of four adds: its paths, who is listed as unmerged, and the keys that are held.
fn print_four_adds(rt: &impl Print, alloc: Global) -> Result<()> {
    let acts = groups::four_adds(alloc)?;
    println!(rt; "four adds")?;
    print_removed(rt, alloc, &acts)?;
    print_added(rt, alloc, &acts)?;
    print_end(rt, alloc, &acts)
}

/// Single wrong messages.
fn print_checks(rt: &impl Print, alloc: Global) -> Result<()> {
    let forged_answers = forged_answers(alloc)?;
    println!(rt;
        "zeros sealed to the second: made alike {}, the second {}, as before {}, the third {}",
        forged_answers.is_made_alike,
        forged_answers.second,
        forged_answers.is_same,
        forged_answers.third
    )?;
    let welcome_answers = welcome_answers(alloc)?;
    println!(rt;
        "a Welcome changed in the second's part: the first {}, its journal begins with the GroupInfo {}, the second {}",
        welcome_answers.first, welcome_answers.begins_with_info, welcome_answers.second
    )?;
    let (outcome, is_same) = answer_elsewhere(alloc)?;
    println!(rt; "a message of another group: {outcome}, as before {is_same}")?;
    let first = wrong_adds(alloc, true)?;
    let last = wrong_adds(alloc, false)?;
    println!(rt;
        "an add without a capability before one without a signature: {first}, behind it: {last}"
    )?;
    let number = try_large_tree(alloc)?;
    println!(rt; "a Welcome whose tree has a leaf too many: {number}")?;
    Ok(())
}

/// Prints the fixed part.
pub fn run(rt: &impl Print, alloc: Global) -> Result<()> {
    print_changes(rt, alloc)?;
    print_in_any_order(rt, alloc, "a pair", groups::pair(alloc)?)?;
    print_in_any_order(rt, alloc, "an update among three", groups::update(alloc)?)?;
    print_in_any_order(rt, alloc, "a removal among three", groups::removal(alloc)?)?;
    print_in_any_order(rt, alloc, "four adds", groups::four_adds(alloc)?)?;
    print_four_adds(rt, alloc)?;
    print_checks(rt, alloc)
}
