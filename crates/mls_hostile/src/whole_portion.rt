//! Each change of each message, to each state of each member and candidate.

use crate::acts::Act;
use crate::changes::all_changes;
use crate::groups;
use crate::outcome::Tally;
use crate::states::{Group, State, states_of};
use crate::trial::Trial;
use anyhow::Result;
use std::alloc::Global;
use std::io::Print;

/// How often each number was answered.
fn print_tally(rt: &impl Print, tally: &Tally) -> Result<()> {
    for (number, count) in tally.refusal_counts().iter().enumerate() {
        if *count > 0 {
            print!(rt; " {number}: {count},")?;
        }
    }
    let taken = tally.taken_count();
    println!(rt; " taken: {taken}")?;
    for run in tally.places() {
        println!(rt; "    bytes {run}")?;
    }
    Ok(())
}

/// Every change of one message to every state.
fn print_message(
    rt: &impl Print,
    alloc: Global,
    group: &Group,
    states: &[State],
    number: usize,
    message: &[u8],
) -> Result<()> {
    let mut tally = Tally::new(alloc)?;
    for state in states {
        let mut trial = Trial::new(alloc, group, state)?;
        all_changes(alloc, &mut trial, message, &mut tally)?;
    }
    let length = message.len();
    print!(rt; "  message {number} of {length} bytes:")?;
    print_tally(rt, &tally)
}

fn print_group(rt: &impl Print, alloc: Global, name: &str, acts: Vec<Act>) -> Result<()> {
    let group = Group::of(alloc, acts)?;
    let states = states_of(alloc, &group)?;
    let count = states.len();
    println!(rt; "{name}: every change of each message, to each of {count} states")?;
    for (number, message) in group.messages.iter().enumerate() {
        print_message(rt, alloc, &group, &states, number, message)?;
    }
    Ok(())
}

/// Prints the counts of the whole.
pub fn run(rt: &impl Print, alloc: Global) -> Result<()> {
    print_group(rt, alloc, "a pair", groups::pair(alloc)?)?;
    print_group(rt, alloc, "an update among three", groups::update(alloc)?)?;
    print_group(rt, alloc, "a removal among three", groups::removal(alloc)?)?;
    print_group(
        rt,
        alloc,
        "extensions among three",
        groups::extensions(alloc)?,
    )?;
    print_group(rt, alloc, "four adds", groups::four_adds(alloc)?)
}
