//! Hostile use: messages that are changed, cut, repeated and out of order, given to the members and candidates of
//! small groups, with what these answer. Without words a fixed part, a group of forty, the recordings that lie where it
//! runs, and the same with members that are saved and loaded after each event; with the word `large`, `recordings` or
//! `reloads` one of these, with `whole` each change of each message, with `full` a group with as many members as a tree
//! may have.
#![tactic(auto)]

mod acts;
mod built;
mod changes;
mod checks;
mod fixed_portion;
mod forgery;
mod groups;
mod large_portion;
mod outcome;
mod page;
mod pieces;
mod recordings;
mod reloads;
mod shape;
mod stage;
mod states;
mod trial;
mod twins;
mod whole_portion;

use anyhow::{Result, bail};

/// What is run.
#[derive(Clone, Copy)]
enum Portion {
    /// All that is fixed.
    Fixed,
    /// The group of forty alone.
    Large,
    /// The recordings alone.
    Recordings,
    /// The recordings and groups whose members are saved and loaded alone.
    Reloads,
    /// Each change of each message.
    Whole,
    /// A group whose tree is full.
    Full,
}

/// The portion that the first word asks for.
fn portion_from_words(rt: &HostRuntime) -> Result<Portion> {
    let words: Vec<String> = std::env::args(rt)?.collect(rt.alloc())?;
    let Some(word) = words.get(1) else {
        return Ok(Portion::Fixed);
    };
    match word.as_str() {
        "large" => Ok(Portion::Large),
        "recordings" => Ok(Portion::Recordings),
        "reloads" => Ok(Portion::Reloads),
        "whole" => Ok(Portion::Whole),
        "full" => Ok(Portion::Full),
        _ => bail!("no portion of that name"),
    }
}

fn main(rt: HostRuntime) -> Result<()> {
    let alloc = rt.alloc();
    match portion_from_words(&rt)? {
        Portion::Fixed => {
            fixed_portion::run(&rt, alloc)?;
            large_portion::run(&rt, alloc)?;
            recordings::run(&rt)?;
            reloads::run(&rt)
        }
        Portion::Large => large_portion::run(&rt, alloc),
        Portion::Recordings => recordings::run(&rt),
        Portion::Reloads => reloads::run(&rt),
        Portion::Whole => whole_portion::run(&rt, alloc),
        Portion::Full => built::run(&rt, alloc),
    }
}
