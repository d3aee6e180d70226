//! Recordings and groups in which each member is saved and loaded after each event, and nothing is answered otherwise.

use crate::acts::{Act, event_of};
use crate::groups;
use crate::recordings::{NAMES, file};
use crate::twins::{Counts, Twins};
use anyhow::Result;
use mls_cli_recording::recording;
use mls_suite::{Glass, Suite};
use mls_suite_0001::Suite0001;
use std::alloc::Global;

/// The recordings of worked groups under the practice suite.
const EXAMPLES: [&str; 3] = ["examples/group", "examples/extensions", "examples/join"];

/// Does what a recording for the suite says, with reloads.
fn reload_recording<S: Suite>(alloc: Global, text: &[u8]) -> Result<Counts> {
    let recorded = recording(alloc, S::NUMBER, text)?;
    let mut twins = Twins::<S>::new(alloc)?;
    for one in &recorded.actions {
        twins.act(alloc, &one.action)?;
    }
    twins.check_messages()?;
    Ok(twins.counts())
}

/// Does acts, with reloads.
fn reload_acts(alloc: Global, acts: &[Act]) -> Result<Counts> {
    let mut twins = Twins::<Glass>::new(alloc)?;
    for act in acts {
        let event = event_of(alloc, *act)?;
        let done = twins.step(alloc, &event);
        drop(event);
        done?;
    }
    twins.check_messages()?;
    Ok(twins.counts())
}

fn print_recording<S: Suite>(rt: &HostRuntime, name: &str) -> Result<()> {
    let text = file(rt, name, "json")?;
    let counts = reload_recording::<S>(rt.alloc(), &text)?;
    println!(rt; "  {name}: {counts}")?;
    Ok(())
}

fn print_group(rt: &HostRuntime, name: &str, acts: Vec<Act>) -> Result<()> {
    let counts = reload_acts(rt.alloc(), &acts)?;
    println!(rt; "  {name}: {counts}")?;
    Ok(())
}

/// Does what the recordings and the groups say, with reloads.
pub fn run(rt: &HostRuntime) -> Result<()> {
    let alloc = rt.alloc();
    println!(rt;
        "members saved and loaded after each event: replies, members, messages as without"
    )?;
    for name in EXAMPLES {
        print_recording::<Glass>(rt, name)?;
    }
    print_recording::<Suite0001>(rt, "examples/suite_0001")?;
    for name in NAMES {
        print_recording::<Glass>(rt, name)?;
    }
    print_group(rt, "an update among three", groups::update(alloc)?)?;
    print_group(rt, "a removal among three", groups::removal(alloc)?)?;
    print_group(rt, "four adds", groups::four_adds(alloc)?)
}
