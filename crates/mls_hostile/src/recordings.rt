//! Recordings of what is hostile, replayed, each beside the page that was computed for it by an interpreter of the
//! definitions and written by hand before that.

use anyhow::{Result, bail};
use mls_cli_replay::{ReplayView, Silent, print_view};
use mls_suite::Glass;
use std::alloc::Global;
use std::fs;

/// Their names.
pub const NAMES: [&str; 10] = [
    "extensions",
    "framing",
    "lists",
    "others",
    "paths",
    "readds",
    "secrets",
    "splits",
    "trees",
    "welcomes",
];

/// What a recording prints, and its status.
fn replay_recording(alloc: Global, recording: &[u8]) -> Result<(u8, Vec<u8>)> {
    let mut page = Vec::new(alloc);
    let view = ReplayView::Replies;
    match print_view::<Glass, Vec<u8>, Silent>(alloc, recording, view, &mut page, &mut Silent) {
        Ok(status) => Ok((status, page)),
        Err(_) => bail!("out of memory"),
    }
}

/// How many lines a page has.
fn lines(page: &[u8]) -> usize {
    let mut count: usize = 0;
    for byte in page {
        if *byte == b'\n' {
            count = count.saturating_add(1);
        }
    }
    count
}

/// A file that lies where the program runs.
pub fn file(rt: &HostRuntime, name: &str, ending: &str) -> Result<Vec<u8>> {
    let path = format!(in rt.alloc(); "{name}.{ending}")?;
    Ok(fs::read(rt, path.as_str())?)
}

/// Whether a recording prints its page.
fn print_one(rt: &HostRuntime, name: &str) -> Result<()> {
    let recording = file(rt, name, "json")?;
    let due = file(rt, name, "out")?;
    let (status, page) = replay_recording(rt.alloc(), recording.as_slice())?;
    let count = lines(page.as_slice());
    let is_due = page == due;
    println!(rt; "  {name}: status {status}, {count} lines, as computed {is_due}")?;
    Ok(())
}

/// Replays all recordings.
pub fn run(rt: &HostRuntime) -> Result<()> {
    println!(rt; "recordings")?;
    for name in NAMES {
        print_one(rt, name)?;
    }
    Ok(())
}
