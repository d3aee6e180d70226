//! Ends that are interrupted or want memory, and the standard input.

ghost use Rattle.std.specs.Prelude.{Some, false};

use crate::tests::rows::{JOIN, JOIN_TEXT};
use crate::tests::{
    KEY_PACKAGE, OUT_OF_MEMORY, TEXT, request_of, serve_silently, unless_out_of_memory,
};
use mls_cli_serve::{NoJob, Request, open_source};
use mls_cli_text::{Fault, In, Out, Output};
use std::alloc::{AllocError, Global};
use std::io;
use std::io::{ErrorKind, Read, Write};
use std::test::Fail;

/// Takes one byte at each second write, and is interrupted at the others.
#[derive(Drop)]
struct Halting {
    held: Vec<u8>,
    is_due: bool,
}

impl Write for Halting {
    ghost contents = { λ w. Some w.held.items };

    fn write(&mut self, bytes: &[u8]) -> io::Result<usize> {
        self.is_due = !self.is_due;
        if self.is_due {
            return Err(io::Error::from(ErrorKind::Interrupted));
        }
        let n = bytes.len().min(1);
        self.held.extend_from_slice(&bytes[..n])?;
        Ok(n)
    }

    fn flush(&mut self) -> io::Result<()> {
        Ok(())
    }
}

fn make_halting(alloc: Global, room: usize) -> Result<Halting, AllocError> {
    let mut held = Vec::new(alloc);
    held.reserve(room)?;
    Ok(Halting {
        held,
        is_due: false,
    })
}

/// Whether all is printed on an output that is so interrupted.
fn goes_on(alloc: Global, request: &Result<Request<'_>, NoJob>) -> Result<bool, AllocError> {
    let mut halting = make_halting(alloc, TEXT.len())?;
    let mut file = Some(KEY_PACKAGE.as_bytes());
    let mut errors = Vec::new(alloc);
    let status = serve_silently(
        alloc,
        request,
        &mut file,
        &mut Out::new(&mut halting),
        &mut errors,
    );
    unless_out_of_memory(status, errors.as_slice())?;
    Ok(status == 0 && halting.held.as_slice() == TEXT.as_bytes() && errors.is_empty())
}

fn shows_on(alloc: Global) -> Result<bool, AllocError> {
    goes_on(alloc, &request_of(alloc, &["mls", "show", "FILE"]))
}

#[test]
fn goes_on_after_interrupted_writes(rt: HostRuntime) -> Result<(), Fail> {
    assert!(rt; shows_on(rt.alloc())?);
    Ok(())
}

/// Fills each buffer with what stands in it, without an end.
#[derive(Drop)]
struct Endless;

impl Read for Endless {
    fn read(&mut self, bytes: &mut [u8]) -> io::Result<usize> {
        Ok(bytes.len())
    }
}

/// Whether a FILE without an end is refused.
fn stops(alloc: Global, request: &Result<Request<'_>, NoJob>) -> Result<bool, AllocError> {
    let mut file = Some(In::new(Endless));
    let mut out = Vec::new(alloc);
    let mut errors = Vec::new(alloc);
    let status = serve_silently(alloc, request, &mut file, &mut out, &mut errors);
    unless_out_of_memory(status, errors.as_slice())?;
    Ok(status == 1 && out.as_slice() == b"refused: 6 TooLong\n".as_slice())
}

fn stops_by(alloc: Global, words: &[&str]) -> Result<bool, AllocError> {
    stops(alloc, &request_of(alloc, words))
}

#[test]
fn stops_reading_at_the_limit(rt: HostRuntime) -> Result<(), Fail> {
    assert!(rt; stops_by(rt.alloc(), &["mls", "show", "FILE", "--raw"])?);
    assert!(rt; stops_by(rt.alloc(), &["mls", "check", "FILE"])?);
    Ok(())
}

/// Takes so many texts, and then wants memory.
#[derive(Drop)]
struct Scarce {
    held: Vec<u8>,
    left: usize,
}

impl Output for Scarce {
    ghost contents = { λ o. Some o.held.items };

    ghost failed = { λ _. false };

    fn put(&mut self, bytes: &[u8]) -> Result<(), Fault> {
        if bytes.is_empty() {
            return Ok(());
        }
        if self.left == 0 {
            return Err(Fault::OutOfMemory);
        }
        self.left -= 1;
        self.held.put(bytes)
    }
}

/// How many lines a text has.
fn count_lines(text: &[u8]) -> usize {
    let mut count: usize = 0;
    for byte in text {
        if *byte == b'\n' {
            count = count.saturating_add(1);
        }
    }
    count
}

/// Whether a replay prints so many lines where its output wants memory behind them, and that is said.
fn stops_behind(
    alloc: Global,
    request: &Result<Request<'_>, NoJob>,
    left: usize,
) -> Result<bool, AllocError> {
    let mut scarce = Scarce {
        held: Vec::new(alloc),
        left,
    };
    let mut file = Some(JOIN.as_bytes());
    let mut errors = Vec::new(alloc);
    let status = serve_silently(alloc, request, &mut file, &mut scarce, &mut errors);
    if scarce.left > 0 {
        unless_out_of_memory(status, errors.as_slice())?;
    }
    let (wanted, said) = if left == 8 {
        (0, "")
    } else {
        (3, OUT_OF_MEMORY)
    };
    let held = scarce.held.as_slice();
    Ok(
        status == wanted
            && JOIN_TEXT.as_bytes().starts_with(held)
            && count_lines(held) == left
            && errors.as_slice() == said.as_bytes(),
    )
}

fn stops_behind_each(
    alloc: Global,
    request: &Result<Request<'_>, NoJob>,
) -> Result<bool, AllocError> {
    for left in 0..9 {
        if !stops_behind(alloc, request, left)? {
            return Ok(false);
        }
    }
    Ok(true)
}

fn replays_within(alloc: Global) -> Result<bool, AllocError> {
    stops_behind_each(alloc, &request_of(alloc, &["mls", "replay", "FILE"]))
}

/// What a replay prints where its output wants memory behind so many lines: those, and what is said of it.
#[test]
fn stops_a_replay_without_memory(rt: HostRuntime) -> Result<(), Fail> {
    assert!(rt; replays_within(rt.alloc())?);
    Ok(())
}

/// The standard input is there; a file that isn't can't be opened.
#[test]
fn opens_the_standard_input(rt: HostRuntime) -> Result<(), Fail> {
    assert!(rt; open_source(&rt, "-").is_some());
    assert!(rt; open_source(&rt, "no file of this name").is_none());
    Ok(())
}
