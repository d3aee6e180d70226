//! What is said of how far a replay is, by way of `serve`.

use crate::tests::rows::JOIN;
use crate::tests::{Full, request_of, unless_out_of_memory, with_room};
use mls_cli_replay::Progress;
use mls_cli_serve::{Meter, Pace, ProgressChoice, pace_of, serve};
use mls_cli_text::Out;
use std::alloc::{AllocError, Global};
use std::cell::Cell;
use std::io;
use std::io::{ErrorKind, Write};
use std::test::Fail;
use std::time::{Clock, Duration};

/// What is said of each of the six events of a recording.
const EACH: &str =
    "mls: 1 of 6 events\nmls: 2 of 6 events\nmls: 3 of 6 events\nmls: 4 of 6 events\nmls: 5 of 6 events\nmls: 6 of 6 events\n";

const PLAIN: &[&str] = &["mls", "replay", "FILE"];

const PROGRESS: &[&str] = &["mls", "replay", "FILE", "--progress"];

/// A clock that is a second further at each reading.
#[derive(Drop)]
struct Ticking {
    seconds: Cell<u64>,
}

impl Ticking {
    fn new() -> Ticking {
        Ticking {
            seconds: Cell::new(0),
        }
    }
}

impl Clock for Ticking {
    fn monotonic(&self) -> io::Result<Duration> {
        let read = self.seconds.get();
        self.seconds.set(read.wrapping_add(1));
        Ok(Duration::from_secs(read))
    }

    fn since_1970(&self) -> io::Result<Duration> {
        Err(io::Error::from(ErrorKind::Unsupported))
    }
}

/// A clock that can't be read.
struct Broken;

impl Clock for Broken {
    fn monotonic(&self) -> io::Result<Duration> {
        Err(io::Error::from(ErrorKind::Unsupported))
    }

    fn since_1970(&self) -> io::Result<Duration> {
        Err(io::Error::from(ErrorKind::Unsupported))
    }
}

/// Runs `serve` for words and a file, and reports the events of a replay: the status, and what goes to the errors.
fn serve_and_report<P: Progress>(
    alloc: Global,
    words: &[&str],
    file: &str,
    progress: &mut P,
) -> (u8, Vec<u8>) {
    let request = request_of(alloc, words);
    let mut file = Some(file.as_bytes());
    let mut out = Vec::new(alloc);
    let mut errors = Vec::new(alloc);
    let status = serve(
        alloc,
        &request,
        &mut file,
        &mut out,
        &mut Out::new(&mut errors),
        progress,
    );
    (status, errors)
}

/// When it is said how far the job of some words is, where the errors go to a terminal or don't.
fn pace_for(alloc: Global, words: &[&str], is_terminal: bool) -> Pace {
    match request_of(alloc, words) {
        Ok(request) => pace_of(request.job.progress(), is_terminal),
        Err(_) => Pace::Never,
    }
}

/// The status for words and a file, with what is said of how far the replay is, where the errors go to a terminal or
/// don't.
fn serve_with_progress<W: Write>(
    alloc: Global,
    words: &[&str],
    file: &str,
    is_terminal: bool,
    said: &mut W,
) -> Result<u8, AllocError> {
    let clock = Ticking::new();
    let mut meter = Meter::new(said, &clock, pace_for(alloc, words, is_terminal));
    let (status, errors) = serve_and_report(alloc, words, file, &mut meter);
    unless_out_of_memory(status, errors.as_slice())?;
    Ok(status)
}

/// A writer with room for all that is said here, which wants no memory later.
fn roomy(alloc: Global) -> Result<Full, AllocError> {
    with_room(alloc, 4096)
}

/// Whether a run for words and a file leaves this status, and this is said of how far it is.
fn is_said(
    alloc: Global,
    words: &[&str],
    file: &str,
    is_terminal: bool,
    status: u8,
    text: &str,
) -> Result<bool, AllocError> {
    let mut said = roomy(alloc)?;
    let answer = serve_with_progress(alloc, words, file, is_terminal, &mut said)?;
    Ok(answer == status && said.held.as_slice() == text.as_bytes())
}

/// Words that ask for it, with the status.
const ASKED: &[(&[&str], u8)] = &[
    (PROGRESS, 0),
    (&["mls", "replay", "--progress", "FILE", "--quiet"], 0),
    (&["mls", "replay", "--progress", "FILE", "--record"], 0),
    (&["mls", "replay", "--progress", "FILE", "--message=0"], 0),
    (&["mls", "replay", "--progress", "FILE", "--tree=1"], 0),
    (&["mls", "replay", "--progress", "FILE", "--draw=1"], 0),
    (&["mls", "replay", "--progress", "FILE", "--tree=9"], 1),
];

/// Of how many each event is said, from the first on.
fn count_said(alloc: Global, cases: &[(&[&str], u8)]) -> Result<usize, AllocError> {
    for i in 0..cases.len() {
        let (words, status) = cases[i];
        if !is_said(alloc, words, JOIN, false, status, EACH)? {
            return Ok(i);
        }
    }
    Ok(cases.len())
}

#[test]
fn says_each_event_where_it_is_asked_for(rt: HostRuntime) -> Result<(), Fail> {
    assert_eq!(rt; count_said(rt.alloc(), ASKED)?, ASKED.len());
    Ok(())
}

const SECONDS: &str = "mls: 2 of 6 events\nmls: 4 of 6 events\nmls: 6 of 6 events\n";

/// In a pipe nothing is said unless it is asked for, and on a terminal a line each two seconds.
#[test]
fn goes_by_the_clock_on_a_terminal(rt: HostRuntime) -> Result<(), Fail> {
    assert!(rt; is_said(rt.alloc(), PLAIN, JOIN, false, 0, "")?);
    assert!(rt; is_said(rt.alloc(), PLAIN, JOIN, true, 0, SECONDS)?);
    Ok(())
}

/// What a meter says whose clock can't be read.
fn said_by_broken(alloc: Global) -> Result<Full, AllocError> {
    let mut said = roomy(alloc)?;
    let mut meter = Meter::new(&mut said, &Broken, Pace::Seconds);
    meter.report(1, 1);
    Ok(said)
}

#[test]
fn says_nothing_without_a_clock(rt: HostRuntime) -> Result<(), Fail> {
    assert!(rt; said_by_broken(rt.alloc())?.held.is_empty());
    Ok(())
}
