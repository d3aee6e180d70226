//! What is said of how far a replay has come.

ghost use Rattle.std.specs.Prelude.{◌≡◌, false, IfErr};
ghost use Rattle.mls_cli_text.specs.InputOutput.{out_failed, write_failed};
ghost use Rattle.mls_cli_serve.specs.Meter.{SaysAtPace, SaysIf, SaysInTime, SaysLine, is_due, is_hundredth, meter_failed, meter_pace, meter_writer, numbered, pace_of, progress_line};
ghost use Rattle.mls_cli_serve.specs.Saying.{BeginsError, WritesError};

use crate::tasks::ProgressChoice;
use itoa::Buffer;
use mls_cli_replay::Progress;
use mls_cli_text::{Fault, Out, Output};
use std::io::Write;
use std::time::{Clock, Instant};

/// How many seconds pass on a terminal before the first line, and then between two.
const SECONDS: u64 = 2;

/// When it is said how far a replay is.
#[derive(Clone, Copy, Debug, PartialEq, Eq)]
pub enum Pace {
    /// Never.
    Never,
    /// Where two seconds have passed.
    Seconds,
    /// At each hundredth of its events, and at the last one.
    Hundredths,
}

/// When it is said how far a replay is, by whether the errors go to a terminal.
pub fn pace_of(choice: ProgressChoice, is_terminal: bool) -> Pace
    ensures { result ≡ pace_of choice is_terminal }
{
    match choice {
        ProgressChoice::Always => Pace::Hundredths,
        ProgressChoice::OnTerminal => {
            if is_terminal {
                Pace::Seconds
            } else {
                Pace::Never
            }
        }
    }
}

/// A writer that says how far a replay is.
#[derive(Drop)]
pub struct Meter<'a, C, W> {
    writer: Out<W>,
    clock: &'a C,
    pace: Pace,
    /// When it was said last, or the start, if the clock could be read.
    last: Option<Instant>,
}

/// What the clock reads.
fn read_clock<C: Clock>(clock: &C) -> Option<Instant> {
    match Instant::now(clock) {
        Ok(now) => Some(now),
        Err(_) => None,
    }
}

/// Whether two seconds have passed.
fn is_due(last: Option<Instant>, now: Option<Instant>) -> bool
    ensures { result ≡ is_due last now }
{
    match last {
        Some(last) => match now {
            Some(now) => now.duration_since(last).as_secs() >= SECONDS,
            None => false,
        },
        None => false,
    }
}

/// Whether so many of all are a multiple of a hundredth of all, rounded down, or all.
fn is_hundredth(done: usize, all: usize) -> bool
    ensures { result ≡ is_hundredth done all }
{
    done == all || done % (all / 100).max(1) == 0
}

/// Writes a text and a number. It takes no memory.
fn put_numbered<W: Write>(text: &[u8], number: usize, out: &mut Out<W>) -> Result<(), Fault>
    ensures whole { WritesError W.contents out.old out.new (numbered text.now number) result }
    ensures part { BeginsError W.contents out.old out.new (numbered text.now number) result }
    ensures fault { out_failed out.new ≡ write_failed (out_failed out.old) result }
    ensures written { IfErr result (λ e. e ≡ Fault.Write) }
{
    let mut digits = Buffer::new();
    out.put(text)?;
    out.put(digits.format(number).as_bytes())
}

/// Writes how far the replay is. It takes no memory.
fn put_line<W: Write>(done: usize, all: usize, out: &mut Out<W>) -> Result<(), Fault>
    ensures whole { WritesError W.contents out.old out.new (progress_line done all) result }
    ensures part { BeginsError W.contents out.old out.new (progress_line done all) result }
    ensures fault { out_failed out.new ≡ write_failed (out_failed out.old) result }
    ensures written { IfErr result (λ e. e ≡ Fault.Write) }
{
    put_numbered(b"mls: ", done, out)?;
    put_numbered(b" of ", all, out)?;
    out.put(b" events\n")
}

impl<'a, C: Clock, W: Write> Meter<'a, C, W> {
    /// A meter of this pace, which begins now.
    pub fn new(writer: W, clock: &'a C, pace: Pace) -> Meter<'a, C, W>
        ensures writer { meter_writer result ≡ writer }
        ensures failed { meter_failed result ≡ false }
        ensures pace { meter_pace result ≡ pace }
    {
        Meter {
            writer: Out::new(writer),
            clock,
            pace,
            last: read_clock(clock),
        }
    }

    /// Says how far the replay is; where that can't be written, nothing more is said.
    fn say(&mut self, done: usize, all: usize)
        ensures { SaysLine W.contents done all self.old self.new }
    {
        if put_line(done, all, &mut self.writer).is_err() {
            self.pace = Pace::Never;
        }
    }

    /// Says it where it is due.
    fn say_if(&mut self, due: bool, done: usize, all: usize)
        ensures { SaysIf W.contents due done all self.old self.new }
    {
        if due {
            self.say(done, all);
        }
    }

    /// Says it where two seconds have passed.
    fn say_in_time(&mut self, done: usize, all: usize)
        ensures { SaysInTime W.contents done all self.old self.new }
    {
        let now = read_clock(self.clock);
        if is_due(self.last, now) {
            self.last = now;
            self.say(done, all);
        }
    }
}

impl<C: Clock, W: Write> Progress for Meter<'_, C, W> {
    ghost reports = { λ old new done all.
        SaysAtPace (meter_pace old) W.contents done all old new };

    fn report(&mut self, done: usize, all: usize) {
        match self.pace {
            Pace::Never => {}
            Pace::Seconds => self.say_in_time(done, all),
            Pace::Hundredths => self.say_if(is_hundredth(done, all), done, all),
        }
    }
}
