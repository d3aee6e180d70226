//! `mls`: shows and checks messages of Messaging Layer Security (RFC 9420).
#![tactic(auto)]

ghost use Rattle.std.specs.Prelude.{◌≡◌, false, IfOk, IfSome, string_bytes};
ghost use Rattle.mls_cli_text.specs.InputOutput.{in_failed};
ghost use Rattle.mls_cli.specs.Words.{NamesProgram};

use mls_cli_replay::Silent;
use mls_cli_serve::{
    Meter, NoJob, Pace, Request, Source, no_text, open_source, pace_of, request, serve,
};
use mls_cli_text::{In, Out};
use std::alloc::{AllocError, Global};
use std::io::{ErrorKind, IsTerminal, Stderr};
use std::process::ExitCode;

fn main(rt: HostRuntime) -> ExitCode {
    ExitCode::from(run(&rt))
}

/// The words with `mls` as the first, since usage texts name the program by it.
fn name_program(alloc: Global, mut words: Vec<String>) -> Result<Vec<String>, AllocError>
    ensures { IfOk result (λ named. NamesProgram string_bytes words.items named.items) }
{
    if let Some(first) = words.first_mut() {
        *first = String::from_str(alloc, "mls")?;
    }
    Ok(words)
}

/// The words of the command line.
fn words_in(rt: &HostRuntime) -> Result<Vec<String>, NoJob> {
    let alloc = rt.alloc();
    match std::env::args(rt) {
        Ok(words) => Ok(name_program(alloc, words.collect(alloc)?)?),
        Err(error) => {
            if error.kind() == ErrorKind::OutOfMemory {
                Err(NoJob::OutOfMemory)
            } else {
                Err(no_text(alloc))
            }
        }
    }
}

/// What the job reads, if there is a job and its file can be opened.
fn open_file_of(rt: &HostRuntime, request: &Result<Request<'_>, NoJob>) -> Option<In<Source>>
    ensures { IfSome result (λ source. in_failed source ≡ false) }
{
    match request {
        Ok(request) => open_source(rt, request.job.file()),
        Err(_) => None,
    }
}

/// What says on the errors how far the job is.
fn meter_of<'a>(
    rt: &'a HostRuntime,
    request: &Result<Request<'_>, NoJob>,
) -> Meter<'a, HostRuntime, Stderr> {
    let errors = rt.stderr();
    let pace = match request {
        Ok(request) => pace_of(request.job.progress(), errors.is_terminal()),
        Err(_) => Pace::Never,
    };
    Meter::new(errors, rt, pace)
}

/// Serves the job that the words name, and answers the exit status.
fn run(rt: &HostRuntime) -> u8 {
    let alloc = rt.alloc();
    let mut out = Out::new(rt.stdout());
    let mut err = Out::new(rt.stderr());
    match words_in(rt) {
        Ok(words) => {
            let request = request(alloc, words.as_slice());
            let mut file = open_file_of(rt, &request);
            let mut progress = meter_of(rt, &request);
            serve(
                alloc,
                &request,
                &mut file,
                &mut out,
                &mut err,
                &mut progress,
            )
        }
        Err(no_job) => {
            let mut none: Option<In<Source>> = None;
            serve(
                alloc,
                &Err(no_job),
                &mut none,
                &mut out,
                &mut err,
                &mut Silent,
            )
        }
    }
}
