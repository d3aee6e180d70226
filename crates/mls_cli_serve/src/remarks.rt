//! What is said of a file's text on the errors, though nothing failed.

ghost use Rattle.std.specs.Prelude.{◌≡◌, IfOk, true};
ghost use Rattle.mls_cli_serve.specs.Remarks.{IsRemarkWithPlace, SaysRemark, asks_for_place, job_hint};

use crate::hints::hint;
use crate::places::place_text;
use crate::saying::say;
use crate::tasks::{Job, Request};
use mls_cli_text::Out;
use std::alloc::{AllocError, Global};
use std::io::Write;

/// What is said of it without being asked for.
fn job_hint(job: &Job<'_>, text: &[u8]) -> &'static str
    ensures { result.now ≡ job_hint job.now text.now }
{
    match job {
        Job::Show { form, .. }
        | Job::Check { form, .. }
        | Job::CheckGroupInfo { form, .. }
        | Job::Draw { form, .. } => hint(*form, text),
        Job::Replay { .. } | Job::DrawMember { .. } | Job::Vectors { .. } => "",
    }
}

/// Whether it is asked where content of this status is refused.
fn asks_for_place(request: &Request<'_>, status: u8) -> bool
    ensures { result ≡ asks_for_place request.now status }
{
    request.asks_where && status == 1
}

/// The hint, and behind it where the content is refused.
fn remark_with_place(alloc: Global, job: &Job<'_>, text: &[u8]) -> Result<Vec<u8>, AllocError>
    ensures { IfOk result (λ said. IsRemarkWithPlace job.now text.now said.items) }
{
    let mut said = Vec::from_slice(alloc, job_hint(job, text).as_bytes())?;
    let place = place_text(alloc, job, text)?;
    said.extend_from_slice(place.as_slice())?;
    Ok(said)
}

/// Says the hint, and behind it where the content is refused; where memory is wanting for it, the hint alone.
fn say_with_place<E: Write>(alloc: Global, job: &Job<'_>, text: &[u8], err: &mut Out<E>)
    ensures { SaysRemark E.contents true job.now text.now err.old err.new }
{
    match remark_with_place(alloc, job, text) {
        Ok(said) => say(said.as_slice(), err),
        // Want of memory: the error is an `AllocError`.
        Err(_) => say(job_hint(job, text).as_bytes(), err),
    }
}

/// Says what is remarked of content of this status: a hint and, where that is asked for, the place of its refusal.
pub fn say_remark<E: Write>(
    alloc: Global,
    request: &Request<'_>,
    status: u8,
    text: &[u8],
    err: &mut Out<E>,
)
    ensures { SaysRemark E.contents (asks_for_place request.now status) request.now.job text.now
        err.old err.new }
{
    if asks_for_place(request, status) {
        say_with_place(alloc, &request.job, text, err);
    } else {
        say(job_hint(&request.job, text).as_bytes(), err);
    }
}
