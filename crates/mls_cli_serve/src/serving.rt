//! The jobs of the program, over any FILE, any output and any writer of errors.

ghost use Rattle.std.specs.Prelude.{is_some, ◌≡◌, ◌≢◌, ◌≤◌, false, Err, IfOk, IfErr, IfSome, OnOk, OnErr};
ghost use Rattle.std.specs.Io.KnownBytes.{Keeps};
ghost use Rattle.mls_cli_text.specs.InputOutput.{out_failed, out_writer, read_failed, write_failed};
ghost use Rattle.mls_cli_explain.specs.Explanations.{explanation_view};
ghost use Rattle.mls_cli_serve.specs.Arguments.{file_of};
ghost use Rattle.mls_cli_serve.specs.Serving.{EndsWith, EndsWithoutJob, KeepsUnread, PrintsFile, PrintsRead, ReadsFile, ReportsOn, ReportsRead, Remarks, RemarksOn, ShowsHelp, ShowsTold, unread};

use crate::printing::print_text;
use crate::remarks::say_remark;
use crate::saying::{say_fault, say_out_of_memory};
use crate::tasks::{Job, NoJob, Request};
use mls_cli_explain::{Explanation, told_page};
use mls_cli_replay::Progress;
use mls_cli_text::{Fault, Input, Out, Output, print_made_page};
use std::alloc::Global;
use std::io::Write;

/// Serves a job, or says why there is none, and answers the exit status: 0 good, 1 refused content,
/// 2 usage, 3 a fault of the file, the output or memory. The file is None where it can't be opened.
pub fn serve<I: Input, O: Output, E: Write, P: Progress>(
    alloc: Global,
    request: &Result<Request<'_>, NoJob>,
    file: &mut Option<I>,
    out: &mut O,
    err: &mut Out<E>,
    progress: &mut P,
) -> u8
    requires fresh_file { IfSome file.old (λ reader. I.failed reader ≡ false) }
    requires fresh_out { O.failed out.old ≡ false }
    // The output grows by what the job prints for the text that the reader had.
    ensures prints { IfOk request.now (λ r.
        PrintsFile I.remaining O.contents r.job file.old out.old out.new result) }
    // Either nothing failed and no more is said than a hint and, where that is asked for, the place
    // of a refusal; or the status is 3 and what failed is said.
    ensures ends { IfOk request.now (λ r. EndsWith E.contents err.old err.new
        (RemarksOn I.remaining E.contents r file.old result err.old err.new) (file_of r.job) result
        (unread I.failed file.new) (O.failed out.new)) }
    // A file that can't be read leaves the output as it was.
    ensures unread { IfOk request.now (λ _.
        KeepsUnread I.failed O.contents file.new out.old out.new) }
    // Each event of a replay is reported, in order.
    ensures reports { IfOk request.now (λ r.
        ReportsOn I.remaining P.reports r.job file.old progress.old progress.new result) }
    // Without a job help or the version is written, or a mistake or want of memory said.
    ensures unasked { IfErr request.now (λ e.
        EndsWithoutJob e result (O.contents out.old) (O.contents out.new) (O.failed out.new)
        (E.contents (out_writer err.old)) (E.contents (out_writer err.new)) (out_failed err.new)) }
    ensures same { is_some file.new ≡ is_some file.old }
{
    match request {
        Ok(request) => serve_request(alloc, request, file, out, err, progress),
        Err(no_job) => answer_without_job(alloc, no_job, out, err),
    }
}

fn serve_request<I: Input, O: Output, E: Write, P: Progress>(
    alloc: Global,
    request: &Request<'_>,
    file: &mut Option<I>,
    out: &mut O,
    err: &mut Out<E>,
    progress: &mut P,
) -> u8
    requires fresh_file { IfSome file.old (λ reader. I.failed reader ≡ false) }
    requires fresh_out { O.failed out.old ≡ false }
    ensures prints { PrintsFile I.remaining O.contents request.now.job file.old
        out.old out.new result }
    ensures ends { EndsWith E.contents err.old err.new
        (RemarksOn I.remaining E.contents request.now file.old result err.old err.new)
        (file_of request.now.job) result (unread I.failed file.new) (O.failed out.new) }
    ensures unread { KeepsUnread I.failed O.contents file.new out.old out.new }
    ensures reports { ReportsOn I.remaining P.reports request.now.job file.old
        progress.old progress.new result }
    ensures same { is_some file.new ≡ is_some file.old }
{
    match file {
        None => {
            say_fault(Fault::Read, request.job.file(), err);
            3
        }
        Some(reader) => match print_request(alloc, request, reader, out, err, progress) {
            Ok(status) => status,
            Err(fault) => {
                say_fault(fault, request.job.file(), err);
                3
            }
        },
    }
}

/// Prints what the job asks for, says what is remarked of the file, and answers the exit status.
fn print_request<I: Input, O: Output, E: Write, P: Progress>(
    alloc: Global,
    request: &Request<'_>,
    file: &mut I,
    out: &mut O,
    err: &mut Out<E>,
    progress: &mut P,
) -> Result<u8, Fault>
    ensures prints { PrintsRead I.remaining O.contents request.now.job file.old
        out.old out.new result }
    ensures status { IfOk result (λ status. status ≤ 1) }
    // A fault of the output comes exactly when a write has failed, and one of the file where a read has.
    ensures write { O.failed out.new ≡ write_failed (O.failed out.old) result }
    ensures read { I.failed file.new ≡ read_failed (I.failed file.old) result }
    ensures unread { result ≡ Err Fault.Read → Keeps (O.contents out.old) (O.contents out.new) }
    ensures said { IfOk result (λ status.
        Remarks I.remaining E.contents request.now file.old status err.old err.new) }
    ensures silent { OnErr result (err.new ≡ err.old) }
    ensures reports { IfOk result (ReportsRead I.remaining P.reports request.now.job file.old
        progress.old progress.new) }
{
    let text = read_file(alloc, &request.job, file)?;
    match print_text(alloc, &request.job, text.as_slice(), out, progress) {
        Ok(status) => {
            say_remark(alloc, request, status, text.as_slice(), err);
            Ok(status)
        }
        Err(fault) => Err(fault),
    }
}

/// Reads the file: whole, but no more of a file of bytes than shows that it is too long.
fn read_file<I: Input>(alloc: Global, job: &Job<'_>, file: &mut I) -> Result<Vec<u8>, Fault>
    ensures text { IfOk result (λ v. ReadsFile I.remaining job.now file.old v.items) }
    ensures fault { I.failed file.new ≡ read_failed (I.failed file.old) result }
    ensures read { IfErr result (λ e. e ≢ Fault.Write) }
{
    match job {
        Job::Show { form, .. } | Job::Check { form, .. } | Job::CheckGroupInfo { form, .. } => {
            file.read_front(alloc, form.file_limit() as u64 + 1)
        }
        Job::Draw { form, .. } => file.read_front(alloc, form.file_limit() as u64 + 1),
        Job::Replay { .. } | Job::DrawMember { .. } | Job::Vectors { .. } => file.read_all(alloc),
    }
}

/// Help goes to the output with status 0, and so does what is told of a refusal; a mistake goes to the errors with status 2.
fn answer_without_job<O: Output, E: Write>(
    alloc: Global,
    no_job: &NoJob,
    out: &mut O,
    err: &mut Out<E>,
) -> u8
    requires { O.failed out.old ≡ false }
    ensures { EndsWithoutJob no_job.now result
        (O.contents out.old) (O.contents out.new) (O.failed out.new)
        (E.contents (out_writer err.old)) (E.contents (out_writer err.new)) (out_failed err.new) }
{
    match no_job {
        NoJob::Shown(text) => show_help(text.as_str(), out, err),
        NoJob::Explained { number, told } => tell(alloc, *number, told, out, err),
        NoJob::Mistaken(text) => {
            let _ = err.put(text.as_bytes());
            2
        }
        NoJob::OutOfMemory => {
            say_out_of_memory(err);
            3
        }
    }
}

fn show_help<O: Output, E: Write>(text: &str, out: &mut O, err: &mut Out<E>) -> u8
    requires { O.failed out.old ≡ false }
    ensures { ShowsHelp text.now result (O.contents out.old) (O.contents out.new) (O.failed out.new)
        (E.contents (out_writer err.old)) (E.contents (out_writer err.new)) (out_failed err.new) }
{
    match out.put(text.as_bytes()) {
        Ok(()) => 0,
        Err(fault) => {
            say_fault(fault, "", err);
            3
        }
    }
}

/// Prints what is told of a refusal.
fn tell<O: Output, E: Write>(
    alloc: Global,
    number: u8,
    told: &Explanation,
    out: &mut O,
    err: &mut Out<E>,
) -> u8
    requires { O.failed out.old ≡ false }
    ensures { ShowsTold number (explanation_view told.now) result
        (O.contents out.old) (O.contents out.new) (O.failed out.new)
        (E.contents (out_writer err.old)) (E.contents (out_writer err.new)) (out_failed err.new) }
{
    match print_made_page(alloc, told_page(alloc, number, told), out) {
        Ok(status) => status,
        Err(stopped) => {
            say_fault(stopped, "", err);
            3
        }
    }
}
