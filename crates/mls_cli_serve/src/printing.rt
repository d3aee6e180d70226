//! What jobs print of the text of a file, on any output.

ghost use Rattle.std.specs.Prelude.{◌≡◌, ◌≢◌, ◌≤◌, IfOk, IfErr};
ghost use Rattle.mls_cli_text.specs.InputOutput.{write_failed};
ghost use Rattle.mls_cli_text.specs.Page.{MakesPage, Prints};
ghost use Rattle.mls_cli_show.specs.Show.{page_of as show_page};
ghost use Rattle.mls_cli_check.specs.Check.{check_page};
ghost use Rattle.mls_cli_check.specs.Drawing.{draw_page};
ghost use Rattle.mls_cli_check.specs.GroupInfo.{group_info_page};
ghost use Rattle.mls_cli_draw.specs.Picture.{DrawsPage};
ghost use Rattle.mls_cli_replay.specs.Progress.{ReportsFile};
ghost use Rattle.mls_suite.specs.Glass.{glass};
ghost use Rattle.mls_cli_serve.specs.Layouts.{MakesObject, PrintsLines};
ghost use Rattle.mls_cli_serve.specs.Pages.{checking, crypto_of, file_page};
ghost use Rattle.mls_cli_serve.specs.Serving.{PrintsPicture, PrintsRecording, PrintsText, ReportsJob, drawing_printout};

use crate::member_picture::print_member;
use crate::tasks::{Job, Layout, SuiteChoice};
use mls_cli_check::{Drawing, TreeSource, Unchecked, check_page, draw_page, group_info_page};
use mls_cli_draw::Row;
use mls_cli_json_page::{JsonText, json_page};
use mls_cli_replay::{Progress, ReplayView, print_view};
use mls_cli_show::{Detail, show_page};
use mls_cli_text::{Fault, Form, Line, Output, Page, print_made_page, refused_page};
use mls_cli_vectors::vectors_page;
use mls_suite::Glass;
use mls_suite_0001::Suite0001;
use std::alloc::{AllocError, Global};

/// Prints what the job asks for of a file's text: one call for each kind of job.
pub fn print_text<O: Output, P: Progress>(
    alloc: Global,
    job: &Job<'_>,
    text: &[u8],
    out: &mut O,
    progress: &mut P,
) -> Result<u8, Fault>
    ensures prints { PrintsText O.contents job.now text.now out.old out.new result }
    ensures status { IfOk result (λ status. status ≤ 1) }
    ensures write { O.failed out.new ≡ write_failed (O.failed out.old) result }
    ensures written { IfErr result (λ e. e ≢ Fault.Read) }
    ensures reports { ReportsJob P.reports job.now text.now progress.old progress.new result }
{
    match job {
        Job::Show {
            form,
            detail,
            layout,
            ..
        } => print_in_layout(alloc, *layout, show_file(alloc, *detail, *form, text), out),
        Job::Check {
            form,
            suite,
            signatures,
            group,
            layout,
            ..
        } => {
            let page = tree_file(alloc, *form, *suite, *signatures, text, group);
            print_in_layout(alloc, *layout, page, out)
        }
        Job::CheckGroupInfo {
            form,
            signatures,
            layout,
            ..
        } => print_in_layout(
            alloc,
            *layout,
            info_file(alloc, *form, *signatures, text),
            out,
        ),
        Job::Draw {
            form,
            source,
            drawing,
            ..
        } => print_drawing(alloc, *form, *source, *drawing, text, out),
        Job::Replay { suite, view, .. } => {
            print_recording(alloc, *suite, *view, text, out, progress)
        }
        Job::DrawMember {
            suite,
            member,
            drawing,
            ..
        } => print_picture(alloc, *suite, *member, *drawing, text, out, progress),
        Job::Vectors { .. } => print_made_page(alloc, vectors_page(alloc, text), out),
    }
}

/// The JSON object of a page, where there was memory for the page.
fn object_of(
    alloc: Global,
    made: Result<Page<Line>, AllocError>,
) -> Result<Page<JsonText>, AllocError>
    ensures { MakesObject made result }
{
    match made {
        Ok(page) => json_page(alloc, &page),
        Err(error) => Err(error),
    }
}

/// Prints a page of lines, where there was memory for it.
fn print_in_layout<O: Output>(
    alloc: Global,
    layout: Layout,
    made: Result<Page<Line>, AllocError>,
    out: &mut O,
) -> Result<u8, Fault>
    ensures prints { PrintsLines layout (O.contents out.old) (O.contents out.new) made result }
    ensures status { IfOk result (λ status. status ≤ 1) }
    ensures write { O.failed out.new ≡ write_failed (O.failed out.old) result }
    ensures written { IfErr result (λ e. e ≢ Fault.Read) }
{
    match layout {
        Layout::Lines => print_made_page(alloc, made, out),
        Layout::Json => print_made_page(alloc, object_of(alloc, made), out),
    }
}

/// What is printed of a message's file: `TooLong` (6) alone where its text is too long.
pub fn show_file(
    alloc: Global,
    detail: Detail,
    form: Form,
    text: &[u8],
) -> Result<Page<Line>, AllocError>
    ensures { MakesPage result (file_page form text.now (show_page detail form text.now)) }
{
    let limit = form.file_limit();
    if text.len() > limit {
        return Ok(refused_page(alloc, 6));
    }
    show_page(alloc, detail, form, text)
}

/// What is printed of a tree's file under the chosen suite: `TooLong` (6) alone where its text is too long.
pub fn tree_file(
    alloc: Global,
    form: Form,
    suite: SuiteChoice,
    signatures: bool,
    text: &[u8],
    group: &str,
) -> Result<Page<Line>, AllocError>
    ensures { MakesPage result (file_page form text.now
        (check_page (checking suite signatures) form text.now group.now)) }
{
    let limit = form.file_limit();
    if text.len() > limit {
        return Ok(refused_page(alloc, 6));
    }
    check_file(alloc, form, suite, signatures, text, group)
}

/// What is printed of a tree's file of this text under the chosen suite.
fn check_file(
    alloc: Global,
    form: Form,
    suite: SuiteChoice,
    signatures: bool,
    text: &[u8],
    group: &str,
) -> Result<Page<Line>, AllocError>
    ensures { MakesPage result (check_page (checking suite signatures) form text.now group.now) }
{
    match suite {
        SuiteChoice::Glass => check_page::<Glass>(alloc, form, text, group),
        SuiteChoice::Suite0001 => {
            if signatures {
                check_page::<Suite0001>(alloc, form, text, group)
            } else {
                check_page::<Unchecked>(alloc, form, text, group)
            }
        }
    }
}

/// What is printed of a GroupInfo's file: `TooLong` (6) alone where its text is too long.
pub fn info_file(
    alloc: Global,
    form: Form,
    signatures: bool,
    text: &[u8],
) -> Result<Page<Line>, AllocError>
    ensures { MakesPage result (file_page form text.now
        (group_info_page glass (checking SuiteChoice.Suite0001 signatures) form text.now)) }
{
    let limit = form.file_limit();
    if text.len() > limit {
        return Ok(refused_page(alloc, 6));
    }
    check_info(alloc, form, signatures, text)
}

/// What is printed of a GroupInfo's file of this text, under the suite that it names.
fn check_info(
    alloc: Global,
    form: Form,
    signatures: bool,
    text: &[u8],
) -> Result<Page<Line>, AllocError>
    ensures { MakesPage result
        (group_info_page glass (checking SuiteChoice.Suite0001 signatures) form text.now) }
{
    if signatures {
        group_info_page::<Glass, Suite0001>(alloc, form, text)
    } else {
        group_info_page::<Glass, Unchecked>(alloc, form, text)
    }
}

/// The drawing of the tree of a file: `TooLong` (6) alone where its text is too long.
pub fn drawing_file(
    alloc: Global,
    form: Form,
    source: TreeSource,
    drawing: Drawing,
    text: &[u8],
) -> Result<Page<Row>, AllocError>
    ensures { DrawsPage result (file_page form text.now (draw_page source drawing form text.now)) }
{
    let limit = form.file_limit();
    if text.len() > limit {
        return Ok(refused_page(alloc, 6));
    }
    draw_page(alloc, source, drawing, form, text)
}

/// Prints the drawing of the tree of a file.
fn print_drawing<O: Output>(
    alloc: Global,
    form: Form,
    source: TreeSource,
    drawing: Drawing,
    text: &[u8],
    out: &mut O,
) -> Result<u8, Fault>
    ensures prints { Prints (O.contents out.old) (O.contents out.new) result
        (drawing_printout form source drawing text.now) }
    ensures status { IfOk result (λ status. status ≤ 1) }
    ensures write { O.failed out.new ≡ write_failed (O.failed out.old) result }
    ensures written { IfErr result (λ e. e ≢ Fault.Read) }
{
    let page = drawing_file(alloc, form, source, drawing, text);
    print_made_page(alloc, page, out)
}

/// Prints what is asked for of a recording for the suite.
fn print_recording<O: Output, P: Progress>(
    alloc: Global,
    suite: SuiteChoice,
    view: ReplayView,
    text: &[u8],
    out: &mut O,
    progress: &mut P,
) -> Result<u8, Fault>
    ensures prints { PrintsRecording O.contents suite view text.now out.old out.new result }
    ensures status { IfOk result (λ status. status ≤ 1) }
    ensures write { O.failed out.new ≡ write_failed (O.failed out.old) result }
    ensures written { IfErr result (λ e. e ≢ Fault.Read) }
    ensures reports { ReportsFile P.reports (crypto_of suite) text.now progress.old progress.new
        result }
{
    match suite {
        SuiteChoice::Glass => print_view::<Glass, O, P>(alloc, text, view, out, progress),
        SuiteChoice::Suite0001 => print_view::<Suite0001, O, P>(alloc, text, view, out, progress),
    }
}

/// Prints the picture of the tree of a recording's member for the suite.
fn print_picture<O: Output, P: Progress>(
    alloc: Global,
    suite: SuiteChoice,
    member: usize,
    drawing: Drawing,
    text: &[u8],
    out: &mut O,
    progress: &mut P,
) -> Result<u8, Fault>
    ensures prints { PrintsPicture O.contents suite member drawing text.now out.old out.new result }
    ensures status { IfOk result (λ status. status ≤ 1) }
    ensures write { O.failed out.new ≡ write_failed (O.failed out.old) result }
    ensures written { IfErr result (λ e. e ≢ Fault.Read) }
    ensures reports { ReportsFile P.reports (crypto_of suite) text.now progress.old progress.new
        result }
{
    match suite {
        SuiteChoice::Glass => {
            print_member::<Glass, O, P>(alloc, text, member, drawing, out, progress)
        }
        SuiteChoice::Suite0001 => {
            print_member::<Suite0001, O, P>(alloc, text, member, drawing, out, progress)
        }
    }
}
