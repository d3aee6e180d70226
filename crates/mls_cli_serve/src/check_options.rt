//! The options of `mls check`.

ghost use Rattle.std.specs.Prelude.{◌≡◌, false, IfOk};
ghost use Rattle.clap.specs.Words.{app_of, rule_of};
ghost use Rattle.clap.specs.declared.Command.TheViews.{out-Command as fields_of};
ghost use Rattle.mls_cli_serve.specs.Arguments.{check_app, check_on, drawn, drawn_if, given, group_rule, maybe_task, task_view, tree_task, undrawn, with_draw_rules, without_json};

use crate::drawing_options::{is_plain, with_drawing_options};
use crate::options::{
    file_command, flag_arg, is_given, json_arg, raw_arg, suite_arg, suite_of, where_arg,
};
use crate::show_options::form_of;
use crate::tasks::{Job, Layout, SuiteChoice};
use clap::{Arg, Command};
use mls_cli_check::{Drawing, TreeSource};
use mls_cli_text::Form;
use std::alloc::{AllocError, Global};

fn group_arg<'a>(alloc: Global) -> Arg<'a>
    ensures rule { rule_of result ≡ group_rule }
    ensures local { result.global ≡ false }
{
    Arg::new(alloc, "HEX")
        .long("group")
        .help("The group's id, empty by default")
}

/// The subcommand `check`.
pub fn check_command<'a>(alloc: Global) -> Result<Command<'a>, AllocError>
    ensures app { IfOk result (λ c. app_of c ≡ check_app) }
    ensures local { IfOk result (λ c. (fields_of c).has_globals ≡ false) }
{
    let command = file_command(
        alloc,
        "check",
        "Checks a ratchet tree",
        "A ratchet tree in hex, or - for the standard input",
        "Example:\n  mls check examples/group_tree.hex --group 67",
    )?;
    let info = flag_arg(
        alloc,
        "group-info",
        "Checks a GroupInfo message, which has suite, id and tree",
    );
    let signatures = flag_arg(
        alloc,
        "signatures",
        "Checks signatures and keys under suite 0001 too",
    );
    let with_suite = command.arg(suite_arg(alloc))?;
    let with_group = with_suite.arg(group_arg(alloc))?;
    let with_signatures = with_group.arg(signatures)?;
    let with_info = with_signatures.arg(info)?;
    let with_raw = with_info.arg(raw_arg(alloc))?;
    let with_json = with_raw.arg(json_arg(alloc))?;
    let with_where = with_json.arg(where_arg(alloc))?;
    with_draw(alloc, with_where)
}

/// The command with a flag to draw, and the options of drawings.
fn with_draw<'a>(alloc: Global, command: Command<'a>) -> Result<Command<'a>, AllocError>
    ensures app { IfOk result (λ c. app_of c ≡ with_draw_rules (app_of command.entry)) }
    ensures local { (fields_of command.entry).has_globals ≡ false
        → IfOk result (λ c. (fields_of c).has_globals ≡ false) }
{
    let draw = flag_arg(alloc, "draw", "Draws the tree, and checks nothing of it");
    let drawn = command.arg(draw)?;
    with_drawing_options(alloc, drawn)
}

/// The check of a tree that these stand for.
fn tree_job<'a>(
    form: Form,
    suite: SuiteChoice,
    signatures: bool,
    group: Option<&'a str>,
    layout: Layout,
    file: &'a str,
) -> Job<'a>
    ensures { task_view result
        ≡ tree_task form suite signatures (given group.entry) layout file.entry.now }
{
    match group {
        Some(group) => Job::Check {
            file,
            form,
            suite,
            signatures,
            group,
            layout,
        },
        None => Job::Check {
            file,
            form,
            suite,
            signatures,
            group: "",
            layout,
        },
    }
}

/// The check that the options and FILE stand for, or None where no suite has that name.
pub fn check_on<'a>(
    info: Option<&str>,
    raw: Option<&str>,
    suite: Option<&str>,
    signatures: Option<&str>,
    group: Option<&'a str>,
    layout: Layout,
    file: &'a str,
) -> Option<Job<'a>>
    ensures { maybe_task result ≡ check_on (given info.entry) (given raw.entry)
        (given suite.entry) (given signatures.entry) (given group.entry) layout file.entry.now }
{
    let suite = suite_of(suite?)?;
    let form = form_of(raw);
    let signatures = is_given(signatures);
    if is_given(info) {
        return Some(Job::CheckGroupInfo {
            file,
            form,
            signatures,
            layout,
        });
    }
    Some(tree_job(form, suite, signatures, group, layout, file))
}

/// A drawing in place of a tree's check, and any other job as it is.
fn drawn<'a>(drawing: Drawing, job: Job<'a>) -> Job<'a>
    ensures { task_view result ≡ drawn drawing (task_view job.entry) }
{
    match job {
        Job::Check { file, form, .. } => Job::Draw {
            file,
            form,
            source: TreeSource::Tree,
            drawing,
        },
        Job::CheckGroupInfo { file, form, .. } => Job::Draw {
            file,
            form,
            source: TreeSource::GroupInfo,
            drawing,
        },
        Job::Show { .. }
        | Job::Draw { .. }
        | Job::Replay { .. }
        | Job::DrawMember { .. }
        | Job::Vectors { .. } => job,
    }
}

/// How a tree is drawn, or None where the drawing is to be JSON too.
pub fn without_json(both: bool, drawing: Option<Drawing>) -> Option<Drawing>
    ensures { result ≡ without_json both drawing }
{
    if both { None } else { drawing }
}

/// This job, unless it is said how a tree is drawn.
pub fn undrawn<'a>(drawing: Drawing, job: Job<'a>) -> Option<Job<'a>>
    ensures { maybe_task result ≡ undrawn drawing (task_view job.entry) }
{
    if is_plain(drawing) { Some(job) } else { None }
}

/// A drawing in place of a tree's check where it is asked for; None too where it isn't, and yet it is said how.
pub fn drawn_if<'a>(asked: bool, drawing: Option<Drawing>, job: Option<Job<'a>>) -> Option<Job<'a>>
    ensures { maybe_task result ≡ drawn_if asked drawing (maybe_task job.entry) }
{
    let drawing = drawing?;
    let job = job?;
    if asked {
        Some(drawn(drawing, job))
    } else {
        undrawn(drawing, job)
    }
}
