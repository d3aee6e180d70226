//! The options of `mls replay`.

ghost use Rattle.std.specs.Prelude.{◌≡◌, false, IfOk};
ghost use Rattle.clap.specs.Words.{app_of};
ghost use Rattle.clap.specs.declared.Command.TheViews.{out-Command as fields_of};
ghost use Rattle.mls_cli_serve.specs.Arguments.{replay_app};
ghost use Rattle.mls_cli_serve.specs.ReplayArguments.{progress_by, unless, view_by, view_by_flags, view_by_tree, with_picture_rules};

use crate::drawing_options::with_drawing_options;
use crate::options::{file_command, flag_arg, number_arg, suite_arg, where_arg};
use crate::tasks::ProgressChoice;
use clap::Command;
use mls_cli_replay::ReplayView;
use std::alloc::{AllocError, Global};

/// The subcommand `replay`.
pub fn replay_command<'a>(alloc: Global) -> Result<Command<'a>, AllocError>
    ensures app { IfOk result (λ c. app_of c ≡ replay_app) }
    ensures local { IfOk result (λ c. (fields_of c).has_globals ≡ false) }
{
    let command = file_command(
        alloc,
        "replay",
        "Replays a recording of groups",
        "A recording in JSON, or - for the standard input",
        "Example:\n  mls replay examples/group.json --quiet",
    )?;
    let message = number_arg(
        alloc,
        "N",
        "message",
        "Prints this message in hex, in place of the replies",
    );
    let tree = number_arg(
        alloc,
        "K",
        "tree",
        "Prints this member's ratchet tree in hex, in place of the replies",
    );
    let quiet = flag_arg(
        alloc,
        "quiet",
        "Leaves out replies that are as expected, or of which nothing is",
    );
    let record = flag_arg(
        alloc,
        "record",
        "Prints the recording with these replies as those that it expects",
    );
    let with_suite = command.arg(suite_arg(alloc))?;
    let with_message = with_suite.arg(message)?;
    let with_tree = with_message.arg(tree)?;
    let with_quiet = with_tree.arg(quiet)?;
    let with_record = with_quiet.arg(record)?;
    let progress = flag_arg(
        alloc,
        "progress",
        "Says on standard error at each hundredth how many events are done",
    );
    let with_all = with_picture(alloc, with_record)?;
    let with_progress = with_all.arg(progress)?;
    with_progress.arg(where_arg(alloc))
}

/// The command with the options of a member's picture.
fn with_picture<'a>(alloc: Global, command: Command<'a>) -> Result<Command<'a>, AllocError>
    ensures app { IfOk result (λ c. app_of c ≡ with_picture_rules (app_of command.entry)) }
    ensures local { (fields_of command.entry).has_globals ≡ false
        → IfOk result (λ c. (fields_of c).has_globals ≡ false) }
{
    let draw = number_arg(
        alloc,
        "MEMBER",
        "draw",
        "Draws this member's ratchet tree, in place of the replies",
    );
    let with_draw = command.arg(draw)?;
    with_drawing_options(alloc, with_draw)
}

/// This view, unless another is asked for too.
fn unless(view: ReplayView, other: bool) -> Option<ReplayView>
    ensures { result ≡ unless view other }
{
    if other { None } else { Some(view) }
}

fn view_by_flags(quiet: bool, again: bool) -> Option<ReplayView>
    ensures { result ≡ view_by_flags quiet again }
{
    if quiet {
        unless(ReplayView::Unmet, again)
    } else if again {
        Some(ReplayView::Recording)
    } else {
        Some(ReplayView::Replies)
    }
}

fn view_by_tree(tree: Option<usize>, quiet: bool, again: bool) -> Option<ReplayView>
    ensures { result ≡ view_by_tree tree quiet again }
{
    match tree {
        Some(number) => unless(ReplayView::Tree(number), quiet || again),
        None => view_by_flags(quiet, again),
    }
}

/// What is asked for of a recording: its replay where nothing is, and None where two things are.
pub fn view_by(
    message: Option<usize>,
    tree: Option<usize>,
    quiet: bool,
    again: bool,
) -> Option<ReplayView>
    ensures { result ≡ view_by message tree quiet again }
{
    match message {
        Some(number) => unless(
            ReplayView::Message(number),
            tree.is_some() || quiet || again,
        ),
        None => view_by_tree(tree, quiet, again),
    }
}

/// Where it is said how far a replay is, by whether --progress is given.
pub fn progress_by(asked: bool) -> ProgressChoice
    ensures { result ≡ progress_by asked }
{
    if asked {
        ProgressChoice::Always
    } else {
        ProgressChoice::OnTerminal
    }
}
