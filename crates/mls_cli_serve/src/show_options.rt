//! The options of `mls show`.

ghost use Rattle.std.specs.Prelude.{◌≡◌, false, IfOk};
ghost use Rattle.clap.specs.Words.{app_of};
ghost use Rattle.clap.specs.declared.Command.TheViews.{out-Command as fields_of};
ghost use Rattle.mls_cli_serve.specs.Arguments.{form_of, given, detail_of, show_app, show_on, task_view};

use crate::options::{file_command, flag_arg, is_given, json_arg, layout_of, raw_arg, where_arg};
use crate::tasks::Job;
use clap::Command;
use mls_cli_show::Detail;
use mls_cli_text::Form;
use std::alloc::{AllocError, Global};

/// The subcommand `show`.
pub fn show_command<'a>(alloc: Global) -> Result<Command<'a>, AllocError>
    ensures app { IfOk result (λ c. app_of c ≡ show_app) }
    ensures local { IfOk result (λ c. (fields_of c).has_globals ≡ false) }
{
    let command = file_command(
        alloc,
        "show",
        "Prints a message field by field",
        "An MLSMessage in hex, or - for the standard input",
        "Example:\n  mls show examples/key_package.hex",
    )?;
    let full = flag_arg(
        alloc,
        "full",
        "Prints each item of a list and a message's reference too",
    );
    let with_full = command.arg(full)?;
    let with_raw = with_full.arg(raw_arg(alloc))?;
    let with_json = with_raw.arg(json_arg(alloc))?;
    with_json.arg(where_arg(alloc))
}

/// How a file has its bytes, by whether `--raw` is given.
pub fn form_of(raw: Option<&str>) -> Form
    ensures { result ≡ form_of (given raw.entry) }
{
    if is_given(raw) { Form::Raw } else { Form::Hex }
}

/// How much is shown, by whether `--full` is given.
fn detail_of(full: Option<&str>) -> Detail
    ensures { result ≡ detail_of (given full.entry) }
{
    if is_given(full) {
        Detail::Full
    } else {
        Detail::Brief
    }
}

/// The job that the options and FILE of `show` stand for.
pub fn show_on<'a>(
    full: Option<&str>,
    raw: Option<&str>,
    json: Option<&str>,
    file: &'a str,
) -> Job<'a>
    ensures { task_view result
        ≡ show_on (given full.entry) (given raw.entry) (given json.entry) file.entry.now }
{
    Job::Show {
        file,
        form: form_of(raw),
        detail: detail_of(full),
        layout: layout_of(json),
    }
}
