//! Options and arguments that subcommands share, read with `clap`.

ghost use Rattle.std.specs.Prelude.{◌≡◌, false, IfOk};
ghost use Rattle.clap.specs.Words.{app_of, rule_of};
ghost use Rattle.clap.specs.declared.Command.TheViews.{out-Command as fields_of};
ghost use Rattle.mls_cli_serve.specs.Arguments.{file_app, file_rule, given, is_given, json_rule, raw_rule, layout_of, suite_of, suite_rule, where_rule};
ghost use Rattle.mls_cli_serve.specs.Options.{flag_rule, number_in, number_rule};

use crate::tasks::{Layout, SuiteChoice};
use clap::{Arg, ArgAction, Command};
use std::alloc::{AllocError, Global};

fn file_arg<'a>(alloc: Global, help: &'a str) -> Arg<'a>
    ensures rule { rule_of result ≡ file_rule }
    ensures local { result.global ≡ false }
{
    Arg::new(alloc, "FILE").required(true).help(help)
}

/// A subcommand that takes a FILE, with what help says of both, and an example.
pub fn file_command<'a>(
    alloc: Global,
    name: &'a str,
    about: &'a str,
    file: &'a str,
    example: &'a str,
) -> Result<Command<'a>, AllocError>
    ensures app { IfOk result (λ c. app_of c ≡ file_app name.entry.now) }
    ensures local { IfOk result (λ c. (fields_of c).has_globals ≡ false) }
{
    let file = file_arg(alloc, file);
    Command::new(alloc, name)
        .about(about)
        .after_help(example)
        .arg(file)
}

/// The option of a group's cipher suite.
pub fn suite_arg<'a>(alloc: Global) -> Arg<'a>
    ensures rule { rule_of result ≡ suite_rule }
    ensures local { result.global ≡ false }
{
    Arg::new(alloc, "SUITE")
        .long("suite")
        .default_value("f001")
        .help("The group's cipher suite, f001 or 0001")
}

/// A flag, with what help says of it.
pub fn flag_arg<'a>(alloc: Global, name: &'a str, help: &'a str) -> Arg<'a>
    ensures rule { rule_of result ≡ flag_rule name.entry.now }
    ensures local { result.global ≡ false }
{
    Arg::new(alloc, name)
        .long(name)
        .action(ArgAction::SetTrue)
        .help(help)
}

/// The flag that says that a file has its bytes as they are.
pub fn raw_arg<'a>(alloc: Global) -> Arg<'a>
    ensures rule { rule_of result ≡ raw_rule }
    ensures local { result.global ≡ false }
{
    flag_arg(alloc, "raw", "Reads bytes as they are, and not hex")
}

/// The flag that asks for a JSON object.
pub fn json_arg<'a>(alloc: Global) -> Arg<'a>
    ensures rule { rule_of result ≡ json_rule }
    ensures local { result.global ≡ false }
{
    flag_arg(alloc, "json", "Prints one JSON object in place of lines")
}

/// The flag that asks where content is refused.
pub fn where_arg<'a>(alloc: Global) -> Arg<'a>
    ensures rule { rule_of result ≡ where_rule }
    ensures local { result.global ≡ false }
{
    flag_arg(
        alloc,
        "where",
        "Says on standard error where content is refused",
    )
}

/// An option with a number, with what help says of it.
pub fn number_arg<'a>(alloc: Global, id: &'a str, name: &'a str, help: &'a str) -> Arg<'a>
    ensures rule { rule_of result ≡ number_rule id.entry.now name.entry.now }
    ensures local { result.global ≡ false }
{
    Arg::new(alloc, id)
        .long(name)
        .value_parser(clap::value_parser!(u64))
        .help(help)
}

/// The suite that a text names.
pub fn suite_of(text: &str) -> Option<SuiteChoice>
    ensures { result ≡ suite_of text.now }
{
    match text {
        "f001" => Some(SuiteChoice::Glass),
        "0001" => Some(SuiteChoice::Suite0001),
        _ => None,
    }
}

/// The number that a text of decimal digits writes, with a plus before them or none.
pub fn number_in(text: &str) -> Option<usize>
    ensures { result ≡ number_in text.now }
{
    match text.parse::<usize>() {
        Ok(number) => Some(number),
        Err(_) => None,
    }
}

/// Whether a flag with this value is given.
pub fn is_given(value: Option<&str>) -> bool
    ensures { result ≡ is_given (given value.entry) }
{
    match value {
        Some(text) => text == "true",
        None => false,
    }
}

/// How lines are printed, by whether `--json` is given.
pub fn layout_of(json: Option<&str>) -> Layout
    ensures { result ≡ layout_of (given json.entry) }
{
    if is_given(json) {
        Layout::Json
    } else {
        Layout::Lines
    }
}
