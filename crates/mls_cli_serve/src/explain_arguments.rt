//! The option `--explain REFUSAL`, and words that name neither a job nor a refusal.

ghost use Rattle.std.specs.Prelude.{◌≡◌, codes, false, IfOk, option_map};
ghost use Rattle.clap.specs.Words.{first_of, found_of, kind_of, rows_of, rule_of, subcommand_rows_of};
ghost use Rattle.mls_cli_serve.specs.Arguments.{ComesOf, Lacks};
ghost use Rattle.mls_cli_serve.specs.ExplainArguments.{explain_rule, lacking, told_of, told_on, told_view};

use crate::arguments::{command, matched_subcommand, name_in, no_job, refuse_values, value_of};
use crate::options::number_in;
use crate::tasks::NoJob;
use clap::error::ErrorKind;
use clap::{Arg, ArgMatches, Error};
use mls_cli_explain::{Explanation, told_by};
use std::alloc::{AllocError, Global};

/// What clap says where a subcommand is required.
const NO_SUBCOMMAND: &str =
    "'mls' requires a subcommand but one was not provided\n  [subcommands: show, check, replay, vectors, help]";

/// What it says of options that exclude one another.
const BOTH: &str = "the argument '--explain <REFUSAL>' cannot be used with a subcommand";

/// The option `--explain`, which no subcommand has.
pub fn explain_arg<'a>(alloc: Global) -> Arg<'a>
    ensures rule { rule_of result ≡ explain_rule }
    ensures local { result.global ≡ false }
{
    Arg::new(alloc, "REFUSAL")
        .long("explain")
        .help("Tells what a refusal is, by its number or name")
}

/// What is told of the refusal that a word names.
fn told_of(word: &str) -> Option<(u8, Explanation)>
    ensures { option_map told_view result ≡ told_of word.now }
{
    told_by(number_in(word), word)
}

/// What is told where a refusal is asked for and no subcommand is given.
fn told_on(matches: &ArgMatches<'_>) -> Option<(u8, Explanation)>
    ensures { option_map told_view result
        ≡ told_on (first_of (codes "REFUSAL") (rows_of (found_of matches.now)))
        (subcommand_rows_of matches.now) }
{
    let word = value_of(matches, "REFUSAL")?;
    match matched_subcommand(matches) {
        Some(_) => None,
        None => told_of(word),
    }
}

/// What is told of a refusal, or what the words lack.
pub fn without_job(alloc: Global, matches: &ArgMatches<'_>) -> NoJob
    ensures { Lacks (first_of (codes "REFUSAL") (rows_of (found_of matches.now)))
        (subcommand_rows_of matches.now) result }
{
    match told_on(matches) {
        Some((number, told)) => NoJob::Explained { number, told },
        None => refuse_words(alloc, matches),
    }
}

/// That the words name neither a job nor a refusal.
fn refuse_words(alloc: Global, matches: &ArgMatches<'_>) -> NoJob
    ensures { ComesOf result (lacking (first_of (codes "REFUSAL") (rows_of (found_of matches.now)))
        (subcommand_rows_of matches.now)) }
{
    match value_of(matches, "REFUSAL") {
        Some(word) => refuse_explanation(alloc, name_in(matches), word),
        None => match matched_subcommand(matches) {
            Some(_) => refuse_values(alloc, matches),
            None => refuse_nothing(alloc),
        },
    }
}

/// That a subcommand is wanting.
fn refuse_nothing(alloc: Global) -> NoJob
    ensures { ComesOf result ErrorKind.MissingSubcommand }
{
    match no_subcommand(alloc) {
        Ok(error) => no_job(alloc, &error),
        // Want of memory: the error is an `AllocError`.
        Err(_) => NoJob::OutOfMemory,
    }
}

fn no_subcommand(alloc: Global) -> Result<Error, AllocError>
    ensures { IfOk result (λ e. kind_of e ≡ ErrorKind.MissingSubcommand) }
{
    command(alloc)?.error(ErrorKind::MissingSubcommand, NO_SUBCOMMAND)
}

/// That no refusal has this number or name, or that a subcommand is given too.
fn refuse_explanation(alloc: Global, subcommand: &str, word: &str) -> NoJob
    ensures { ComesOf result ErrorKind.InvalidValue }
{
    match explanation_error(alloc, subcommand, word) {
        Ok(error) => no_job(alloc, &error),
        // Want of memory: the error is an `AllocError`.
        Err(_) => NoJob::OutOfMemory,
    }
}

fn explanation_error(alloc: Global, subcommand: &str, word: &str) -> Result<Error, AllocError>
    ensures { IfOk result (λ e. kind_of e ≡ ErrorKind.InvalidValue) }
{
    if !subcommand.is_empty() {
        return command(alloc)?.error(ErrorKind::InvalidValue, BOTH);
    }
    let message = format!(in alloc; "invalid value '{word}' for '--explain <REFUSAL>'")?;
    command(alloc)?.error(ErrorKind::InvalidValue, message.as_str())
}
