//! The command line of `mls`, read with `clap`.

ghost use Rattle.std.specs.Prelude.{◌≡◌, map, true, false, codes, Ok, Err, Some, None, IfOk, IfErr, IsSome, OnOk, ◌⊎◌, ◌∷◌, [], option_and_then, option_map};
ghost use Rattle.clap.specs.Words.{app_of, shape_of, first_of, found_of, kind_of, matches_of, rows_of, rule_of, subcommand_of, subcommand_rows_of, takes, fault_of, FailsBy, HasKind};
ghost use Rattle.clap.specs.declared.Command.TheViews.{out-Command as fields_of};
ghost use Rattle.mls_cli_serve.specs.Arguments.{asks_where, asks_where_behind, ComesOf, ExplainsWords, check, check_group_info, draw, draw_member, drawing_on, draws_json, faults_behind, found_in, found_rows, given, maybe_task, mls, plain_check, plain_replay, plain_show, recording_task, replay, replay_on, show, task_behind, task_in, task_of, task_on, task_view, vectors, view_on, with_version, words_of_check, words_of_draw, words_of_draw_info, words_of_drawn_json, words_of_info, words_of_info_json, words_of_no_drawing, words_of_no_number, words_of_picture, words_of_places, words_of_picture_and_message, words_of_progress, words_of_quiet, words_of_record, words_of_replay, words_of_shown_json, words_of_svg, words_of_svg_width, words_of_tree, words_of_two_views};
ghost use Rattle.mls_cli_serve.specs.ExplainArguments.{unless_asked};
ghost use Rattle.mls_cli_serve.specs.Options.{number_in};
ghost use Rattle.mls_cli_serve.specs.TreeJobs.{tree_check_on, tree_job_on};

use crate::check_options::{check_command, check_on, drawn_if, undrawn, without_json};
use crate::drawing_options::drawing_by;
use crate::explain_arguments::{explain_arg, without_job};
use crate::options::{is_given, layout_of, number_in, suite_of};
use crate::replay_arguments::{progress_by, replay_command, view_by};
use crate::show_options::{show_command, show_on};
use crate::tasks::{Job, Layout, NoJob, ProgressChoice, Request, SuiteChoice};
use crate::vectors_options::vectors_command;
use clap::error::ErrorKind;
use clap::{ArgMatches, Command, Error};
use mls_cli_check::{Drawing, TreeSource};
use mls_cli_replay::ReplayView;
use mls_cli_show::Detail;
use mls_cli_text::Form;
use std::alloc::{AllocError, Global};
use std::convert::AsStr;

/// What `--version` says behind the program's name.
const VERSION: &str = "0.1.0";

/// What stands below the usage.
const EXIT_STATUS: &str =
    "Exit status:\n  0  the content is good\n  1  it is refused, or vectors or expectations fail\n  2  the command line is wrong\n  3  a file, the output or memory failed";

/// What help says of the whole.
fn describe<'a>(command: Command<'a>) -> Command<'a>
    ensures { app_of result ≡ with_version (app_of command.entry) }
{
    command
        .about("Shows and checks messages of Messaging Layer Security (RFC 9420)")
        .after_help(EXIT_STATUS)
        .version(VERSION)
        .override_usage("mls <COMMAND>\n       mls --explain <REFUSAL>")
}

/// The command line: one of the subcommands, each with a FILE, or a refusal that is to be explained.
pub fn command<'a>(alloc: Global) -> Result<Command<'a>, AllocError>
    ensures { IfOk result (λ c. app_of c ≡ mls) }
{
    let show = show_command(alloc)?;
    let check = check_command(alloc)?;
    let replay = replay_command(alloc)?;
    let vectors = vectors_command(alloc)?;
    let first = Command::new(alloc, "mls").subcommand(show)?;
    let second = first.subcommand(check)?;
    let third = second.subcommand(replay)?;
    let all = third.subcommand(vectors)?;
    let whole = all.arg(explain_arg(alloc))?;
    Ok(describe(whole))
}

/// The number that a text writes, where a text is given that writes one.
fn number_if_any(text: Option<&str>) -> Option<usize>
    ensures { result ≡ option_and_then number_in (given text.entry) }
{
    match text {
        Some(text) => number_in(text),
        None => None,
    }
}

/// What is asked for of a recording, or None where it is two things.
fn view_on(matches: &ArgMatches<'_>) -> Option<ReplayView>
    ensures { result ≡ view_on (rows_of (found_of matches.now)) }
{
    view_by(
        number_if_any(value_of(matches, "N")),
        number_if_any(value_of(matches, "K")),
        is_given(value_of(matches, "quiet")),
        is_given(value_of(matches, "record")),
    )
}

/// How a tree is drawn, or None where two ways are asked for.
fn drawing_on(matches: &ArgMatches<'_>) -> Option<Drawing>
    ensures { result ≡ drawing_on (rows_of (found_of matches.now)) }
{
    drawing_by(
        number_if_any(value_of(matches, "WIDTH")),
        is_given(value_of(matches, "svg")),
    )
}

/// The replay of a recording or, in place of its replies, the drawing of a member's tree; None where another thing is
/// asked for too, or where it is said how a tree is drawn and none is.
fn recording_job<'a>(
    file: &'a str,
    suite: SuiteChoice,
    member: Option<usize>,
    drawing: Drawing,
    view: ReplayView,
    progress: ProgressChoice,
) -> Option<Job<'a>>
    ensures { maybe_task result
        ≡ recording_task file.entry.now suite member drawing view progress }
{
    match member {
        None => undrawn(
            drawing,
            Job::Replay {
                file,
                suite,
                view,
                progress,
            },
        ),
        Some(member) => match view {
            ReplayView::Replies => Some(Job::DrawMember {
                file,
                suite,
                member,
                drawing,
                progress,
            }),
            ReplayView::Unmet
            | ReplayView::Message(_)
            | ReplayView::Tree(_)
            | ReplayView::Recording => None,
        },
    }
}

/// The job that the options and FILE stand for, or None where no suite has that name, two things are asked for, or it is
/// said how a tree is drawn and none is.
fn replay_on<'a>(
    suite: Option<&str>,
    member: Option<usize>,
    drawing: Option<Drawing>,
    view: Option<ReplayView>,
    progress: ProgressChoice,
    file: &'a str,
) -> Option<Job<'a>>
    ensures { maybe_task result
        ≡ replay_on (given suite.entry) member drawing view progress file.entry.now }
{
    let chosen = suite_of(suite?)?;
    recording_job(file, chosen, member, drawing?, view?, progress)
}

/// The check of a tree that the options and FILE stand for, or None where no suite has that name.
fn tree_check_on<'a>(matches: &ArgMatches<'a>, file: &'a str) -> Option<Job<'a>>
    ensures { maybe_task result ≡ tree_check_on (rows_of (found_of matches.now)) file.entry.now }
{
    check_on(
        value_of(matches, "group-info"),
        value_of(matches, "raw"),
        value_of(matches, "SUITE"),
        value_of(matches, "signatures"),
        value_of(matches, "HEX"),
        layout_of(value_of(matches, "json")),
        file,
    )
}

/// Whether both a drawing and a JSON object are asked for.
fn draws_json(matches: &ArgMatches<'_>) -> bool
    ensures { result ≡ draws_json (rows_of (found_of matches.now)) }
{
    is_given(value_of(matches, "draw")) && is_given(value_of(matches, "json"))
}

/// The check of a tree, or its drawing where that is asked for.
fn tree_job_on<'a>(matches: &ArgMatches<'a>, file: &'a str) -> Option<Job<'a>>
    ensures { maybe_task result ≡ tree_job_on (rows_of (found_of matches.now)) file.entry.now }
{
    drawn_if(
        is_given(value_of(matches, "draw")),
        without_json(draws_json(matches), drawing_on(matches)),
        tree_check_on(matches, file),
    )
}

/// The job that a subcommand's name, its matches and FILE stand for, or None where no subcommand has that name.
fn job_on<'a>(name: &str, matches: &ArgMatches<'a>, file: &'a str) -> Option<Job<'a>>
    ensures { maybe_task result ≡ task_on name.now (rows_of (found_of matches.now)) file.entry.now }
{
    match name {
        "show" => Some(show_on(
            value_of(matches, "full"),
            value_of(matches, "raw"),
            value_of(matches, "json"),
            file,
        )),
        "check" => tree_job_on(matches, file),
        "replay" => replay_on(
            value_of(matches, "SUITE"),
            number_if_any(value_of(matches, "MEMBER")),
            drawing_on(matches),
            view_on(matches),
            progress_by(is_given(value_of(matches, "progress"))),
            file,
        ),
        "vectors" => Some(Job::Vectors { file }),
        _ => None,
    }
}

/// What the words ask for, the program's own name first.
pub fn request<'a, S: AsStr>(alloc: Global, words: &'a [S]) -> Result<Request<'a>, NoJob>
    // The job is the subcommand and the FILE of clap's matches.
    ensures named { IfOk result (λ r.
        task_in (map S.text words.entry.now) ≡ Some (task_view r.job)) }
    ensures asked { IfOk result (λ r.
        r.asks_where ≡ asks_where (found_in (map S.text words.entry.now))) }
    // It comes only where clap finds no fault in the words.
    ensures faultless { OnOk result (fault_of mls (map S.text words.entry.now) ≡ []) }
    // Where clap finds a fault, it is of a kind that the words have, unless memory runs out. Where it finds
    // none, memory is wanting, or the matches name no job.
    ensures fault { IfErr result (ExplainsWords (map S.text words.entry.now)) }
{
    match parse_words(alloc, words) {
        Ok(matches) => match job_in(&matches) {
            Some(job) => Ok(Request {
                job,
                asks_where: asks_where(&matches),
            }),
            None => Err(without_job(alloc, &matches)),
        },
        Err(error) => Err(no_job(alloc, &error)),
    }
}

/// What clap makes of the words.
fn parse_words<'a, S: AsStr>(alloc: Global, words: &'a [S]) -> Result<ArgMatches<'a>, Error>
    ensures rows { IfOk result (λ m. subcommand_rows_of m ≡ found_in (map S.text words.entry.now)) }
    ensures top { IfOk result (λ m.
        rows_of (found_of m) ≡ matches_of mls (map S.text words.entry.now)) }
    ensures faults { FailsBy (fault_of mls (map S.text words.entry.now)) result }
{
    command(alloc)?.try_get_matches_from(words)
}

/// The text of clap's error, and where it goes.
pub fn no_job(alloc: Global, error: &Error) -> NoJob
    ensures { ComesOf result (kind_of error.now) }
{
    if error.kind() == ErrorKind::OutOfMemory {
        return NoJob::OutOfMemory;
    }
    match error.to_string(alloc) {
        Ok(text) => {
            if error.use_stderr() {
                NoJob::Mistaken(text)
            } else {
                NoJob::Shown(text)
            }
        }
        // Want of memory: the error's text is made, which fails for nothing else.
        Err(_) => NoJob::OutOfMemory,
    }
}

/// That no suite has the name that a subcommand is given, or that its options exclude one another.
pub fn refuse_values(alloc: Global, matches: &ArgMatches<'_>) -> NoJob
    ensures { ComesOf result ErrorKind.InvalidValue }
{
    match value_error(
        alloc,
        name_in(matches),
        suite_in(matches),
        misuse_in(matches),
    ) {
        Ok(error) => no_job(alloc, &error),
        // Want of memory: the error is an `AllocError`.
        Err(_) => NoJob::OutOfMemory,
    }
}

/// A subcommand that takes a suite, named as usage texts name it.
fn command_with_suite<'a>(alloc: Global, subcommand: &str) -> Result<Command<'a>, AllocError> {
    match subcommand {
        "replay" => replay_command(alloc)?.bin_name("mls replay"),
        _ => check_command(alloc)?.bin_name("mls check"),
    }
}

/// What clap would say of options that exclude one another.
const TWO_VIEWS: &str = "only one of --message, --tree, --draw, --quiet and --record can be used";

/// What it would say of a drawing that is to be a JSON object.
const DRAWN_JSON: &str = "only one of --draw and --json can be used";

/// What it would say of options that go with another one, and exclude one another.
const NO_DRAWING: &str = "only one of --width and --svg can be used, and only with --draw";

/// Whether two things are asked for of a recording.
fn asks_for_two(matches: &ArgMatches<'_>) -> bool {
    match view_on(matches) {
        Some(ReplayView::Replies) => false,
        Some(_) => value_of(matches, "MEMBER").is_some(),
        None => true,
    }
}

/// What clap would say of options that name no job.
fn misuse_in(matches: &ArgMatches<'_>) -> &'static str {
    match matches.subcommand() {
        Some((_, inner)) => {
            if asks_for_two(inner) {
                TWO_VIEWS
            } else if draws_json(inner) {
                DRAWN_JSON
            } else {
                NO_DRAWING
            }
        }
        None => NO_DRAWING,
    }
}

/// The error of values that name no job, with the usage of the subcommand.
fn value_error(
    alloc: Global,
    subcommand: &str,
    suite: &str,
    misuse: &str,
) -> Result<Error, AllocError>
    ensures { IfOk result (λ e. kind_of e ≡ ErrorKind.InvalidValue) }
{
    match suite_of(suite) {
        Some(_) => command_with_suite(alloc, subcommand)?.error(ErrorKind::InvalidValue, misuse),
        None => suite_error(alloc, subcommand, suite),
    }
}

/// As clap says it of a value that isn't among those that are possible, with the usage of the subcommand.
fn suite_error(alloc: Global, subcommand: &str, suite: &str) -> Result<Error, AllocError>
    ensures { IfOk result (λ e. kind_of e ≡ ErrorKind.InvalidValue) }
{
    let message = format!(in alloc;
        "invalid value '{suite}' for '--suite <SUITE>'\n  [possible values: f001, 0001]"
    )?;
    let mut command = command_with_suite(alloc, subcommand)?;
    command.error(ErrorKind::InvalidValue, message.as_str())
}

/// The name of the subcommand that the words have.
pub fn name_in<'a>(matches: &ArgMatches<'a>) -> &'a str {
    match matches.subcommand() {
        Some((name, _)) => name,
        None => "",
    }
}

/// The suite that the words name.
fn suite_in<'a>(matches: &ArgMatches<'a>) -> &'a str {
    match matches.subcommand() {
        Some((_, inner)) => inner.get_str("SUITE").unwrap_or(""),
        None => "",
    }
}

/// A word of the command line is no text.
pub fn no_text(alloc: Global) -> NoJob
    ensures { ComesOf result ErrorKind.InvalidValue }
{
    match no_text_error(alloc) {
        Ok(error) => no_job(alloc, &error),
        // Want of memory: the error is an `AllocError`.
        Err(_) => NoJob::OutOfMemory,
    }
}

fn no_text_error(alloc: Global) -> Result<Error, AllocError>
    ensures { IfOk result (λ e. kind_of e ≡ ErrorKind.InvalidValue) }
{
    command(alloc)?.error(
        ErrorKind::InvalidValue,
        "invalid UTF-8 was detected in one or more arguments",
    )
}

/// The first value of the argument with this id.
pub fn value_of<'a>(matches: &ArgMatches<'a>, id: &str) -> Option<&'a str>
    ensures { option_map (λ s. s.now) result ≡ first_of id.now (rows_of (found_of matches.now)) }
{
    matches.get_str(id)
}

/// The subcommand that was met, and its matches.
pub fn matched_subcommand<'a, 'b>(
    matches: &'b ArgMatches<'a>,
) -> Option<(&'a str, &'b ArgMatches<'a>)>
    ensures { found_rows (λ m. rows_of (found_of m)) result ≡ subcommand_rows_of matches.now }
{
    matches.subcommand()
}

/// Whether it is asked where content is refused.
fn asks_where(matches: &ArgMatches<'_>) -> bool
    ensures { result ≡ asks_where (subcommand_rows_of matches.now) }
{
    match matched_subcommand(matches) {
        Some((_, inner)) => is_given(value_of(inner, "where")),
        None => false,
    }
}

/// The job that the matches stand for: none where a refusal is asked for.
fn job_in<'a>(matches: &ArgMatches<'a>) -> Option<Job<'a>>
    ensures { maybe_task result
        ≡ unless_asked (first_of (codes "REFUSAL") (rows_of (found_of matches.now)))
        (task_of (subcommand_rows_of matches.now)) }
{
    match value_of(matches, "REFUSAL") {
        Some(_) => None,
        None => subcommand_job(matches),
    }
}

fn subcommand_job<'a>(matches: &ArgMatches<'a>) -> Option<Job<'a>>
    ensures { maybe_task result ≡ task_of (subcommand_rows_of matches.now) }
{
    let (name, inner) = matched_subcommand(matches)?;
    let file = value_of(inner, "FILE")?;
    job_on(name, inner, file)
}

/// Help is found first, so is the version, and a job's words have no fault.
pub fn examples()
    ensures help { faults_behind (codes "show" ∷ codes "--help" ∷ []) ≡ ErrorKind.DisplayHelp ∷ [] }
    ensures version { faults_behind (codes "--version" ∷ []) ≡ ErrorKind.DisplayVersion ∷ [] }
    ensures missing { faults_behind (codes "show" ∷ []) ≡ ErrorKind.MissingRequiredArgument ∷ [] }
    ensures shows { task_behind (codes "show" ∷ codes "a" ∷ []) ≡ Some (plain_show (codes "a")) }
    ensures shows_all { task_behind (codes "show" ∷ codes "--raw" ∷ codes "a" ∷ codes "--full" ∷ [])
        ≡ Some (show (codes "a") Form.Raw Detail.Full Layout.Lines) }
    ensures replays { task_behind (codes "replay" ∷ codes "a" ∷ [])
        ≡ Some (plain_replay (codes "a")) }
    ensures judges { task_behind (codes "vectors" ∷ codes "a" ∷ []) ≡ Some (vectors (codes "a")) }
    ensures checks { task_behind (codes "check" ∷ codes "a" ∷ []) ≡ Some (plain_check (codes "a")) }
    ensures chosen { task_behind words_of_check
        ≡ Some (check (codes "a") Form.Hex SuiteChoice.Suite0001 true (codes "67") Layout.Lines) }
    ensures info { task_behind words_of_info
        ≡ Some (check_group_info (codes "a") Form.Raw false Layout.Lines) }
    ensures shows_json { task_behind words_of_shown_json
        ≡ Some (show (codes "a") Form.Hex Detail.Brief Layout.Json) }
    ensures info_json { task_behind words_of_info_json
        ≡ Some (check_group_info (codes "a") Form.Hex false Layout.Json) }
    ensures drawn_json { task_behind words_of_drawn_json ≡ None }
    ensures places { asks_where_behind words_of_places ≡ true }
    ensures no_places { asks_where_behind words_of_check ≡ false }
    ensures draws { task_behind words_of_draw
        ≡ Some (draw (codes "a") Form.Hex TreeSource.Tree (Drawing.Text None)) }
    ensures draws_info { task_behind words_of_draw_info
        ≡ Some (draw (codes "a") Form.Hex TreeSource.GroupInfo (Drawing.Text (Some 40))) }
    ensures message { task_behind words_of_replay
        ≡ Some (replay (codes "a") SuiteChoice.Suite0001 (ReplayView.Message 12)
        ProgressChoice.OnTerminal) }
    ensures tree { task_behind words_of_tree
        ≡ Some (replay (codes "a") SuiteChoice.Glass (ReplayView.Tree 3)
        ProgressChoice.OnTerminal) }
    ensures quiet { task_behind words_of_quiet
        ≡ Some (replay (codes "a") SuiteChoice.Glass ReplayView.Unmet ProgressChoice.OnTerminal) }
    ensures progress { task_behind words_of_progress
        ≡ Some (replay (codes "a") SuiteChoice.Glass ReplayView.Unmet ProgressChoice.Always) }
    ensures recorded { task_behind words_of_record
        ≡ Some (replay (codes "a") SuiteChoice.Glass ReplayView.Recording
        ProgressChoice.OnTerminal) }
    ensures picture { task_behind words_of_picture
        ≡ Some (draw_member (codes "a") SuiteChoice.Glass 3 (Drawing.Text (Some 40))
        ProgressChoice.OnTerminal) }
    ensures svg { task_behind words_of_svg
        ≡ Some (draw_member (codes "a") SuiteChoice.Glass 3 Drawing.Svg
        ProgressChoice.OnTerminal) }
    ensures svg_width { task_behind words_of_svg_width ≡ None }
    ensures no_drawing { task_behind words_of_no_drawing ≡ None }
    ensures picture_and_message { task_behind words_of_picture_and_message ≡ None }
    ensures two { task_behind words_of_two_views ≡ None }
    ensures number { faults_behind words_of_no_number ≡ ErrorKind.ValueValidation ∷ [] }
    ensures other { task_behind (codes "check" ∷ codes "a" ∷ codes "--suite=f002" ∷ []) ≡ None }
    ensures taken { faults_behind (codes "show" ∷ codes "a" ∷ []) ≡ [] }
{}
