//! Recordings of groups, run action by action: what `mls replay` prints of a file.
#![tactic(auto)]

mod actions;
mod deliveries;
mod ends;
mod line;
mod member_tree;
mod members;
mod message;
mod progress;
mod quiet;
mod record;
mod reply;
mod view;

ghost use Rattle.std.specs.Prelude.{◌≡◌, ◌≢◌, ◌≤◌, ◌&&◌, IfOk, IfErr};
ghost use Rattle.mls_wire.specs.Checks.{Answers};
ghost use Rattle.mls_cli_text.specs.InputOutput.{write_failed};
ghost use Rattle.mls_cli_text.specs.Page.{ending_status};
ghost use Rattle.mls_cli_json.specs.Faults.{number_of};
ghost use Rattle.mls_cli_recording.specs.Calls.{recording_view};
ghost use Rattle.mls_cli_recording.specs.Recording.{recording};
ghost use Rattle.mls_cli_replay.specs.Faults.{StopsAsked, StopsBehindRun, StopsFile, StopsRun, StopsUnread};
ghost use Rattle.mls_cli_replay.specs.OneView.{OneView};
ghost use Rattle.mls_cli_replay.specs.Progress.{ReportsFile, ReportsRun};
ghost use Rattle.mls_cli_replay.specs.RecordedReplies.{PrintsRecord};
ghost use Rattle.mls_cli_replay.specs.Replay.{IsRefusal, PrintsOne, PrintsPlay, PrintsRefusal, ending_by};
ghost use Rattle.mls_cli_replay.specs.Views.{PrintsRun, PrintsView};

use actions::play_actions;
pub use deliveries::Tally;
use ends::print_end;
pub use line::ReplayLine;
use member_tree::print_tree;
use message::print_message;
use mls_cli_json::{JsonError, value_in};
use mls_cli_recording::{RecordedRun, laws_of_calls, recording};
use mls_cli_text::{Fault, Output, Page, print_page, refused_page};
use mls_suite::Suite;
use mls_world::World;
pub use progress::{Progress, Silent};
use quiet::play_quietly;
use record::print_record;
pub use reply::Outcome;
use std::alloc::Global;
pub use view::ReplayView;

/// The exit status, by whether the texts and the lines in the end are as expected.
fn status_of(met: bool, same: bool) -> u8
    ensures status { result ≡ ending_status (ending_by (met && same)) }
    ensures small { result ≤ 1 }
{
    if met && same { 0 } else { 1 }
}

/// Does the actions in a new world, prints the lines of each and reports it as done before the next one begins, and
/// prints in the end a line for each member and where these lines aren't those that are expected. It answers the exit
/// status: 1 where a text or a line isn't as expected, else 0.
fn play<S: Suite, O: Output, P: Progress>(
    alloc: Global,
    recorded: &RecordedRun,
    out: &mut O,
    progress: &mut P,
) -> Result<u8, Fault>
    ensures prints { PrintsPlay O.contents out.old out.new S.crypto recorded.now result }
    ensures status { IfOk result (λ status. status ≤ 1) }
    ensures fault { O.failed out.new ≡ write_failed (O.failed out.old) result }
    ensures written { IfErr result (λ e. e ≢ Fault.Read) }
    ensures reports { ReportsRun P.reports recorded.now progress.old progress.new result }
    // At a fault all actions before one are printed and reported, and none behind it has begun.
    ensures cut { StopsRun O.contents out.old out.new P.reports progress.old progress.new
        S.crypto recorded.now result }
{
    let mut world = World::<S>::new(alloc);
    let met = play_actions(
        alloc,
        &mut world,
        recorded.actions.as_slice(),
        out,
        progress,
    )?;
    let texts = recorded.final_lines.as_deref();
    let same = print_end(alloc, &world, texts, out)?;
    Ok(status_of(met, same))
}

/// Prints that a file is refused, and answers the exit status.
fn print_refusal<O: Output>(alloc: Global, number: u8, out: &mut O) -> Result<u8, Fault>
    ensures prints { PrintsRefusal O.contents out.old out.new number result }
    ensures status { IfOk result (λ status. status ≤ 1) }
    ensures fault { O.failed out.new ≡ write_failed (O.failed out.old) result }
    ensures written { IfErr result (λ e. e ≢ Fault.Read) }
{
    let page: Page<ReplayLine<'_>> = refused_page(alloc, number);
    print_page(alloc, &page, out)
}

/// Prints that a file isn't read, and answers the exit status.
fn print_error<O: Output>(alloc: Global, error: JsonError, out: &mut O) -> Result<u8, Fault>
    ensures prints { PrintsOne (IsRefusal error) (O.contents out.old) (O.contents out.new) result }
    ensures status { IfOk result (λ status. status ≤ 1) }
    ensures fault { O.failed out.new ≡ write_failed (O.failed out.old) result }
    ensures written { IfErr result (λ e. e ≢ Fault.Read) }
    ensures memory { StopsUnread error result }
{
    match error {
        JsonError::OutOfMemory => Err(Fault::OutOfMemory),
        JsonError::NotHex => print_refusal(alloc, 8, out),
        JsonError::BadJson => print_refusal(alloc, 9, out),
    }
}

/// Reads a recording for the suite: `BadJson` (9), `NotHex` (8).
fn recording_for<S: Suite>(alloc: Global, file: &[u8]) -> Result<RecordedRun, JsonError>
    ensures { Answers recording_view number_of (recording S.crypto.number file.now) result }
{
    recording(alloc, S::NUMBER, file)
}

/// Prints a recording again, of which this was read, and reports each action as done.
fn record_again<S: Suite, O: Output, P: Progress>(
    alloc: Global,
    file: &[u8],
    recorded: &RecordedRun,
    out: &mut O,
    progress: &mut P,
) -> Result<u8, Fault>
    ensures prints { PrintsRecord O.contents out.old out.new S.crypto file.now recorded.now result }
    ensures status { IfOk result (λ status. status ≤ 1) }
    ensures fault { O.failed out.new ≡ write_failed (O.failed out.old) result }
    ensures written { IfErr result (λ e. e ≢ Fault.Read) }
    ensures reports { ReportsRun P.reports recorded.now progress.old progress.new result }
    ensures cut { StopsBehindRun O.contents out.old out.new P.reports progress.old progress.new
        recorded.now result }
{
    match value_in(alloc, file) {
        Ok(value) => {
            print_record::<S, O, P>(alloc, value, recorded.actions.as_slice(), out, progress)
        }
        // Want of memory: the file is JSON, since it was read as a recording.
        Err(_) => Err(Fault::OutOfMemory),
    }
}

/// Prints such a view of a recording, of which this was read, reports each action as done, and answers the exit status.
fn print_run<S: Suite, O: Output, P: Progress>(
    alloc: Global,
    file: &[u8],
    recorded: &RecordedRun,
    view: ReplayView,
    out: &mut O,
    progress: &mut P,
) -> Result<u8, Fault>
    ensures prints { PrintsRun O.contents out.old out.new S.crypto view file.now
        recorded.now result }
    ensures status { IfOk result (λ status. status ≤ 1) }
    ensures fault { O.failed out.new ≡ write_failed (O.failed out.old) result }
    ensures written { IfErr result (λ e. e ≢ Fault.Read) }
    ensures reports { ReportsRun P.reports recorded.now progress.old progress.new result }
    ensures cut { StopsAsked O.contents out.old out.new P.reports progress.old progress.new
        S.crypto view recorded.now result }
{
    let actions = recorded.actions.as_slice();
    match view {
        ReplayView::Replies => play::<S, O, P>(alloc, recorded, out, progress),
        ReplayView::Unmet => play_quietly::<S, O, P>(alloc, recorded, out, progress),
        ReplayView::Message(number) => {
            print_message::<S, O, P>(alloc, actions, number, out, progress)
        }
        ReplayView::Tree(number) => print_tree::<S, O, P>(alloc, actions, number, out, progress),
        ReplayView::Recording => record_again::<S, O, P>(alloc, file, recorded, out, progress),
    }
}

/// Prints such a view of a recording for the suite, or the refusal of the file (`BadJson` (9), `NotHex` (8)), reports
/// each action as done, and answers the exit status. The whole file is read before the first action begins. A message
/// that isn't there is refused by `NoSuchMessage` (94), a member's tree by `NoSuchMember` (90) or `Gone` (40), or by
/// `TooLong` (6).
pub fn print_view<S: Suite, O: Output, P: Progress>(
    alloc: Global,
    file: &[u8],
    view: ReplayView,
    out: &mut O,
    progress: &mut P,
) -> Result<u8, Fault>
    // The output grows by the view's text, or on a fault by less than that.
    ensures prints { PrintsView O.contents out.old out.new S.crypto view file.now result }
    ensures status { IfOk result (λ status. status ≤ 1) }
    // A fault of the output comes exactly when a write fails.
    ensures fault { O.failed out.new ≡ write_failed (O.failed out.old) result }
    ensures written { IfErr result (λ e. e ≢ Fault.Read) }
    // Each action of the recording is reported once, in order; on a fault those that were done before.
    ensures reports { ReportsFile P.reports S.crypto file.now progress.old progress.new result }
    // At a fault the replies that are out are those of the reported actions and a part of the next one's,
    // and nothing else is out before all are reported.
    ensures cut { StopsFile O.contents out.old out.new P.reports progress.old progress.new
        S.crypto view file.now result }
{
    match recording_for::<S>(alloc, file) {
        Ok(recorded) => print_run::<S, O, P>(alloc, file, &recorded, view, out, progress),
        Err(error) => print_error(alloc, error, out),
    }
}

/// What is printed of a file is one text, and a recording again is of one JSON. The function does nothing.
pub fn laws_of_replays()
    ensures { OneView }
{
    laws_of_calls();
}
