//! The actions whose texts aren't as expected, and the end of a replay.

ghost use Rattle.std.specs.Prelude.{◌≡◌, ◌≢◌, ◌≤◌, ◌++◌, length, map, IfOk, IfErr, OnOk};
ghost use Rattle.mls_cli_text.specs.InputOutput.{write_failed};
ghost use Rattle.mls_cli_replay.specs.Actions.{DoesAll};
ghost use Rattle.mls_cli_replay.specs.Faults.{StopsBehindRun};
ghost use Rattle.mls_cli_replay.specs.Progress.{DoesPart, Reports, ReportsRun};
ghost use Rattle.mls_cli_replay.specs.Quiet.{CollectsUnmet, PrintsQuiet, quiet_action};
ghost use Rattle.mls_cli_replay.specs.Replay.{actions_of, entry_of, lent_text};

use crate::actions::{do_action, is_met};
use crate::ends::print_end;
use crate::line::ReplayLine;
use crate::progress::Progress;
use crate::reply::Outcome;
use crate::status_of;
use mls_cli_recording::{Recorded, RecordedRun};
use mls_cli_text::{Fault, Output, print_lines};
use mls_suite::Suite;
use mls_world::World;
use std::alloc::{AllocError, Global};

/// Adds what an action came to, and what was expected instead, where its text isn't as expected.
fn push_unmet<'a>(
    alloc: Global,
    lines: &mut Vec<ReplayLine<'a>>,
    action: usize,
    outcome: Outcome,
    expect: Option<&'a str>,
) -> Result<(), AllocError>
    ensures { OnOk result (map entry_of lines.new.items ≡ map entry_of lines.old.items
        ++ quiet_action action outcome (lent_text expect.entry)) }
{
    if is_met(alloc, outcome, expect)? {
        return Ok(());
    }
    lines.push(ReplayLine::Outcome { action, outcome })?;
    match expect {
        Some(text) => {
            lines.push(ReplayLine::Expected { action, text })?;
            Ok(())
        }
        None => Ok(()),
    }
}

/// Does the actions, reports each as done, and makes the lines of those whose texts aren't as expected. It prints
/// nothing.
fn collect_unmet<'a, S: Suite, P: Progress>(
    alloc: Global,
    world: &mut World<S>,
    recorded: &'a [Recorded],
    progress: &mut P,
) -> Result<Vec<ReplayLine<'a>>, AllocError>
    ensures world { DoesAll S.crypto world.old world.new (actions_of recorded.now) result }
    ensures lines { CollectsUnmet S.crypto world.old recorded.now result }
    // At a fault all actions before one are done and reported, and none behind it has begun.
    ensures cut { DoesPart P.reports progress.old progress.new S.crypto world.old world.new
        (actions_of recorded.now) result }
    ensures reports { Reports P.reports (length recorded.now) progress.old progress.new result }
{
    let mut lines = Vec::new(alloc);
    for (action, one) in recorded.iter().enumerate() {
        let outcome = do_action(alloc, world, &one.action)?;
        push_unmet(alloc, &mut lines, action, outcome, one.expect.as_deref())?;
        progress.report(action + 1, recorded.len());
    }
    Ok(lines)
}

/// Does the actions in a new world, and then prints the lines of those whose texts aren't as expected, a line for each
/// member, and where these lines aren't those that are expected. Each action is reported as done. It answers the exit
/// status, as for a whole replay.
pub fn play_quietly<S: Suite, O: Output, P: Progress>(
    alloc: Global,
    recorded: &RecordedRun,
    out: &mut O,
    progress: &mut P,
) -> Result<u8, Fault>
    ensures prints { PrintsQuiet O.contents out.old out.new S.crypto recorded.now result }
    ensures status { IfOk result (λ status. status ≤ 1) }
    ensures fault { O.failed out.new ≡ write_failed (O.failed out.old) result }
    ensures written { IfErr result (λ e. e ≢ Fault.Read) }
    ensures reports { ReportsRun P.reports recorded.now progress.old progress.new result }
    // Nothing is printed before all actions are reported.
    ensures cut { StopsBehindRun O.contents out.old out.new P.reports progress.old progress.new
        recorded.now result }
{
    let mut world = World::<S>::new(alloc);
    let unmet = collect_unmet(alloc, &mut world, recorded.actions.as_slice(), progress)?;
    let lines = unmet.as_slice();
    print_lines(alloc, lines, out)?;
    let texts = recorded.final_lines.as_deref();
    let same = print_end(alloc, &world, texts, out)?;
    Ok(status_of(lines.is_empty(), same))
}
