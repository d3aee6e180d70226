//! Actions, done and printed one by one.

ghost use Rattle.std.specs.Prelude.{◌≡◌, ◌≢◌, length, IfOk, IfErr, OnOk};
ghost use Rattle.mls_cli_text.specs.InputOutput.{write_failed, Writes, WritesPart};
ghost use Rattle.mls_cli_replay.specs.Actions.{events_in, outcome_in, world_after, ComesEarly, DoesAll, RunsPart};
ghost use Rattle.mls_cli_replay.specs.Progress.{Reports};
ghost use Rattle.mls_cli_replay.specs.Replay.{Begins, BeginsAll, BeginsExpected, Ends, Says, SaysAll, SaysExpected, Stops, actions_of, all_meet, is_met, lent_text, meets, said_text};

use crate::deliveries::deliver_to_all;
use crate::line::ReplayLine;
use crate::progress::Progress;
use crate::reply::{Outcome, outcome_text};
use mls_cli_recording::{Action, Recorded};
use mls_cli_text::{Fault, Output, print};
use mls_suite::{OutOfMemory, Suite};
use mls_world::World;
use std::alloc::{AllocError, Global};

/// Whether the text of what an action came to is as expected.
pub fn is_met(alloc: Global, outcome: Outcome, expect: Option<&str>) -> Result<bool, AllocError>
    ensures { IfOk result (λ met. met ≡ is_met outcome (lent_text expect.entry)) }
{
    match expect {
        Some(text) => {
            let said = outcome_text(alloc, outcome)?;
            Ok(text.as_bytes() == said.as_bytes())
        }
        None => Ok(true),
    }
}

/// Prints what was expected.
fn print_expected<O: Output>(
    alloc: Global,
    action: usize,
    expect: Option<&str>,
    out: &mut O,
) -> Result<(), Fault>
    ensures whole { SaysExpected O.contents out.old out.new action expect.entry result }
    ensures part { BeginsExpected O.contents out.old out.new action expect.entry result }
    ensures fault { O.failed out.new ≡ write_failed (O.failed out.old) result }
    ensures written { IfErr result (λ e. e ≢ Fault.Read) }
{
    match expect {
        Some(text) => print(alloc, &ReplayLine::Expected { action, text }, out),
        None => Ok(()),
    }
}

/// Prints what an action came to, and what was expected instead; it answers whether its text is as expected.
fn print_outcome<O: Output>(
    alloc: Global,
    action: usize,
    outcome: Outcome,
    expect: Option<&str>,
    out: &mut O,
) -> Result<bool, Fault>
    ensures met { IfOk result (λ met. met ≡ is_met outcome (lent_text expect.entry)) }
    ensures whole { Writes O.contents out.old out.new
        (said_text action outcome expect.entry) result }
    ensures part { WritesPart O.contents out.old out.new
        (said_text action outcome expect.entry) result }
    ensures fault { O.failed out.new ≡ write_failed (O.failed out.old) result }
    ensures written { IfErr result (λ e. e ≢ Fault.Read) }
{
    let met = is_met(alloc, outcome, expect)?;
    print(alloc, &ReplayLine::Outcome { action, outcome }, out)?;
    if met {
        return Ok(true);
    }
    print_expected(alloc, action, expect, out)?;
    Ok(false)
}

/// Does an action. Where memory is wanting, some of its events have happened.
pub fn do_action<S: Suite>(
    alloc: Global,
    world: &mut World<S>,
    action: &Action,
) -> Result<Outcome, OutOfMemory>
    ensures world { OnOk result (world.new ≡ world_after S.crypto world.old action.now) }
    ensures outcome { IfOk result (λ o. o ≡ outcome_in S.crypto world.old action.now) }
    ensures part { RunsPart S.crypto world.old world.new (events_in world.old action.now) result }
    // What of an event is decided before anything grows is the reply also when an allocation fails.
    ensures early { ComesEarly S.crypto world.old world.new action.now result }
{
    match action {
        Action::Event(event) => {
            let reply = world.step(event)?;
            Ok(Outcome::Reply(reply))
        }
        Action::DeliverAll(source) => {
            let tally = deliver_to_all(alloc, world, source)?;
            Ok(Outcome::Tally(tally))
        }
    }
}

/// Does an action, and prints what is said of it.
fn play_action<S: Suite, O: Output>(
    alloc: Global,
    world: &mut World<S>,
    action: usize,
    recorded: &Recorded,
    out: &mut O,
) -> Result<bool, Fault>
    ensures world { OnOk result (world.new ≡ world_after S.crypto world.old recorded.now.action) }
    ensures met { IfOk result (λ met. met ≡ meets S.crypto world.old recorded.now) }
    ensures whole { Says O.contents out.old out.new S.crypto world.old action recorded.now result }
    ensures part { Begins O.contents out.old out.new S.crypto world.old action recorded.now result }
    // At a fault some of its events have happened and nothing is said, or all of them have.
    ensures stopped { Stops O.contents out.old out.new S.crypto world.old world.new
        recorded.now.action result }
    ensures fault { O.failed out.new ≡ write_failed (O.failed out.old) result }
    ensures written { IfErr result (λ e. e ≢ Fault.Read) }
{
    let outcome = do_action(alloc, world, &recorded.action)?;
    print_outcome(alloc, action, outcome, recorded.expect.as_deref(), out)
}

/// Does the actions, and prints what is said of each and reports it as done before the next one begins; it answers
/// whether all texts are as expected.
pub fn play_actions<S: Suite, O: Output, P: Progress>(
    alloc: Global,
    world: &mut World<S>,
    recorded: &[Recorded],
    out: &mut O,
    progress: &mut P,
) -> Result<bool, Fault>
    ensures world { DoesAll S.crypto world.old world.new (actions_of recorded.now) result }
    ensures met { IfOk result (λ met. met ≡ all_meet S.crypto world.old recorded.now) }
    ensures whole { SaysAll O.contents out.old out.new S.crypto world.old recorded.now result }
    ensures part { BeginsAll O.contents out.old out.new S.crypto world.old recorded.now result }
    // At a fault all actions before one are said and reported, a part of that one is said, and none
    // behind it has begun.
    ensures cut { Ends O.contents out.old out.new P.reports progress.old progress.new S.crypto
        world.old world.new recorded.now result }
    ensures reports { Reports P.reports (length recorded.now) progress.old progress.new result }
    ensures fault { O.failed out.new ≡ write_failed (O.failed out.old) result }
    ensures written { IfErr result (λ e. e ≢ Fault.Read) }
{
    let mut all_met = true;
    for (action, one) in recorded.iter().enumerate() {
        let met = play_action(alloc, world, action, one, out)?;
        progress.report(action + 1, recorded.len());
        all_met = all_met && met;
    }
    Ok(all_met)
}
