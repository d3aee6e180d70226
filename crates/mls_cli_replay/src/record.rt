//! A recording, printed again with what it came to.

ghost use Rattle.std.specs.Prelude.{◌≡◌, ◌≢◌, ◌≤◌, length, map, string_bytes, IfOk, IfErr};
ghost use Rattle.mls_cli_text.specs.InputOutput.{write_failed};
ghost use Rattle.mls_cli_replay.specs.Actions.{outcomes, DoesAll};
ghost use Rattle.mls_cli_replay.specs.Faults.{StopsBehindAll};
ghost use Rattle.mls_cli_replay.specs.Progress.{DoesPart, Reports};
ghost use Rattle.mls_cli_replay.specs.RecordLaws.{file_text_nonempty};
ghost use Rattle.mls_cli_replay.specs.RecordedReplies.{MakesRecord, PrintsRecordOf, file_text, words_of_members};
ghost use Rattle.mls_cli_replay.specs.Replay.{actions_of};
ghost use Rattle.mls_cli_replay.specs.Reply.{outcome_text};

use crate::actions::do_action;
use crate::line::line_words;
use crate::members::member_line;
use crate::progress::Progress;
use crate::reply::outcome_text;
use mls_cli_record::record_replies;
use mls_cli_recording::Recorded;
use mls_cli_text::{Ending, Fault, Output, Page, Printed, print_made_page};
use mls_suite::Suite;
use mls_world::World;
use serde_json::Value;
use std::alloc::{AllocError, Global};

/// A file's text.
#[derive(Debug, Drop)]
pub struct FileText {
    text: Vec<u8>,
}

impl Printed for FileText {
    ghost text = { λ f. file_text f.text.items };

    ghost nonempty = { file_text_nonempty };

    fn text_bytes(&self, alloc: Global) -> Result<Vec<u8>, AllocError> {
        let mut text = Vec::new(alloc);
        text.extend_from_slice(self.text.as_slice())?;
        text.push(b'\n')?;
        Ok(text)
    }
}

/// Does the actions, reports each as done, and makes the text of each reply. It prints nothing.
fn collect_replies<S: Suite, P: Progress>(
    alloc: Global,
    world: &mut World<S>,
    recorded: &[Recorded],
    progress: &mut P,
) -> Result<Vec<String>, AllocError>
    ensures world { DoesAll S.crypto world.old world.new (actions_of recorded.now) result }
    ensures texts { IfOk result (λ v. map string_bytes v.items
        ≡ map outcome_text (outcomes S.crypto world.old (actions_of recorded.now))) }
    // At a fault all actions before one are done and reported, and none behind it has begun.
    ensures cut { DoesPart P.reports progress.old progress.new S.crypto world.old world.new
        (actions_of recorded.now) result }
    ensures reports { Reports P.reports (length recorded.now) progress.old progress.new result }
{
    let mut texts = Vec::new(alloc);
    for (action, one) in recorded.iter().enumerate() {
        let outcome = do_action(alloc, world, &one.action)?;
        texts.push(outcome_text(alloc, outcome)?)?;
        progress.report(action + 1, recorded.len());
    }
    Ok(texts)
}

/// Makes the line of each member, without its line feed.
fn member_texts<S: Suite>(alloc: Global, world: &World<S>) -> Result<Vec<String>, AllocError>
    ensures { IfOk result (λ v. map string_bytes v.items ≡ words_of_members world.now.seats) }
{
    let mut texts = Vec::new(alloc);
    for number in 0..world.member_count() {
        match world.member(number) {
            Some(member) => texts.push(line_words(alloc, &member_line(number, member))?)?,
            None => return Ok(texts),
        }
    }
    Ok(texts)
}

/// Makes the page of a recording that expects these texts.
fn record_page(
    alloc: Global,
    value: Value,
    replies: &[String],
    lines: &[String],
) -> Result<Page<FileText>, AllocError>
    ensures { MakesRecord replies.now lines.now value result }
{
    let text = record_replies(alloc, value, replies, lines)?;
    Ok(Page {
        lines: vec![in alloc; FileText { text }]?,
        ending: Ending::Good,
    })
}

/// Does the actions of a recording in a new world, and prints the recording again, with each reply and in version 2
/// each line of a member in the end as what is expected. Each action is reported as done. It answers the exit status.
pub fn print_record<S: Suite, O: Output, P: Progress>(
    alloc: Global,
    value: Value,
    recorded: &[Recorded],
    out: &mut O,
    progress: &mut P,
) -> Result<u8, Fault>
    ensures prints { PrintsRecordOf O.contents out.old out.new S.crypto value recorded.now result }
    ensures status { IfOk result (λ status. status ≤ 1) }
    ensures fault { O.failed out.new ≡ write_failed (O.failed out.old) result }
    ensures written { IfErr result (λ e. e ≢ Fault.Read) }
    ensures reports { Reports P.reports (length recorded.now) progress.old progress.new result }
    // Nothing is printed before all actions are reported.
    ensures cut { StopsBehindAll O.contents out.old out.new P.reports progress.old progress.new
        recorded.now result }
{
    let mut world = World::<S>::new(alloc);
    let replies = collect_replies(alloc, &mut world, recorded, progress)?;
    let lines = member_texts(alloc, &world)?;
    let page = record_page(alloc, value, replies.as_slice(), lines.as_slice());
    print_made_page(alloc, page, out)
}
