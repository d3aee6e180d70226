//! One message of a world, printed in hex digits.

ghost use Rattle.std.specs.Prelude.{◌≡◌, ◌≢◌, ◌≤◌, false, length, IfOk, IfErr, None, option_copied};
ghost use Rattle.mls_cli_replay.specs.Actions.{DoesAll};
ghost use Rattle.mls_cli_replay.specs.Progress.{DoesPart, Reports};
ghost use Rattle.mls_cli_text.specs.InputOutput.{write_failed};
ghost use Rattle.mls_cli_replay.specs.DigitsLaws.{digits_nonempty};
ghost use Rattle.mls_cli_replay.specs.Faults.{StopsBehindAll};
ghost use Rattle.mls_cli_replay.specs.Message.{MakesDigits, PrintsFound, digits_text};
ghost use Rattle.mls_cli_replay.specs.Replay.{actions_of};

use crate::actions::play_actions;
use crate::progress::Progress;
use mls_cli_recording::Recorded;
use mls_cli_text::{Ending, Fault, Output, Page, Printed, print_made_page, refused_page};
use mls_suite::Suite;
use mls_world::World;
use std::alloc::{AllocError, Global};

/// A message, which is printed in lower-case hex digits.
#[derive(Clone, Copy, Debug)]
pub struct Digits<'a> {
    message: &'a [u8],
}

impl Printed for Digits<'_> {
    ghost text = { λ d. digits_text d.message.now };

    ghost nonempty = { digits_nonempty };

    fn text_bytes(&self, alloc: Global) -> Result<Vec<u8>, AllocError> {
        let mut text = hex::encode(alloc, self.message)?.into_bytes();
        text.push(b'\n')?;
        Ok(text)
    }
}

/// What takes each text and keeps none.
#[derive(Drop)]
struct Nowhere;

impl Output for Nowhere {
    ghost contents = { λ _. None };

    ghost failed = { λ _. false };

    fn put(&mut self, _bytes: &[u8]) -> Result<(), Fault> {
        Ok(())
    }
}

/// Does the actions, reports each as done, and prints nothing.
pub fn do_actions<S: Suite, P: Progress>(
    alloc: Global,
    world: &mut World<S>,
    recorded: &[Recorded],
    progress: &mut P,
) -> Result<(), Fault>
    ensures world { DoesAll S.crypto world.old world.new (actions_of recorded.now) result }
    // At a fault all actions before one are done and reported, and none behind it has begun.
    ensures cut { DoesPart P.reports progress.old progress.new S.crypto world.old world.new
        (actions_of recorded.now) result }
    ensures fault { IfErr result (λ e. e ≡ Fault.OutOfMemory) }
    ensures reports { Reports P.reports (length recorded.now) progress.old progress.new result }
{
    match play_actions(alloc, world, recorded, &mut Nowhere, progress) {
        Ok(_) => Ok(()),
        // Want of memory: `Nowhere` takes all that is put.
        Err(_) => Err(Fault::OutOfMemory),
    }
}

/// The page of a message, or of the refusal where there is none (`NoSuchMessage` (94)).
fn message_page(alloc: Global, found: Option<&[u8]>) -> Result<Page<Digits<'_>>, AllocError>
    ensures { MakesDigits (option_copied found.entry) result }
{
    match found {
        Some(message) => Ok(Page {
            lines: vec![in alloc; Digits { message }]?,
            ending: Ending::Good,
        }),
        None => Ok(refused_page(alloc, 94)),
    }
}

/// Does the actions in a new world, and prints the message of this number, or that there is none (`NoSuchMessage`
/// (94)). Each action is reported as done. It answers the exit status.
pub fn print_message<S: Suite, O: Output, P: Progress>(
    alloc: Global,
    recorded: &[Recorded],
    number: usize,
    out: &mut O,
    progress: &mut P,
) -> Result<u8, Fault>
    ensures prints { PrintsFound O.contents out.old out.new S.crypto number recorded.now result }
    ensures status { IfOk result (λ status. status ≤ 1) }
    ensures fault { O.failed out.new ≡ write_failed (O.failed out.old) result }
    ensures written { IfErr result (λ e. e ≢ Fault.Read) }
    ensures reports { Reports P.reports (length recorded.now) progress.old progress.new result }
    // Nothing is printed before all actions are reported.
    ensures cut { StopsBehindAll O.contents out.old out.new P.reports progress.old progress.new
        recorded.now result }
{
    let mut world = World::<S>::new(alloc);
    do_actions(alloc, &mut world, recorded, progress)?;
    print_made_page(alloc, message_page(alloc, world.message(number)), out)
}
