//! The ratchet tree of a member, printed in hex digits.

ghost use Rattle.std.specs.Prelude.{◌≡◌, ◌≢◌, ◌≤◌, length, IfOk, IfErr, option_copied};
ghost use Rattle.mls_cli_text.specs.InputOutput.{write_failed};
ghost use Rattle.mls_cli_replay.specs.Faults.{StopsBehindAll};
ghost use Rattle.mls_cli_replay.specs.MemberTree.{IsTreeOf, IsTreeOn, MakesTree, PrintsTree};
ghost use Rattle.mls_cli_replay.specs.Message.{digits_text};
ghost use Rattle.mls_cli_replay.specs.Progress.{Reports};
ghost use Rattle.mls_cli_replay.specs.TreeLaws.{tree_nonempty};

use crate::message::do_actions;
use crate::progress::Progress;
use mls_cli_recording::Recorded;
use mls_cli_text::{Ending, Fault, Output, Page, Printed, print_made_page, refused_page};
use mls_suite::Suite;
use mls_world::{Member, World};
use std::alloc::{AllocError, Global};

/// The spelling of a tree, which is printed in lower-case hex digits.
#[derive(Debug, Drop)]
pub struct TreeDigits {
    bytes: Vec<u8>,
}

impl Printed for TreeDigits {
    ghost text = { λ d. digits_text d.bytes.items };

    ghost nonempty = { tree_nonempty };

    fn text_bytes(&self, alloc: Global) -> Result<Vec<u8>, AllocError> {
        let mut text = hex::encode(alloc, self.bytes.as_slice())?.into_bytes();
        text.push(b'\n')?;
        Ok(text)
    }
}

/// Makes the page of a member's tree: `Gone` (40) where it was removed, `TooLong` (6) where the tree has no spelling.
fn tree_page<S: Suite>(alloc: Global, member: &Member<S>) -> Result<Page<TreeDigits>, AllocError>
    ensures { MakesTree (IsTreeOf member.now) result }
{
    if member.is_gone() {
        return Ok(refused_page(alloc, 40));
    }
    match member.tree_bytes() {
        Ok(bytes) => Ok(Page {
            lines: vec![in alloc; TreeDigits { bytes }]?,
            ending: Ending::Good,
        }),
        Err(error) => match error.number() {
            // Want of memory: 1 is its number, and that of no other refusal.
            1 => Err(AllocError),
            number => Ok(refused_page(alloc, number)),
        },
    }
}

/// Makes the page of the tree of a member that was looked for: `NoSuchMember` (90) where there is none.
fn found_page<S: Suite>(
    alloc: Global,
    found: Option<&Member<S>>,
) -> Result<Page<TreeDigits>, AllocError>
    ensures { MakesTree (IsTreeOn (option_copied found.entry)) result }
{
    match found {
        Some(member) => tree_page(alloc, member),
        None => Ok(refused_page(alloc, 90)),
    }
}

/// Does the actions in a new world, and prints the ratchet tree of the member of this number, or that there is none
/// (`NoSuchMember` (90)), that it was removed (`Gone` (40)), or that the tree is too long (`TooLong` (6)). Each action
/// is reported as done. It answers the exit status.
pub fn print_tree<S: Suite, O: Output, P: Progress>(
    alloc: Global,
    recorded: &[Recorded],
    number: usize,
    out: &mut O,
    progress: &mut P,
) -> Result<u8, Fault>
    ensures prints { PrintsTree O.contents out.old out.new S.crypto number recorded.now result }
    ensures status { IfOk result (λ status. status ≤ 1) }
    ensures fault { O.failed out.new ≡ write_failed (O.failed out.old) result }
    ensures written { IfErr result (λ e. e ≢ Fault.Read) }
    ensures reports { Reports P.reports (length recorded.now) progress.old progress.new result }
    // Nothing is printed before all actions are reported.
    ensures cut { StopsBehindAll O.contents out.old out.new P.reports progress.old progress.new
        recorded.now result }
{
    let mut world = World::<S>::new(alloc);
    do_actions(alloc, &mut world, recorded, progress)?;
    print_made_page(alloc, found_page(alloc, world.member(number)), out)
}
