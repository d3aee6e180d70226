//! The picture of a member's ratchet tree, as it is when all of a recording is done.

ghost use Rattle.std.specs.Prelude.{◌≡◌, ◌≢◌, ◌≤◌, IfOk, IfErr};
ghost use Rattle.mls_cli_text.specs.InputOutput.{write_failed};
ghost use Rattle.mls_cli_replay.specs.Progress.{ReportsFile};
ghost use Rattle.mls_cli_replay.specs.Replay.{PrintsOne};
ghost use Rattle.mls_cli_serve.specs.MemberPicture.{IsMemberPicture, IsPictureOf};

use mls_cli_check::{Drawing, TreeSource, draw_page};
use mls_cli_replay::{Progress, ReplayView, print_view};
use mls_cli_text::{Fault, Form, Output, print_made_page};
use mls_suite::Suite;
use std::alloc::Global;

/// Prints the picture of a tree that was printed in hex digits, with status 0; a refusal as it was.
fn print_picture<O: Output>(
    alloc: Global,
    drawing: Drawing,
    status: u8,
    printed: &[u8],
    out: &mut O,
) -> Result<u8, Fault>
    requires { status ≤ 1 }
    ensures prints { PrintsOne (IsPictureOf drawing status printed.now)
        (O.contents out.old) (O.contents out.new) result }
    ensures status { IfOk result (λ status. status ≤ 1) }
    ensures write { O.failed out.new ≡ write_failed (O.failed out.old) result }
    ensures written { IfErr result (λ e. e ≢ Fault.Read) }
{
    if status != 0 {
        out.put(printed)?;
        return Ok(status);
    }
    let page = draw_page(alloc, TreeSource::Tree, drawing, Form::Hex, printed);
    print_made_page(alloc, page, out)
}

/// Prints the picture of the ratchet tree that the member of this number has when all actions of a recording for the
/// suite are done, drawn as is asked for; or the refusal of the file (`BadJson` (9), `NotHex` (8)), or that there is no
/// such member (`NoSuchMember` (90)), that it was removed (`Gone` (40)), or that the tree is too long (`TooLong` (6)). It
/// reports each action as done, and answers the exit status.
pub fn print_member<S: Suite, O: Output, P: Progress>(
    alloc: Global,
    file: &[u8],
    member: usize,
    drawing: Drawing,
    out: &mut O,
    progress: &mut P,
) -> Result<u8, Fault>
    ensures prints { PrintsOne (IsMemberPicture S.crypto member drawing file.now)
        (O.contents out.old) (O.contents out.new) result }
    ensures status { IfOk result (λ status. status ≤ 1) }
    ensures write { O.failed out.new ≡ write_failed (O.failed out.old) result }
    ensures written { IfErr result (λ e. e ≢ Fault.Read) }
    ensures reports { ReportsFile P.reports S.crypto file.now progress.old progress.new result }
{
    let mut printed = Vec::new(alloc);
    let view = ReplayView::Tree(member);
    let status = print_view::<S, Vec<u8>, P>(alloc, file, view, &mut printed, progress)?;
    print_picture(alloc, drawing, status, printed.as_slice(), out)
}
