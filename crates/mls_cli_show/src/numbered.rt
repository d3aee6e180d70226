//! The lines of lists whose items are numbered.

ghost use Rattle.std.specs.Prelude.{◌≡◌, ℕ, List, IfOk};
ghost use Rattle.mls_cli_text.specs.Text.{Entry, entries_of};
ghost use Rattle.mls_cli_show.specs.Numbered.{in_full, numbered};

use mls_cli_text::{Line, append_lines};
use std::alloc::{AllocError, Global};

/// How much of a message is shown.
#[derive(Clone, Copy, Debug, PartialEq, Eq)]
pub enum Detail {
    /// Its own fields, and of lists how long they are.
    Brief,
    /// Besides each item of a commit, of its path, of a Welcome and of a ratchet tree, and the reference by which others
    /// name a KeyPackage or a proposal.
    Full,
}

/// What is an item of a list, and has lines of its own.
pub(crate) trait Listed {
    // Its lines, by its number.
    ghost lines: { ℕ → Self → List Entry };

    /// Its lines.
    fn item_lines(&self, alloc: Global, number: u64) -> Result<Vec<Line>, AllocError>
        ensures { IfOk result (λ v. entries_of v ≡ lines number self.now) };
}

/// The lines of each item in turn.
pub(crate) fn list_lines<T: Listed>(alloc: Global, items: &[T]) -> Result<Vec<Line>, AllocError>
    ensures { IfOk result (λ v. entries_of v ≡ numbered T.lines items.now) }
{
    let mut lines = Vec::new(alloc);
    for (number, item) in items.iter().enumerate() {
        lines = append_lines(lines, item.item_lines(alloc, number as u64)?)?;
    }
    Ok(lines)
}

/// The lines of each item in turn in the full text, and no line in the brief one.
pub(crate) fn list_lines_in_full<T: Listed>(
    alloc: Global,
    detail: Detail,
    items: &[T],
) -> Result<Vec<Line>, AllocError>
    ensures { IfOk result (λ v. entries_of v ≡ in_full detail (numbered T.lines items.now)) }
{
    match detail {
        Detail::Brief => Ok(Vec::new(alloc)),
        Detail::Full => list_lines(alloc, items),
    }
}
