//! What stands before a node of a picture.

ghost use Rattle.std.specs.Prelude.{◌≡◌, ◌++◌, ℕ, true, OnOk};
ghost use Rattle.mls_tree_model.specs.Term.{Term};
ghost use Rattle.mls_cli_draw.specs.Picture.{beside, corner};
ghost use Rattle.mls_cli_draw.specs.Stems.{PushesStem, PushesStemBelow};

use std::alloc::AllocError;

/// On which side of its parent a subtree is drawn.
#[derive(Clone, Copy, Debug, PartialEq, Eq)]
pub(crate) enum Side {
    /// Over it: it is the left one.
    Over,
    /// Under it: it is the right one.
    Under,
}

/// The characters before the root of a subtree.
fn corner(side: Side) -> [char; 2]
    ensures { result ≡ corner side }
{
    match side {
        Side::Over => ['┌', '─'],
        Side::Under => ['└', '─'],
    }
}

/// The characters before a row on one side of a subtree's root: a bar between the root and its parent.
fn beside(side: Side, row: Side) -> [char; 2]
    ensures { result ≡ beside side row }
{
    if side == row { [' ', ' '] } else { ['│', ' '] }
}

/// Adds what stands before a node of a subtree with so many leaves.
fn push_stem_below(
    characters: &mut Vec<char>,
    side: Side,
    leaves: usize,
    node: usize,
) -> Result<(), AllocError>
    ensures { PushesStemBelow side leaves node characters.old.items characters.new.items result }
{
    if leaves <= 1 || node == leaves - 1 {
        return characters.extend_from_slice(corner(side).as_slice());
    }
    if node < leaves - 1 {
        characters.extend_from_slice(beside(side, Side::Over).as_slice())?;
        push_stem_below(characters, Side::Over, leaves / 2, node)
    } else {
        characters.extend_from_slice(beside(side, Side::Under).as_slice())?;
        push_stem_below(characters, Side::Under, leaves / 2, node - leaves)
    }
}

/// Adds what stands before a node of a tree with so many leaves.
pub(crate) fn push_stem(
    characters: &mut Vec<char>,
    leaves: usize,
    node: usize,
) -> Result<(), AllocError>
    ensures { PushesStem leaves node characters.old.items characters.new.items result }
{
    if leaves <= 1 || node == leaves - 1 {
        return Ok(());
    }
    if node < leaves - 1 {
        push_stem_below(characters, Side::Over, leaves / 2, node)
    } else {
        push_stem_below(characters, Side::Under, leaves / 2, node - leaves)
    }
}
