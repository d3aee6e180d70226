//! Pictures of the trees that files have.

ghost use Rattle.std.specs.Prelude.{◌≡◌, ◌≢◌, IfOk, IsOk, None};
ghost use Rattle.mls_wire.specs.Checks.{Answers};
ghost use Rattle.mls_tree.specs.Tree.{term};
ghost use Rattle.mls_cli_text.specs.Form.{bytes_of_file};
ghost use Rattle.mls_cli_text.specs.Page.{refused};
ghost use Rattle.mls_cli_draw.specs.Picture.{DrawsPage};
ghost use Rattle.mls_cli_check.specs.CheckFaults.{number_of, RefusesMessage};
ghost use Rattle.mls_cli_check.specs.Drawing.{draw_page, info_tree_in, picture_by, picture_from, picture_on, tree_from, RefusesUndecoded, ShowsUndecoded};

use crate::check_error::CheckError;
use crate::group_info::{group_info_in, sent_tree};
use crate::tree::tree_in;
use mls_cli_draw::{Row, picture, svg_picture};
use mls_cli_text::{FileError, Form, Page, file_bytes, refused_page};
use mls_tree::PublicTree;
use std::alloc::{AllocError, Global};

/// What a file has whose tree is drawn.
#[derive(Clone, Copy, Debug, PartialEq, Eq)]
pub enum TreeSource {
    /// A ratchet tree.
    Tree,
    /// A GroupInfo message with its ratchet tree.
    GroupInfo,
}

/// How a tree is drawn.
#[derive(Clone, Copy, Debug, PartialEq, Eq)]
pub enum Drawing {
    /// As text, each row cut to as many columns as are given.
    Text(Option<usize>),
    /// As an SVG file.
    Svg,
}

/// Reads the tree of the GroupInfo that the bytes spell: refused with the fault of decoding (2 to 7, 11 to 14),
/// `WrongMessageKind` (95), `NoTree` (76), `TreeShape` (20) and `TreeFull` (21).
#[tactic(auto, unfolding(crate::specs::Drawing::info_tree_in))]
fn info_tree_in(alloc: Global, bytes: &[u8]) -> Result<PublicTree, CheckError>
    ensures tree { Answers term number_of (info_tree_in bytes.now) result }
    // Bytes that spell no message are refused also when an allocation fails.
    ensures undecoded { RefusesMessage bytes.now result }
{
    match group_info_in(alloc, bytes) {
        Ok(info) => sent_tree(&info),
        Err(error) => Err(error),
    }
}

/// Reads the tree that the bytes have.
fn tree_from(alloc: Global, source: TreeSource, bytes: &[u8]) -> Result<PublicTree, CheckError>
    ensures tree { Answers term number_of (tree_from source bytes.now) result }
    ensures undecoded { RefusesUndecoded source bytes.now result }
{
    match source {
        TreeSource::Tree => tree_in(alloc, bytes),
        TreeSource::GroupInfo => info_tree_in(alloc, bytes),
    }
}

/// The page of a refusal; where it is want of memory, that.
fn refused_picture(alloc: Global, error: CheckError) -> Result<Page<Row>, AllocError>
    ensures memory { IfOk result (λ _. number_of error ≢ 1) }
    ensures page { DrawsPage result (refused (number_of error)) }
    ensures refused { number_of error ≢ 1 → IsOk result }
{
    if error.is_memory() {
        return Err(AllocError);
    }
    Ok(refused_page(alloc, error.number()))
}

/// The picture of a tree.
fn picture_by(alloc: Global, drawing: Drawing, tree: &PublicTree) -> Result<Page<Row>, AllocError>
    ensures { DrawsPage result (picture_by drawing (term tree.now)) }
{
    match drawing {
        Drawing::Text(columns) => picture(alloc, tree, columns),
        Drawing::Svg => svg_picture(alloc, tree),
    }
}

/// The picture of the tree that the bytes have, or its refusal.
fn picture_from(
    alloc: Global,
    source: TreeSource,
    drawing: Drawing,
    bytes: &[u8],
) -> Result<Page<Row>, AllocError>
    ensures page { DrawsPage result (picture_from source drawing bytes.now) }
    ensures undecoded { ShowsUndecoded source bytes.now result }
{
    match tree_from(alloc, source, bytes) {
        Ok(tree) => picture_by(alloc, drawing, &tree),
        Err(error) => refused_picture(alloc, error),
    }
}

/// What is printed of a file's text: the picture of the tree that the file has, drawn as is asked for, or the refusal of
/// the file (`NotHex` (8)) and, of a file of bytes, that of decoding (2 to 7, 11 to 14), both also when an allocation
/// fails, then `WrongMessageKind` (95) and `NoTree` (76) of a GroupInfo, `TreeShape` (20) and `TreeFull` (21).
pub fn draw_page(
    alloc: Global,
    source: TreeSource,
    drawing: Drawing,
    form: Form,
    text: &[u8],
) -> Result<Page<Row>, AllocError>
    ensures page { DrawsPage result (draw_page source drawing form text.now) }
    ensures not_hex { bytes_of_file form text.now ≡ None → IsOk result }
    // Of a file of bytes, those that don't decode are refused also when an allocation fails.
    ensures undecoded { form ≡ Form.Raw → ShowsUndecoded source text.now result }
{
    match form {
        Form::Raw => picture_from(alloc, source, drawing, text),
        Form::Hex => match file_bytes(alloc, text) {
            Ok(bytes) => picture_from(alloc, source, drawing, bytes.as_slice()),
            Err(FileError::NotHex) => Ok(refused_page(alloc, 8)),
            Err(FileError::OutOfMemory) => Err(AllocError),
        },
    }
}
