//! Checks of a ratchet tree as it is sent (RFC 9420, 12.4.3.3), and the engine of `mls check`, which prints them.
#![tactic(auto)]

mod check_error;
mod drawing;
mod group_info;
mod report;
mod tree;
mod unchecked;

ghost use Rattle.std.specs.Prelude.{◌≡◌, ℕ, ◌≤◌, is_some, length, Err, None, IfOk, IsOk};
ghost use Rattle.mls_wire.specs.Checks.{Answers};
ghost use Rattle.mls_wire.specs.Whole.{whole};
ghost use Rattle.mls_leaf.specs.Limits.{input_limit};
ghost use Rattle.mls_types.specs.Message.{mls_message};
ghost use Rattle.mls_cli_text.specs.Form.{bytes_of_file};
ghost use Rattle.mls_cli_text.specs.Page.{MakesPage};
ghost use Rattle.mls_cli_check.specs.Check.{check_page, check_page_on, group_in, texts_in};
ghost use Rattle.mls_cli_check.specs.GroupInfo.{group_info_page};
ghost use Rattle.mls_cli_check.specs.CheckFaults.{number_of, ChecksOutright};

pub use check_error::CheckError;
pub use drawing::{Drawing, TreeSource, draw_page};
pub use group_info::group_info_text;
use hex::FromHexError;
use mls_cli_text::{FileError, Form, Line, Page, file_bytes, is_hex, is_hex_file, refused_page};
use mls_leaf::{INPUT_LIMIT, LeafError};
use mls_suite::Suite;
use mls_wire::WireError;
pub use report::check_text;
use std::alloc::{AllocError, Global};
pub use tree::{tree_in, tree_lines};
pub use unchecked::Unchecked;

/// The bytes of a group's id.
#[tactic(auto, unfolding(crate::specs::Check::group_in))]
fn group_bytes(alloc: Global, text: &str) -> Result<Vec<u8>, CheckError>
    ensures id { Answers (λ bytes. bytes.items) number_of (group_in text.now) result }
    ensures limit { IfOk result (λ bytes. length bytes.items ≤ input_limit) }
{
    match hex::decode(alloc, text) {
        Ok(bytes) => {
            if bytes.len() > INPUT_LIMIT {
                return Err(CheckError::Decoding(LeafError::Wire(WireError::TooLong)));
            }
            Ok(bytes)
        }
        Err(FromHexError::OutOfMemory) => Err(CheckError::OutOfMemory),
        Err(_) => Err(CheckError::NotHex),
    }
}

/// What is printed of a tree's bytes for a group's id in hex.
fn bytes_page<S: Suite>(alloc: Global, bytes: &[u8], group: &str) -> Result<Page<Line>, AllocError>
    ensures { MakesPage result (check_page_on S.crypto bytes.now (group_in group.now)) }
{
    match group_bytes(alloc, group) {
        Ok(group_id) => check_text::<S>(alloc, bytes, group_id.as_slice()),
        Err(error) => {
            if error.is_memory() {
                return Err(AllocError);
            }
            Ok(refused_page(alloc, error.number()))
        }
    }
}

/// Requires that a group's text is a group's id: `NotHex` (8), `TooLong` (6). It takes no memory.
fn require_group(text: &str) -> Result<(), CheckError>
    ensures { ChecksOutright (group_in text.now) result }
{
    if !is_hex(text.as_bytes()) {
        return Err(CheckError::NotHex);
    }
    if text.len() / 2 > INPUT_LIMIT {
        return Err(CheckError::Decoding(LeafError::Wire(WireError::TooLong)));
    }
    Ok(())
}

/// Whether a file has bytes.
fn has_bytes(form: Form, text: &[u8]) -> bool
    ensures { result ≡ is_some (bytes_of_file form text.now) }
{
    match form {
        Form::Hex => is_hex_file(text),
        Form::Raw => true,
    }
}

/// Requires that a file's text and a group's have bytes: `NotHex` (8) of the file's, then `NotHex` (8) and `TooLong`
/// (6) of the group's. It takes no memory.
fn require_texts(form: Form, text: &[u8], group: &str) -> Result<(), CheckError>
    ensures { ChecksOutright (texts_in form text.now group.now) result }
{
    if !has_bytes(form, text) {
        return Err(CheckError::NotHex);
    }
    require_group(group)
}

/// What is printed of a file's text for a group's id in hex.
#[tactic(auto, unfolding(crate::specs::Check::check_page))]
fn texts_page<S: Suite>(
    alloc: Global,
    form: Form,
    text: &[u8],
    group: &str,
) -> Result<Page<Line>, AllocError>
    ensures { MakesPage result (check_page S.crypto form text.now group.now) }
{
    match form {
        Form::Raw => bytes_page::<S>(alloc, text, group),
        Form::Hex => match file_bytes(alloc, text) {
            Ok(bytes) => bytes_page::<S>(alloc, bytes.as_slice(), group),
            Err(FileError::NotHex) => Ok(refused_page(alloc, 8)),
            Err(FileError::OutOfMemory) => Err(AllocError),
        },
    }
}

/// What is printed of a file's text: the lines of the tree that the file has, for the group with this id in hex, or the
/// refusal of the file or of the id (`NotHex` (8), `TooLong` (6)), even when an allocation fails.
pub fn check_page<S: Suite>(
    alloc: Global,
    form: Form,
    text: &[u8],
    group: &str,
) -> Result<Page<Line>, AllocError>
    ensures page { MakesPage result (check_page S.crypto form text.now group.now) }
    // What is no file of hex digits, or no group's id, is refused even when an allocation fails.
    ensures texts { (n : ℕ) → texts_in form text.now group.now ≡ Err n → IsOk result }
{
    if let Err(error) = require_texts(form, text, group) {
        return Ok(refused_page(alloc, error.number()));
    }
    texts_page::<S>(alloc, form, text, group)
}

/// What is printed of a file's text: the lines of the GroupInfo that the file has, under the one of two suites that it
/// names, or the refusal of the file (`NotHex` (8)) and, of a file of bytes, that of decoding (2 to 7, 11 to 14), both
/// also when an allocation fails. Among the suites of equal numbers the first is taken.
#[tactic(auto, unfolding(crate::specs::GroupInfo::group_info_page))]
pub fn group_info_page<S: Suite, T: Suite>(
    alloc: Global,
    form: Form,
    text: &[u8],
) -> Result<Page<Line>, AllocError>
    ensures page { MakesPage result (group_info_page S.crypto T.crypto form text.now) }
    ensures not_hex { bytes_of_file form text.now ≡ None → IsOk result }
    // Of a file of bytes, those that spell no message are refused also when an allocation fails.
    ensures undecoded { (n : ℕ) → whole mls_message input_limit text.now ≡ Err n
        → form ≡ Form.Raw → IsOk result }
{
    match form {
        Form::Raw => group_info_text::<S, T>(alloc, text),
        Form::Hex => match file_bytes(alloc, text) {
            Ok(bytes) => group_info_text::<S, T>(alloc, bytes.as_slice()),
            Err(FileError::NotHex) => Ok(refused_page(alloc, 8)),
            Err(FileError::OutOfMemory) => Err(AllocError),
        },
    }
}
