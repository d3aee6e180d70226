//! The lines of messages of Messaging Layer Security (RFC 9420), and what `mls show` prints of a file.
#![tactic(auto)]

ghost use Rattle.std.specs.Prelude.{◌≡◌, None, IfOk, IsOk};
ghost use Rattle.mls_cli_text.specs.Form.{bytes_of_file};
ghost use Rattle.mls_cli_text.specs.Page.{page_of as seen, page_on};
ghost use Rattle.mls_cli_text.specs.Text.{entry_of};
ghost use Rattle.mls_cli_show.specs.Message.{text_of};
ghost use Rattle.mls_cli_show.specs.Show.{page_of};

use mls_cli_text::{Ending, FileError, Form, Line, Page, file_bytes, refused_page};
use mls_leaf::LeafError;
use mls_wire::WireError;
use std::alloc::{AllocError, Global};

mod commit;
mod extensions;
mod group;
mod message;
mod numbered;
mod package;
mod public;
mod reference;

pub use commit::count_field;
pub use group::{group_info_lines, welcome_lines};
pub use message::{message_lines, show_text};
pub use numbered::Detail;
pub use package::{key_package_lines, leaf_lines};
pub use public::{proposal_lines, public_message_lines};

/// What is printed of a message's bytes.
fn bytes_page(alloc: Global, detail: Detail, bytes: &[u8]) -> Result<Page<Line>, AllocError>
    ensures { IfOk result (λ page. seen entry_of page ≡ page_on (text_of detail bytes.now)) }
{
    match show_text(alloc, detail, bytes) {
        Ok(lines) => Ok(Page {
            lines,
            ending: Ending::Good,
        }),
        Err(LeafError::Wire(WireError::OutOfMemory)) => Err(AllocError),
        Err(error) => Ok(refused_page(alloc, error.number())),
    }
}

/// What is printed of a file's text: the lines of the MLSMessage that the file has, in brief or in full, or the refusal
/// of the file (`NotHex` (8)) or of its bytes (2 to 7, 11 to 14).
#[tactic(auto, unfolding(crate::specs::Show::page_of))]
pub fn show_page(
    alloc: Global,
    detail: Detail,
    form: Form,
    text: &[u8],
) -> Result<Page<Line>, AllocError>
    ensures page { IfOk result (λ page. seen entry_of page ≡ page_of detail form text.now) }
    // A text that isn't hex is refused also when an allocation fails.
    ensures not_hex { bytes_of_file form text.now ≡ None → IsOk result }
{
    match form {
        Form::Raw => bytes_page(alloc, detail, text),
        Form::Hex => match file_bytes(alloc, text) {
            Ok(bytes) => bytes_page(alloc, detail, bytes.as_slice()),
            Err(FileError::NotHex) => Ok(refused_page(alloc, 8)),
            Err(FileError::OutOfMemory) => Err(AllocError),
        },
    }
}
