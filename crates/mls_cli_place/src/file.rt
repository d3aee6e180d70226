//! Places of faults in files.

ghost use Rattle.std.specs.Prelude.{◌≡◌, IfOk};
ghost use Rattle.mls_cli_place.specs.File.{place_in, place_in_file};

use crate::message::{place_of_message, place_of_tree};
use crate::place::Place;
use mls_cli_text::{FileError, Form, file_bytes};
use std::alloc::{AllocError, Global};

/// What the bytes of a file are read as.
#[derive(Clone, Copy, Debug, PartialEq, Eq)]
pub enum Whole {
    /// An MLSMessage (RFC 9420, 6).
    Message,
    /// A ratchet tree (RFC 9420, 12.4.3.3).
    Tree,
}

/// Where the bytes have their first fault.
fn place_of(whole: Whole, bytes: &[u8]) -> Option<Place>
    ensures { result ≡ place_in whole bytes.now }
{
    match whole {
        Whole::Message => place_of_message(bytes),
        Whole::Tree => place_of_tree(bytes),
    }
}

/// Where the bytes of a file's text have their first fault of decoding. None where they have none, or where the text
/// is no hex text.
pub fn place_of_file(
    alloc: Global,
    whole: Whole,
    form: Form,
    text: &[u8],
) -> Result<Option<Place>, AllocError>
    ensures { IfOk result (λ place. place ≡ place_in_file whole form text.now) }
{
    match form {
        Form::Raw => Ok(place_of(whole, text)),
        Form::Hex => match file_bytes(alloc, text) {
            Ok(bytes) => Ok(place_of(whole, bytes.as_slice())),
            Err(FileError::NotHex) => Ok(None),
            Err(FileError::OutOfMemory) => Err(AllocError),
        },
    }
}
