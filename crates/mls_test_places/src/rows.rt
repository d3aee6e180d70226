//! What is asked of a table of texts.
//!
//! A test hands its rows on in one call, and the helpers promise nothing: its proof would carry the clauses of each
//! call, and the drops at each `?` and assertion.

use mls_cli_text::Printed;
use std::alloc::{AllocError, Global};
use std::process::Abort;
use std::test::Fail;

/// A subject that answers a text with a text.
pub(crate) trait Subject {
    /// What it answers. Want of memory alone is passed on.
    fn answer(&self, alloc: Global, text: &str) -> Result<String, AllocError>;
}

/// The bytes of these digits.
pub(crate) fn bytes_of(alloc: Global, digits: &str) -> Result<Vec<u8>, AllocError> {
    match hex::decode(alloc, digits.as_bytes()) {
        Ok(bytes) => Ok(bytes),
        Err(_) => Err(AllocError),
    }
}

/// What is printed of a value.
pub(crate) fn text_of<P: Printed>(alloc: Global, value: &P) -> Result<String, AllocError> {
    match String::from_utf8(value.text_bytes(alloc)?) {
        Ok(text) => Ok(text),
        Err(_) => Err(AllocError),
    }
}

/// What is printed of a value, in one line with blanks.
pub(crate) fn line_of<P: Printed>(alloc: Global, value: &P) -> Result<String, AllocError> {
    let text = text_of(alloc, value)?;
    text.as_str().trim_end().replace(alloc, "\n", " ")
}

/// Asserts that this text is found of a row.
pub(crate) fn gives(
    rt: &impl Abort,
    found: Result<String, AllocError>,
    wanted: &str,
    row: &str,
) -> Result<(), Fail> {
    assert_eq!(rt; found?.as_str(), wanted, "for {row}");
    Ok(())
}

/// Asserts of each row that its first text is answered with its second.
pub(crate) fn answers<A: Subject>(
    rt: &impl Abort,
    alloc: Global,
    subject: &A,
    rows: &[(&str, &str)],
) -> Result<(), Fail> {
    for (text, wanted) in rows {
        gives(rt, subject.answer(alloc, text), wanted, text)?;
    }
    Ok(())
}
