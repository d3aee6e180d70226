//! Cases in tables. A test is one call over its cases, so that its proof goes through no other.

use crate::tests::serve_file;
use std::alloc::{AllocError, Global};

/// A case: words, a FILE, the status, and what is printed: on the output, and behind it on the errors.
pub type Case<'a> = (&'a [&'a str], &'a str, u8, &'a str);

/// A case of words that all have: a FILE, the status, and what is printed.
pub type FileCase<'a> = (&'a str, u8, &'a str);

/// Whether words and a FILE leave this status, and print this.
pub fn is_met(
    alloc: Global,
    words: &[&str],
    file: &[u8],
    status: u8,
    text: &[u8],
) -> Result<bool, AllocError> {
    let (answer, out) = serve_file(alloc, words, file)?;
    Ok(answer == status && out.as_slice() == text)
}

/// How many cases, from the first on, are as told.
pub fn count_met(alloc: Global, cases: &[Case<'_>]) -> Result<usize, AllocError> {
    for i in 0..cases.len() {
        let (words, file, status, text) = cases[i];
        if !is_met(alloc, words, file.as_bytes(), status, text.as_bytes())? {
            return Ok(i);
        }
    }
    Ok(cases.len())
}

/// How many cases of these words, from the first on, are as told.
pub fn count_met_by(
    alloc: Global,
    words: &[&str],
    cases: &[FileCase<'_>],
) -> Result<usize, AllocError> {
    for i in 0..cases.len() {
        let (file, status, text) = cases[i];
        if !is_met(alloc, words, file.as_bytes(), status, text.as_bytes())? {
            return Ok(i);
        }
    }
    Ok(cases.len())
}
