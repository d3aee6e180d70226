//! Test vectors, read from JSON, judged and reported: what `mls vectors` prints of a file.
#![tactic(auto)]

mod reading;
mod report;
mod verdict;

ghost use Rattle.std.specs.Prelude.{◌≡◌, Ok, map, IfOk, IsOk};
ghost use Rattle.std.specs.Str.{IsUtf8};
ghost use Rattle.mls_cli_text.specs.Page.{page_of};
ghost use Rattle.mls_cli_vectors.specs.Vectors.{vector_view};
ghost use Rattle.mls_cli_vectors.specs.VectorsReport.{entry_of, page_on, vectors_page};

use mls_cli_json::JsonError;
use mls_cli_text::{Page, refused_page};
use reading::{Vector, vectors_in};
pub use report::ReportLine;
use report::report;
use std::alloc::{AllocError, Global};
use verdict::verdicts;

/// The report on vectors.
fn judge_vectors(alloc: Global, vectors: &[Vector]) -> Result<Page<ReportLine>, AllocError>
    ensures { IfOk result (λ p. page_of entry_of p ≡ page_on (Ok (map vector_view vectors.now))) }
{
    let verdicts = verdicts(alloc, vectors)?;
    report(alloc, verdicts.as_slice())
}

/// Makes what is printed of a vector file: the report on its vectors, or the refusal of the file (`BadJson` (9),
/// `NotHex` (8)).
#[tactic(auto, unfolding(crate::specs::VectorsReport::vectors_page))]
pub fn vectors_page(alloc: Global, text: &[u8]) -> Result<Page<ReportLine>, AllocError>
    ensures page { IfOk result (λ page. page_of entry_of page ≡ vectors_page text.now) }
    // A file that is no text is refused even when an allocation fails.
    ensures no_text { ¬ (IsUtf8 text.now) → IsOk result }
{
    match vectors_in(alloc, text) {
        Ok(vectors) => judge_vectors(alloc, vectors.as_slice()),
        Err(JsonError::OutOfMemory) => Err(AllocError),
        Err(error) => Ok(refused_page(alloc, error.number())),
    }
}
