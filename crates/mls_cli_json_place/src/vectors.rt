//! Places in vector files.

ghost use Rattle.std.specs.Prelude.{◌≡◌, IfOk, option_map};
ghost use Rattle.serde_json.specs.Find.{as_array};
ghost use Rattle.serde_json.specs.View.{view, items_view};
ghost use Rattle.mls_cli_vectors.specs.VectorsFile.{claims_in};
ghost use Rattle.mls_cli_json_place.specs.Faults.{TellsBadJson, spots};
ghost use Rattle.mls_cli_json_place.specs.Lists.{first_wrong};
ghost use Rattle.mls_cli_json_place.specs.VectorsFile.{array_spot, vector_spot, vector_wrong, vectors_spot};

use crate::kinds::vector_wrong;
use crate::lists::{Entry, first_wrong};
use crate::place::{JsonPlace, Wrong};
use crate::value::value_or_stop;
use serde_json::Value;
use std::alloc::{AllocError, Global};

/// Vectors.
#[derive(Drop)]
struct Vectors;

impl Entry for Vectors {
    ghost wrong = { λ vectors. vector_wrong };

    fn wrong_in(&self, value: &Value) -> Option<Wrong> {
        vector_wrong(value)
    }
}

/// The first vector with which something is wrong.
fn vector_place(values: &[Value]) -> Option<JsonPlace>
    ensures { spots result
        ≡ option_map vector_spot (first_wrong vector_wrong 0 (items_view values.now)) }
{
    match first_wrong(&Vectors, values) {
        Some((index, wrong)) => Some(JsonPlace::Vector { index, wrong }),
        None => None,
    }
}

/// The first fault of the value that a vector file is.
fn array_place(value: &Value) -> Option<JsonPlace>
    ensures { spots result ≡ array_spot (as_array (view value.now)) }
{
    match value.as_array() {
        Some(values) => vector_place(values.as_slice()),
        None => Some(JsonPlace::NoArray),
    }
}

/// Where a vector file has the fault that it is refused with as `BadJson` (9): where it is no JSON, that it is no array,
/// or the first vector that can't be read, with the first of its keys whose value can't be. None where it isn't refused
/// so.
#[tactic(auto, using(crate::proofs::FileLaws::vectors_told))]
pub fn place_of_vectors(alloc: Global, text: &[u8]) -> Result<Option<JsonPlace>, AllocError>
    ensures place { IfOk result (λ place. spots place ≡ vectors_spot text.now) }
    // A place is answered exactly when the file is refused so.
    ensures refusal { IfOk result (λ place. TellsBadJson (claims_in text.now) place) }
{
    match value_or_stop(alloc, text)? {
        Ok(value) => Ok(array_place(&value)),
        Err(stop) => Ok(Some(JsonPlace::Text {
            line: stop.line,
            column: stop.column,
        })),
    }
}
