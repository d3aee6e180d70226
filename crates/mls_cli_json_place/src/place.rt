//! Places in JSON files.

use crate::key::Key;

/// What is wrong with an object of a format.
#[derive(Clone, Copy, Debug, PartialEq, Eq)]
pub enum Wrong {
    /// The value at this key: it is missing, of another kind, or out of range.
    At(Key),
    /// Each of the format's keys has a right value, and there are others.
    Extra,
}

/// Where a JSON file has the fault that it is refused with as `BadJson` (9).
#[derive(Clone, Copy, Debug, PartialEq, Eq)]
pub enum JsonPlace {
    /// The file is no text, or no JSON: the line and the byte of it, both from 1 on, where the reader of JSON says that
    /// it stopped. No contract says which they are.
    Text { line: usize, column: usize },
    /// A vector file is no array.
    NoArray,
    /// The file's own object.
    File(Wrong),
    /// An event of a recording, by its number from 0 on.
    Event { index: usize, wrong: Wrong },
    /// A vector, by its number from 0 on.
    Vector { index: usize, wrong: Wrong },
}
