//! Where a JSON file has the fault that it is refused with as `BadJson` (9): the line and the column where it is no JSON,
//! else the event or the vector, by its number, and the key.
//!
//! What a caller needs of a file that was refused so: [`place_of_recording`] with the number of the suite that is asked
//! for, or [`place_of_vectors`]. None where the file is refused with another number, or not at all. Both answers are
//! `Printed`, as lines `name: value`.
#![tactic(auto)]

mod events;
mod faults;
mod key;
mod kinds;
mod lists;
mod lookup;
mod place;
mod recording;
mod shapes;
mod text;
mod value;
mod vectors;

pub use key::Key;
pub use place::{JsonPlace, Wrong};
pub use recording::place_of_recording;
pub use vectors::place_of_vectors;
