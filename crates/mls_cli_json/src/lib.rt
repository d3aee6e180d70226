//! Strict looks into JSON files: a value that is of another kind than it should be is a fault of the file, and so is
//! a text that should be hex digits and isn't.
#![tactic(auto)]

mod error;
mod file;
mod hex_text;
mod lists;
mod lookup;

pub use error::JsonError;
pub use file::value_in;
pub use hex_text::{bytes_of_hex, hex_at, seed_at};
pub use lists::push_found;
pub use lookup::{
    bool_at, has_members, items_at, text_at, text_if_any, u16_at, u32_at, u32_of, u64_at,
};
