//! The field of the numbers modulo 2^255 - 19: bytes, words, digits and elements.
//!
//! No branch and no index here depends on a value of the field or on a word; choices are made by
//! masks. The places of bits and the counts of squarings are the caller's, and public.
#![tactic(auto)]

mod digits;
mod element;
mod words;

pub use digits::select;
pub use element::{Element, Loose};
pub use words::Words;
