//! A caller of members: two members that share each epoch, by what the calls of candidates and members promise.
#![tactic(auto)]

mod pair;

pub use pair::{Pair, Seeds, admit, renew, share};
