//! What each call of the library for C does, under suite 0x0001: on what a handle holds, a number and up to three texts.
#![tactic(auto)]

mod call;
mod candidates;
mod commits;
mod conversations;
mod copying;
mod dispatch;
mod done;
mod error;
mod given;
mod held;
mod identities;
mod make;
mod members;
mod names;
mod saved;
mod seen;
mod taken;

pub use call::Call;
pub use copying::{CopyOutcome, copy_out};
pub use dispatch::do_call;
pub use done::{Done, Fruit, Parts, parts_of};
pub use error::MisuseError;
pub use given::{Given, given_of, none_given};
pub use held::Held;
