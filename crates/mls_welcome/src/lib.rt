//! Welcomes for those that a commit adds (RFC 9420, 12.4.3).
#![tactic(auto)]

mod entries;
mod error;
mod info;
mod joiners;
mod limits;
mod ranges;
mod welcome_message;

pub use error::WelcomeError;
pub use joiners::joiners_of;
pub use welcome_message::{Joiner, welcome};
