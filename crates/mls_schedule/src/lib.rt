//! The key schedule and the transcript hashes of a group (RFC 9420, 8): epochs, what leads to them and
//! what is made of them. Nothing here takes memory.
#![tactic(auto)]

mod epoch;
mod error;
mod laws;
mod transcript;

pub use epoch::{Epoch, Start, WelcomeKey};
pub use error::ScheduleError;
pub use laws::{equal_or_twins, joiner_reaches_next, twins_share_tags};
pub use mls_kdf::{MAX_OUTPUT, Secret, Seed};
pub use transcript::Transcript;
