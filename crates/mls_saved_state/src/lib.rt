//! Saving what a member knows of an epoch, and loading it: the public state of its group, the epoch, its private keys.
#![tactic(auto)]

mod error;
mod keys;
mod laws;
mod load;
mod save;
mod secrets;
mod tree;

pub use error::LoadError;
pub use laws::laws_of_saved_states;
pub use load::{EpochState, load_state};
pub use save::{optional_saved_secret, save_state, saved_secret};
pub use secrets::{optional_secret_of, secret_of};
