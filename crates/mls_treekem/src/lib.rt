//! The private keys of a tree's members: paths that are made, received and joined by (RFC 9420, 7.4 to 7.7 and
//! 12.4.3.1).
#![tactic(auto)]

mod climb;
mod error;
mod follow;
mod hold;
mod joiner;
mod keys;
mod make;
mod open;
mod places;
mod private_path;
mod seal;
mod secrets;
mod seeds;
mod take;

pub use error::TreeKemError;
pub use hold::HeldKeys;
pub use private_path::PrivatePath;
pub use seal::{seal_count_of, seal_path};
pub use secrets::PathSecrets;
pub use seeds::{init_seed, leaf_seed, path_seed, seal_seed, seal_seed_of, sign_seed};
