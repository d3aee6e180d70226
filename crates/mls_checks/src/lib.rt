//! Checks of one leaf or one key package (RFC 9420, 7.2, 7.3 and 10.1), each with the number of the first that fails.
#![tactic(auto)]

mod checks;
mod error;
mod laws;
mod leaf;

pub use checks::{LeafUse, check_replacement, key_package};
pub use error::CheckError;
pub use laws::laws_of_leaves;
pub use leaf::{leaf_capable, leaf_signed};
