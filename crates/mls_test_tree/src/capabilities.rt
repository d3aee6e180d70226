//! The capabilities of the leaves of tests.

use mls_leaf::{Capabilities, Items, SpelledCapabilities};
use std::alloc::{AllocError, Global};

fn numbers(alloc: Global) -> Items<u16> {
    Items::from_vec(Vec::new(alloc))
}

/// No capabilities.
pub(crate) fn no_capabilities(alloc: Global) -> Result<SpelledCapabilities, AllocError> {
    let lists = Capabilities {
        versions: numbers(alloc),
        cipher_suites: numbers(alloc),
        extensions: numbers(alloc),
        proposals: numbers(alloc),
        credentials: numbers(alloc),
    };
    match SpelledCapabilities::of(alloc, &lists) {
        Ok(capabilities) => Ok(capabilities),
        Err(_) => Err(AllocError),
    }
}
