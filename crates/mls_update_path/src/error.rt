//! What a path isn't made for.

ghost use Rattle.std.specs.Prelude.{◌≡◌};
ghost use Rattle.mls_wire.specs.Names.{refusal_name};
ghost use Rattle.mls_update_path.specs.Faults.{number_of};
ghost use Rattle.mls_update_path.specs.declared.error.PathError.TheVariants.{Tree as in_tree, Check as in_check, Keys as in_keys};
ghost use Rattle.mls_tree.specs.declared.error.TreeError.TheVariants.{OutOfMemory};

use mls_checks::CheckError;
use mls_tree::TreeError;
use mls_treekem::TreeKemError;
use mls_wire::refusal_name;
use std::alloc::{AllocError, AllocFailed};
use thiserror::Error;

/// Why a path isn't made.
#[derive(Clone, Copy, Debug, PartialEq, Eq, Error)]
pub enum PathError {
    /// The path isn't merged, or a growth was refused.
    #[error("{0}")]
    Tree(TreeError),
    /// The committer's new leaf fails its checks.
    #[error("{0}")]
    Check(CheckError),
    /// A secret isn't sealed.
    #[error("{0}")]
    Keys(TreeKemError),
}

impl From<TreeError> for PathError {
    ghost from_gives = { λ e r. r ≡ in_tree e };

    fn from(error: TreeError) -> PathError {
        PathError::Tree(error)
    }
}

impl From<CheckError> for PathError {
    ghost from_gives = { λ e r. r ≡ in_check e };

    fn from(error: CheckError) -> PathError {
        PathError::Check(error)
    }
}

impl From<TreeKemError> for PathError {
    ghost from_gives = { λ e r. r ≡ in_keys e };

    fn from(error: TreeKemError) -> PathError {
        PathError::Keys(error)
    }
}

impl From<AllocError> for PathError {
    ghost from_gives = { λ _ r. r ≡ in_tree OutOfMemory };

    fn from(_error: AllocError) -> PathError {
        PathError::Tree(TreeError::OutOfMemory)
    }
}

impl<T: Drop> From<AllocFailed<T>> for PathError {
    ghost from_gives = { λ _ r. r ≡ in_tree OutOfMemory };

    fn from(_error: AllocFailed<T>) -> PathError {
        PathError::Tree(TreeError::OutOfMemory)
    }
}

impl PathError {
    /// The number of the refusal.
    pub fn number(self) -> u8
        ensures { result ≡ number_of self }
    {
        match self {
            PathError::Tree(error) => error.number(),
            PathError::Check(error) => error.number(),
            PathError::Keys(error) => error.number(),
        }
    }

    /// The name of the refusal, as it is printed.
    pub fn name(self) -> &'static str
        ensures { result.now ≡ refusal_name (number_of self) }
    {
        refusal_name(self.number())
    }
}
