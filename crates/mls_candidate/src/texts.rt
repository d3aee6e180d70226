//! How long a message may be.

ghost use Rattle.std.specs.Prelude.{◌≡◌};
ghost use Rattle.mls_wire.specs.Checks.{require};
ghost use Rattle.mls_model.specs.Messages.{require_within_limit};

use mls_leaf::INPUT_LIMIT;

/// Whether what was made is no larger than a message may be.
pub(crate) fn within_limit(bytes: &[u8]) -> bool
    ensures { require_within_limit bytes.now ≡ require 6 result }
{
    bytes.len() <= INPUT_LIMIT
}
