//! Spellings that aren't larger than a message may be.

ghost use Rattle.std.specs.Prelude.{length};
ghost use Rattle.mls_model.specs.Messages.{require_within_limit};
ghost use Rattle.mls_welcome.specs.Faults.{GivesBytes, Measures, PassesOutright};
ghost use Rattle.mls_public_group.specs.MessageLimit.{FitsIfShort, limited_text};

use crate::error::WelcomeError;
use mls_leaf::{Codec, INPUT_LIMIT, LeafError};
use mls_public_group::know_bytes;
use mls_wire::WireError;
use std::alloc::Global;

/// Refuses a text with more bytes than a message may have (`TooLong` 6).
pub(crate) fn require_within_limit(bytes: &[u8]) -> Result<(), WelcomeError>
    ensures answer { PassesOutright (require_within_limit bytes.now) result }
    ensures length { Measures bytes.now result }
{
    know_bytes(bytes);
    if bytes.len() > INPUT_LIMIT {
        return Err(WelcomeError::Leaf(LeafError::Wire(WireError::TooLong)));
    }
    Ok(())
}

/// The spelling of a value whose numbers are in range: `TooLong` (6) where it is larger than a message may be.
pub(crate) fn spell_within_limit<T: Codec>(
    alloc: Global,
    value: &T,
) -> Result<Vec<u8>, WelcomeError>
    requires { FitsIfShort T.format value.now }
    ensures { GivesBytes (limited_text (T.format.spell value.now)) result }
{
    let bytes = value.encode(alloc)?;
    require_within_limit(&bytes)?;
    Ok(bytes)
}
