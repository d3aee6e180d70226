//! What the library refuses of what it is given, beside the refusals of its calls.

ghost use Rattle.std.specs.Prelude.{◌≡◌};
ghost use Rattle.mls_calls.specs.Faults.{name_of, number_of};

use thiserror::Error;

/// Why the library refuses what it is given.
#[derive(Clone, Copy, Debug, PartialEq, Eq, Error)]
pub enum MisuseError {
    /// The handle is null.
    #[error("a null handle")]
    NullHandle,
    /// The handle is of another kind.
    #[error("a handle of another kind")]
    OtherHandle,
    /// The pointer to bytes is null, and their length isn't 0.
    #[error("null bytes with a length")]
    NullBytes,
    /// The bytes that are to be a seed aren't 32.
    #[error("a seed of other than 32 bytes")]
    SeedLength,
    /// The message is of no KeyPackage.
    #[error("no message of a KeyPackage")]
    NotKeyPackage,
    /// The buffer isn't as long as the bytes, or no byte stands at the index.
    #[error("a buffer of another length")]
    BufferLength,
    /// The label is no text of at most 200 bytes.
    #[error("no label of at most 200 bytes")]
    NotLabel,
}

impl MisuseError {
    /// The number of the refusal.
    pub fn number(self) -> u32
        ensures { result ≡ number_of self }
    {
        match self {
            MisuseError::NullHandle => 130,
            MisuseError::OtherHandle => 131,
            MisuseError::NullBytes => 132,
            MisuseError::SeedLength => 133,
            MisuseError::NotKeyPackage => 134,
            MisuseError::BufferLength => 135,
            MisuseError::NotLabel => 136,
        }
    }

    /// The name of the refusal.
    pub fn name(self) -> &'static str
        ensures { result.now ≡ name_of self }
    {
        match self {
            MisuseError::NullHandle => "NullHandle",
            MisuseError::OtherHandle => "OtherHandle",
            MisuseError::NullBytes => "NullBytes",
            MisuseError::SeedLength => "SeedLength",
            MisuseError::NotKeyPackage => "NotKeyPackage",
            MisuseError::BufferLength => "BufferLength",
            MisuseError::NotLabel => "NotLabel",
        }
    }
}
