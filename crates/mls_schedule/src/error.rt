//! What the schedule refuses.

ghost use Rattle.std.specs.Prelude.{◌≡◌};

use mls_kdf::KdfError;
use mls_wire::refusal_name;
use thiserror::Error;

/// Why a secret is not exported.
#[derive(Clone, Copy, Debug, PartialEq, Eq, Error)]
pub enum ScheduleError {
    /// A key is not made.
    #[error("{0}")]
    Kdf(KdfError),
}

impl From<KdfError> for ScheduleError {
    ghost use Rattle.mls_schedule.specs.declared.error.ScheduleError.TheVariants.{Kdf};

    ghost from_gives = { λ e r. r ≡ Kdf e };

    fn from(error: KdfError) -> ScheduleError {
        ScheduleError::Kdf(error)
    }
}

impl ScheduleError {
    ghost use Rattle.mls_wire.specs.Names.{refusal_name};
    ghost use Rattle.mls_schedule.specs.Faults.{number_of};

    /// The number of the refusal.
    pub fn number(self) -> u8
        ensures { result ≡ number_of self }
    {
        match self {
            ScheduleError::Kdf(error) => error.number(),
        }
    }

    /// The name of the refusal.
    pub fn name(self) -> &'static str
        ensures { result.now ≡ refusal_name (number_of self) }
    {
        refusal_name(self.number())
    }
}
