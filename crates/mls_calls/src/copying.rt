//! Bytes into a buffer of C's.

ghost use Rattle.std.specs.Prelude.{◌≡◌};
ghost use Rattle.mls_calls.specs.Calls.{Copies, bytes_for};
ghost use Rattle.mls_calls.specs.Shown.{shown};

use crate::error::MisuseError;
use crate::held::Held;
use crate::taken::bytes_of;

/// What the handle holds after a copy, and what the call answers.
#[derive(Drop)]
pub struct CopyOutcome {
    /// What the handle holds.
    pub held: Held,
    /// What the call answers.
    pub answer: u32,
}

/// Copies bytes into a buffer of exactly their length.
#[tactic(auto, unfolding(crate::specs::Calls::bytes_for))]
fn fill_buffer(held: &Held, buffer: &mut [u8]) -> u32
    ensures { Copies (shown held.now) buffer.old buffer.new result }
{
    match bytes_of(held) {
        Ok(bytes) => {
            if bytes.len() != buffer.len() {
                return MisuseError::BufferLength.number();
            }
            buffer.copy_from_slice(bytes);
            0
        }
        Err(number) => number,
    }
}

/// Copies what is held into a buffer of just its length.
pub fn copy_out(held: Held, buffer: &mut [u8]) -> CopyOutcome
    ensures held { result.held ≡ held }
    ensures value { Copies (shown held) buffer.old buffer.new result.answer }
{
    let answer = fill_buffer(&held, buffer);
    CopyOutcome { held, answer }
}
