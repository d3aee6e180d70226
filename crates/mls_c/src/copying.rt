//! Bytes into a buffer of C's.

ghost use Rattle.std.specs.Prelude.{◌≡◌};
ghost use types.Logic.{sem};
ghost use Rattle.mls_c.specs.Memory.{held_at};
ghost use Rattle.mls_calls.specs.Calls.{Copies};
ghost use Rattle.mls_calls.specs.Shown.{shown};
ghost use Rattle.mls_calls.specs.declared.held.Held.{Held};

use crate::handle::Handle;
use crate::pointer::{let_go, nothing, swap_held};
use mls_calls::{CopyOutcome, copy_out};

/// Copies the bytes of a handle into a buffer of exactly their length.
pub(crate) unsafe fn copy_bytes(at: *mut Handle, buffer: &mut [u8]) -> u32
    ghost held: { Held }
    requires* memory { sem 𝓛 (held_at at held) }
    ensures value { Copies (shown held) buffer.old buffer.new result }
    ensures* memory { sem 𝓛 (held_at at held) }
{
    let held = swap_held(at, nothing());
    let CopyOutcome { held, answer } = copy_out(held, buffer);
    let_go(swap_held(at, held));
    answer
}
