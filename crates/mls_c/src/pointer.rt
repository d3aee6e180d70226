//! What follows a pointer of C's.

ghost use Rattle.std.specs.Prelude.{◌≡◌, ℕ, List};
ghost use base.Fml.{Share};
ghost use denote.Builtin.{u64, RawPtr};
ghost use types.Logic.{sem};
ghost use Rattle.mls_calls.specs.Given.{IsGiven};
ghost use denote.RawPtr.{InBlock};
ghost use Rattle.mls_calls.specs.Faults.{number_of};
ghost use Rattle.mls_calls.specs.declared.error.MisuseError.TheVariants.{NullHandle};
ghost use Rattle.mls_c.specs.Memory.{free_answer, held_at, bytes_at, room_if, handle_put, number_put, IfNull};
ghost use Rattle.mls_calls.specs.Shown.{boxed};
ghost use Rattle.mls_calls.specs.declared.held.Held.{Held};
ghost use Rattle.mls_calls.specs.declared.held.Held.TheVariants.{Nothing};

use crate::handle::Handle;
use crate::loose::Loose;
use mls_calls::{Given, Held, MisuseError, given_of, none_given};
use std::alloc::Global;

/// What null holds.
pub(crate) fn nothing() -> Held
    ensures { result ≡ Nothing }
{
    Held::Nothing
}

/// Lets it go.
pub(crate) fn let_go(held: Held) {
    drop(held);
}

/// Lets what was made go.
pub(crate) fn let_made_go(made: Option<Box<Held>>) {
    drop(made);
}

/// The pointer of what was made, null where nothing was.
pub(crate) fn loose_of(alloc: Global, made: Option<Box<Held>>) -> Loose<Held, Global>
    ensures { result.value ≡ boxed made }
{
    match made {
        None => Loose::none(alloc),
        Some(value) => Loose::of(value),
    }
}

/// Frees what a handle holds.
pub(crate) fn free_loose(loose: Loose<Held, Global>) -> u32
    requires { InBlock loose.at }
    ensures { result ≡ 0 }
{
    drop(loose.into_box());
    0
}

/// What a call answers on null.
pub(crate) fn null_number() -> u32
    ensures { result ≡ number_of NullHandle }
{
    MisuseError::NullHandle.number()
}

/// Frees a handle, and answers 0, or `NullHandle` (130).
pub(crate) unsafe fn free_handle(alloc: Global, at: *mut Handle) -> u32
    ghost held: { Held }
    requires* memory { sem 𝓛 (held_at at held) }
    ensures { result ≡ free_answer at }
{
    if at.is_null() {
        return null_number();
    }
    free_loose(Loose {
        at: at as *mut Held,
        alloc,
    })
}

/// Puts a value into a handle, and answers the one that was there. Null holds nothing.
pub(crate) unsafe fn swap_held(at: *mut Handle, held: Held) -> Held
    ghost old: { Held }
    requires null { IfNull at (held ≡ Nothing) }
    requires* memory { sem 𝓛 (held_at at old) }
    ensures value { result ≡ old }
    ensures null { IfNull at (old ≡ Nothing) }
    ensures* memory { sem 𝓛 (held_at at held) }
{
    if at.is_null() {
        return held;
    }
    let place = at as *mut Held;
    let old = place.read();
    place.write(held);
    old
}

/// A copy of the bytes at a pointer.
pub(crate) unsafe fn copy_at(alloc: Global, at: *const u8, length: usize) -> Given
    ghost g: { Share × List ℕ }
    requires* memory { sem 𝓛 (bytes_at g.0 at length g.1) }
    ensures value { IsGiven at length g.1 result.bytes }
    ensures* memory { sem 𝓛 (bytes_at g.0 at length g.1) }
{
    if at.is_null() {
        return none_given(alloc, length);
    }
    given_of(alloc, std::slice::from_raw_parts(at, length))
}

/// Writes the handle of what was made, unless the place is null.
pub(crate) unsafe fn put_handle(alloc: Global, at: *mut *mut Handle, made: Option<Box<Held>>)
    requires* memory { sem 𝓛 (room_if RawPtr at) }
    ensures* memory { sem 𝓛 (handle_put at (boxed made)) }
{
    if at.is_null() {
        let_made_go(made);
        return;
    }
    let Loose {
        at: handle,
        alloc: _,
    } = loose_of(alloc, made);
    *at = handle as *mut Handle;
}

/// Writes a number, unless the place is null.
pub(crate) unsafe fn put_number(at: *mut u64, number: u64)
    requires* memory { sem 𝓛 (room_if u64 at) }
    ensures* memory { sem 𝓛 (number_put at number) }
{
    if at.is_null() {
        return;
    }
    *at = number;
}
