//! The library for C under suite 0x0001: an export for each call of an application. Each answers the number of a refusal,
//! 0 where it is good; after a refusal its handle is as before.
#![tactic(auto)]

mod candidate_calls;
mod conversation_calls;
mod copying;
mod handle;
mod loose;
mod member_calls;
mod pointer;
mod run;

ghost use Rattle.std.specs.Prelude.{◌≡◌};
ghost use types.Logic.{sem};
ghost use Rattle.mls_calls.specs.Calls.{Copies};
ghost use Rattle.mls_calls.specs.Shown.{shown};
ghost use Rattle.mls_c.specs.Memory.{Asked, asked_at, answered_at, free_answer, held_at};
ghost use Rattle.mls_c.specs.Passing.{names_at, places_at, tells_at};
ghost use Rattle.mls_calls.specs.declared.held.Held.{Held};
ghost use Rattle.mls_calls.specs.declared.call.Call.TheVariants.{BytesLength, BytesAt, MessagePlace, RefusalName};

use copying::copy_bytes;
pub use handle::Handle;
use pointer::free_handle;
use run::run_call;
use std::alloc::Global;

/// Frees a handle, and answers 0, or `NullHandle` (130).
#[unsafe(no_mangle)]
pub unsafe extern "C" fn mls_free(alloc: Global, handle: *mut Handle) -> u32
    ghost held: { Held }
    requires* memory { sem 𝓛 (held_at handle held) }
    ensures { result ≡ free_answer handle }
{
    free_handle(alloc, handle)
}

/// Copies bytes into a buffer of exactly their length: `BufferLength` (135) where it has another, and is as it was.
#[unsafe(no_mangle)]
pub unsafe extern "C" fn mls_bytes_copy(bytes: *mut Handle, buffer: &mut [u8]) -> u32
    ghost held: { Held }
    requires* memory { sem 𝓛 (held_at bytes held) }
    ensures value { Copies (shown held) buffer.old buffer.new result }
    ensures* memory { sem 𝓛 (held_at bytes held) }
{
    copy_bytes(bytes, buffer)
}

/// The length of bytes.
#[unsafe(no_mangle)]
pub unsafe extern "C" fn mls_bytes_length(
    alloc: Global,
    bytes: *mut Handle,
    length: *mut u64,
) -> u32
    ghost asked: { Asked }
    requires* memory { sem 𝓛 (asked_at (tells_at bytes length) asked) }
    ensures* memory { sem 𝓛 (answered_at BytesLength 0 (tells_at bytes length) asked result) }
{
    run_call!(alloc, BytesLength, handle = bytes, value = length)
}

/// The byte at an index of bytes, or `BufferLength` (135).
#[unsafe(no_mangle)]
pub unsafe extern "C" fn mls_bytes_at(
    alloc: Global,
    bytes: *mut Handle,
    index: u64,
    byte: *mut u64,
) -> u32
    ghost asked: { Asked }
    requires* memory { sem 𝓛 (asked_at (tells_at bytes byte) asked) }
    ensures* memory { sem 𝓛 (answered_at BytesAt index (tells_at bytes byte) asked result) }
{
    run_call!(alloc, BytesAt, number = index, handle = bytes, value = byte)
}

/// The name of a refusal, by its number; no bytes where no refusal has it.
#[unsafe(no_mangle)]
pub unsafe extern "C" fn mls_refusal_name(alloc: Global, number: u64, name: *mut *mut Handle) -> u32
    ghost asked: { Asked }
    requires* memory { sem 𝓛 (asked_at (names_at name) asked) }
    ensures* memory { sem 𝓛 (answered_at RefusalName number (names_at name) asked result) }
{
    run_call!(alloc, RefusalName, number = number, made = name)
}

/// The group's identifier and the epoch that a message says it is of, which nothing checked (RFC 9420, 6).
#[unsafe(no_mangle)]
pub unsafe extern "C" fn mls_message_place(
    alloc: Global,
    message: *const u8,
    message_length: usize,
    group_id: *mut *mut Handle,
    epoch: *mut u64,
) -> u32
    ghost asked: { Asked }
    requires* memory { sem 𝓛 (asked_at (places_at message message_length group_id epoch) asked) }
    ensures* memory { sem 𝓛 (answered_at MessagePlace 0
        (places_at message message_length group_id epoch) asked result) }
{
    run_call!(
        alloc,
        MessagePlace,
        first = (message, message_length),
        made = group_id,
        value = epoch
    )
}
