//! A call from C.

ghost use Rattle.std.specs.Prelude.{◌≡◌};
ghost use types.Logic.{sem};
ghost use Rattle.mls_c.specs.Memory.{Asked, asked_at, answered_at};
ghost use Rattle.mls_c.specs.Passing.{runs_at};

use crate::handle::Handle;
use crate::pointer::{copy_at, let_go, nothing, put_handle, put_number, swap_held};
use mls_calls::{Call, Done, Parts, do_call, parts_of};
use std::alloc::Global;

/// Does a call with a number, with what a handle holds, and with the bytes at three pointers, and writes what it makes.
pub(crate) unsafe fn run(
    alloc: Global,
    call: Call,
    number: u64,
    handle: *mut Handle,
    first: *const u8,
    first_length: usize,
    second: *const u8,
    second_length: usize,
    third: *const u8,
    third_length: usize,
    made_out: *mut *mut Handle,
    other_out: *mut *mut Handle,
    value_out: *mut u64,
) -> u32
    ghost asked: { Asked }
    requires* memory { sem 𝓛 (asked_at
        (runs_at handle first first_length second second_length third third_length
        made_out other_out value_out) asked) }
    ensures* memory { sem 𝓛 (answered_at call number
        (runs_at handle first first_length second second_length third third_length
        made_out other_out value_out) asked result) }
{
    let first_given = copy_at(alloc, first, first_length);
    let second_given = copy_at(alloc, second, second_length);
    let third_given = copy_at(alloc, third, third_length);
    let held = swap_held(handle, nothing());
    let Done { held, outcome } = do_call(
        alloc,
        call,
        number,
        held,
        first_given,
        second_given,
        third_given,
    );
    let_go(swap_held(handle, held));
    let Parts {
        made,
        other,
        value,
        answer,
    } = parts_of(outcome);
    put_handle(alloc, made_out, made);
    put_handle(alloc, other_out, other);
    put_number(value_out, value);
    answer
}

/// A call with what C passed. A pointer that isn't named is null, and a number 0.
macro_rules! run_call {
    (@or $default:expr;) => { $default };
    (@or $default:expr; $named:expr) => { $named };
    (
        $alloc:ident, $call:ident
        $(, number = $number:ident)?
        $(, handle = $handle:ident)?
        $(, first = ($first:ident, $first_length:ident))?
        $(, second = ($second:ident, $second_length:ident))?
        $(, third = ($third:ident, $third_length:ident))?
        $(, made = $made:ident)?
        $(, other = $other:ident)?
        $(, value = $value:ident)?
    ) => {
        $crate::run::run(
            $alloc,
            mls_calls::Call::$call,
            run_call!(@or 0; $($number)?),
            run_call!(@or std::ptr::null_mut(); $($handle)?),
            run_call!(@or std::ptr::null(); $($first)?),
            run_call!(@or 0; $($first_length)?),
            run_call!(@or std::ptr::null(); $($second)?),
            run_call!(@or 0; $($second_length)?),
            run_call!(@or std::ptr::null(); $($third)?),
            run_call!(@or 0; $($third_length)?),
            run_call!(@or std::ptr::null_mut(); $($made)?),
            run_call!(@or std::ptr::null_mut(); $($other)?),
            run_call!(@or std::ptr::null_mut(); $($value)?),
        )
    };
}

pub(crate) use run_call;
