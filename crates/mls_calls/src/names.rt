//! The names of refusals.

ghost use Rattle.std.specs.Prelude.{◌≡◌, ◌≤◌};
ghost use Rattle.mls_wire.specs.Names.{name_in};
ghost use Rattle.mls_calls.specs.Calls.{Does, refusal_name_of};
ghost use Rattle.mls_calls.specs.Names.{library_name, names_from_100};
ghost use Rattle.mls_calls.specs.Shown.{shown};
ghost use Rattle.mls_calls.specs.declared.held.Held.TheVariants.{Nothing};

use crate::done::Done;
use crate::held::Held;
use crate::make::fill_copy;
use mls_wire::refusal_name;
use std::alloc::Global;

/// The name of a refusal of saved forms, of application messages or of the library, or nothing.
fn name_from_100(number: u64) -> &'static str
    ensures { result.now ≡ name_in names_from_100 number }
{
    match number {
        100 => "OtherSuite",
        101 => "BadSecret",
        102 => "NotAMember",
        103 => "BadTreeHash",
        104 => "OtherKey",
        110 => "RatchetSpent",
        111 => "OtherGroup",
        112 => "OtherEpoch",
        113 => "SenderDataUnreadable",
        114 => "SenderWithoutLeaf",
        115 => "GenerationTooFar",
        116 => "KeyUsed",
        117 => "ContentUnreadable",
        118 => "PaddingNotZero",
        119 => "BadMessageSignature",
        130 => "NullHandle",
        131 => "OtherHandle",
        132 => "NullBytes",
        133 => "SeedLength",
        134 => "NotKeyPackage",
        135 => "BufferLength",
        136 => "NotLabel",
        _ => "",
    }
}

/// The name of the refusal with that number. Where no refusal has it, nothing.
#[tactic(auto, unfolding(crate::specs::Names::library_name))]
fn library_name(number: u64) -> &'static str
    ensures { result.now ≡ library_name number }
{
    if number < 100 {
        refusal_name(number as u8)
    } else {
        name_from_100(number)
    }
}

/// The name of a refusal, in a handle.
pub(crate) fn refusal_name_of(alloc: Global, held: Held, number: u64) -> Done
    ensures does { Does (refusal_name_of (shown held) number) (shown held) result }
    ensures stays { held ≡ Nothing → result.held ≡ Nothing }
{
    let outcome = fill_copy(alloc, library_name(number).as_bytes());
    Done { held, outcome }
}
