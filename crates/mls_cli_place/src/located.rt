//! What is read past with the place of a fault.

ghost use Rattle.std.specs.Int.{w16};
ghost use Rattle.mls_wire.specs.Combine.{byte_string, uint16, uint32, uint64};
ghost use Rattle.mls_wire.specs.Reading.{empty_at, mark_at};
ghost use Rattle.mls_leaf.specs.Faults.{number_of};
ghost use Rattle.mls_leaf.specs.GroupExtensions.{group_extensions};
ghost use Rattle.mls_cli_place.specs.Finding.{Finds, finds_one};
ghost use Rattle.mls_cli_place.specs.Walk.{Walk, Walks, field, one, single};

use crate::place::Found;
use crate::step::Step;
use mls_leaf::{Bytes, Codec, GroupExtensions, LeafError, pass_empty, pass_mark};
use mls_wire::Reader;

/// What can be read past with the place of its first fault. After a fault it is left open how far the reader has come.
pub(crate) trait Located: Codec {
    // The fields in their order.
    ghost walk: { Walk };

    /// Reads past a value at the front. It takes no memory.
    fn locate(reader: &mut Reader<'_>) -> Result<(), Found>
        ensures { Walks walk reader.old result reader.new };

    // The fault that is found is the one that reading past answers.
    ghost finds: { Finds walk Self.Codec.format.pass };
}

/// Reads past a value at the front as one.
pub(crate) fn pass_one<T: Codec>(reader: &mut Reader<'_>) -> Result<(), Found>
    ensures { Walks (one T.format.pass) reader.old result reader.new }
{
    let left = reader.rest().len();
    match T::check(reader) {
        Ok(()) => Ok(()),
        Err(error) => Err(Found::at(left, error)),
    }
}

/// Reads past a field.
pub(crate) fn pass_field<T: Located>(reader: &mut Reader<'_>, step: Step) -> Result<(), Found>
    ensures { Walks (field step T.walk) reader.old result reader.new }
{
    match T::locate(reader) {
        Ok(()) => Ok(()),
        Err(found) => Err(found.inside(step)),
    }
}

/// Reads past a field that is this number, else the error is answered.
pub(crate) fn pass_mark_field(
    reader: &mut Reader<'_>,
    step: Step,
    mark: u16,
    error: LeafError,
) -> Result<(), Found>
    ensures { Walks (single step (mark_at w16 mark (number_of error)))
        reader.old result reader.new }
{
    let left = reader.rest().len();
    match pass_mark(reader, mark, error) {
        Ok(()) => Ok(()),
        Err(error) => Err(Found::at(left, error).inside(step)),
    }
}

/// Reads past a list of extensions that is empty, else `ExtensionNotAllowed` (14) is answered.
pub(crate) fn pass_no_extensions(reader: &mut Reader<'_>, step: Step) -> Result<(), Found>
    ensures { Walks (single step (empty_at 14)) reader.old result reader.new }
{
    let left = reader.rest().len();
    match pass_empty(reader, LeafError::ExtensionNotAllowed) {
        Ok(()) => Ok(()),
        Err(error) => Err(Found::at(left, error).inside(step)),
    }
}

impl Located for Bytes {
    ghost walk = { one byte_string.pass };

    ghost finds = { finds_one byte_string };

    fn locate(reader: &mut Reader<'_>) -> Result<(), Found> {
        pass_one::<Bytes>(reader)
    }
}

impl Located for u16 {
    ghost walk = { one uint16.pass };

    ghost finds = { finds_one uint16 };

    fn locate(reader: &mut Reader<'_>) -> Result<(), Found> {
        pass_one::<u16>(reader)
    }
}

impl Located for u32 {
    ghost walk = { one uint32.pass };

    ghost finds = { finds_one uint32 };

    fn locate(reader: &mut Reader<'_>) -> Result<(), Found> {
        pass_one::<u32>(reader)
    }
}

impl Located for u64 {
    ghost walk = { one uint64.pass };

    ghost finds = { finds_one uint64 };

    fn locate(reader: &mut Reader<'_>) -> Result<(), Found> {
        pass_one::<u64>(reader)
    }
}

impl Located for GroupExtensions {
    ghost walk = { one group_extensions.pass };

    ghost finds = { finds_one group_extensions };

    fn locate(reader: &mut Reader<'_>) -> Result<(), Found> {
        pass_one::<GroupExtensions>(reader)
    }
}
