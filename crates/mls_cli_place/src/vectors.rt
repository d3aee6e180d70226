//! Vectors of items, and what may be absent, read past with the place of a fault.

ghost use Rattle.std.specs.Prelude.{◌<◌, ◌^◌, length};
ghost use Rattle.mls_wire.specs.Format.{IsBytes};
ghost use Rattle.mls_cli_place.specs.Finding.{finds_optional, finds_vector};
ghost use Rattle.mls_cli_place.specs.Tree.{optional_of};
ghost use Rattle.mls_cli_place.specs.Walk.{OpensContent, WalksAll, all_items, vector_of};

use crate::located::Located;
use crate::place::Found;
use crate::step::Step;
use mls_leaf::{Items, LeafError};
use mls_wire::Reader;

/// The content of a vector at the front, and how many bytes are behind it.
pub(crate) fn content_of<'a>(reader: &mut Reader<'a>) -> Result<(Reader<'a>, usize), Found>
    ensures content { OpensContent reader.old result reader.new }
    ensures bytes { IsBytes reader.old }
    ensures size { length reader.old < 2 ^ 64 }
{
    let left = reader.rest().len();
    let _ = reader.is_empty();
    match reader.vector() {
        Ok(content) => Ok((content, reader.rest().len())),
        Err(error) => Err(Found::at(left, LeafError::Wire(error))),
    }
}

/// Reads past items to the end of the content.
fn locate_items<T: Located>(mut content: Reader<'_>) -> Result<(), Found>
    ensures { WalksAll (all_items T.walk content.entry) result }
{
    let _size = content.rest().len();
    let mut index = 0usize;
    while !content.is_empty() {
        if let Err(found) = T::locate(&mut content) {
            return Err(found.inside(Step::Item(index)));
        }
        index += 1;
    }
    Ok(())
}

impl<T: Located> Located for Items<T> {
    ghost walk = { vector_of T.walk };

    ghost finds = { finds_vector T.format T.nonempty T.finds };

    fn locate(reader: &mut Reader<'_>) -> Result<(), Found> {
        let (content, behind) = content_of(reader)?;
        match locate_items::<T>(content) {
            Ok(()) => Ok(()),
            Err(found) => Err(found.before(behind)),
        }
    }
}

impl<T: Located> Located for Option<T> {
    ghost walk = { optional_of T.walk };

    ghost finds = { finds_optional T.format T.finds };

    fn locate(reader: &mut Reader<'_>) -> Result<(), Found> {
        let left = reader.rest().len();
        match reader.u8() {
            Ok(0) => Ok(()),
            Ok(1) => T::locate(reader),
            Ok(_) => Err(Found::at(left, LeafError::BadTag)),
            Err(error) => Err(Found::at(left, LeafError::Wire(error))),
        }
    }
}
