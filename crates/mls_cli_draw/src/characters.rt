//! Characters that are put behind others.

ghost use Rattle.std.specs.Prelude.{◌≡◌, ◌++◌, OnOk};
ghost use Rattle.std.specs.Fmt.{decimal};

use std::alloc::{AllocError, Global};

/// Adds the characters of an ASCII text.
pub(crate) fn push_ascii(characters: &mut Vec<char>, text: &[u8]) -> Result<(), AllocError>
    ensures { OnOk result (characters.new.items ≡ characters.old.items ++ text.now) }
{
    for byte in text {
        characters.push(char::from(*byte))?;
    }
    Ok(())
}

/// Adds a number in decimal.
pub(crate) fn push_decimal(
    alloc: Global,
    characters: &mut Vec<char>,
    number: u64,
) -> Result<(), AllocError>
    ensures { OnOk result (characters.new.items ≡ characters.old.items ++ decimal number) }
{
    push_ascii(characters, number.to_string(alloc)?.as_bytes())
}
