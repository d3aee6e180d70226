//! How a place is printed.

ghost use Rattle.std.specs.Prelude.{◌≡◌, ◌++◌, OnOk};
ghost use Rattle.mls_cli_json_place.specs.Text.{json_place_text, number_line, wrong_text};
ghost use Rattle.mls_cli_json_place.specs.TextLaws.{json_place_nonempty};

use crate::place::{JsonPlace, Wrong};
use mls_cli_text::{Printed, push_number};
use std::alloc::{AllocError, Global};

/// Adds a line of a name and a number.
fn push_number_line(
    alloc: Global,
    text: &mut Vec<u8>,
    name: &str,
    number: usize,
) -> Result<(), AllocError>
    ensures { OnOk result (text.new.items ≡ text.old.items ++ number_line name.now number) }
{
    text.extend_from_slice(name.as_bytes())?;
    text.extend_from_slice(b": ")?;
    push_number(alloc, text, number as u64)?;
    text.push(b'\n')?;
    Ok(())
}

/// Adds the line of the key.
fn push_wrong(text: &mut Vec<u8>, wrong: Wrong) -> Result<(), AllocError>
    ensures { OnOk result (text.new.items ≡ text.old.items ++ wrong_text wrong) }
{
    match wrong {
        Wrong::At(key) => {
            text.extend_from_slice(b"key: ")?;
            text.extend_from_slice(key.name().as_bytes())?;
            text.push(b'\n')?;
            Ok(())
        }
        Wrong::Extra => text.extend_from_slice(b"keys: too many\n"),
    }
}

impl Printed for JsonPlace {
    ghost text = { json_place_text };

    ghost nonempty = { json_place_nonempty };

    fn text_bytes(&self, alloc: Global) -> Result<Vec<u8>, AllocError> {
        let mut text = Vec::new(alloc);
        match *self {
            JsonPlace::Text { line, column } => {
                push_number_line(alloc, &mut text, "line", line)?;
                push_number_line(alloc, &mut text, "column", column)?;
            }
            JsonPlace::NoArray => text.extend_from_slice(b"file: no array\n")?,
            JsonPlace::File(wrong) => push_wrong(&mut text, wrong)?,
            JsonPlace::Event { index, wrong } => {
                push_number_line(alloc, &mut text, "event", index)?;
                push_wrong(&mut text, wrong)?;
            }
            JsonPlace::Vector { index, wrong } => {
                push_number_line(alloc, &mut text, "vector", index)?;
                push_wrong(&mut text, wrong)?;
            }
        }
        Ok(text)
    }
}
