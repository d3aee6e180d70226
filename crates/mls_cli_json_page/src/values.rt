//! Values of lines, as JSON.

ghost use Rattle.std.specs.Prelude.{◌≡◌, ◌∷◌, [], IfOk, map, string_bytes};
ghost use Rattle.hex.specs.Hex.{encode_lower};
ghost use Rattle.json.specs.Token.{string};
ghost use Rattle.mls_cli_text.specs.Text.{four_digits, shown_by};
ghost use Rattle.mls_cli_text.specs.Text.{indexes as in_decimal, numbers as in_hex};
ghost use Rattle.mls_cli_json_page.specs.JsonPage.{extension_value, named_value, value, WritesAll};

use json::Writer;
use mls_cli_text::Field;
use mls_wire::refusal_name;
use std::alloc::{AllocError, Global};

/// Writes bytes as a string of lower-case hex digits.
fn put_hex(alloc: Global, writer: &mut Writer, bytes: &[u8]) -> Result<(), AllocError>
    ensures { WritesAll result writer.old writer.new (string (encode_lower bytes.now) ∷ []) }
{
    writer.string(hex::encode(alloc, bytes)?.as_str())
}

/// Four hex digits.
fn four_digits(alloc: Global, number: u16) -> Result<String, AllocError>
    ensures { IfOk result (λ text. string_bytes text ≡ four_digits number) }
{
    let pair = [(number / 256) as u8, (number % 256) as u8];
    hex::encode(alloc, pair.as_slice())
}

/// Writes a number as a string of four hex digits.
fn put_digits(alloc: Global, writer: &mut Writer, number: u16) -> Result<(), AllocError>
    ensures { WritesAll result writer.old writer.new (string (four_digits number) ∷ []) }
{
    writer.string(four_digits(alloc, number)?.as_str())
}

/// Writes an array of numbers as strings of four hex digits.
fn put_numbers(alloc: Global, writer: &mut Writer, numbers: &[u16]) -> Result<(), AllocError>
    ensures { WritesAll result writer.old writer.new (value (in_hex numbers.now)) }
{
    writer.begin_array()?;
    for number in numbers {
        put_digits(alloc, writer, *number)?;
    }
    writer.end_array()
}

/// Writes an array of numbers.
fn put_indexes(writer: &mut Writer, indexes: &[u32]) -> Result<(), AllocError>
    ensures { WritesAll result writer.old writer.new (value (in_decimal indexes.now)) }
{
    writer.begin_array()?;
    for index in indexes {
        writer.u64(u64::from(*index))?;
    }
    writer.end_array()
}

/// Writes an object of a number and its name.
pub(crate) fn put_named(writer: &mut Writer, number: u8, name: &str) -> Result<(), AllocError>
    ensures { WritesAll result writer.old writer.new (named_value number name.now) }
{
    writer.begin_object()?;
    writer.key("number")?;
    writer.u64(u64::from(number))?;
    writer.key("name")?;
    writer.string(name)?;
    writer.end_object()
}

/// Writes an object of an extension's type and its data.
fn put_extension(
    alloc: Global,
    writer: &mut Writer,
    kind: u16,
    content: &[u8],
) -> Result<(), AllocError>
    ensures { WritesAll result writer.old writer.new (extension_value kind content.now) }
{
    writer.begin_object()?;
    writer.key("type")?;
    put_digits(alloc, writer, kind)?;
    writer.key("data")?;
    put_hex(alloc, writer, content)?;
    writer.end_object()
}

/// Writes what stands behind a name.
pub(crate) fn put_value(alloc: Global, writer: &mut Writer, field: &Field) -> Result<(), AllocError>
    ensures { WritesAll result writer.old writer.new (value (shown_by field.now)) }
{
    match field {
        Field::Bytes(bytes) => put_hex(alloc, writer, bytes.as_slice()),
        Field::Numbers(numbers) => put_numbers(alloc, writer, numbers.as_slice()),
        Field::Digits(number) => put_digits(alloc, writer, *number),
        Field::Number(number) => writer.u64(*number),
        Field::Indexes(indexes) => put_indexes(writer, indexes.as_slice()),
        Field::Word(word) => writer.string(word),
        Field::Refusal(number) => put_named(writer, *number, refusal_name(*number)),
        Field::Named(number, name) => put_named(writer, *number, name),
        Field::Extension(kind, content) => put_extension(alloc, writer, *kind, content.as_slice()),
    }
}
