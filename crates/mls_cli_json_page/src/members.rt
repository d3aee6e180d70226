//! Members of a JSON object: a page's lines, by their names.

ghost use Rattle.std.specs.Prelude.{◌≡◌, ◌^◌, ◌<◌, IfOk, map, option_map, string_bytes};
ghost use Rattle.mls_cli_text.specs.Text.{entry_of, shown_by};
ghost use Rattle.mls_cli_json_page.specs.JsonPage.{closing, is_name, member, member_at, members, name_at, name_before, opening, WritesAll};

use crate::values::put_value;
use json::Writer;
use mls_cli_text::{Field, Line};
use std::alloc::{AllocError, Global};

/// The name of a line, behind its prefix.
#[tactic(auto, unfolding(mls_cli_text::specs::Text::entry_of))]
fn name_of(alloc: Global, line: &Line) -> Result<String, AllocError>
    ensures { IfOk result (λ name. string_bytes name ≡ (entry_of line.now).name) }
{
    let mut name = String::from_str(alloc, line.prefix.word)?;
    if let Some(item) = line.prefix.item {
        name.push_str(item.to_string(alloc)?.as_str())?;
        name.push('.')?;
    }
    name.push_str(line.name)?;
    Ok(name)
}

/// The name of the line of this number, or None where there is none.
fn name_at(alloc: Global, lines: &[Line], number: usize) -> Result<Option<String>, AllocError>
    ensures { IfOk result (λ name. option_map string_bytes name
        ≡ name_at (map entry_of lines.now) number) }
{
    match lines.get(number) {
        Some(line) => Ok(Some(name_of(alloc, line)?)),
        None => Ok(None),
    }
}

/// The name of the line before the one of this number, or None where that is the first.
fn name_before(alloc: Global, lines: &[Line], number: usize) -> Result<Option<String>, AllocError>
    ensures { IfOk result (λ name. option_map string_bytes name
        ≡ name_before (map entry_of lines.now) number) }
{
    if number == 0 {
        return Ok(None);
    }
    name_at(alloc, lines, number - 1)
}

/// Whether a neighbour has this name.
fn is_name(name: &str, other: &Option<String>) -> bool
    ensures { result ≡ is_name name.now (option_map string_bytes other.now) }
{
    match other {
        Some(other) => name == other.as_str(),
        None => false,
    }
}

/// Whether the lines before and behind have a line's name.
#[derive(Clone, Copy, Debug, PartialEq, Eq)]
struct Neighbours {
    /// Whether the line before has it.
    before: bool,
    /// Whether the line behind has it.
    behind: bool,
}

/// Writes what stands before a value.
fn put_opening(writer: &mut Writer, name: &str, same: Neighbours) -> Result<(), AllocError>
    ensures { WritesAll result writer.old writer.new (opening same.before same.behind name.now) }
{
    if same.before {
        return Ok(());
    }
    writer.key(name)?;
    if same.behind {
        return writer.begin_array();
    }
    Ok(())
}

/// Writes what stands behind a value.
fn put_closing(writer: &mut Writer, same: Neighbours) -> Result<(), AllocError>
    ensures { WritesAll result writer.old writer.new (closing same.before same.behind) }
{
    if same.before && !same.behind {
        return writer.end_array();
    }
    Ok(())
}

/// Writes a member, or an item of one.
fn put_member(
    alloc: Global,
    writer: &mut Writer,
    name: &str,
    field: &Field,
    same: Neighbours,
) -> Result<(), AllocError>
    ensures { WritesAll result writer.old writer.new
        (member same.before same.behind name.now (shown_by field.now)) }
{
    put_opening(writer, name, same)?;
    put_value(alloc, writer, field)?;
    put_closing(writer, same)
}

/// Writes the line of this number, where there is one.
#[tactic(auto, unfolding(mls_cli_text::specs::Text::entry_of))]
fn put_member_at(
    alloc: Global,
    writer: &mut Writer,
    lines: &[Line],
    number: usize,
) -> Result<(), AllocError>
    requires { number < 2 ^ 63 }
    ensures { WritesAll result writer.old writer.new (member_at (map entry_of lines.now) number) }
{
    match lines.get(number) {
        Some(line) => {
            let name = name_of(alloc, line)?;
            let before = name_before(alloc, lines, number)?;
            let behind = name_at(alloc, lines, number + 1)?;
            let same = Neighbours {
                before: is_name(name.as_str(), &before),
                behind: is_name(name.as_str(), &behind),
            };
            put_member(alloc, writer, name.as_str(), &line.field, same)
        }
        None => Ok(()),
    }
}

/// Writes the members of lines.
pub(crate) fn put_members(
    alloc: Global,
    writer: &mut Writer,
    lines: &[Line],
) -> Result<(), AllocError>
    ensures { WritesAll result writer.old writer.new (members (map entry_of lines.now)) }
{
    for number in 0..lines.len() {
        put_member_at(alloc, writer, lines, number)?;
    }
    Ok(())
}
