//! Shapes of an SVG picture: lines, boxes, circles, and the texts at them.

ghost use Rattle.std.specs.Prelude.{◌≡◌, ◌++◌, OnOk};
ghost use Rattle.std.specs.List.{flat_map};
ghost use Rattle.mls_cli_draw.specs.Svg.{box, circle, escaped, escaped_character, group, lines, marked, named, numbered, unmerged_marks};
ghost use Rattle.mls_cli_draw.specs.Picture.{identity_text};

use crate::characters::{push_ascii, push_decimal};
use crate::nodes::{push_identity, push_spaced};
use crate::point::{Fork, Point};
use crate::row::cut;
use std::alloc::{AllocError, Global};

/// Adds a text, and a number behind it.
pub(crate) fn push_numbered(
    alloc: Global,
    characters: &mut Vec<char>,
    text: &[u8],
    number: u64,
) -> Result<(), AllocError>
    ensures { OnOk result (characters.new.items
        ≡ characters.old.items ++ numbered text.now number) }
{
    push_ascii(characters, text)?;
    push_decimal(alloc, characters, number)
}

/// Adds a character, or its name in XML where it has one.
fn push_escaped_character(characters: &mut Vec<char>, character: char) -> Result<(), AllocError>
    ensures { OnOk result (characters.new.items
        ≡ characters.old.items ++ escaped_character character) }
{
    match character {
        '&' => push_ascii(characters, b"&amp;"),
        '<' => push_ascii(characters, b"&lt;"),
        '>' => push_ascii(characters, b"&gt;"),
        '"' => push_ascii(characters, b"&quot;"),
        other => {
            characters.push(other)?;
            Ok(())
        }
    }
}

/// Adds the characters of a text in XML.
fn push_escaped(characters: &mut Vec<char>, text: &[char]) -> Result<(), AllocError>
    ensures { OnOk result (characters.new.items ≡ characters.old.items ++ escaped text.now) }
{
    for character in text {
        push_escaped_character(characters, *character)?;
    }
    Ok(())
}

/// Begins a group of shapes of a class, around a point.
pub(crate) fn push_group(
    alloc: Global,
    characters: &mut Vec<char>,
    class: &[u8],
    point: Point,
) -> Result<(), AllocError>
    ensures { OnOk result (characters.new.items ≡ characters.old.items ++ group class.now point) }
{
    push_ascii(characters, b"<g class=\"")?;
    push_ascii(characters, class)?;
    push_numbered(alloc, characters, b"\" transform=\"translate(", point.x)?;
    push_numbered(alloc, characters, b" ", point.y)?;
    push_ascii(characters, b")\">")
}

/// Adds the lines from a parent to its children, which end at their upper edges.
#[tactic(auto, unfolding(crate::specs::Svg::lines))]
pub(crate) fn push_lines(
    alloc: Global,
    characters: &mut Vec<char>,
    fork: Fork,
) -> Result<(), AllocError>
    ensures { OnOk result (characters.new.items
        ≡ characters.old.items ++ lines fork.parent fork.left fork.right) }
{
    push_numbered(alloc, characters, b"<path d=\"M", fork.left.x)?;
    push_numbered(alloc, characters, b" ", fork.left.y.saturating_sub(19))?;
    push_numbered(alloc, characters, b"V", fork.parent.y)?;
    push_numbered(alloc, characters, b"H", fork.right.x)?;
    push_numbered(alloc, characters, b"V", fork.right.y.saturating_sub(19))?;
    push_ascii(characters, b"\"/>")
}

/// Adds a leaf's box, with its number as a node and its index under it.
pub(crate) fn push_box(
    alloc: Global,
    characters: &mut Vec<char>,
    index: u32,
) -> Result<(), AllocError>
    ensures { OnOk result (characters.new.items ≡ characters.old.items ++ box index) }
{
    let index = u64::from(index);
    push_numbered(
        alloc,
        characters,
        b"<rect x=\"-22\" y=\"-18\" width=\"44\" height=\"36\" rx=\"9\"/><text y=\"4\">",
        2 * index,
    )?;
    push_numbered(
        alloc,
        characters,
        b"</text><text class=\"index\" y=\"34\">leaf ",
        index,
    )?;
    push_ascii(characters, b"</text>")
}

/// Adds an identity: whole as a tooltip, and cut under the index of its leaf.
#[tactic(auto, unfolding(crate::specs::Svg::named))]
pub(crate) fn push_name(
    alloc: Global,
    characters: &mut Vec<char>,
    identity: &[u8],
) -> Result<(), AllocError>
    ensures { OnOk result (characters.new.items
        ≡ characters.old.items ++ named (identity_text identity.now)) }
{
    let mut name = Vec::new(alloc);
    push_identity(alloc, &mut name, identity)?;
    push_ascii(characters, b"<title>")?;
    push_escaped(characters, name.as_slice())?;
    push_ascii(
        characters,
        b"</title><text class=\"identity\" xml:space=\"preserve\" y=\"51\">",
    )?;
    push_escaped(characters, cut(name, 11)?.as_slice())?;
    push_ascii(characters, b"</text>")
}

/// Adds a parent's circle, with its number as a node.
pub(crate) fn push_circle(
    alloc: Global,
    characters: &mut Vec<char>,
    number: u64,
) -> Result<(), AllocError>
    ensures { OnOk result (characters.new.items ≡ characters.old.items ++ circle number) }
{
    push_numbered(
        alloc,
        characters,
        b"<circle r=\"18\"/><text y=\"4\">",
        number,
    )?;
    push_ascii(characters, b"</text>")
}

/// Adds numbers of unmerged leaves: all as a tooltip, and cut under the circle of their parent.
fn push_marks(characters: &mut Vec<char>, numbers: Vec<char>) -> Result<(), AllocError>
    ensures { OnOk result (characters.new.items ≡ characters.old.items ++ marked numbers.items) }
{
    push_ascii(characters, b"<title>unmerged")?;
    characters.extend_from_slice(numbers.as_slice())?;
    push_ascii(
        characters,
        b"</title><text class=\"unmerged\" y=\"33\">unmerged</text><text class=\"unmerged\" y=\"46\">",
    )?;
    characters.extend_from_slice(cut(numbers, 13)?.as_slice())?;
    push_ascii(characters, b"</text>")
}

/// Adds the marks of a parent's unmerged leaves, where it has some.
pub(crate) fn push_unmerged(
    alloc: Global,
    characters: &mut Vec<char>,
    leaves: &[u32],
) -> Result<(), AllocError>
    ensures { OnOk result (characters.new.items
        ≡ characters.old.items ++ unmerged_marks leaves.now) }
{
    if leaves.is_empty() {
        return Ok(());
    }
    let mut numbers = Vec::new(alloc);
    push_spaced(alloc, &mut numbers, leaves)?;
    push_marks(characters, numbers)
}
