//! How the nodes of an SVG picture look, by their classes.

ghost use Rattle.std.specs.Prelude.{◌≡◌, ◌++◌, ◌∷◌, [], OnOk, map};
ghost use Rattle.mls_cli_draw.specs.Picture.{characters_of};
ghost use Rattle.mls_cli_draw.specs.SvgStyle.{shape_style, style, text_style};

use crate::characters::push_ascii;
use crate::row::Row;
use std::alloc::{AllocError, Global};

/// Adds a row of an ASCII text.
pub(crate) fn push_text_row(
    alloc: Global,
    rows: &mut Vec<Row>,
    text: &[u8],
) -> Result<(), AllocError>
    ensures { OnOk result (map characters_of rows.new.items
        ≡ map characters_of rows.old.items ++ text.now ∷ []) }
{
    let mut characters = Vec::new(alloc);
    push_ascii(&mut characters, text)?;
    rows.push(Row { characters })?;
    Ok(())
}

/// Adds the rows that say how texts look.
fn push_text_style(alloc: Global, rows: &mut Vec<Row>) -> Result<(), AllocError>
    ensures { OnOk result (map characters_of rows.new.items
        ≡ map characters_of rows.old.items ++ text_style) }
{
    push_text_row(
        alloc,
        rows,
        b"text{font:12px DejaVu Sans Mono,Menlo,Consolas,monospace}",
    )?;
    push_text_row(alloc, rows, b"text{text-anchor:middle;fill:#334155}")?;
    push_text_row(alloc, rows, b".blank text,.leaf .index{fill:#64748b}")?;
    push_text_row(alloc, rows, b".identity{font-size:11px}")?;
    push_text_row(alloc, rows, b".index,.unmerged{font-size:10px}")?;
    push_text_row(alloc, rows, b".unmerged{fill:#b45309}")
}

/// Adds the rows that say how shapes look.
fn push_shape_style(alloc: Global, rows: &mut Vec<Row>) -> Result<(), AllocError>
    ensures { OnOk result (map characters_of rows.new.items
        ≡ map characters_of rows.old.items ++ shape_style) }
{
    push_text_row(
        alloc,
        rows,
        b"path{fill:none;stroke:#cbd5e1;stroke-width:2}",
    )?;
    push_text_row(
        alloc,
        rows,
        b".leaf rect{fill:#dcefe6;stroke:#5f9f83;stroke-width:1.5}",
    )?;
    push_text_row(
        alloc,
        rows,
        b".parent circle{fill:#dbe7f5;stroke:#6b8fc0;stroke-width:1.5}",
    )?;
    push_text_row(
        alloc,
        rows,
        b".blank rect,.blank circle{fill:#fff;stroke:#94a3b8;stroke-dasharray:4 3}",
    )?;
    push_text_row(
        alloc,
        rows,
        b".renewed rect,.renewed circle{stroke-width:4}",
    )
}

/// Adds the rows that say how nodes look, and a white ground.
pub(crate) fn push_style(alloc: Global, rows: &mut Vec<Row>) -> Result<(), AllocError>
    ensures { OnOk result (map characters_of rows.new.items
        ≡ map characters_of rows.old.items ++ style) }
{
    push_text_row(alloc, rows, b"<style>")?;
    push_text_style(alloc, rows)?;
    push_shape_style(alloc, rows)?;
    push_text_row(alloc, rows, b"</style>")?;
    push_text_row(
        alloc,
        rows,
        b"<rect x=\"-16\" y=\"-40\" width=\"100%\" height=\"100%\" fill=\"#fff\"/>",
    )
}
