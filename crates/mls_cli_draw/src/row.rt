//! Rows of characters.

ghost use Rattle.std.specs.Prelude.{◌≡◌, IfOk};
ghost use Rattle.mls_cli_draw.specs.Picture.{cut, cut_to, row_text};
ghost use Rattle.mls_cli_draw.specs.RowLaws.{row_nonempty};

use mls_cli_text::Printed;
use std::alloc::{AllocError, Global};

/// A row of a picture: its characters, the line feed at the end apart.
#[derive(Debug, Drop)]
pub struct Row {
    pub(crate) characters: Vec<char>,
}

impl Printed for Row {
    ghost text = { λ row. row_text row.characters.items };

    ghost nonempty = { row_nonempty };

    fn text_bytes(&self, alloc: Global) -> Result<Vec<u8>, AllocError> {
        let mut text = String::new(alloc);
        for character in self.characters.as_slice() {
            text.push(*character)?;
        }
        text.push('\n')?;
        Ok(text.into_bytes())
    }
}

/// Cuts characters to so many columns: where there are more, the last column is dots.
#[tactic(auto, unfolding(crate::specs::Picture::cut))]
pub(crate) fn cut(mut characters: Vec<char>, columns: usize) -> Result<Vec<char>, AllocError>
    ensures { IfOk result (λ v. v.items ≡ cut columns characters.items) }
{
    if columns == 0 {
        characters.clear();
    } else if columns < characters.len() {
        characters.truncate(columns - 1);
        characters.push('…')?;
    }
    Ok(characters)
}

/// Cuts characters to as many columns as are given.
pub(crate) fn cut_to(characters: Vec<char>, columns: Option<usize>) -> Result<Vec<char>, AllocError>
    ensures { IfOk result (λ v. v.items ≡ cut_to columns characters.items) }
{
    match columns {
        Some(columns) => cut(characters, columns),
        None => Ok(characters),
    }
}
