//! The lines of the extensions that a group carries.

ghost use Rattle.std.specs.Prelude.{◌≡◌, map, IfOk};
ghost use Rattle.mls_cli_text.specs.Text.{entry_of, prefix_text};
ghost use Rattle.mls_cli_show.specs.Extensions.{extension_entries, extension_entry};

use mls_cli_text::{Field, Line, Prefix, line_with};
use mls_leaf::Extension;
use std::alloc::{AllocError, Global};

fn extension_line(prefix: Prefix, extension: &Extension) -> Result<Line, AllocError>
    ensures { IfOk result (λ line. entry_of line
        ≡ extension_entry (prefix_text prefix) extension.now) }
{
    let content = extension.content.clone()?;
    let field = Field::Extension(extension.kind, content);
    Ok(line_with(prefix, "extension", field))
}

/// A line for each extension, each with the prefix.
pub(crate) fn extension_lines(
    alloc: Global,
    prefix: Prefix,
    extensions: &[Extension],
) -> Result<Vec<Line>, AllocError>
    ensures { IfOk result (λ lines. map entry_of lines.items
        ≡ extension_entries (prefix_text prefix) extensions.now) }
{
    let mut lines = Vec::new(alloc);
    for extension in extensions {
        lines.push(extension_line(prefix, extension)?)?;
    }
    Ok(lines)
}
