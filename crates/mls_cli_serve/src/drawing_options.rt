//! The options of drawings, which subcommands share.

ghost use Rattle.std.specs.Prelude.{◌≡◌, false, IfOk};
ghost use Rattle.clap.specs.Words.{app_of};
ghost use Rattle.clap.specs.declared.Command.TheViews.{out-Command as fields_of};
ghost use Rattle.mls_cli_serve.specs.Drawings.{drawing_by, is_plain, with_drawing_rules};

use crate::options::{flag_arg, number_arg};
use clap::Command;
use mls_cli_check::Drawing;
use std::alloc::{AllocError, Global};

/// The command with the options of how a tree is drawn.
pub fn with_drawing_options<'a>(
    alloc: Global,
    command: Command<'a>,
) -> Result<Command<'a>, AllocError>
    ensures app { IfOk result (λ c. app_of c ≡ with_drawing_rules (app_of command.entry)) }
    ensures local { (fields_of command.entry).has_globals ≡ false
        → IfOk result (λ c. (fields_of c).has_globals ≡ false) }
{
    let width = number_arg(
        alloc,
        "WIDTH",
        "width",
        "Cuts each row of a drawing to so many columns",
    );
    let svg = flag_arg(alloc, "svg", "Makes a drawing an SVG file");
    let with_width = command.arg(width)?;
    with_width.arg(svg)
}

/// How a tree is drawn, or None where both options are given.
pub fn drawing_by(columns: Option<usize>, svg: bool) -> Option<Drawing>
    ensures { result ≡ drawing_by columns svg }
{
    if !svg {
        return Some(Drawing::Text(columns));
    }
    match columns {
        Some(_) => None,
        None => Some(Drawing::Svg),
    }
}

/// Whether neither option is given.
pub fn is_plain(drawing: Drawing) -> bool
    ensures { result ≡ is_plain drawing }
{
    match drawing {
        Drawing::Text(None) => true,
        Drawing::Text(Some(_)) | Drawing::Svg => false,
    }
}
