//! The options of `mls vectors`.

ghost use Rattle.std.specs.Prelude.{◌≡◌, false, IfOk};
ghost use Rattle.clap.specs.Words.{app_of};
ghost use Rattle.clap.specs.declared.Command.TheViews.{out-Command as fields_of};
ghost use Rattle.mls_cli_serve.specs.Arguments.{vectors_app};

use crate::options::{file_command, where_arg};
use clap::Command;
use std::alloc::{AllocError, Global};

/// The subcommand `vectors`.
pub fn vectors_command<'a>(alloc: Global) -> Result<Command<'a>, AllocError>
    ensures app { IfOk result (λ c. app_of c ≡ vectors_app) }
    ensures local { IfOk result (λ c. (fields_of c).has_globals ≡ false) }
{
    let command = file_command(
        alloc,
        "vectors",
        "Judges test vectors",
        "A JSON array of vectors, or - for the standard input",
        "Example:\n  mls vectors examples/vectors.json",
    )?;
    command.arg(where_arg(alloc))
}
