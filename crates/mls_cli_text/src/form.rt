//! How a file has bytes.

ghost use Rattle.std.specs.Prelude.{◌≡◌};
ghost use Rattle.mls_cli_text.specs.Form.{file_limit};

use crate::hex_file::HEX_FILE_LIMIT;
use mls_leaf::INPUT_LIMIT;

/// How a file has bytes.
#[derive(Clone, Copy, Debug, PartialEq, Eq)]
pub enum Form {
    /// As hex digits between blanks.
    Hex,
    /// As they are.
    Raw,
}

impl Form {
    /// How many bytes such a file may have.
    pub fn file_limit(self) -> usize
        ensures { result ≡ file_limit self }
    {
        match self {
            Form::Hex => HEX_FILE_LIMIT,
            Form::Raw => INPUT_LIMIT,
        }
    }
}
