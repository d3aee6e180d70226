//! A file of hex digits.

ghost use Rattle.std.specs.Prelude.{◌≡◌, Some, None, IfOk, Err, is_some};
ghost use Rattle.hex.specs.Hex.{is_hex_digit};
ghost use Rattle.std.specs.List.{list_all};
ghost use Rattle.mls_wire.specs.Names.{refusal_name};
ghost use Rattle.mls_cli_text.specs.HexFile.{bytes_in, is_blank, is_hex, before_blanks, after_blanks};
ghost use Rattle.mls_cli_text.specs.Faults.{number_of};

use hex::FromHexError;
use mls_leaf::INPUT_LIMIT;
use mls_wire::refusal_name;
use std::alloc::Global;
use thiserror::Error;

/// How many bytes the text of a hex file may have: two digits for each byte of an input, and room for blanks.
pub const HEX_FILE_LIMIT: usize = 2 * INPUT_LIMIT + 1024;

/// Why a file has no bytes.
#[derive(Clone, Copy, Debug, PartialEq, Eq, Error)]
pub enum FileError {
    /// A growth was refused.
    #[error("out of memory")]
    OutOfMemory,
    /// The text, without the blanks at both ends, is no hex text.
    #[error("a text that isn't hex")]
    NotHex,
}

impl FileError {
    /// The number of the refusal.
    pub fn number(self) -> u8
        ensures { result ≡ number_of self }
    {
        match self {
            FileError::OutOfMemory => 1,
            FileError::NotHex => 8,
        }
    }

    /// The name of the refusal, as it is printed.
    pub fn name(self) -> &'static str
        ensures { result.now ≡ refusal_name (number_of self) }
    {
        refusal_name(self.number())
    }
}

fn is_blank_byte(byte: u8) -> bool
    ensures { result ≡ is_blank byte }
{
    byte == b' ' || byte == b'\t' || byte == b'\r' || byte == b'\n'
}

#[tactic(auto, unfolding(crate::specs::HexFile::after_blanks))]
fn after_blanks(text: &[u8]) -> &[u8]
    ensures { result.now ≡ after_blanks text.now }
{
    let mut rest = text;
    while let [first, behind @ ..] = rest {
        if !is_blank_byte(*first) {
            return rest;
        }
        rest = behind;
    }
    rest
}

#[tactic(auto, unfolding(crate::specs::HexFile::after_blanks))]
fn before_blanks(text: &[u8]) -> &[u8]
    ensures { result.now ≡ before_blanks text.now }
{
    let mut rest = text;
    while let Some((last, before)) = rest.split_last() {
        if !is_blank_byte(*last) {
            return rest;
        }
        rest = before;
    }
    rest
}

fn is_digit(byte: u8) -> bool
    ensures { result ≡ is_hex_digit byte }
{
    byte.is_ascii_hexdigit()
}

fn are_digits(text: &[u8]) -> bool
    ensures { result ≡ list_all is_hex_digit text.now }
{
    text.iter().all(|byte| is_digit(*byte))
}

/// Whether a text is an even number of hex digits.
pub fn is_hex(text: &[u8]) -> bool
    ensures { result ≡ is_hex text.now }
{
    text.len() % 2 == 0 && are_digits(text)
}

/// Whether a file's text is hex digits between blanks: whether `file_bytes` has bytes for it.
pub fn is_hex_file(text: &[u8]) -> bool
    ensures { result ≡ is_some (bytes_in text.now) }
{
    is_hex(before_blanks(after_blanks(text)))
}

/// Reads the bytes that a file's hex digits stand for. A text that isn't hex is refused (`NotHex` (8)) even when an
/// allocation fails.
pub fn file_bytes(alloc: Global, text: &[u8]) -> Result<Vec<u8>, FileError>
    ensures bytes { IfOk result (λ bytes. bytes_in text.now ≡ Some bytes.items) }
    ensures other { bytes_in text.now ≡ None → result ≡ Err FileError.NotHex }
    ensures refused { result ≡ Err FileError.NotHex → bytes_in text.now ≡ None }
{
    let digits = before_blanks(after_blanks(text));
    if !is_hex(digits) {
        return Err(FileError::NotHex);
    }
    match hex::decode(alloc, digits) {
        Ok(bytes) => Ok(bytes),
        Err(FromHexError::OutOfMemory) => Err(FileError::OutOfMemory),
        Err(_) => Err(FileError::NotHex),
    }
}
