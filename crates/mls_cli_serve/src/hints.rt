//! What is said of a file that is no hex text, but binary or JSON.

ghost use Rattle.std.specs.Prelude.{◌≡◌, is_some};
ghost use Rattle.std.specs.List.{list_any};
ghost use Rattle.std.specs.Option.{option_copied};
ghost use Rattle.mls_cli_text.specs.Form.{bytes_of_file};
ghost use Rattle.mls_cli_text.specs.HexFile.{is_blank};
ghost use Rattle.mls_cli_serve.specs.Hints.{first_ink, hint, hint_of_text, is_binary, is_control, opens_json};

use mls_cli_text::{Form, is_hex_file};

/// Whether a byte is a space, a tab, a carriage return or a line feed.
fn is_blank(byte: u8) -> bool
    ensures { result ≡ is_blank byte }
{
    byte == b' ' || byte == b'\t' || byte == b'\r' || byte == b'\n'
}

/// Whether a byte is a control character that is no blank.
fn is_control(byte: u8) -> bool
    ensures { result ≡ is_control byte }
{
    byte < 32 && !is_blank(byte)
}

/// Whether no ASCII text has a byte.
fn is_binary(byte: u8) -> bool
    ensures { result ≡ is_binary byte }
{
    byte > 126 || is_control(byte)
}

/// Whether some byte is a control character that is no blank.
fn has_control(text: &[u8]) -> bool
    ensures { result ≡ list_any is_control text.now }
{
    text.iter().any(|byte| is_control(*byte))
}

/// Whether some byte is none of an ASCII text.
fn has_binary(text: &[u8]) -> bool
    ensures { result ≡ list_any is_binary text.now }
{
    text.iter().any(|byte| is_binary(*byte))
}

/// The first byte that is no blank.
#[tactic(auto, unfolding(crate::specs::Hints::first_ink))]
fn first_ink(text: &[u8]) -> Option<&u8>
    ensures { option_copied result ≡ first_ink text.now }
{
    text.iter().find(|byte| !is_blank(**byte))
}

/// Whether an object or an array of JSON begins.
fn opens_json(text: &[u8]) -> bool
    ensures { result ≡ opens_json (first_ink text.now) }
{
    match first_ink(text) {
        Some(byte) => *byte == b'{' || *byte == b'[',
        None => false,
    }
}

/// What is said of a text that isn't hex: a text in UTF-8 that opens as JSON may have bytes that no ASCII text has.
fn hint_of_text(text: &[u8]) -> &'static str
    ensures { result.now ≡ hint_of_text text.now }
{
    if opens_json(text) && !has_control(text) {
        "mls: the file is JSON: see `mls replay` and `mls vectors`\n"
    } else if has_binary(text) {
        "mls: the file is binary: give --raw\n"
    } else {
        ""
    }
}

/// Whether a file has bytes.
fn has_bytes(form: Form, text: &[u8]) -> bool
    ensures { result ≡ is_some (bytes_of_file form text.now) }
{
    match form {
        Form::Hex => is_hex_file(text),
        Form::Raw => true,
    }
}

/// What is said of a file of this text, which may be nothing.
#[tactic(auto, unfolding(crate::specs::Hints::hint))]
pub fn hint(form: Form, text: &[u8]) -> &'static str
    ensures { result.now ≡ hint form text.now }
{
    let limit = form.file_limit();
    if text.len() > limit || has_bytes(form, text) {
        return "";
    }
    hint_of_text(text)
}
