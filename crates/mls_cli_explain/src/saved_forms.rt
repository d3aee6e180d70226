//! The names of the refusals of saved forms (100 to 104), and what is told of each.

ghost use Rattle.std.specs.Prelude.{◌≡◌, option_map};
ghost use Rattle.mls_wire.specs.Names.{name_in};
ghost use Rattle.mls_cli_explain.specs.Explanations.{about_saved_forms, explanation_view, found_in, names_of_saved_forms};

use crate::explanations::{Explanation, told};

/// The name of a refusal of saved forms (100 to 104), or nothing.
pub fn name_of_saved_form(number: u8) -> &'static str
    ensures { result.now ≡ name_in names_of_saved_forms number }
{
    match number {
        100 => "OtherSuite",
        101 => "BadSecret",
        102 => "NotAMember",
        103 => "BadTreeHash",
        104 => "OtherKey",
        _ => "",
    }
}

/// What is told of refusals of saved forms (100 to 104).
pub fn about_saved_forms(number: u8) -> Option<Explanation>
    ensures { option_map explanation_view result ≡ found_in about_saved_forms number }
{
    match number {
        100 => told(
            "saved of another suite",
            "what was saved is of the suite that it is loaded under",
            "load it under its own suite",
        ),
        101 => told(
            "no saved secret",
            "saved secrets and keys have 32 bytes, and no more keys are saved than a path has",
            "load the bytes as they were saved",
        ),
        102 => told(
            "no member at the saved leaf",
            "a member is at the leaf of the one that was saved",
            "load the bytes as they were saved",
        ),
        103 => told(
            "a wrong hash of the saved tree",
            "the tree's hash is that of the GroupContext",
            "load the bytes as they were saved",
        ),
        104 => told(
            "a wrong saved key",
            "each private key that is due is there, no other is, and each is that of its public key (RFC 9420, 7.1)",
            "load the bytes as they were saved",
        ),
        _ => None,
    }
}
