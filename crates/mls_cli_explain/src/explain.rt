//! The refusal that a number or a name stands for, and the page of what is told of it.

ghost use Rattle.std.specs.Prelude.{◌≡◌, option_map};
ghost use Rattle.mls_cli_text.specs.Page.{MakesPage};
ghost use Rattle.mls_cli_explain.specs.Explain.{number_of_name, name_told, told_by, told_by_number, told_page};
ghost use Rattle.mls_cli_explain.specs.Explanations.{explanation_view};

use crate::application_messages::name_of_application_message;
use crate::explanations::{Explanation, explanation_of};
use crate::saved_forms::name_of_saved_form;
use mls_cli_text::{Ending, Field, Line, Page, line_of};
use mls_wire::refusal_name;
use std::alloc::{AllocError, Global};

/// The numbers of refusals are below this.
const END_OF_NUMBERS: u8 = 120;

/// The name of the refusal with this number, or nothing where no refusal has it.
fn name_told(number: u8) -> &'static str
    ensures { result.now ≡ name_told number }
{
    match number {
        0..=99 => refusal_name(number),
        100..=109 => name_of_saved_form(number),
        _ => name_of_application_message(number),
    }
}

/// The number of the refusal with this name, or None where none has it.
#[tactic(auto, unfolding(crate::specs::Explain::number_from))]
fn number_of_name(name: &str) -> Option<u8>
    ensures { result ≡ number_of_name name.now }
{
    for number in 0..END_OF_NUMBERS {
        if name == name_told(number) {
            return Some(number);
        }
    }
    None
}

/// What is told of the refusal of this number, with the number.
fn told_by_number(number: u8) -> Option<(u8, Explanation)>
    ensures { option_map (λ p. (p.0, explanation_view p.1)) result ≡ told_by_number number }
{
    match explanation_of(number) {
        Some(told) => Some((number, told)),
        None => None,
    }
}

/// The refusal of this number, or else of this name, and what is told of it.
pub fn told_by(number: Option<usize>, name: &str) -> Option<(u8, Explanation)>
    ensures { option_map (λ p. (p.0, explanation_view p.1)) result ≡ told_by number name.now }
{
    match number {
        Some(number) => {
            if number < 256 {
                told_by_number(number as u8)
            } else {
                None
            }
        }
        None => told_by_number(number_of_name(name)?),
    }
}

/// Makes the page of what is told of a refusal: the refusal, its sentence, what is checked, and what can be done.
pub fn told_page(alloc: Global, number: u8, told: &Explanation) -> Result<Page<Line>, AllocError>
    ensures { MakesPage result (told_page number (explanation_view told.now)) }
{
    Ok(Page {
        lines: vec![in alloc;
            line_of("refusal", Field::Named(number, name_told(number))),
            line_of("text", Field::Word(told.sentence)),
            line_of("check", Field::Word(told.check)),
            line_of("advice", Field::Word(told.advice)),
        ]?,
        ending: Ending::Good,
    })
}
