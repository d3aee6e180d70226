//! How a place is printed.

ghost use Rattle.std.specs.Prelude.{◌≡◌, ◌++◌, OnOk};
ghost use Rattle.mls_cli_place.specs.Text.{dotted, path_text, place_text, step_text};
ghost use Rattle.mls_cli_place.specs.TextLaws.{place_nonempty};

use crate::place::Place;
use crate::step::Step;
use mls_cli_text::{Printed, push_number};
use std::alloc::{AllocError, Global};

/// Adds the name of a field, behind a dot where it is in another.
fn push_name(text: &mut Vec<u8>, outermost: bool, name: &str) -> Result<(), AllocError>
    ensures { OnOk result (text.new.items ≡ text.old.items ++ dotted outermost name.now) }
{
    if !outermost {
        text.push(b'.')?;
    }
    text.extend_from_slice(name.as_bytes())
}

/// Adds a step.
fn push_step(
    alloc: Global,
    text: &mut Vec<u8>,
    outermost: bool,
    step: Step,
) -> Result<(), AllocError>
    ensures { OnOk result (text.new.items ≡ text.old.items ++ step_text outermost step) }
{
    match step {
        Step::Message(field) => push_name(text, outermost, field.name()),
        Step::Leaf(field) => push_name(text, outermost, field.name()),
        Step::Group(field) => push_name(text, outermost, field.name()),
        Step::Item(index) => {
            text.push(b'[')?;
            push_number(alloc, text, index as u64)?;
            text.push(b']')?;
            Ok(())
        }
    }
}

/// Adds a path, from its outermost step on.
fn push_path(alloc: Global, text: &mut Vec<u8>, path: &[Step]) -> Result<(), AllocError>
    ensures { OnOk result (text.new.items ≡ text.old.items ++ path_text path.now) }
{
    match path {
        [] => Ok(()),
        [step, outer @ ..] => {
            push_path(alloc, text, outer)?;
            push_step(alloc, text, outer.is_empty(), *step)
        }
    }
}

impl Printed for Place {
    ghost text = { place_text };

    ghost nonempty = { place_nonempty };

    fn text_bytes(&self, alloc: Global) -> Result<Vec<u8>, AllocError> {
        let mut text = Vec::new(alloc);
        text.extend_from_slice(b"offset: ")?;
        push_number(alloc, &mut text, self.offset as u64)?;
        text.extend_from_slice(b"\nfield: ")?;
        push_path(alloc, &mut text, self.path.as_slice())?;
        text.push(b'\n')?;
        Ok(text)
    }
}
