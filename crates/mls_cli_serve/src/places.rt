//! Where content is refused: what `--where` has said of it.

ghost use Rattle.std.specs.Prelude.{◌≡◌, IfOk};
ghost use Rattle.mls_suite.specs.Glass.{glass};
ghost use Rattle.mls_cli_text.specs.Form.{bytes_of_file};
ghost use Rattle.mls_cli_place.specs.Breach.{FindsFor, FindsInInfo, group_in, info_of, nodes_of, rule_of};
ghost use Rattle.mls_cli_serve.specs.Pages.{checking, crypto_of};
ghost use Rattle.mls_cli_serve.specs.Places.{FindsBreachIn, IsContentText, IsPlaceText, IsRefusalText, fault_in, refusal_in, refusal_of, text_if_any, whole_of, with_number};

use crate::printing::{drawing_file, info_file, show_file, tree_file};
use crate::tasks::{Job, SuiteChoice};
use mls_cli_check::{TreeSource, Unchecked};
use mls_cli_json_place::{place_of_recording, place_of_vectors};
use mls_cli_place::{Place, TreePlace, Whole, breach_of_file, breach_of_group_info, place_of_file};
use mls_cli_text::{Ending, Form, Printed};
use mls_suite::{Glass, Suite};
use mls_suite_0001::Suite0001;
use std::alloc::{AllocError, Global};

/// The text of a place, or no bytes where there is none.
fn text_if_any<P: Printed + Drop>(alloc: Global, place: Option<P>) -> Result<Vec<u8>, AllocError>
    ensures { IfOk result (λ text. text.items ≡ text_if_any P.text place) }
{
    match place {
        Some(place) => place.text_bytes(alloc),
        None => Ok(Vec::new(alloc)),
    }
}

/// The number of the refusal that a page ends with.
fn refusal_in(ending: Ending) -> Option<u8>
    ensures { result ≡ refusal_in ending }
{
    match ending {
        Ending::Good | Ending::Failed => None,
        Ending::Refused(number) => Some(number),
    }
}

/// The number that the message or the tree of a file of this text is refused with.
fn refusal_of(alloc: Global, job: &Job<'_>, text: &[u8]) -> Result<Option<u8>, AllocError>
    ensures { IfOk result (λ number. number ≡ refusal_of job.now text.now) }
{
    match job {
        Job::Show { form, detail, .. } => {
            let page = show_file(alloc, *detail, *form, text)?;
            Ok(refusal_in(page.ending))
        }
        Job::Check {
            form,
            suite,
            signatures,
            group,
            ..
        } => {
            let page = tree_file(alloc, *form, *suite, *signatures, text, group)?;
            Ok(refusal_in(page.ending))
        }
        Job::CheckGroupInfo {
            form,
            signatures,
            ..
        } => {
            let page = info_file(alloc, *form, *signatures, text)?;
            Ok(refusal_in(page.ending))
        }
        Job::Draw {
            form,
            source,
            drawing,
            ..
        } => {
            let page = drawing_file(alloc, *form, *source, *drawing, text)?;
            Ok(refusal_in(page.ending))
        }
        Job::Replay { .. } | Job::DrawMember { .. } | Job::Vectors { .. } => Ok(None),
    }
}

/// What the file of a tree's drawing is read as.
fn whole_of(source: TreeSource) -> Whole
    ensures { result ≡ whole_of source }
{
    match source {
        TreeSource::Tree => Whole::Tree,
        TreeSource::GroupInfo => Whole::Message,
    }
}

/// The first fault of decoding of a file of this text.
fn fault_in(alloc: Global, job: &Job<'_>, text: &[u8]) -> Result<Option<Place>, AllocError>
    ensures { IfOk result (λ place. place ≡ fault_in job.now text.now) }
{
    match job {
        Job::Show { form, .. } | Job::CheckGroupInfo { form, .. } => {
            place_of_file(alloc, Whole::Message, *form, text)
        }
        Job::Check { form, .. } => place_of_file(alloc, Whole::Tree, *form, text),
        Job::Draw { form, source, .. } => place_of_file(alloc, whole_of(*source), *form, text),
        Job::Replay { .. } | Job::DrawMember { .. } | Job::Vectors { .. } => Ok(None),
    }
}

/// The place, where its fault has this number.
fn with_number(number: u8, place: Option<Place>) -> Option<Place>
    ensures { result ≡ with_number number place }
{
    match place {
        Some(place) => {
            if place.fault == number {
                Some(place)
            } else {
                None
            }
        }
        None => None,
    }
}

/// The node or the leaf of a tree's file that breaks the rule of this number under the chosen suite.
fn breach_of_tree(
    alloc: Global,
    form: Form,
    suite: SuiteChoice,
    signatures: bool,
    text: &[u8],
    group: &str,
    number: u8,
) -> Result<Option<TreePlace>, AllocError>
    ensures { IfOk result (FindsFor (checking suite signatures) (group_in group.now)
        (rule_of number) (nodes_of (bytes_of_file form text.now))) }
{
    match suite {
        SuiteChoice::Glass => breach_of_file::<Glass>(alloc, form, text, group, number),
        SuiteChoice::Suite0001 => {
            if signatures {
                breach_of_file::<Suite0001>(alloc, form, text, group, number)
            } else {
                breach_of_file::<Unchecked>(alloc, form, text, group, number)
            }
        }
    }
}

/// The node or the leaf of a GroupInfo's tree that breaks the rule of this number under the suite that it names.
fn breach_of_info(
    alloc: Global,
    form: Form,
    signatures: bool,
    text: &[u8],
    number: u8,
) -> Result<Option<TreePlace>, AllocError>
    ensures { IfOk result (FindsInInfo glass (checking SuiteChoice.Suite0001 signatures)
        (rule_of number) (info_of (bytes_of_file form text.now))) }
{
    if signatures {
        breach_of_group_info::<Glass, Suite0001>(alloc, form, text, number)
    } else {
        breach_of_group_info::<Glass, Unchecked>(alloc, form, text, number)
    }
}

/// The node or the leaf that breaks the rule of this number, if a tree is checked or drawn.
fn breach_in(
    alloc: Global,
    job: &Job<'_>,
    text: &[u8],
    number: u8,
) -> Result<Option<TreePlace>, AllocError>
    ensures { IfOk result (FindsBreachIn job.now text.now number) }
{
    match job {
        Job::Check {
            form,
            suite,
            signatures,
            group,
            ..
        } => breach_of_tree(alloc, *form, *suite, *signatures, text, group, number),
        Job::CheckGroupInfo {
            form,
            signatures,
            ..
        } => breach_of_info(alloc, *form, *signatures, text, number),
        Job::Draw { form, source, .. } => match source {
            TreeSource::Tree => breach_of_file::<Glass>(alloc, *form, text, "", number),
            TreeSource::GroupInfo => {
                breach_of_group_info::<Glass, Suite0001>(alloc, *form, text, number)
            }
        },
        Job::Show { .. } | Job::Replay { .. } | Job::DrawMember { .. } | Job::Vectors { .. } => {
            Ok(None)
        }
    }
}

/// Where the message or the tree of a file is refused with this number.
fn refusal_text(
    alloc: Global,
    job: &Job<'_>,
    text: &[u8],
    number: u8,
) -> Result<Vec<u8>, AllocError>
    ensures { IfOk result (λ said. IsRefusalText job.now text.now number said.items) }
{
    let fault = with_number(number, fault_in(alloc, job, text)?);
    let mut said = text_if_any(alloc, fault)?;
    let breach = breach_in(alloc, job, text, number)?;
    let behind = text_if_any(alloc, breach)?;
    said.extend_from_slice(behind.as_slice())?;
    Ok(said)
}

/// Where the message or the tree of a file is refused, or no bytes where it isn't.
fn content_text(alloc: Global, job: &Job<'_>, text: &[u8]) -> Result<Vec<u8>, AllocError>
    ensures { IfOk result (λ said.
        IsContentText job.now text.now (refusal_of job.now text.now) said.items) }
{
    match refusal_of(alloc, job, text)? {
        Some(number) => refusal_text(alloc, job, text, number),
        None => Ok(Vec::new(alloc)),
    }
}

/// The number of a suite.
fn number_of(suite: SuiteChoice) -> u16
    ensures { result ≡ (crypto_of suite).number }
{
    match suite {
        SuiteChoice::Glass => Glass::NUMBER,
        SuiteChoice::Suite0001 => Suite0001::NUMBER,
    }
}

/// Where the content of a file of this text is refused: the offset and the field of a fault of decoding, the node or the
/// leaf of a rule of trees, of a JSON file the line and the column, or the event or the vector and the key. No bytes
/// where the content isn't refused, and where a refusal has no place.
pub fn place_text(alloc: Global, job: &Job<'_>, text: &[u8]) -> Result<Vec<u8>, AllocError>
    ensures { IfOk result (λ said. IsPlaceText job.now text.now said.items) }
{
    match job {
        Job::Replay { suite, .. } | Job::DrawMember { suite, .. } => {
            let place = place_of_recording(alloc, number_of(*suite), text)?;
            text_if_any(alloc, place)
        }
        Job::Vectors { .. } => {
            let place = place_of_vectors(alloc, text)?;
            text_if_any(alloc, place)
        }
        Job::Show { .. } | Job::Check { .. } | Job::CheckGroupInfo { .. } | Job::Draw { .. } =>
            content_text(alloc, job, text),
    }
}
