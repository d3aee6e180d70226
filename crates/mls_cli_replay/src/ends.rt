//! What is printed in the end: a line for each member, and where these lines aren't those that are expected.

ghost use Rattle.std.specs.Prelude.{◌≡◌, ◌≢◌, ◌<◌, ◌++◌, length, map, max, IfOk, IfErr, OnOk, Some, option_map, option_to_list, string_bytes};
ghost use Rattle.mls_cli_text.specs.InputOutput.{write_failed, Writes, WritesPart};
ghost use Rattle.mls_cli_replay.specs.Replay.{difference_by, end_text, ends_as_expected, entry_of, is_line, lent_text, line_at, text_at, texts_of, DiffersAt, SayDifferences};

use crate::line::{ReplayLine, line_words};
use crate::members::{member_line, print_members};
use mls_cli_text::{Fault, Output, print_lines};
use mls_suite::Suite;
use mls_world::World;
use std::alloc::{AllocError, Global};

/// Makes the line of member k without its line feed, if there is one.
fn words_at<S: Suite>(
    alloc: Global,
    world: &World<S>,
    number: usize,
) -> Result<Option<String>, AllocError>
    ensures { IfOk result (λ w. option_map string_bytes w ≡ line_at world.now.seats number) }
{
    match world.member(number) {
        Some(member) => {
            let line = member_line(number, member);
            let words = line_words(alloc, &line)?;
            Ok(Some(words))
        }
        None => Ok(None),
    }
}

/// Whether these words, if there are any, are the text.
fn is_line(words: Option<&str>, text: &str) -> bool
    ensures { result ≡ is_line (lent_text words.entry) text.now }
{
    match words {
        Some(words) => words.as_bytes() == text.as_bytes(),
        None => false,
    }
}

/// The line where these words of member k, if it is there, aren't those that are expected, if any are.
fn difference_line<'a>(
    number: usize,
    words: Option<&str>,
    text: Option<&'a str>,
) -> Option<ReplayLine<'a>>
    ensures { option_map entry_of result ≡ difference_by number words.entry text.entry }
{
    match text {
        Some(text) => {
            if is_line(words, text) {
                return None;
            }
            Some(ReplayLine::Missing {
                member: number,
                text,
            })
        }
        None => match words {
            Some(_) => Some(ReplayLine::NotExpected { member: number }),
            None => None,
        },
    }
}

/// The text of that number, if there is one.
fn text_at(texts: &[String], number: usize) -> Option<&str>
    ensures { option_map (λ t. t.now) result ≡ text_at texts.now number }
{
    match texts.get(number) {
        Some(text) => Some(text.as_str()),
        None => None,
    }
}

/// Makes the line for member k, where its own isn't the one that is expected.
fn difference_at<'a, S: Suite>(
    alloc: Global,
    world: &World<S>,
    number: usize,
    texts: &'a [String],
) -> Result<Option<ReplayLine<'a>>, AllocError>
    ensures { DiffersAt world.now.seats (map string_bytes texts.now) number result }
{
    let words = words_at(alloc, world, number)?;
    Ok(difference_line(number, words.as_deref(), text_at(texts, number)))
}

/// How many numbers a member or a text has.
fn count<S: Suite>(world: &World<S>, texts: &[String]) -> usize
    ensures { result ≡ max (length world.now.seats) (length texts.now) }
{
    let members = world.member_count();
    if members < texts.len() {
        texts.len()
    } else {
        members
    }
}

/// Adds a line, if there is one.
fn add_line<'a>(
    lines: &mut Vec<ReplayLine<'a>>,
    found: Option<ReplayLine<'a>>,
) -> Result<(), AllocError>
    ensures { OnOk result (lines.new.items ≡ lines.old.items ++ option_to_list found.entry) }
{
    match found {
        Some(line) => {
            lines.push(line)?;
            Ok(())
        }
        None => Ok(()),
    }
}

/// Makes a line for each number at which the lines of members aren't these texts.
fn differences_of<'a, S: Suite>(
    alloc: Global,
    world: &World<S>,
    texts: &'a [String],
) -> Result<Vec<ReplayLine<'a>>, AllocError>
    ensures lines { SayDifferences world.now.seats (Some (map string_bytes texts.now)) result }
    // It grows only where there is something to compare.
    ensures some { IfErr result (λ _. 0 < max (length world.now.seats) (length texts.now)) }
{
    let mut lines = Vec::new(alloc);
    for number in 0..count(world, texts) {
        let found = difference_at(alloc, world, number, texts)?;
        add_line(&mut lines, found)?;
    }
    Ok(lines)
}

/// Makes a line for each number at which the lines of members aren't those that are expected, if any are.
fn differences<'a, S: Suite>(
    alloc: Global,
    world: &World<S>,
    texts: Option<&'a [String]>,
) -> Result<Vec<ReplayLine<'a>>, AllocError>
    ensures lines { SayDifferences world.now.seats (texts_of texts.entry) result }
    ensures some { IfErr result (λ _. 0 < length (end_text world.now.seats texts.entry)) }
{
    match texts {
        Some(texts) => differences_of(alloc, world, texts),
        None => Ok(Vec::new(alloc)),
    }
}

/// Prints a line for each member, and a line for each number at which these lines aren't those that are expected, if
/// any are; it answers whether there is no such number. All lines are compared before one is printed.
pub fn print_end<S: Suite, O: Output>(
    alloc: Global,
    world: &World<S>,
    texts: Option<&[String]>,
    out: &mut O,
) -> Result<bool, Fault>
    ensures met { IfOk result (λ met. met ≡ ends_as_expected world.now.seats texts.entry) }
    ensures whole { Writes O.contents out.old out.new
        (end_text world.now.seats texts.entry) result }
    ensures part { WritesPart O.contents out.old out.new
        (end_text world.now.seats texts.entry) result }
    ensures fault { O.failed out.new ≡ write_failed (O.failed out.old) result }
    ensures written { IfErr result (λ e. e ≢ Fault.Read) }
{
    let found = differences(alloc, world, texts)?;
    print_members(alloc, world, out)?;
    let lines = found.as_slice();
    print_lines(alloc, lines, out)?;
    Ok(lines.is_empty())
}
