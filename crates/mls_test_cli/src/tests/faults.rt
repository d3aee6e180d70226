//! Ends that fail in turn, and what a run leaves there.

use crate::tests::{Full, request_of, serve_silently, unless_out_of_memory, with_room};
use mls_cli_serve::{NoJob, Request};
use mls_cli_text::Out;
use std::alloc::{AllocError, Global};

/// Whether this byte ends a line, or there is none.
fn ends_line(byte: Option<&u8>) -> bool {
    match byte {
        Some(byte) => *byte == b'\n',
        None => true,
    }
}

/// Whether a writer with so much room takes whole lines of a text, or all of a line but its line feed.
fn fails_at_line(text: &[u8], room: usize) -> bool {
    ends_line(text.get(room)) || ends_line(text.get(room.wrapping_sub(1)))
}

/// Whether a writer with so much room has taken what it can of a text.
fn holds_front(full: &Full, text: &[u8], room: usize) -> bool {
    full.held.len() == room.min(text.len()) && text.starts_with(full.held.as_slice())
}

/// Whether an output with so much room takes what it can of a text: the status is 3 then, and this one where it takes
/// all.
fn is_cut_at(
    alloc: Global,
    request: &Result<Request<'_>, NoJob>,
    file: &str,
    text: &[u8],
    status: u8,
    room: usize,
) -> Result<bool, AllocError> {
    let mut full = with_room(alloc, room)?;
    let mut source = Some(file.as_bytes());
    let mut errors = Vec::new(alloc);
    let answer = serve_silently(
        alloc,
        request,
        &mut source,
        &mut Out::new(&mut full),
        &mut errors,
    );
    unless_out_of_memory(answer, errors.as_slice())?;
    let wanted = if room < text.len() { 3 } else { status };
    Ok(answer == wanted && holds_front(&full, text, room) && errors.is_empty())
}

fn is_cut_by(
    alloc: Global,
    request: &Result<Request<'_>, NoJob>,
    file: &str,
    text: &[u8],
    status: u8,
) -> Result<bool, AllocError> {
    for room in 0..text.len() + 1 {
        if fails_at_line(text, room) && !is_cut_at(alloc, request, file, text, status, room)? {
            return Ok(false);
        }
    }
    Ok(true)
}

/// Whether the write of each line of a text fails in turn, at its first byte and at its line feed, and the last room
/// takes all of the text, with this status.
pub fn is_cut_at_lines(
    alloc: Global,
    words: &[&str],
    file: &str,
    text: &str,
    status: u8,
) -> Result<bool, AllocError> {
    is_cut_by(
        alloc,
        &request_of(alloc, words),
        file,
        text.as_bytes(),
        status,
    )
}

/// Whether an output with so much room, which is less than a text has, takes what it can of it.
pub fn is_cut_after(
    alloc: Global,
    words: &[&str],
    file: &str,
    text: &str,
    room: usize,
) -> Result<bool, AllocError> {
    is_cut_at(
        alloc,
        &request_of(alloc, words),
        file,
        text.as_bytes(),
        3,
        room,
    )
}
