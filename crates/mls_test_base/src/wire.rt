//! Numbers, headers and byte strings of mls_wire.

use mls_wire::{Reader, WireError, Writer, length_header, one_spelling, read_length};
use std::alloc::Global;
use std::test::Fail;

const REFUSALS: &[(WireError, u8, &str)] = &[
    (WireError::OutOfMemory, 1, "OutOfMemory"),
    (WireError::Truncated, 2, "Truncated"),
    (WireError::Trailing, 3, "Trailing"),
    (WireError::BadLength, 4, "BadLength"),
    (WireError::NotMinimal, 5, "NotMinimal"),
    (WireError::TooLong, 6, "TooLong"),
];

/// How many refusals have this number and this name, from the first on.
fn count_named(rows: &[(WireError, u8, &str)]) -> usize {
    for i in 0..rows.len() {
        let (error, number, name) = rows[i];
        if error.number() != number || error.name() != name {
            return i;
        }
    }
    rows.len()
}

#[test]
fn refusals(rt: HostRuntime) {
    assert_eq!(rt; count_named(REFUSALS), REFUSALS.len());
}

const HEADERS: &[(u32, &[u8])] = &[
    (0, b"\x00"),
    (63, b"\x3f"),
    (64, b"\x40\x40"),
    (16383, b"\x7f\xff"),
    (16384, b"\x80\x00\x40\x00"),
    (1_073_741_823, b"\xbf\xff\xff\xff"),
];

fn is_header(length: u32, bytes: &[u8]) -> bool {
    match length_header(length) {
        Some(header) => header.as_slice() == bytes,
        None => false,
    }
}

/// How many lengths have this header, and are read of it, from the first on.
fn count_headers(rows: &[(u32, &[u8])]) -> usize {
    for i in 0..rows.len() {
        let (length, bytes) = rows[i];
        if !is_header(length, bytes) || read_length(bytes) != Ok((length, bytes.len())) {
            return i;
        }
    }
    rows.len()
}

#[test]
fn headers(rt: HostRuntime) {
    assert_eq!(rt; count_headers(HEADERS), HEADERS.len());
    assert!(rt; length_header(1_073_741_824).is_none());
}

#[test]
fn spellings(rt: HostRuntime) {
    one_spelling();
    assert!(rt; is_header(0, b"\x00"));
}

const NO_LENGTHS: &[(&[u8], WireError)] = &[
    (b"\x40\x05", WireError::NotMinimal),
    (b"\x80\x00\x00\x3f", WireError::NotMinimal),
    (b"\xc0", WireError::BadLength),
    (b"\x40", WireError::Truncated),
    (b"", WireError::Truncated),
    (b"\x40\x3f", WireError::NotMinimal),
    (b"\x80\x00\x3f\xff", WireError::NotMinimal),
    (b"\x80\x00\x40", WireError::Truncated),
];

/// How many bytes are refused so as a length, from the first on.
fn count_refused(rows: &[(&[u8], WireError)]) -> usize {
    for i in 0..rows.len() {
        let (bytes, error) = rows[i];
        if read_length(bytes) != Err(error) {
            return i;
        }
    }
    rows.len()
}

#[test]
fn lengths_that_are_none(rt: HostRuntime) {
    assert_eq!(rt; count_refused(NO_LENGTHS), NO_LENGTHS.len());
}

/// A number of each size, a byte string, and a vector of one number.
const FIELDS: &[u8] =
    b"\x01\x02\x03\x04\x05\x06\x07\x08\x09\x0a\x0b\x0c\x0d\x0e\x0f\x02\xaa\xbb\x02\x10\x11";

/// Whether these numbers and the byte string are read first.
fn reads_front(reader: &mut Reader<'_>) -> Result<bool, WireError> {
    Ok(
        reader.u8()? == 0x01
            && reader.u16()? == 0x0203
            && reader.u32()? == 0x0405_0607
            && reader.u64()? == 0x0809_0a0b_0c0d_0e0f
            && reader.opaque()? == b"\xaa\xbb".as_slice(),
    )
}

/// Whether this vector is read behind them, and nothing is left.
fn reads_vector(reader: &mut Reader<'_>) -> Result<bool, WireError> {
    let is_left = reader.finish() == Err(WireError::Trailing);
    let mut content = reader.vector()?;
    reader.finish()?;
    let is_cut = content.u32() == Err(WireError::Truncated);
    let is_kept = content.rest() == b"\x10\x11".as_slice();
    Ok(is_left && reader.is_empty() && is_cut && is_kept && content.u16()? == 0x1011)
}

fn reads(bytes: &[u8]) -> Result<bool, WireError> {
    let mut reader = Reader::new(bytes);
    Ok(reads_front(&mut reader)? && reads_vector(&mut reader)?)
}

#[test]
fn reads_fields(rt: HostRuntime) -> Result<(), Fail> {
    assert!(rt; reads(FIELDS)?);
    Ok(())
}

/// Writes the numbers and the byte string.
fn write_front(writer: &mut Writer) -> Result<(), WireError> {
    writer.u8(0x01)?;
    writer.u16(0x0203)?;
    writer.u32(0x0405_0607)?;
    writer.u64(0x0809_0a0b_0c0d_0e0f)?;
    writer.opaque(b"\xaa\xbb")
}

/// Writes the vector behind them.
fn write_vector(writer: &mut Writer) -> Result<(), WireError> {
    let start = writer.start_vector()?;
    writer.u16(0x1011)?;
    writer.end_vector(start)
}

/// Whether all fields are written.
fn writes(alloc: Global, bytes: &[u8]) -> Result<bool, WireError> {
    let mut writer = Writer::new(alloc);
    write_front(&mut writer)?;
    write_vector(&mut writer)?;
    let is_written = writer.bytes() == bytes;
    Ok(is_written && writer.into_bytes().as_slice() == bytes)
}

#[test]
fn writes_fields(rt: HostRuntime) -> Result<(), Fail> {
    assert!(rt; writes(rt.alloc(), FIELDS)?);
    Ok(())
}

/// Whether a write adds three bytes, or, where a growth is refused, is answered so and adds none.
fn grows_or_stays(writer: &mut Writer) -> bool {
    let before = writer.bytes().len();
    let written = writer.opaque(b"\xaa\xbb");
    let added = writer.bytes().len().wrapping_sub(before);
    match written {
        Ok(()) => added == 3,
        Err(error) => error.number() == 1 && added == 0,
    }
}

/// Whether each of forty writes does.
fn forty_grow_or_stay(writer: &mut Writer) -> bool {
    for _ in 0..40 {
        if !grows_or_stays(writer) {
            return false;
        }
    }
    true
}

/// Where a growth is refused, the call answers so, and the writer has what it had before.
#[test]
fn refused_growths(rt: HostRuntime) {
    let mut writer = Writer::new(rt.alloc());
    assert!(rt; forty_grow_or_stay(&mut writer));
}

/// Lengths of contents about those where a header gets longer.
const LENGTHS: &[usize] = &[0, 1, 63, 64, 65, 16383, 16384, 16385];

/// Writes zeros, each by a call.
fn write_zeros(writer: &mut Writer, count: usize) -> Result<(), WireError> {
    for _ in 0..count {
        writer.u8(0)?;
    }
    Ok(())
}

/// Writes a vector of zeros in a vector, with a byte before, between and behind.
fn write_nested(writer: &mut Writer, count: usize) -> Result<(), WireError> {
    writer.u8(0x11)?;
    let outer = writer.start_vector()?;
    writer.u8(0x22)?;
    let inner = writer.start_vector()?;
    write_zeros(writer, count)?;
    writer.end_vector(inner)?;
    writer.end_vector(outer)?;
    writer.u8(0x33)
}

/// The same of what was written elsewhere.
fn write_apart(alloc: Global, writer: &mut Writer, count: usize) -> Result<(), WireError> {
    let mut inner = Writer::new(alloc);
    write_zeros(&mut inner, count)?;
    let mut outer = Writer::new(alloc);
    outer.u8(0x22)?;
    outer.opaque(inner.bytes())?;
    writer.u8(0x11)?;
    writer.opaque(outer.bytes())?;
    writer.u8(0x33)
}

/// How many lengths give the same bytes in both ways, from the first on.
fn count_nested(alloc: Global, lengths: &[usize]) -> Result<usize, WireError> {
    for i in 0..lengths.len() {
        let mut here = Writer::new(alloc);
        write_nested(&mut here, lengths[i])?;
        let mut apart = Writer::new(alloc);
        write_apart(alloc, &mut apart, lengths[i])?;
        if here.bytes() != apart.bytes() {
            return Ok(i);
        }
    }
    Ok(lengths.len())
}

#[test]
fn vectors_in_place(rt: HostRuntime) -> Result<(), Fail> {
    assert_eq!(rt; count_nested(rt.alloc(), LENGTHS)?, LENGTHS.len());
    Ok(())
}

/// A vector that was started in a longer writer is empty here.
fn ends_elsewhere(alloc: Global) -> Result<bool, WireError> {
    let mut longer = Writer::new(alloc);
    longer.u16(0x1011)?;
    let start = longer.start_vector()?;
    let mut writer = Writer::new(alloc);
    writer.u8(0x11)?;
    writer.end_vector(start)?;
    Ok(writer.bytes() == b"\x11\x00".as_slice())
}

#[test]
fn vector_started_elsewhere(rt: HostRuntime) -> Result<(), Fail> {
    assert!(rt; ends_elsewhere(rt.alloc())?);
    Ok(())
}

/// Whether a vector is added whole or, where its header finds no memory, taken away; not where its content finds none.
fn ends_or_stays(writer: &mut Writer, length: usize) -> Result<bool, WireError> {
    let before = writer.bytes().len();
    let start = writer.start_vector()?;
    write_zeros(writer, length)?;
    let ended = writer.end_vector(start);
    let added = writer.bytes().len().wrapping_sub(before);
    Ok(match ended {
        Ok(()) => length < added,
        Err(error) => error.number() == 1 && added == 0,
    })
}

/// Where the growth for a header is refused, the call answers so, and the writer has what stood before the vector. The
/// first room is full with 127 bytes of content.
#[test]
fn refused_header(rt: HostRuntime) {
    let mut writer = Writer::new(rt.alloc());
    assert!(rt; ends_or_stays(&mut writer, 127).unwrap_or(true));
}
