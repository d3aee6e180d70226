//! Rows from outside: FIPS 197, C.1, and McGrew and Viega, "The Galois/Counter Mode of Operation",
//! cases 1 to 4.

use crate::digits::{are, bytes_of};
use aes128gcm::{Aes128, open, seal};
use hex::FromHex;
use std::alloc::{AllocError, Global};
use std::test::Fail;

/// Key, nonce, additional data, text, and the ciphertext with its tag.
const ROWS: &[[&str; 5]] = &[
    [
        "00000000000000000000000000000000",
        "000000000000000000000000",
        "",
        "",
        "58e2fccefa7e3061367f1d57a4e7455a",
    ],
    [
        "00000000000000000000000000000000",
        "000000000000000000000000",
        "",
        "00000000000000000000000000000000",
        "0388dace60b6a392f328c2b971b2fe78ab6e47d42cec13bdf53a67b21257bddf",
    ],
    [
        "feffe9928665731c6d6a8f9467308308",
        "cafebabefacedbaddecaf888",
        "",
        "d9313225f88406e5a55909c5aff5269a86a7a9531534f7da2e4c303d8a318a721c3c0c95956809532fcf0e2449a6b525b16aedf5aa0de657ba637b391aafd255",
        "42831ec2217774244b7221b784d0d49ce3aa212f2c02a4e035c17e2329aca12e21d514b25466931c7d8f6a5aac84aa051ba30b396a0aac973d58e091473f59854d5c2af327cd64a62cf35abd2ba6fab4",
    ],
    [
        "feffe9928665731c6d6a8f9467308308",
        "cafebabefacedbaddecaf888",
        "feedfacedeadbeeffeedfacedeadbeefabaddad2",
        "d9313225f88406e5a55909c5aff5269a86a7a9531534f7da2e4c303d8a318a721c3c0c95956809532fcf0e2449a6b525b16aedf5aa0de657ba637b39",
        "42831ec2217774244b7221b784d0d49ce3aa212f2c02a4e035c17e2329aca12e21d514b25466931c7d8f6a5aac84aa051ba30b396a0aac973d58e0915bc94fbc3221a5db94fae95ae7121a47",
    ],
];

/// A key, a nonce and additional data.
#[derive(Drop)]
struct Under {
    key: [u8; 16],
    nonce: [u8; 12],
    aad: Vec<u8>,
}

/// What a row is sealed under, in a box.
fn read_under(alloc: Global, row: &[&str; 5]) -> Result<Box<Under>, Fail> {
    let [key, nonce, aad, _, _] = *row;
    let key = <[u8; 16]>::from_hex(key).ok().ok_or("key")?;
    let nonce = <[u8; 12]>::from_hex(nonce).ok().ok_or("nonce")?;
    let aad = bytes_of(alloc, aad)?;
    Ok(Box::new(alloc, Under { key, nonce, aad })?)
}

/// Whether bytes stay shut.
fn stays_shut(alloc: Global, under: &Under, aad: &[u8], sealed: &[u8]) -> Result<bool, AllocError> {
    Ok(open(alloc, &under.key, &under.nonce, aad, sealed)?.is_none())
}

/// Whether bytes open to this text.
fn opens(alloc: Global, under: &Under, sealed: &[u8], text: &[u8]) -> Result<bool, AllocError> {
    match open(alloc, &under.key, &under.nonce, &under.aad, sealed)? {
        Some(opened) => Ok(opened.as_slice() == text),
        None => Ok(false),
    }
}

/// Whether a text is sealed as these bytes, which open to it, and not with other additional data; and no fewer bytes
/// than a tag has open.
fn is_sealed(alloc: Global, under: &Under, sealed: &[u8], text: &[u8]) -> Result<bool, AllocError> {
    let made = seal(alloc, &under.key, &under.nonce, &under.aad, text)?;
    Ok(
        made.as_slice() == sealed
            && opens(alloc, under, sealed, text)?
            && stays_shut(alloc, under, b"other", sealed)?
            && stays_shut(alloc, under, &under.aad, &[0; 15])?,
    )
}

/// Whether a row is sealed and opened as it says.
fn holds(alloc: Global, row: &[&str; 5]) -> Result<bool, Fail> {
    let under = read_under(alloc, row)?;
    let text = bytes_of(alloc, row[3])?;
    let sealed = bytes_of(alloc, row[4])?;
    Ok(is_sealed(alloc, &under, &sealed, &text)?)
}

/// How many rows are so, from the first on.
fn count_held(alloc: Global, rows: &[[&str; 5]]) -> Result<usize, Fail> {
    for i in 0..rows.len() {
        if !holds(alloc, &rows[i])? {
            return Ok(i);
        }
    }
    Ok(rows.len())
}

#[test]
fn galois_counter_mode(rt: HostRuntime) -> Result<(), Fail> {
    assert_eq!(rt; count_held(rt.alloc(), ROWS)?, ROWS.len());
    Ok(())
}

/// Sixteen bytes from digits.
fn block_of(digits: &str) -> Result<[u8; 16], Fail> {
    Ok(<[u8; 16]>::from_hex(digits).ok().ok_or("digits")?)
}

/// What the example's text is encrypted to.
fn example() -> Result<[u8; 16], Fail> {
    let key = block_of("000102030405060708090a0b0c0d0e0f")?;
    let text = block_of("00112233445566778899aabbccddeeff")?;
    Ok(Aes128::new(&key).encrypt(&text))
}

#[test]
fn cipher_example(rt: HostRuntime) -> Result<(), Fail> {
    assert!(rt; are(rt.alloc(), &example()?, "69c4e0d86a7b0430d8cdb78070b4c55a")?);
    Ok(())
}
