//! Reads lines of a count, a word and hex digits, and prints what Ed25519 gives for them, so many times over.
//!
//! `1 key SECRET` prints a public key, `1 sign SECRET MESSAGE` a signature, and `1 verify KEY MESSAGE SIGNATURE` how
//! often the signature was valid. Of a key that is printed after more steps each one is the next secret, and of a
//! signature each one the next message. A dash stands for no bytes.
#![tactic(auto)]

use hex::FromHex;
use std::alloc::{AllocError, Global};
use std::io;

/// The bytes of hex digits.
fn bytes_of(alloc: Global, digits: &str) -> Result<Option<Vec<u8>>, AllocError> {
    if digits == "-" {
        return Ok(Some(Vec::new(alloc)));
    }
    match hex::decode(alloc, digits) {
        Ok(bytes) => Ok(Some(bytes)),
        Err(_) => Ok(None),
    }
}

/// The last of so many public keys, each the secret of the next.
fn iterate_key(count: u32, secret: [u8; 32]) -> [u8; 32] {
    let mut last = secret;
    for _ in 0..count {
        last = ed25519::public_key(&last);
    }
    last
}

/// The last of so many more signatures, each the message of the next.
fn iterate_sign(count: u32, secret: &[u8; 32], message: &[u8]) -> [u8; 64] {
    let mut last = ed25519::sign(secret, message);
    for _ in 1..count {
        last = ed25519::sign(secret, &last);
    }
    last
}

/// How often the signature is valid.
fn count_valid(count: u32, key: &[u8], message: &[u8], signature: &[u8]) -> u32 {
    let mut valid = 0u32;
    for _ in 0..count {
        if ed25519::verify(key, message, signature) && valid < u32::MAX {
            valid += 1;
        }
    }
    valid
}

/// What is printed for a secret.
fn key_line(alloc: Global, count: u32, secret: &str) -> Result<String, AllocError> {
    match <[u8; 32] as FromHex>::from_hex(secret) {
        Ok(secret) => hex::encode(alloc, iterate_key(count, secret)),
        Err(_) => format!(in alloc; "not a secret"),
    }
}

/// What is printed for a secret and a message.
fn sign_line(alloc: Global, count: u32, texts: &str) -> Result<String, AllocError> {
    let Some((secret, message)) = texts.split_once(' ') else {
        return format!(in alloc; "no message");
    };
    let Ok(secret) = <[u8; 32] as FromHex>::from_hex(secret) else {
        return format!(in alloc; "not a secret");
    };
    match bytes_of(alloc, message)? {
        Some(message) => hex::encode(alloc, iterate_sign(count, &secret, &message)),
        None => format!(in alloc; "not a message"),
    }
}

/// What is printed for a key, a message and a signature.
fn verify_line(alloc: Global, count: u32, texts: &str) -> Result<String, AllocError> {
    let Some((key, rest)) = texts.split_once(' ') else {
        return format!(in alloc; "no message");
    };
    let Some((message, signature)) = rest.split_once(' ') else {
        return format!(in alloc; "no signature");
    };
    let key = bytes_of(alloc, key)?;
    let message = bytes_of(alloc, message)?;
    let signature = bytes_of(alloc, signature)?;
    match (key, message, signature) {
        (Some(key), Some(message), Some(signature)) => {
            let valid = count_valid(count, &key, &message, &signature);
            format!(in alloc; "{valid}")
        }
        _ => format!(in alloc; "not hex"),
    }
}

/// What is printed for a line.
fn answer(alloc: Global, line: &str) -> Result<String, AllocError> {
    let Some((count, call)) = line.split_once(' ') else {
        return format!(in alloc; "no word");
    };
    let Some((word, texts)) = call.split_once(' ') else {
        return format!(in alloc; "no bytes");
    };
    let Ok(count) = count.parse::<u32>() else {
        return format!(in alloc; "not a count");
    };
    match word {
        "key" => key_line(alloc, count, texts),
        "sign" => sign_line(alloc, count, texts),
        "verify" => verify_line(alloc, count, texts),
        _ => format!(in alloc; "not a word"),
    }
}

fn main(rt: HostRuntime) -> io::Result<()> {
    for line in rt.lines(rt.alloc()) {
        let text = answer(rt.alloc(), line?.as_str())?;
        println!(rt; "{text}")?;
    }
    Ok(())
}
