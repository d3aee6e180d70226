//! Glass, the practice suite of mls_suite. Values by Python's hashlib and hmac.

use crate::digits::{are, bytes_of};
use mls_kdf::hmac;
use mls_suite::{
    Glass, OutOfMemory, Sealed, Suite, decrypt_with_label, encrypt_with_label, sign_with_label,
    verify_with_label,
};
use std::alloc::Global;
use std::test::Fail;

/// Whether something was opened, and is this text.
fn is_text(opened: Option<Vec<u8>>, text: &[u8]) -> bool {
    match opened {
        Some(opened) => opened.as_slice() == text,
        None => false,
    }
}

/// The bytes from 0 to 69.
fn seventy(alloc: Global) -> Result<Vec<u8>, OutOfMemory> {
    let mut text = Vec::new(alloc);
    for i in 0..70u8 {
        text.push(i)?;
    }
    Ok(text)
}

const BOX: &str =
    "ad8cf668b8fee028a71b48029d1c771239248317aa08d8cbdd80c482e8b11f0ed5fd4240abdc24a2e74dff300e9791fa8882431653813558417f46cfb54fd709315400285d2805a1396fb17d0b29386cf1cf2a1a9c5bc764807477a1695a7c457ec622cd5cff";

/// Whether a text is sealed as this box, and opened again.
fn is_boxed(alloc: Global, text: &[u8], digits: &str) -> Result<bool, OutOfMemory> {
    let ct = Glass::aead_seal(alloc, &[1; 16], &[2; 12], b"aad", text)?;
    let opened = Glass::aead_open(alloc, &[1; 16], &[2; 12], b"aad", &ct)?;
    Ok(is_text(opened, text) && are(alloc, &ct, digits)?)
}

#[test]
fn box_of_three_blocks(rt: HostRuntime) -> Result<(), Fail> {
    let text = seventy(rt.alloc())?;
    assert!(rt; is_boxed(rt.alloc(), &text, BOX)?);
    Ok(())
}

const DERIVED: &str = "2325db2ee95af714c4057c1f903292bc7bc8147bcbf7ca9135950902497d1f84";

/// Whether the pair of "ikm" has this private key and its public key.
fn is_derived(alloc: Global) -> Result<bool, OutOfMemory> {
    let pair = Glass::derive_key_pair(alloc, b"ikm")?;
    let pk = Glass::public(alloc, &pair.sk)?;
    Ok(pk == pair.pk && are(alloc, &pair.sk, DERIVED)?)
}

const PUBLIC: &str = "b51dac3e8aea6f0933116071c9f2e5d5ad09ff4edc0e3f06bf03c72dee485d44";

const KEM: &str = "830f847a0d7fe3a4e8bbb61494f394c437190742b66dfd5efe521a35950ae85a";

const CT: &str = "63fe5828b8244363746183d14a384435140b28c4e2e3ef341248de7cddc3ac2fbc55cb2f";

/// Whether something was sealed, and has these parts.
fn is_sealed(
    alloc: Global,
    sealed: Option<Sealed>,
    kem: &str,
    ct: &str,
) -> Result<bool, OutOfMemory> {
    match sealed {
        Some(sealed) => Ok(are(alloc, &sealed.kem, kem)? && are(alloc, &sealed.ct, ct)?),
        None => Ok(false),
    }
}

/// Whether "text" is sealed so to the key of 32 bytes 7.
fn seals(alloc: Global) -> Result<bool, OutOfMemory> {
    let pk = Glass::public(alloc, &[7; 32])?;
    let sealed = Glass::seal(alloc, &pk, b"info", b"text", &[9; 32])?;
    Ok(are(alloc, &pk, PUBLIC)? && is_sealed(alloc, sealed, KEM, CT)?)
}

/// Whether it opens again.
fn unseals(alloc: Global) -> Result<bool, OutOfMemory> {
    let kem = bytes_of(alloc, KEM)?;
    let ct = bytes_of(alloc, CT)?;
    let opened = Glass::unseal(alloc, &[7; 32], &kem, b"info", &ct)?;
    Ok(is_text(opened, b"text"))
}

#[test]
fn keys_and_seals(rt: HostRuntime) -> Result<(), Fail> {
    assert!(rt; is_derived(rt.alloc())?);
    assert!(rt; seals(rt.alloc())?);
    assert!(rt; unseals(rt.alloc())?);
    Ok(())
}

const SIGNATURE: &str = "bd5d51ec94094e08dd05c47c19b3853c6a4d928c841cd340800959c840dc5e4f";

/// Whether "leaf" is signed so.
fn signs(alloc: Global) -> Result<bool, OutOfMemory> {
    let signature = sign_with_label::<Glass>(alloc, &[7; 32], "LeafNodeTBS", b"leaf")?;
    are(alloc, &signature, SIGNATURE)
}

/// Whether the signature is one of this content.
fn verifies(alloc: Global, content: &[u8; 4]) -> Result<bool, OutOfMemory> {
    let pk = Glass::sig_public(alloc, &[7; 32])?;
    let signature = bytes_of(alloc, SIGNATURE)?;
    verify_with_label::<Glass>(alloc, &pk, "LeafNodeTBS", content, &signature)
}

/// Whether it is one of no bytes.
fn verifies_nothing(alloc: Global) -> Result<bool, OutOfMemory> {
    let pk = Glass::sig_public(alloc, &[7; 32])?;
    let signature = bytes_of(alloc, SIGNATURE)?;
    verify_with_label::<Glass>(alloc, &pk, "LeafNodeTBS", b"", &signature)
}

const WELCOME: &str =
    "0bb42c2ffd80182996e6547c50f21411b1a6e75e0a9ef3b561e1c080f2d242488eb7f8b4d2b2";

/// "secret" sealed to the key of 32 bytes 7.
fn welcome(alloc: Global) -> Result<Option<Sealed>, OutOfMemory> {
    let pk = Glass::public(alloc, &[7; 32])?;
    encrypt_with_label::<Glass>(alloc, &pk, "Welcome", b"context", b"secret", &[9; 32])
}

/// Whether it is sealed so, and opens again.
fn is_welcomed(alloc: Global) -> Result<bool, OutOfMemory> {
    let Some(sealed) = welcome(alloc)? else {
        return Ok(false);
    };
    let ct = bytes_of(alloc, WELCOME)?;
    let opened = decrypt_with_label::<Glass>(
        alloc,
        &[7; 32],
        "Welcome",
        b"context",
        &sealed.kem,
        &ct,
    )?;
    Ok(sealed.ct == ct && is_text(opened, b"secret"))
}

#[test]
fn labelled_calls(rt: HostRuntime) -> Result<(), Fail> {
    assert!(rt; signs(rt.alloc())?);
    assert!(rt; verifies(rt.alloc(), b"leaf")?);
    assert!(rt; !verifies_nothing(rt.alloc())?);
    assert!(rt; is_welcomed(rt.alloc())?);
    Ok(())
}

/// What is sealed of 32 bytes, to the key of 32 bytes 1.
fn sealed_secret(alloc: Global) -> Result<Option<Sealed>, OutOfMemory> {
    let pk = Glass::public(alloc, &[1; 32])?;
    Glass::seal(alloc, &pk, b"info", &[5; 32], &[2; 32])
}

/// Whether it has a key of 32 bytes and a text of 64, and no text of 31 bytes opens by the key.
fn has_sizes(alloc: Global) -> Result<bool, OutOfMemory> {
    match sealed_secret(alloc)? {
        Some(sealed) => Ok(
            sealed.kem.len() == 32
                && sealed.ct.len() == 64
                && Glass::unseal(alloc, &[1; 32], &sealed.kem, b"info", &[0; 31])?.is_none(),
        ),
        None => Ok(false),
    }
}

/// Whether a key of 31 bytes isn't fit, and nothing is sealed to it.
fn is_unfit(alloc: Global) -> Result<bool, OutOfMemory> {
    let sealed = Glass::seal(alloc, &[0; 31], b"info", &[5; 32], &[2; 32])?;
    Ok(sealed.is_none() && !Glass::key_ok(&[0; 31]))
}

/// Whether a public key is fit.
fn is_fit(alloc: Global) -> Result<bool, OutOfMemory> {
    Ok(Glass::key_ok(&Glass::public(alloc, &[1; 32])?))
}

/// Whether a box of 31 bytes stays shut.
fn stays_shut(alloc: Global) -> Result<bool, OutOfMemory> {
    Ok(Glass::aead_open(alloc, &[1; 16], &[2; 12], b"aad", &[0; 31])?.is_none())
}

#[test]
fn sizes(rt: HostRuntime) -> Result<(), Fail> {
    assert!(rt; has_sizes(rt.alloc())?);
    assert!(rt; is_fit(rt.alloc())?);
    assert!(rt; is_unfit(rt.alloc())?);
    assert!(rt; stays_shut(rt.alloc())?);
    Ok(())
}

const FIRST_BLOCK: &str = "7667161d7ca9d9fcfd70fc9a875dd122fe2be14f965c9597b03cd989306b0cb0";

const GREATEST_BLOCK: &str = "6c04fa2b617830e1a17474a0c6bed2344cf4b1355187bcbe95bcd5b33ad674c1";

// The counter of the stream has 32 bits: blocks 0 and 2^32 - 1 are the tags of a byte and the counter, and behind the
// greatest it goes on from 0, as `stream_block` promises for each.
#[test]
fn blocks_of_the_stream(rt: HostRuntime) -> Result<(), Fail> {
    let alloc = rt.alloc();
    assert!(rt; are(alloc, &hmac(b"k", &[b"\x73\x00\x00\x00\x00"]), FIRST_BLOCK)?);
    assert!(rt;
        are(
            alloc,
            &hmac(b"k", &[b"\x73\xff\xff\xff\xff"]),
            GREATEST_BLOCK
        )?
    );
    Ok(())
}
