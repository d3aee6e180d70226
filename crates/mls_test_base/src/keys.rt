//! Hashes, tags and derived keys of mls_kdf.

use crate::digits::{are, are_ones, bytes_of, ones};
use mls_kdf::{
    KdfError, MAX_OUTPUT, Secret, derive_secret, expand, expand_with_label, extract, hash, hmac,
    ref_hash,
};
use std::alloc::{AllocError, Global};
use std::test::Fail;

#[test]
fn pieces_are_one_text(rt: HostRuntime) -> Result<(), Fail> {
    let expected = "ba7816bf8f01cfea414140de5dae2223b00361a396177a9cb410ff61f20015ad";
    assert!(rt; are(rt.alloc(), &hash(&[b"a", b"bc"]), expected)?);
    Ok(())
}

// RFC 4231, case 1.
#[test]
fn tag_of_hi_there(rt: HostRuntime) -> Result<(), Fail> {
    let expected = "b0344c61d8db38535ca8afceaf0bf12b881dc200c9833da726e9376c2e32cff7";
    assert!(rt;
        are(
            rt.alloc(),
            &hmac(&[0x0b; 20], &[b"Hi ", b"There"]),
            expected
        )?
    );
    Ok(())
}

/// RFC 5869, case 1: the secret that is extracted.
fn first_secret(alloc: Global) -> Result<Secret, AllocError> {
    let salt = bytes_of(alloc, "000102030405060708090a0b0c")?;
    Ok(extract(&salt, &[0x0b; 22]))
}

/// Whether this output is expanded of a secret.
fn is_expanded(
    alloc: Global,
    secret: &Secret,
    info: &str,
    digits: &str,
) -> Result<bool, AllocError> {
    let info = bytes_of(alloc, info)?;
    let mut out = bytes_of(alloc, digits)?;
    out.fill(0);
    let is_made = expand(secret, &[&info], &mut out).is_ok();
    Ok(is_made && are(alloc, &out, digits)?)
}

fn is_first_case(alloc: Global) -> Result<bool, AllocError> {
    let expected = "077709362c2e32df0ddc3f0dc47bba6390b6c73bb50f9c3122ec844ad7c2b3e5";
    let secret = first_secret(alloc)?;
    let out =
        "3cb25f25faacd57a90434f64d0362f2a2d2d0a90cf1a5a4c5db02d56ecc4c5bf34007208d5b887185865";
    Ok(are(alloc, &secret, expected)? && is_expanded(alloc, &secret, "f0f1f2f3f4f5f6f7f8f9", out)?)
}

#[test]
fn first_hkdf_case(rt: HostRuntime) -> Result<(), Fail> {
    assert!(rt; is_first_case(rt.alloc())?);
    Ok(())
}

const TOO_LONG: Result<(), KdfError> = Err(KdfError::OutputTooLong);

/// Whether a longer output is refused, and stays as it is.
fn is_too_long(alloc: Global) -> Result<bool, AllocError> {
    let mut over = ones(alloc, MAX_OUTPUT + 1)?;
    let plain = expand(&[], &[], &mut over) == TOO_LONG;
    let labelled = expand_with_label(&[], "path", &[], &mut over) == TOO_LONG;
    Ok(plain && labelled && are_ones(&over))
}

/// Whether the longest output is made.
fn is_made(alloc: Global) -> Result<bool, AllocError> {
    let mut fitting = ones(alloc, MAX_OUTPUT)?;
    Ok(expand(&[], &[], &mut fitting).is_ok())
}

#[test]
fn longest_output(rt: HostRuntime) -> Result<(), Fail> {
    assert!(rt; is_too_long(rt.alloc())?);
    assert!(rt; is_made(rt.alloc())?);
    assert_eq!(rt; KdfError::OutputTooLong.number(), 10);
    assert_eq!(rt; KdfError::OutputTooLong.name(), "OutputTooLong");
    Ok(())
}

// What DeriveSecret expands under the label "path": KDFLabel, spelled out. Its value is by Python's
// hmac, as is RefHash.
const PATH_LABEL: &str = "00200c4d4c5320312e30207061746800";

const PATH: &str = "760b16e5de37689c3bff97c8929805e45fa41df83d65e9a18511b0441235f46a";

const REFERENCE: &str = "c88cff10568b5e5dc656b32ce90f097d1450d1907eb3b4a043a74ef7b5f6944d";

#[test]
fn labelled_functions(rt: HostRuntime) -> Result<(), Fail> {
    let alloc = rt.alloc();
    assert!(rt; are(alloc, &derive_secret(&[0; 32], "path"), PATH)?);
    assert!(rt; is_expanded(alloc, &[0; 32], PATH_LABEL, PATH)?);
    assert!(rt;
        are(
            alloc,
            &ref_hash("MLS 1.0 Proposal Reference", b"value"),
            REFERENCE
        )?
    );
    Ok(())
}
