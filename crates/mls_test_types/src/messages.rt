//! Messages and commits.

use crate::digits::{answers, gives, holds, number_of_check, number_of_decoding, value_of};
use mls_types::*;
use std::alloc::Global;
use std::test::Fail;

/// A KeyPackage of "bob" in a message.
const KEY_PACKAGE_MESSAGE: &str =
    "000100050001f00101aa01bb01cc000103626f6202000102f0010000020001010000000000000000ffffffffffffffff0001dd0001ee";

/// The removal of leaf 5, sent by leaf 2 in the group "g" at epoch 0.
const PUBLIC_MESSAGE: &str = "00010001016700000000000000000100000002000200030000000501aa01bb";

const MESSAGES: &[(&str, u8)] = &[
    (KEY_PACKAGE_MESSAGE, 0),
    (PUBLIC_MESSAGE, 0),
    // an empty welcome
    ("00010003f0010000", 0),
];

#[test]
fn messages(rt: HostRuntime) -> Result<(), Fail> {
    one_spelling::<MlsMessage>();
    fault_numbers::<MlsMessage>();
    answers::<MlsMessage>(&rt, rt.alloc(), MESSAGES)
}

const REFUSED: &[(&str, u8)] = &[
    // cut
    (
        "000100050001f00101aa01bb01cc000103626f6202000102f0010000020001010000000000000000ffffffffffffffff0001dd0001",
        2,
    ),
    // longer
    (
        "000100050001f00101aa01bb01cc000103626f6202000102f0010000020001010000000000000000ffffffffffffffff0001dd0001ee00",
        3,
    ),
    // another version
    (
        "000100050002f00101aa01bb01cc000103626f6202000102f0010000020001010000000000000000ffffffffffffffff0001dd0001ee",
        7,
    ),
    // another credential
    (
        "000100050001f00101aa01bb01cc000203626f6202000102f0010000020001010000000000000000ffffffffffffffff0001dd0001ee",
        11,
    ),
    // another sender
    (
        "00010001016700000000000000000200000002000200030000000501aa01bb",
        7,
    ),
];

#[test]
fn messages_refused(rt: HostRuntime) -> Result<(), Fail> {
    answers::<MlsMessage>(&rt, rt.alloc(), REFUSED)
}

const COMMITS: &[(&str, u8)] = &[
    ("070100030000000500", 0),
    ("0000", 0),
    ("0002", 7),
    // with a path
    (
        "000101bb01cc000103626f6202000102f0010000020001010000000000000000ffffffffffffffff0001dd0701770401aa01bb",
        0,
    ),
];

const CIPHERTEXTS: &[(&str, u8)] = &[
    ("00", 0),
    ("0401aa01bb", 0),
    ("0a01aa01bb02ccdd00", 2),
    ("0801aa01bb02ccdd00", 0),
    // a text is missing
    ("0501aa01bb00", 2),
    // a longer header than is needed
    ("0501aa4001bb", 5),
];

#[test]
fn ciphertexts(rt: HostRuntime) -> Result<(), Fail> {
    answers::<Ciphertexts>(&rt, rt.alloc(), CIPHERTEXTS)
}

/// Two ciphertexts: aa with bb, ccdd with no text.
const TWO_CIPHERTEXTS: &str = "0801aa01bb02ccdd00";

/// Whether these are what is lent, or there is none and the texts are empty.
fn is_lent(lent: Option<CiphertextRef<'_>>, kem_output: &[u8], ciphertext: &[u8]) -> bool {
    match lent {
        Some(lent) => lent.kem_output == kem_output && lent.ciphertext == ciphertext,
        None => kem_output.is_empty() && ciphertext.is_empty(),
    }
}

/// Whether the two are these, and no others are lent.
fn are_two(ciphertexts: &Ciphertexts) -> bool {
    ciphertexts.len() == 2
        && is_lent(ciphertexts.get(0), &[0xaa], &[0xbb])
        && is_lent(ciphertexts.get(1), &[0xcc, 0xdd], &[])
        && is_lent(ciphertexts.get(2), &[], &[])
}

fn lend_two(alloc: Global) -> Result<bool, LeafError> {
    let read = value_of::<Ciphertexts>(alloc, TWO_CIPHERTEXTS)?;
    Ok(are_two(&read))
}

#[test]
fn ciphertexts_by_number(rt: HostRuntime) -> Result<(), Fail> {
    assert!(rt; lend_two(rt.alloc())?);
    Ok(())
}

#[test]
fn commits(rt: HostRuntime) -> Result<(), Fail> {
    answers::<Commit>(&rt, rt.alloc(), COMMITS)
}

/// Whether a commit has one proposal in full, the removal of this leaf, and no path.
fn removes(alloc: Global, digits: &str, removed: u32) -> Result<bool, LeafError> {
    let commit = value_of::<Commit>(alloc, digits)?;
    let proposals = commit.proposals.as_slice();
    match proposals.first() {
        Some(ProposalOrRef::Proposal(Proposal::Remove(leaf))) => {
            Ok(*leaf == removed && proposals.len() == 1 && commit.path.is_none())
        }
        _ => Ok(false),
    }
}

#[test]
fn a_removal(rt: HostRuntime) -> Result<(), Fail> {
    holds(
        &rt,
        removes(rt.alloc(), "070100030000000500", 5),
        "the removal of leaf 5",
    )
}

/// What `decode` answers of so many zero bytes as a message, and what `check_all` does. Want of memory is passed on.
fn answers_for_zeros(alloc: Global, count: usize) -> Result<(u8, u8), LeafError> {
    let mut bytes: Vec<u8> = Vec::new(alloc);
    bytes.resize(count, 0)?;
    Ok((
        number_of_decoding::<MlsMessage>(alloc, &bytes)?,
        number_of_check::<MlsMessage>(&bytes),
    ))
}

#[test]
fn long_inputs(rt: HostRuntime) -> Result<(), Fail> {
    let alloc = rt.alloc();
    let long = answers_for_zeros(alloc, 4_194_305);
    gives(&rt, long, (7, 7), "4,194,305 zeros")?;
    let longest = answers_for_zeros(alloc, INPUT_LIMIT);
    gives(&rt, longest, (7, 7), "the longest input of zeros")?;
    let longer = answers_for_zeros(alloc, INPUT_LIMIT + 1);
    gives(&rt, longer, (6, 6), "a zero more")
}
