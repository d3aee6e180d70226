//! What is printed: lines `part: name: value`, with bytes in hex, of trees and of an epoch's secrets a digest.

use crate::call::Answer;
use anyhow::Result;
use mls_kdf::hash;
use mls_member::{Candidate, Effect, Joined, Made, Member, Refusal};
use mls_schedule::Epoch;
use mls_suite::Glass;
use std::alloc::Global;

/// A byte string.
pub(crate) fn print_bytes(
    rt: &impl Print,
    alloc: Global,
    part: &str,
    name: &str,
    bytes: &[u8],
) -> Result<()> {
    if bytes.is_empty() {
        println!(rt; "{part}: {name}: -")?;
        return Ok(());
    }
    let digits = hex::encode(alloc, bytes)?;
    println!(rt; "{part}: {name}: {digits}")?;
    Ok(())
}

/// A byte string that may be missing.
fn print_found(
    rt: &impl Print,
    alloc: Global,
    part: &str,
    name: &str,
    found: Option<&[u8]>,
) -> Result<()> {
    match found {
        Some(bytes) => print_bytes(rt, alloc, part, name, bytes),
        None => {
            println!(rt; "{part}: {name}: none")?;
            Ok(())
        }
    }
}

/// A digest of the ten secrets of an epoch.
fn print_epoch(rt: &impl Print, alloc: Global, part: &str, epoch: &Epoch) -> Result<()> {
    let secrets = epoch.secrets().concat(alloc)?;
    print_bytes(rt, alloc, part, "secrets", &hash(&[&secrets]))
}

/// The private keys of a member.
fn print_keys(rt: &impl Print, alloc: Global, part: &str, member: &Member<Glass>) -> Result<()> {
    let keys = member.held_keys()?;
    for (node, key) in &keys {
        let digits = hex::encode(alloc, key)?;
        println!(rt; "{part}: key {node}: {digits}")?;
    }
    Ok(())
}

/// The public state of a member's group.
fn print_group(rt: &impl Print, alloc: Global, part: &str, member: &Member<Glass>) -> Result<()> {
    let transcript = member.confirmed_transcript_hash();
    let interim = member.interim_transcript_hash();
    print_bytes(rt, alloc, part, "group_id", member.group_id())?;
    print_bytes(rt, alloc, part, "context", member.context_bytes())?;
    print_bytes(rt, alloc, part, "tree", &hash(&[&member.tree_bytes()?]))?;
    print_bytes(rt, alloc, part, "confirmed_transcript_hash", transcript)?;
    print_bytes(rt, alloc, part, "interim_transcript_hash", interim)
}

/// A digest of what a member is saved as.
fn print_saved(rt: &impl Print, alloc: Global, part: &str, member: &Member<Glass>) -> Result<()> {
    print_bytes(rt, alloc, part, "saved", &hash(&[&member.save()?]))
}

/// All that a member shows, of its proposals the one of a reference.
pub(crate) fn print_member(
    rt: &impl Print,
    alloc: Global,
    part: &str,
    member: &Member<Glass>,
    reference: &[u8],
) -> Result<()> {
    println!(rt; "{part}: gone: {}", member.is_gone())?;
    println!(rt; "{part}: leaf_index: {}", member.leaf_index())?;
    println!(rt; "{part}: epoch: {}", member.epoch())?;
    print_group(rt, alloc, part, member)?;
    print_epoch(rt, alloc, part, member.secrets())?;
    print_keys(rt, alloc, part, member)?;
    print_saved(rt, alloc, part, member)?;
    print_found(rt, alloc, part, "kept", member.kept_message(reference))?;
    match member.pending_secret() {
        Some(secret) => print_bytes(rt, alloc, part, "pending_secret", secret),
        None => print_found(rt, alloc, part, "pending_secret", None),
    }
}

/// All that a candidate shows.
pub(crate) fn print_candidate(
    rt: &impl Print,
    alloc: Global,
    part: &str,
    candidate: &Candidate<Glass>,
) -> Result<()> {
    print_bytes(rt, alloc, part, "key_package", candidate.message())?;
    print_bytes(rt, alloc, part, "init_key", candidate.init_key())?;
    print_bytes(rt, alloc, part, "leaf_key", candidate.leaf_key())?;
    print_bytes(rt, alloc, part, "signing_key", candidate.signing_key())
}

/// A refusal.
pub(crate) fn print_refusal(rt: &impl Print, part: &str, number: u8, name: &str) -> Result<()> {
    println!(rt; "{part}: refused: {number} {name}")?;
    Ok(())
}

fn print_effect(rt: &impl Print, alloc: Global, part: &str, effect: Effect) -> Result<()> {
    match effect {
        Effect::Proposed { reference } => print_bytes(rt, alloc, part, "proposed", &reference),
        Effect::Known { reference } => print_bytes(rt, alloc, part, "known", &reference),
        Effect::Advanced { epoch } => {
            println!(rt; "{part}: advanced: {epoch}")?;
            Ok(())
        }
        Effect::Removed => {
            println!(rt; "{part}: removed")?;
            Ok(())
        }
    }
}

/// The messages of a commit.
fn print_made(rt: &impl Print, alloc: Global, part: &str, made: &Made) -> Result<()> {
    print_bytes(rt, alloc, part, "commit", &made.commit)?;
    match &made.welcome {
        Some(welcome) => print_bytes(rt, alloc, part, "welcome", welcome),
        None => print_found(rt, alloc, part, "welcome", None),
    }
}

/// What a call answered.
pub(crate) fn print_answer(
    rt: &impl Print,
    alloc: Global,
    part: &str,
    answer: Result<Answer, Refusal>,
) -> Result<()> {
    match answer {
        Ok(Answer::Made(made)) => print_made(rt, alloc, part, &made),
        Ok(Answer::Did(effect)) => print_effect(rt, alloc, part, effect),
        Ok(Answer::Message(message)) => print_bytes(rt, alloc, part, "message", &message),
        Err(refusal) => print_refusal(rt, part, refusal.number(), refusal.name()),
    }
}

/// A new member, and the GroupInfo that it opened.
fn print_entered(rt: &impl Print, alloc: Global, part: &str, joined: &Joined<Glass>) -> Result<()> {
    print_bytes(rt, alloc, part, "group_info", &joined.group_info)?;
    print_member(rt, alloc, part, &joined.member, &[])
}

/// What a join answered.
pub(crate) fn print_joined(
    rt: &impl Print,
    alloc: Global,
    part: &str,
    answer: Result<Joined<Glass>, Refusal>,
) -> Result<()> {
    match answer {
        Ok(joined) => print_entered(rt, alloc, part, &joined),
        Err(refusal) => print_refusal(rt, part, refusal.number(), refusal.name()),
    }
}
