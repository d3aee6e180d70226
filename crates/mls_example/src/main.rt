//! The life of a small group, as a caller of the library writes it.
#![tactic(auto)]

use anyhow::{Context, Result};
use mls::{Bytes, Candidate, Conversation, Item, Made, Member, Proposal, Seed, Suite0001};
use std::alloc::Global;
use std::str::from_utf8;

/// A key that all members of the epoch can make (RFC 9420, 8.5), in hex digits.
fn export_key(alloc: Global, member: &Member<Suite0001>) -> Result<String> {
    let mut key = [0; 16];
    member.secrets().export("example", b"file", &mut key)?;
    Ok(hex::encode(alloc, key.as_slice())?)
}

/// What one member says, as the other hears it.
fn tell(
    speaker: &mut Conversation<Suite0001>,
    hearer: &mut Conversation<Suite0001>,
    words: &[u8],
    seed: &Seed,
) -> Result<Bytes> {
    let message = speaker.seal(words, &[], 0, seed)?;
    Ok(hearer.open(&message)?.application_data)
}

/// Two members speak to each other. Each has one conversation in an epoch.
fn speak(
    rt: &impl Print,
    alloc: Global,
    alice: &Member<Suite0001>,
    bob: &Member<Suite0001>,
) -> Result<()> {
    let mut hers = Conversation::of(alloc, alice)?;
    let mut his = Conversation::of(alloc, bob)?;
    let hello = tell(&mut hers, &mut his, b"hello", &[8; 32])?;
    println!(rt; "bob hears {}", from_utf8(hello.as_slice())?)?;
    let hi = tell(&mut his, &mut hers, b"hi", &[9; 32])?;
    println!(rt; "alice hears {}", from_utf8(hi.as_slice())?)?;
    Ok(())
}

fn run(rt: &impl Print, alloc: Global) -> Result<()> {
    // Alice creates a group, and adds Bob, who joins by the Welcome.
    let alice = Candidate::new(alloc, b"alice", &[1; 32])?;
    let bob = Candidate::new(alloc, b"bob", &[2; 32])?;
    let mut alice: Member<Suite0001> = Member::create(alloc, &alice, b"group", &[3; 32])?;
    let Made { commit, welcome } = alice.commit(&[Item::Full(bob.addition()?)], true, &[4; 32])?;
    let welcome = welcome.context("nobody is welcome")?;
    alice.process(&commit)?;
    let bob: Member<Suite0001> = Member::join(alloc, &bob, &welcome)?.member;

    // Bob's program saves him, ends, and goes on with what it saved.
    let saved = bob.save()?;
    drop(bob);
    let mut bob: Member<Suite0001> = Member::load(alloc, &saved)?;
    speak(rt, alloc, &alice, &bob)?;

    // Bob proposes a new key for his leaf, and Alice commits all that she keeps.
    alice.process(&bob.propose_update(&[5; 32])?)?;
    let commit = alice.commit_kept(true, &[6; 32])?.made.commit;
    alice.process(&commit)?;
    bob.process(&commit)?;
    println!(rt; "both are in epoch {}", bob.epoch())?;
    println!(rt; "alice exports the key {}", export_key(alloc, &alice)?)?;
    println!(rt; "bob exports the key {}", export_key(alloc, &bob)?)?;

    // Alice removes Bob.
    let removal = Item::Full(Proposal::Remove(bob.leaf_index()));
    let commit = alice.commit(&[removal], true, &[7; 32])?.commit;
    alice.process(&commit)?;
    bob.process(&commit)?;
    println!(rt; "bob is gone: {}", bob.is_gone())?;
    Ok(())
}

fn main(rt: HostRuntime) -> Result<()> {
    run(&rt, rt.alloc())
}
