//! Single messages that no honest member sends, or that are sent to the wrong one.

use crate::acts::{Act, Parts};
use crate::changes::turn_bits;
use crate::forgery::{Committed, path_secret};
use crate::groups;
use crate::outcome::Outcome;
use crate::pieces::{check_limit, concatenate, replace_text, without_last};
use crate::stage::{Receiver, Stage};
use anyhow::{Result, bail};
use mls_kdf::{Secret, Seed};
use mls_leaf::Codec;
use mls_model::{Event, Origin, Source, WorldItem};
use mls_suite::{Glass, sign_with_label};
use mls_world::{Candidate, Member, World};
use std::alloc::Global;

/// What a commit that seals zeros to the second of three is answered.
#[derive(Drop)]
pub struct ForgedAnswers {
    /// Whether the same commit with the right secret is, byte for byte, the one that the committer makes.
    pub is_made_alike: bool,
    /// What the second member answers.
    pub second: Outcome,
    /// Whether all that can be seen of it is as before.
    pub is_same: bool,
    /// What the third member answers, to which the right secret is sealed.
    pub third: Outcome,
}

/// The stage of three after the acts that make them members, and after these ones.
fn three_with(alloc: Global, more: &[Act]) -> Result<Box<Stage>> {
    let mut acts = groups::three(alloc)?;
    acts.extend_from_slice(more)?;
    Stage::after(alloc, &acts, acts.len())
}

/// The stage of three after the first acts that make them members.
fn three_after(alloc: Global, count: usize) -> Result<Box<Stage>> {
    Stage::after(alloc, &groups::three(alloc)?, count)
}

const SEED: Seed = [8; 32];

/// The stage of three after the first committed nothing and followed that: message 5 is the commit.
fn three_after_commit(alloc: Global) -> Result<Box<Stage>> {
    let commit = Act::Commit {
        member: 0,
        parts: Parts::Nothing,
        path: true,
        seed: 8,
    };
    let deliver = Act::Deliver {
        member: 0,
        message: 5,
    };
    three_with(alloc, &[commit, deliver])
}

/// The public key of a member's leaf.
fn leaf_key(stage: &Stage, member: usize) -> Result<&[u8]> {
    let member = stage.member(member)?;
    match member.group().tree().leaf(member.leaf_index()) {
        Some(leaf) => Ok(leaf.encryption_key.as_slice()),
        None => bail!("no leaf"),
    }
}

/// The commit of the first of three, and what it knew.
fn commit_of_first<'a>(
    before: &'a Stage,
    after: &'a Stage,
    seed: &'a Seed,
) -> Result<Committed<'a>> {
    Ok(Committed {
        before: before.member(0)?,
        after: after.member(0)?,
        signing: before.candidate(0)?.signing_key(),
        seed,
        nodes: 2,
        message: after.message(5)?,
    })
}

/// That commit with a secret sealed to the second member in the place of the right one.
fn with_secret(alloc: Global, before: &Stage, after: &Stage, secret: &Secret) -> Result<Vec<u8>> {
    let key = leaf_key(before, 1)?;
    commit_of_first(before, after, &SEED)?.with_secret(alloc, key, secret)
}

/// What a member answers to bytes, and whether all that can be seen of it is as before.
fn give_and_compare(
    alloc: Global,
    stage: &mut Stage,
    to: Receiver,
    bytes: &[u8],
) -> Result<(Outcome, bool)> {
    let before = stage.page(alloc, to, &[])?;
    let outcome = stage.give(alloc, to, bytes)?;
    let is_same = stage.page(alloc, to, &[])? == before;
    Ok((outcome, is_same))
}

/// Whether the commit with the right secret is the one that the committer makes.
fn is_made_alike(alloc: Global, before: &Stage, after: &Stage) -> Result<bool> {
    let right = with_secret(alloc, before, after, &path_secret(&SEED, 0))?;
    Ok(right.as_slice() == after.message(5)?)
}

/// The commit of the first of three, which seals zeros to the second, and whether with the right secret it is the one
/// that the committer makes.
fn commit_with_zeros(alloc: Global, before: &Stage) -> Result<(Vec<u8>, bool)> {
    let after = three_after_commit(alloc)?;
    let is_alike = is_made_alike(alloc, before, &after)?;
    let zeros = with_secret(alloc, before, &after, &[0; 32])?;
    Ok((zeros, is_alike))
}

/// The first of three commits nothing, but seals zeros to the second.
pub fn forged_answers(alloc: Global) -> Result<ForgedAnswers> {
    let mut stage = three_with(alloc, &[])?;
    let (zeros, is_made_alike) = commit_with_zeros(alloc, &stage)?;
    let (second, is_same) = give_and_compare(alloc, &mut stage, Receiver::Member(1), &zeros)?;
    let third = stage.give(alloc, Receiver::Member(2), &zeros)?;
    Ok(ForgedAnswers {
        is_made_alike,
        second,
        is_same,
        third,
    })
}

/// What a Welcome for two, with one bit turned in what is sealed to the second, is answered.
#[derive(Drop)]
pub struct WelcomeAnswers {
    pub first: Outcome,
    pub second: Outcome,
    /// Whether the journal of the first begins with the GroupInfo of the Welcome that was sent.
    pub begins_with_info: bool,
}

/// A byte of what is sealed to the second: the first entry has 168 bytes behind the message's 8, and the second one
/// begins with 68 bytes of reference, encapsulation and headers.
const IN_SECOND: usize = 8 + 168 + 68;

/// The GroupInfo that a candidate opens.
fn info_in(alloc: Global, candidate: &Candidate<Glass>, welcome: &[u8]) -> Result<Vec<u8>> {
    let joined = Member::join(alloc, candidate, welcome)?;
    drop(joined.member);
    Ok(joined.group_info)
}

fn is_info(origin: &Origin, info: &[u8]) -> bool {
    match origin {
        Origin::GroupInfo(bytes) => bytes.as_slice() == info,
        Origin::Creation(_) => false,
    }
}

/// Whether the first becomes a member whose journal begins with this GroupInfo.
fn begins_with(alloc: Global, stage: &mut Stage, welcome: &[u8], info: &[u8]) -> Result<bool> {
    let source = Source::Given(Vec::from_slice(alloc, welcome)?);
    let new = stage.world_mut().join(1, &source)?;
    match stage.world_mut().journal(new.member) {
        Some(journal) => Ok(is_info(journal.origin(), info)),
        None => Ok(false),
    }
}

fn welcome_answers_of(alloc: Global, stage: &mut Stage) -> Result<WelcomeAnswers> {
    let welcome = stage.message(4)?;
    let changed = turn_bits(alloc, welcome, IN_SECOND, 1)?;
    let info = info_in(alloc, stage.candidate(1)?, welcome)?;
    let first = stage.give(alloc, Receiver::Candidate(1), &changed)?;
    let second = stage.give(alloc, Receiver::Candidate(2), &changed)?;
    let begins_with_info = begins_with(alloc, stage, &changed, &info)?;
    Ok(WelcomeAnswers {
        first,
        second,
        begins_with_info,
    })
}

/// Two are added, and their Welcome is changed on its way to the first.
pub fn welcome_answers(alloc: Global) -> Result<WelcomeAnswers> {
    let mut stage = three_after(alloc, 6)?;
    welcome_answers_of(alloc, &mut stage)
}

/// A candidate of group "h", the fourth, who creates it.
fn create_elsewhere(alloc: Global, stage: &mut Stage) -> Result<()> {
    stage.acts(
        alloc,
        &[Act::Candidate {
            name: b'h',
            seed: 7,
        }],
    )?;
    let group = Vec::from_slice(alloc, b"h")?;
    let event = Event::Create {
        candidate: 3,
        group,
        seed: [9; 32],
    };
    let answered = stage.event(alloc, &event);
    drop(event);
    answered
}

/// What a member of another group answers to a message of group "g", and whether it is as before.
pub fn answer_elsewhere(alloc: Global) -> Result<(Outcome, bool)> {
    let mut stage = three_with(alloc, &[Act::Update { member: 1, seed: 6 }])?;
    create_elsewhere(alloc, &mut stage)?;
    let update = Vec::from_slice(alloc, stage.message(5)?)?;
    give_and_compare(alloc, &mut stage, Receiver::Member(3), &update)
}

/// Where in a leaf of a name of one byte the low byte of the only suite stands that it lists, behind two keys, the
/// credential and the versions.
const SUITE: usize = 33 + 33 + 4 + 3 + 2;
/// How many bytes of a leaf its signature has, behind its header.
const SIGNATURE: usize = 32;

/// The bytes of a leaf for another suite, signed by its candidate.
fn incapable_leaf(alloc: Global, candidate: &Candidate<Glass>) -> Result<Vec<u8>> {
    let own = candidate.leaf_node().encode(alloc)?;
    let leaf = turn_bits(alloc, &own, SUITE, 2)?;
    let content = check_limit(without_last(&leaf, SIGNATURE + 1))?;
    let signing = candidate.signing_key();
    let signature = sign_with_label::<Glass>(alloc, signing, "LeafNodeTBS", content)?;
    concatenate(alloc, &[content, &[32], &signature])
}

/// The bytes of a leaf with a signature that isn't its own.
fn unsigned_leaf(alloc: Global, candidate: &Candidate<Glass>) -> Result<Vec<u8>> {
    let own = candidate.leaf_node().encode(alloc)?;
    concatenate(alloc, &[without_last(&own, SIGNATURE), &[0; SIGNATURE]])
}

/// The proposal to add a candidate with another leaf.
fn addition(alloc: Global, candidate: &Candidate<Glass>, leaf: &[u8]) -> Result<WorldItem> {
    let own = candidate.leaf_node().encode(alloc)?;
    let message = replace_text(alloc, candidate.message(), &own, leaf)?;
    Ok(WorldItem::Add(Source::Given(message)))
}

fn commit_number(world: &mut World<Glass>, items: &[WorldItem]) -> u8 {
    match world.commit(0, items, true, &[9; 32]) {
        Ok(_) => 0,
        Err(error) => error.number(),
    }
}

/// The additions of a leaf that lacks a capability and of one that isn't signed, in this order or in the other.
fn wrong_items(alloc: Global, stage: &Stage, in_order: bool) -> Result<Vec<WorldItem>> {
    let (second, third) = (stage.candidate(1)?, stage.candidate(2)?);
    let incapable = addition(alloc, second, &incapable_leaf(alloc, second)?)?;
    let unsigned = addition(alloc, third, &unsigned_leaf(alloc, third)?)?;
    if in_order {
        Ok(vec![in alloc; incapable, unsigned]?)
    } else {
        Ok(vec![in alloc; unsigned, incapable]?)
    }
}

/// What a commit is answered that adds a leaf that lacks a capability, and behind it one that isn't signed; or the
/// other way round.
pub fn wrong_adds(alloc: Global, in_order: bool) -> Result<u8> {
    let mut stage = three_after(alloc, 4)?;
    let items = wrong_items(alloc, &stage, in_order)?;
    Ok(commit_number(stage.world_mut(), &items))
}
