//! Groups over Glass: what grows any of them, and the small groups "g" of the scenarios, where a seed is one byte, 32
//! times.

ghost use Rattle.std.specs.Prelude.{IfOk};
ghost use Rattle.mls_member.specs.Answers.{AreShortItems};
ghost use Rattle.mls_probe.specs.Calls.{IsShortCall};

use crate::call::{Answer, Call, addition, answer_of};
use anyhow::{Result, bail};
use mls_kdf::{Secret, Seed};
use mls_member::{Candidate, Effect, Item, Joined, Made, Member};
use mls_suite::Glass;
use std::alloc::Global;

/// Makes a candidate in a box, whose drop is one call for the prover.
pub(crate) fn box_candidate(
    alloc: Global,
    identity: &[u8],
    seed: &Seed,
) -> Result<Box<Candidate<Glass>>> {
    let candidate = Candidate::new(alloc, identity, seed)?;
    Ok(Box::new(alloc, candidate)?)
}

/// Makes a candidate with a name of one byte.
pub(crate) fn candidate(alloc: Global, name: u8, seed: u8) -> Result<Box<Candidate<Glass>>> {
    box_candidate(alloc, &[name], &[seed; 32])
}

/// Puts a member in a box.
fn box_member(alloc: Global, member: Member<Glass>) -> Result<Box<Member<Glass>>> {
    Ok(Box::new(alloc, member)?)
}

/// Makes the group of a candidate, its only member.
pub(crate) fn group_of(
    alloc: Global,
    creator: &Candidate<Glass>,
    group: &[u8],
    seed: &Seed,
) -> Result<Box<Member<Glass>>> {
    box_member(alloc, Member::create(alloc, creator, group, seed)?)
}

/// Makes the group of the member "a" alone.
pub(crate) fn create_group(alloc: Global) -> Result<Box<Member<Glass>>> {
    let first = candidate(alloc, b'a', 1)?;
    group_of(alloc, &first, b"g", &[2; 32])
}

/// The Welcome of a commit that adds somebody.
pub(crate) fn welcome_of(made: Made) -> Result<Vec<u8>> {
    let Made { welcome, .. } = made;
    match welcome {
        Some(welcome) => Ok(welcome),
        None => bail!("nobody is welcome"),
    }
}

/// The members "a", "b" and "c".
#[derive(Drop)]
pub(crate) struct Trio {
    pub first: Box<Member<Glass>>,
    pub second: Box<Member<Glass>>,
    pub third: Box<Member<Glass>>,
}

/// The list of a commit that adds a candidate.
pub(crate) fn additions(alloc: Global, candidate: &Candidate<Glass>) -> Result<Vec<Item>>
    ensures { IfOk result (λ items. AreShortItems items.items) }
{
    let mut items = Vec::new(alloc);
    items.push(addition(candidate)?)?;
    Ok(items)
}

/// The list of a commit that adds two.
fn two_additions(alloc: Global, candidates: &[Box<Candidate<Glass>>; 2]) -> Result<Vec<Item>>
    ensures { IfOk result (λ items. AreShortItems items.items) }
{
    let items = [addition(&candidates[0])?, addition(&candidates[1])?];
    Ok(Vec::from_array(alloc, items)?)
}

/// A member's commit of a list, which it follows.
fn commit_and_follow(member: &mut Member<Glass>, items: &[Item]) -> Result<Made>
    requires { AreShortItems items.now }
{
    let made = member.commit(items, true, &[4; 32])?;
    member.process(&made.commit)?;
    Ok(made)
}

/// The Welcome of the commit by which a member adds two candidates.
fn add_two(
    alloc: Global,
    member: &mut Member<Glass>,
    candidates: &[Box<Candidate<Glass>>; 2],
) -> Result<Vec<u8>> {
    let items = two_additions(alloc, candidates)?;
    welcome_of(commit_and_follow(member, &items)?)
}

/// Makes the member that a candidate becomes by a Welcome.
pub(crate) fn join_group(
    alloc: Global,
    candidate: &Candidate<Glass>,
    welcome: &[u8],
) -> Result<Box<Member<Glass>>> {
    let Joined { member, .. } = Member::join(alloc, candidate, welcome)?;
    box_member(alloc, member)
}

impl Trio {
    /// "a" adds "b" and "c", who join.
    pub(crate) fn new(alloc: Global) -> Result<Trio> {
        let mut first = create_group(alloc)?;
        let candidates = [candidate(alloc, b'b', 3)?, candidate(alloc, b'c', 5)?];
        let welcome = add_two(alloc, &mut first, &candidates)?;
        let second = join_group(alloc, &candidates[0], &welcome)?;
        let third = join_group(alloc, &candidates[1], &welcome)?;
        Ok(Trio {
            first,
            second,
            third,
        })
    }
}

/// The reference under which a member keeps a proposal from now on.
pub(crate) fn keep_proposal(member: &mut Member<Glass>, message: &[u8]) -> Result<Secret> {
    match member.process(message)? {
        Effect::Proposed { reference } => Ok(reference),
        _ => bail!("the proposal isn't kept"),
    }
}

/// A trio whose second member proposed an update, which the third keeps too.
#[derive(Drop)]
pub(crate) struct Updated {
    pub group: Trio,
    pub update: Vec<u8>,
    pub reference: Secret,
}

impl Updated {
    /// The second proposes, and the third gets the message.
    pub(crate) fn new(alloc: Global) -> Result<Updated> {
        let mut group = Trio::new(alloc)?;
        let update = group.second.propose_update(&[6; 32])?;
        let reference = keep_proposal(&mut group.third, &update)?;
        Ok(Updated {
            group,
            update,
            reference,
        })
    }
}

/// The list of a commit that names one proposal.
pub(crate) fn items_naming(alloc: Global, reference: &Secret) -> Result<Vec<Item>>
    ensures { IfOk result (λ items. AreShortItems items.items) }
{
    let mut items = Vec::new(alloc);
    items.push(Item::Ref(Vec::from_slice(alloc, reference)?))?;
    Ok(items)
}

/// The commit of a proposal, by a member that gets it first.
pub(crate) fn commit_of(
    alloc: Global,
    member: &mut Member<Glass>,
    message: &[u8],
    reference: &Secret,
) -> Result<Vec<u8>> {
    member.process(message)?;
    let items = items_naming(alloc, reference)?;
    let made = member.commit(&items, true, &[7; 32])?;
    Ok(made.commit)
}

/// Such a trio whose first member committed the update by its reference.
#[derive(Drop)]
pub(crate) struct Committed {
    pub group: Trio,
    pub commit: Vec<u8>,
    pub reference: Secret,
}

impl Committed {
    /// The first gets the proposal and commits it.
    pub(crate) fn new(alloc: Global) -> Result<Committed> {
        let Updated {
            mut group,
            update,
            reference,
        } = Updated::new(alloc)?;
        let commit = commit_of(alloc, &mut group.first, &update, &reference)?;
        Ok(Committed {
            group,
            commit,
            reference,
        })
    }
}

/// The reference of the proposal that the second of a trio would make by a call.
pub(crate) fn reference_of(alloc: Global, call: &Call) -> Result<Secret>
    requires { IsShortCall call.now }
{
    let mut group = Trio::new(alloc)?;
    match answer_of(&mut group.second, call)? {
        Answer::Message(message) => keep_proposal(&mut group.first, &message),
        _ => bail!("no proposal"),
    }
}
