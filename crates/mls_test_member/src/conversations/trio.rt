//! Three members of a group: Alice creates it, and adds Bob and Carol, who join. A seed is one byte, 32 times.

ghost use Rattle.std.specs.Prelude.{IfOk};
ghost use Rattle.mls_member.specs.Answers.{AreShortItems, IsShortItem};

use mls_candidate::Candidate;
use mls_leaf::Proposal;
use mls_member::{Item, Joined, Made, Member, Refusal};
use mls_suite::{OutOfMemory, Suite};
use std::alloc::Global;

/// The members, in epoch 1, at the leaves 0, 1 and 2.
#[derive(Drop)]
pub(crate) struct Trio<S: Suite> {
    pub alice: Box<Member<S>>,
    pub bob: Box<Member<S>>,
    pub carol: Box<Member<S>>,
}

fn candidate<S: Suite>(
    alloc: Global,
    identity: &[u8],
    seed: u8,
) -> Result<Box<Candidate<S>>, Refusal> {
    let candidate = Candidate::new(alloc, identity, &[seed; 32])?;
    Ok(Box::new(alloc, candidate)?)
}

fn create<S: Suite>(alloc: Global, group_id: &[u8]) -> Result<Box<Member<S>>, Refusal> {
    let alice = candidate::<S>(alloc, b"alice", 1)?;
    let member = Member::create(alloc, &alice, group_id, &[4; 32])?;
    Ok(Box::new(alloc, member)?)
}

fn addition<S: Suite>(candidate: &Candidate<S>) -> Result<Item, OutOfMemory>
    ensures { IfOk result IsShortItem }
{
    Ok(Item::Full(candidate.addition()?))
}

fn additions<S: Suite>(
    alloc: Global,
    bob: &Candidate<S>,
    carol: &Candidate<S>,
) -> Result<Vec<Item>, OutOfMemory>
    ensures { IfOk result (λ items. AreShortItems items.items) }
{
    let items = [addition(bob)?, addition(carol)?];
    Ok(Vec::from_array(alloc, items)?)
}

/// Commits with a path and follows the commit: its message and its Welcome, or no bytes.
fn commit_and_follow<S: Suite>(
    alloc: Global,
    member: &mut Member<S>,
    items: &[Item],
    seed: u8,
) -> Result<(Vec<u8>, Vec<u8>), Refusal>
    requires { AreShortItems items.now }
{
    let Made { commit, welcome } = member.commit(items, true, &[seed; 32])?;
    member.process(&commit)?;
    Ok((commit, welcome.unwrap_or(Vec::new(alloc))))
}

/// The Welcome of the commit by which Alice adds both.
fn add<S: Suite>(
    alloc: Global,
    alice: &mut Member<S>,
    bob: &Candidate<S>,
    carol: &Candidate<S>,
) -> Result<Vec<u8>, Refusal> {
    let items = additions(alloc, bob, carol)?;
    let (_, welcome) = commit_and_follow(alloc, alice, &items, 5)?;
    Ok(welcome)
}

fn join<S: Suite>(
    alloc: Global,
    candidate: &Candidate<S>,
    welcome: &[u8],
) -> Result<Box<Member<S>>, Refusal> {
    let Joined { member, .. } = Member::join(alloc, candidate, welcome)?;
    Ok(Box::new(alloc, member)?)
}

/// The members of a group of this name.
pub(crate) fn create_trio<S: Suite>(alloc: Global, group_id: &[u8]) -> Result<Trio<S>, Refusal> {
    let mut alice = create::<S>(alloc, group_id)?;
    let bob = candidate::<S>(alloc, b"bob", 2)?;
    let carol = candidate::<S>(alloc, b"carol", 3)?;
    let welcome = add(alloc, &mut alice, &bob, &carol)?;
    let bob = join(alloc, &bob, &welcome)?;
    let carol = join(alloc, &carol, &welcome)?;
    Ok(Trio { alice, bob, carol })
}

/// The list of a commit that removes Carol.
fn removal(alloc: Global) -> Result<Vec<Item>, OutOfMemory>
    ensures { IfOk result (λ items. AreShortItems items.items) }
{
    let mut items = Vec::new(alloc);
    items.push(Item::Full(Proposal::Remove(2)))?;
    Ok(items)
}

impl<S: Suite> Trio<S> {
    /// Alice removes Carol, and all follow.
    pub(crate) fn remove_carol(&mut self, alloc: Global) -> Result<(), Refusal> {
        let items = removal(alloc)?;
        let (commit, _) = commit_and_follow(alloc, &mut self.alice, &items, 11)?;
        self.bob.process(&commit)?;
        self.carol.process(&commit)?;
        Ok(())
    }
}
