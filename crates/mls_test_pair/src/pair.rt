//! Two members of a group: a caller that knows no more than what the calls of candidates and members promise. Large parts
//! stand in boxes, and each function makes one or two calls: so the prover takes no member apart.

ghost use Rattle.std.specs.Prelude.{◌≡◌, map, IfOk, IfErr};
ghost use Rattle.mls_types.specs.declared.commit.ProposalOrRef.TheVariants.{Proposal as in_full};
ghost use Rattle.mls_leaf.specs.declared.proposal.Proposal.TheVariants.{Add};
ghost use Rattle.mls_model.specs.Agreement.{Agree, AgreeSecret};
ghost use Rattle.mls_model.specs.MemberInvariant.{IsGoodCandidate, IsGoodMember};
ghost use Rattle.mls_model.specs.Make.{list_item_of};
ghost use Rattle.mls_model.specs.Sharing.{ShareEpoch};
ghost use Rattle.mls_member.specs.Answers.{AreShortItems, IsShortItem};
ghost use Rattle.mls_test_pair.specs.Pair.{AdditionReaches, Enters, IsRefusedAddition, IsRefusedRenewal, addition_of};

use mls_candidate::Candidate;
use mls_kdf::Seed;
use mls_member::{Item, Joined, Made, Member, Refusal};
use mls_suite::{OutOfMemory, Suite};
use std::alloc::Global;

/// All that is random in the lives of two members.
#[derive(Clone, Copy)]
pub struct Seeds {
    /// Of the keys of the first candidate.
    pub alice: Seed,
    /// Of the keys of the second.
    pub bob: Seed,
    /// Of the first epoch.
    pub group: Seed,
    /// Of the commit that adds the second.
    pub addition: Seed,
    /// Of the commit after it.
    pub renewal: Seed,
}

/// Two members of a group.
#[derive(Drop)]
pub struct Pair<S: Suite> {
    /// The one that created it.
    pub first: Box<Member<S>>,
    /// The one that joined.
    pub second: Box<Member<S>>,
}

/// The proposal that adds a candidate by its own KeyPackage, in full.
fn addition<S: Suite>(candidate: &Candidate<S>) -> Result<Item, OutOfMemory>
    ensures item { IfOk result (λ i. list_item_of i ≡ in_full (Add candidate.now.offered)) }
    ensures short { IfOk result IsShortItem }
{
    Ok(Item::Full(candidate.addition()?))
}

/// The list of a commit that adds a candidate.
fn addition_list<S: Suite>(
    alloc: Global,
    candidate: &Candidate<S>,
) -> Result<Vec<Item>, OutOfMemory>
    ensures list { IfOk result (λ v. map list_item_of v.items ≡ addition_of candidate.now) }
    ensures short { IfOk result (λ v. AreShortItems v.items) }
{
    let mut items = Vec::new(alloc);
    items.push(addition(candidate)?)?;
    Ok(items)
}

/// A member commits the addition of a candidate (RFC 9420, 12.4.1). The commit reaches the group.
fn add<S: Suite>(
    alloc: Global,
    member: &mut Member<S>,
    candidate: &Candidate<S>,
    seed: &Seed,
) -> Result<Made, Refusal>
    requires { IsGoodMember S.crypto member.old }
    ensures reaches { AdditionReaches S.crypto candidate.now member.old member.new result }
    ensures refused { IfErr result (IsRefusedAddition S.crypto candidate.now seed.now member.old) }
{
    let items = addition_list(alloc, candidate)?;
    member.commit(&items, true, seed)
}

/// The member that a candidate becomes by a Welcome (RFC 9420, 12.4.3.1).
#[tactic(auto, unfolding(crate::specs::Pair::member_by_welcome))]
fn enter<S: Suite>(
    alloc: Global,
    candidate: &Candidate<S>,
    welcome: &[u8],
) -> Result<Box<Member<S>>, Refusal>
    ensures { Enters S.crypto candidate.now welcome.now result }
{
    let Joined { member, .. } = Member::join(alloc, candidate, welcome)?;
    Ok(Box::new(alloc, member)?)
}

/// A member adds a candidate and follows its own commit, and the candidate joins by the Welcome (RFC 9420, 12.4.3.1). They
/// share the epoch. It is refused what the commit is refused, or for want of memory.
pub fn admit<S: Suite>(
    alloc: Global,
    member: &mut Member<S>,
    candidate: &Candidate<S>,
    seed: &Seed,
) -> Result<Box<Member<S>>, Refusal>
    requires member { IsGoodMember S.crypto member.old }
    requires candidate { IsGoodCandidate S.crypto candidate.now }
    ensures shares { IfOk result (λ m. ShareEpoch S.crypto member.new m.value) }
    ensures refused { IfErr result (IsRefusedAddition S.crypto candidate.now seed.now member.old) }
{
    let Made { commit, welcome } = add(alloc, member, candidate, seed)?;
    member.process(&commit)?;
    let Some(welcome) = welcome else {
        unreachable!()
    };
    enter(alloc, candidate, &welcome)
}

/// The first member commits with a path, and both follow (RFC 9420, 12.4). They share the next epoch. It is refused what
/// the commit is refused, or for want of memory.
pub fn renew<S: Suite>(
    first: &mut Member<S>,
    second: &mut Member<S>,
    seed: &Seed,
) -> Result<(), Refusal>
    requires { ShareEpoch S.crypto first.old second.old }
    ensures shares { IfOk result (λ _. ShareEpoch S.crypto first.new second.new) }
    ensures refused { IfErr result (IsRefusedRenewal S.crypto seed.now first.old) }
{
    let made = first.commit(&[], true, seed)?;
    second.process(&made.commit)?;
    first.process(&made.commit)?;
    Ok(())
}

/// A candidate, made of a name and a seed (RFC 9420, 10).
fn candidate<S: Suite>(
    alloc: Global,
    identity: &[u8],
    seed: &Seed,
) -> Result<Box<Candidate<S>>, Refusal>
    ensures { IfOk result (λ k. IsGoodCandidate S.crypto k.value) }
{
    let candidate = Candidate::new(alloc, identity, seed)?;
    Ok(Box::new(alloc, candidate)?)
}

/// The first member of a group that a candidate creates (RFC 9420, 11).
fn create<S: Suite>(
    alloc: Global,
    candidate: &Candidate<S>,
    group_id: &[u8],
    seed: &Seed,
) -> Result<Box<Member<S>>, Refusal>
    requires { IsGoodCandidate S.crypto candidate.now }
    ensures { IfOk result (λ m. IsGoodMember S.crypto m.value) }
{
    let member = Member::create(alloc, candidate, group_id, seed)?;
    Ok(Box::new(alloc, member)?)
}

/// The first admits the second, and commits with a path, which both follow.
fn admit_and_renew<S: Suite>(
    alloc: Global,
    mut first: Box<Member<S>>,
    bob: &Candidate<S>,
    seeds: &Seeds,
) -> Result<Pair<S>, Refusal>
    requires first { IsGoodMember S.crypto first.value }
    requires bob { IsGoodCandidate S.crypto bob.now }
    ensures { IfOk result (λ p. ShareEpoch S.crypto p.first.value p.second.value) }
{
    let mut second = admit(alloc, &mut first, bob, &seeds.addition)?;
    renew(&mut first, &mut second, &seeds.renewal)?;
    Ok(Pair { first, second })
}

/// A candidate creates a group and admits another, and then commits with a path, which both follow.
fn share_between<S: Suite>(
    alloc: Global,
    alice: &Candidate<S>,
    bob: &Candidate<S>,
    group_id: &[u8],
    seeds: &Seeds,
) -> Result<Pair<S>, Refusal>
    requires alice { IsGoodCandidate S.crypto alice.now }
    requires bob { IsGoodCandidate S.crypto bob.now }
    ensures { IfOk result (λ p. ShareEpoch S.crypto p.first.value p.second.value) }
{
    let first = create(alloc, alice, group_id, &seeds.group)?;
    admit_and_renew(alloc, first, bob, seeds)
}

/// A candidate creates a group and admits "bob", and then commits with a path, which both follow.
fn share_with_bob<S: Suite>(
    alloc: Global,
    alice: &Candidate<S>,
    group_id: &[u8],
    seeds: &Seeds,
) -> Result<Pair<S>, Refusal>
    requires { IsGoodCandidate S.crypto alice.now }
    ensures { IfOk result (λ p. ShareEpoch S.crypto p.first.value p.second.value) }
{
    let bob = candidate(alloc, b"bob", &seeds.bob)?;
    share_between(alloc, alice, &bob, group_id, seeds)
}

/// A candidate creates a group and adds another, who joins; then the first commits, and both follow. The two hold one public
/// state and one secret.
pub fn share<S: Suite>(alloc: Global, group_id: &[u8], seeds: &Seeds) -> Result<Pair<S>, Refusal>
    ensures public { IfOk result (λ p. Agree p.first.value p.second.value) }
    ensures secret { IfOk result (λ p. AgreeSecret p.first.value p.second.value) }
{
    let alice = candidate(alloc, b"alice", &seeds.alice)?;
    share_with_bob(alloc, &alice, group_id, seeds)
}
