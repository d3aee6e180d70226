//! Creating a group.

ghost use Rattle.std.specs.Prelude.{◌≡◌, ◌≤◌, ◌^◌, Some, length, IfOk};
ghost use Rattle.mls_leaf.specs.Leaf.{leaf_node};
ghost use Rattle.mls_public_group.specs.Short.{IsBelow, HasLeavesBelow, IsShortContext};
ghost use Rattle.mls_member.specs.FirstEpoch.{first_public, context_with_leaf};
ghost use Rattle.mls_wire.specs.Checks.{AnswersOutright, passed};
ghost use Rattle.mls_model.specs.Messages.{require_within_limit};
ghost use Rattle.mls_tree.specs.Tree.{term};
ghost use Rattle.mls_leaf.specs.Limits.{input_limit};
ghost use Rattle.mls_tree_model.specs.Term.{Leaf};
ghost use Rattle.mls_model.specs.Candidate.{first_context, create_group};
ghost use Rattle.mls_member.specs.Faults.{number_of, Gives};
ghost use Rattle.mls_member.specs.Answers.{CreatesGood};

use crate::error::Refusal;
use crate::member::Member;
use mls_candidate::Candidate;
use mls_kdf::Seed;
use mls_leaf::{Bytes, GroupExtensions, INPUT_LIMIT, LeafError, LeafNode};
use mls_public_group::{PublicGroup, context_spelling, know_bytes};
use mls_schedule::{Epoch, Transcript};
use mls_suite::{OutOfMemory, Suite};
use mls_tree::PublicTree;
use mls_treekem::PrivatePath;
use mls_types::GroupContext;
use mls_wire::WireError;
use std::alloc::Global;
use std::marker::PhantomData;

/// `TooLong` (6) where what was made is larger than a message may be.
#[tactic(auto, unfolding(mls_model::specs::Messages::require_within_limit))]
fn require_within_limit(bytes: &[u8]) -> Result<(), Refusal>
    ensures { AnswersOutright (λ _. passed) number_of (require_within_limit bytes.now) result }
{
    know_bytes(bytes);
    if bytes.len() > INPUT_LIMIT {
        return Err(Refusal::Leaf(LeafError::Wire(WireError::TooLong)));
    }
    Ok(())
}

/// The context of epoch 0 with this tree (RFC 9420, 11).
#[tactic(auto, unfolding(mls_model::specs::Candidate::first_context))]
fn first_context<S: Suite>(
    alloc: Global,
    group_id: &[u8],
    tree: &mut PublicTree,
) -> Result<GroupContext, OutOfMemory>
    ensures context { IfOk result (λ g. g ≡ first_context S.crypto group_id.now (term tree.old)) }
    ensures same { term tree.new ≡ term tree.old }
{
    let hash = tree.tree_hash();
    Ok(GroupContext {
        cipher_suite: S::NUMBER,
        group_id: Bytes::from_slice(alloc, group_id)?,
        epoch: 0,
        tree_hash: Bytes::from_slice(alloc, &hash)?,
        confirmed_transcript_hash: Bytes::from_vec(Vec::new(alloc)),
        extensions: GroupExtensions::empty(alloc),
    })
}

/// The tree of epoch 0 with its context.
#[tactic(auto, using(crate::proofs::FirstEpoch::first_short, crate::proofs::FirstEpoch::leaf_below))]
fn first_parts<S: Suite>(
    alloc: Global,
    leaf: &LeafNode,
    group_id: &[u8],
) -> Result<(PublicTree, GroupContext), OutOfMemory>
    requires leaf { IsBelow (2 ^ 27) leaf_node leaf.now }
    requires group { length group_id.now ≤ input_limit }
    ensures tree { IfOk result (λ p. term p.0 ≡ Leaf (Some leaf.now)) }
    ensures context { IfOk result (λ p. p.1 ≡ context_with_leaf S.crypto group_id.now leaf.now) }
    ensures short { IfOk result (λ p. IsShortContext p.1) }
    ensures below { IfOk result (λ p. HasLeavesBelow (2 ^ 27) (term p.0)) }
{
    let mut tree = PublicTree::single(alloc, leaf.clone()?)?;
    let context = first_context::<S>(alloc, group_id, &mut tree)?;
    Ok((tree, context))
}

/// The public state of epoch 0, or `TooLong` (6) where its context is too long.
#[tactic(auto, using(crate::proofs::FirstEpoch::public_refused, crate::proofs::FirstEpoch::public_made, crate::proofs::FirstEpoch::public_long))]
fn first_group<S: Suite>(
    alloc: Global,
    leaf: &LeafNode,
    group_id: &[u8],
    epoch: &Epoch,
) -> Result<PublicGroup, Refusal>
    requires { IsBelow (2 ^ 27) leaf_node leaf.now }
    ensures { Gives (first_public S.crypto leaf.now group_id.now epoch.now) result }
{
    // The context is longer than this.
    if group_id.len() > INPUT_LIMIT {
        return Err(Refusal::Leaf(LeafError::Wire(WireError::TooLong)));
    }
    let (tree, context) = first_parts::<S>(alloc, leaf, group_id)?;
    let bytes = context_spelling(alloc, &context)?;
    require_within_limit(&bytes)?;
    let transcript = Transcript::first(&epoch.confirmation_tag(&[]));
    let group = PublicGroup::new(alloc, context, tree, transcript)?;
    Ok(group)
}

impl<S: Suite> Member<S> {
    /// The group of a candidate alone, whose epoch secret is the seed: `TooLong` (6) where its GroupContext is too long
    /// (RFC 9420, 11).
    #[tactic(auto, using(crate::proofs::FirstEpoch::created_made, crate::proofs::FirstEpoch::created_refused))]
    pub fn create(
        alloc: Global,
        candidate: &Candidate<S>,
        group_id: &[u8],
        seed: &Seed,
    ) -> Result<Member<S>, Refusal>
        ensures answer { Gives (create_group S.crypto candidate.now group_id.now seed.now) result }
        ensures good { CreatesGood S.crypto candidate.now result }
    {
        let epoch = Epoch::first(seed);
        let group = match first_group::<S>(alloc, candidate.leaf_node(), group_id, &epoch) {
            Ok(group) => group,
            Err(error) => return Err(error),
        };
        Ok(Member {
            gone: false,
            group,
            epoch,
            keys: PrivatePath::new(alloc, 0, *candidate.leaf_key()),
            signing: *candidate.signing_key(),
            kept: Vec::new(alloc),
            pending: None,
            alloc,
            suite: PhantomData,
        })
    }
}
