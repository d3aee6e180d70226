//! Committing what is kept (RFC 9420, 12.2 and 12.4).

ghost use Rattle.std.specs.Prelude.{◌≡◌, true, Err, map, IfOk};
ghost use Rattle.std.specs.List.{list_any};
ghost use Rattle.mls_model.specs.Make.{list_item_of};
ghost use Rattle.mls_model.specs.Member as model;
ghost use Rattle.mls_model.specs.MemberInvariant.{IsGoodMember};
ghost use Rattle.mls_tree.specs.Tree.{term};
ghost use Rattle.mls_tree_model.specs.Term.{leaf_of};
ghost use Rattle.mls_member.specs.Answers.{AreShortItems, IsShortItem, RefusesLast, RefusesPending};
ghost use Rattle.mls_member.specs.KeptTogether.{CommitsKept, KeptReaches, adds, apart, brings, is_leaf_of, is_left_out, is_staying, is_taken, kept_list, left_out_of, removes_client, named, removes, sets_extensions, together, updates};
ghost use Rattle.mls_member.specs.declared.error.Refusal.TheVariants.{Gone};

use crate::commit::Made;
use crate::error::Refusal;
use crate::kept_and_pending::KeptProposal;
use crate::member::Member;
use mls_kdf::{Secret, Seed};
use mls_leaf::Proposal;
use mls_model::Item;
use mls_suite::Suite;
use mls_tree::PublicTree;
use std::alloc::{AllocError, Global};

/// What a commit of kept proposals made.
#[derive(Drop)]
pub struct KeptCommit {
    /// Its messages.
    pub made: Made,
    /// The references of the kept proposals that it leaves out.
    pub left_out: Vec<Secret>,
}

/// Whether a kept proposal removes a leaf (RFC 9420, 12.1.3).
fn removes(kept: &KeptProposal, leaf: u32) -> bool
    ensures { result ≡ removes leaf kept.now }
{
    match &kept.proposal {
        Proposal::Add(_) => false,
        Proposal::Update(_) => false,
        Proposal::Remove(removed) => *removed == leaf,
        Proposal::GroupContextExtensions(_) => false,
    }
}

/// Whether a kept proposal updates a leaf (RFC 9420, 12.1.2).
fn updates(kept: &KeptProposal, leaf: u32) -> bool
    ensures { result ≡ updates leaf kept.now }
{
    match &kept.proposal {
        Proposal::Add(_) => false,
        Proposal::Update(_) => kept.sender == leaf,
        Proposal::Remove(_) => false,
        Proposal::GroupContextExtensions(_) => false,
    }
}

/// Whether a kept proposal adds the client with a signature key (RFC 9420, 12.1.1).
fn adds(kept: &KeptProposal, key: &[u8]) -> bool
    ensures { result ≡ adds key.now kept.now }
{
    match &kept.proposal {
        Proposal::Add(offered) => offered.leaf_node.signature_key.as_slice() == key,
        Proposal::Update(_) => false,
        Proposal::Remove(_) => false,
        Proposal::GroupContextExtensions(_) => false,
    }
}

/// Whether a leaf of a tree is of the client with a signature key.
fn is_leaf_of(tree: &PublicTree, leaf: u32, key: &[u8]) -> bool
    ensures { result ≡ is_leaf_of key.now (leaf_of (term tree.now) leaf) }
{
    match tree.leaf(leaf) {
        Some(leaf) => leaf.signature_key.as_slice() == key,
        None => false,
    }
}

/// Whether a kept proposal removes the client with a signature key, where that isn't the member at leaf `me`.
fn removes_client(kept: &KeptProposal, me: u32, tree: &PublicTree, key: &[u8]) -> bool
    ensures { result ≡ removes_client me (term tree.now) key.now kept.now }
{
    match &kept.proposal {
        Proposal::Add(_) => false,
        Proposal::Update(_) => false,
        Proposal::Remove(leaf) => *leaf != me && is_leaf_of(tree, *leaf, key),
        Proposal::GroupContextExtensions(_) => false,
    }
}

/// Whether a kept proposal brings an encryption key into the tree (RFC 9420, 7.3).
fn brings(kept: &KeptProposal, key: &[u8]) -> bool
    ensures { result ≡ brings key.now kept.now }
{
    match &kept.proposal {
        Proposal::Add(offered) => offered.leaf_node.encryption_key.as_slice() == key,
        Proposal::Update(leaf) => leaf.encryption_key.as_slice() == key,
        Proposal::Remove(_) => false,
        Proposal::GroupContextExtensions(_) => false,
    }
}

/// Whether a kept proposal has extensions for the group (RFC 9420, 12.1.7).
fn sets_extensions(kept: &KeptProposal) -> bool
    ensures { result ≡ sets_extensions kept.now }
{
    match &kept.proposal {
        Proposal::Add(_) => false,
        Proposal::Update(_) => false,
        Proposal::Remove(_) => false,
        Proposal::GroupContextExtensions(_) => true,
    }
}

/// Whether one of the kept proposals removes a leaf.
fn any_removes(kept: &[KeptProposal], leaf: u32) -> bool
    ensures { result ≡ list_any (removes leaf) kept.now }
{
    kept.iter().any(|one| removes(one, leaf))
}

/// Whether one of the kept proposals updates a leaf.
fn any_updates(kept: &[KeptProposal], leaf: u32) -> bool
    ensures { result ≡ list_any (updates leaf) kept.now }
{
    kept.iter().any(|one| updates(one, leaf))
}

/// Whether one of the kept proposals adds the client with a signature key.
fn any_adds(kept: &[KeptProposal], key: &[u8]) -> bool
    ensures { result ≡ list_any (adds key.now) kept.now }
{
    kept.iter().any(|one| adds(one, key))
}

/// Whether one of the kept proposals removes the client with a signature key, where that isn't the member at leaf `me`.
fn any_removes_client(kept: &[KeptProposal], me: u32, tree: &PublicTree, key: &[u8]) -> bool
    ensures { result ≡ list_any (removes_client me (term tree.now) key.now) kept.now }
{
    kept.iter().any(|one| removes_client(one, me, tree, key))
}

/// Whether one of the kept proposals brings an encryption key into the tree.
fn any_brings(kept: &[KeptProposal], key: &[u8]) -> bool
    ensures { result ≡ list_any (brings key.now) kept.now }
{
    kept.iter().any(|one| brings(one, key))
}

/// Whether one of the kept proposals has extensions for the group.
fn any_sets_extensions(kept: &[KeptProposal]) -> bool
    ensures { result ≡ list_any sets_extensions kept.now }
{
    kept.iter().any(|one| sets_extensions(one))
}

/// Whether the client with a signature key is in the tree, and none of the kept proposals removes it.
fn is_staying(me: u32, tree: &PublicTree, all: &[KeptProposal], key: &[u8]) -> bool
    ensures { result ≡ is_staying me (term tree.now) all.now key.now }
{
    tree.has_client(key) && !any_removes_client(all, me, tree, key)
}

/// Whether an encryption key is in the tree, or a later kept proposal brings it.
fn is_taken(tree: &PublicTree, later: &[KeptProposal], key: &[u8]) -> bool
    ensures { result ≡ is_taken (term tree.now) later.now key.now }
{
    tree.has_key(key) || any_brings(later, key)
}

/// Whether the member at leaf `me` leaves out a kept proposal, behind which stand later ones (RFC 9420, 12.2).
fn is_left_out(
    me: u32,
    tree: &PublicTree,
    all: &[KeptProposal],
    later: &[KeptProposal],
    kept: &KeptProposal,
) -> bool
    ensures { result ≡ is_left_out me (term tree.now) all.now later.now kept.now }
{
    let sender = kept.sender;
    match &kept.proposal {
        Proposal::Add(offered) => {
            let client = offered.leaf_node.signature_key.as_slice();
            any_adds(later, client)
                || is_staying(me, tree, all, client)
                || is_taken(tree, later, offered.leaf_node.encryption_key.as_slice())
        }
        Proposal::Update(leaf) => {
            sender == me
                || any_removes(all, sender)
                || any_updates(later, sender)
                || is_taken(tree, later, leaf.encryption_key.as_slice())
        }
        Proposal::Remove(leaf) => *leaf == me || any_removes(later, *leaf),
        Proposal::GroupContextExtensions(_) => any_sets_extensions(later),
    }
}

/// A kept proposal by its reference.
fn name_kept(alloc: Global, kept: &KeptProposal) -> Result<Item, AllocError>
    ensures item { IfOk result (λ i. list_item_of i ≡ named kept.now) }
    ensures short { IfOk result IsShortItem }
{
    Ok(Item::Ref(Vec::from_slice(alloc, &kept.reference)?))
}

/// The kept proposals that the member at leaf `me` commits together.
fn list_together(
    alloc: Global,
    kept: &[KeptProposal],
    me: u32,
    tree: &PublicTree,
) -> Result<Vec<Item>, AllocError>
    ensures list { IfOk result (λ v. map list_item_of v.items
        ≡ map named (together me (term tree.now) kept.now kept.now)) }
    ensures short { IfOk result (λ v. AreShortItems v.items) }
{
    let mut items = Vec::new(alloc);
    let mut rest = kept;
    while let Some((one, later)) = rest.split_first() {
        rest = later;
        if is_left_out(me, tree, kept, later, one) {
            continue;
        }
        let item = name_kept(alloc, one)?;
        items.push(item)?;
    }
    Ok(items)
}

/// The references of those that it leaves out.
fn list_left_out(
    alloc: Global,
    kept: &[KeptProposal],
    me: u32,
    tree: &PublicTree,
) -> Result<Vec<Secret>, AllocError>
    ensures { IfOk result (λ v. v.items ≡ map (λ (k : model.KeptProposal). k.reference)
        (apart me (term tree.now) kept.now kept.now)) }
{
    let mut references = Vec::new(alloc);
    let mut rest = kept;
    while let Some((one, later)) = rest.split_first() {
        rest = later;
        if !is_left_out(me, tree, kept, later, one) {
            continue;
        }
        references.push(one.reference)?;
    }
    Ok(references)
}

impl<S: Suite> Member<S> {
    /// The kept proposals that it commits together, by their references.
    fn items_of_kept(&self) -> Result<Vec<Item>, AllocError>
        ensures list { IfOk result (λ v. map list_item_of v.items ≡ kept_list self.now) }
        ensures short { IfOk result (λ v. AreShortItems v.items) }
    {
        list_together(self.alloc, &self.kept, self.keys.leaf(), self.group.tree())
    }

    /// The references of the kept proposals that it leaves out.
    fn left_out(&self) -> Result<Vec<Secret>, AllocError>
        ensures { IfOk result (λ v. v.items ≡ left_out_of self.now) }
    {
        list_left_out(self.alloc, &self.kept, self.keys.leaf(), self.group.tree())
    }

    /// Commits the kept proposals that go together: all but its own updates and removals of itself, updates of leaves
    /// that are removed, adds of clients that are there and aren't removed, adds and updates with an encryption key that
    /// the tree has, and where several change one leaf, add one client, bring one encryption key or set the group's
    /// extensions, those before the last. It answers as `commit` of their references (RFC 9420, 12.2 and 12.4.1). Where they
    /// are too many for the tree (21) or too long for a message (6), `commit` takes fewer, and `forget_proposal` lessens
    /// what is kept.
    pub fn commit_kept(&mut self, path: bool, seed: &Seed) -> Result<KeptCommit, Refusal>
        ensures answer { CommitsKept S.crypto path seed.now self.old self.new result }
        ensures left_out { IfOk result (λ x. x.left_out.items ≡ left_out_of self.old) }
        ensures good { IsGoodMember S.crypto self.old → IsGoodMember S.crypto self.new }
        ensures reaches { KeptReaches S.crypto self.old self.new result }
        // These three come also when an allocation fails.
        ensures gone { self.old.gone ≡ true → result ≡ Err Gone }
        ensures pending { RefusesPending self.old result }
        ensures last { RefusesLast self.old result }
    {
        if self.is_gone() {
            return Err(Refusal::Gone);
        }
        if self.is_commit_pending() {
            return Err(Refusal::PendingCommit);
        }
        if !self.has_next() {
            return Err(Refusal::EpochEnd);
        }
        let items = self.items_of_kept()?;
        let left_out = self.left_out()?;
        match self.commit(&items, path, seed) {
            Ok(made) => Ok(KeptCommit { made, left_out }),
            Err(error) => Err(error),
        }
    }
}
