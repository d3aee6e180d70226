//! The KeyPackages that a commit adds.

ghost use Rattle.std.specs.Prelude.{◌≡◌, map, IfOk, IfSome, OnOk};
ghost use Rattle.std.specs.Option.{option_copied};
ghost use Rattle.mls_leaf.specs.KeyPackage.{key_package};
ghost use Rattle.mls_public_group.specs.ShortProposal.{IsShortProposal};
ghost use Rattle.mls_member.specs.Answers.{IsShortItem, AreShortItems};
ghost use Rattle.mls_model.specs.Make.{list_item_of};
ghost use Rattle.mls_model.specs.Journal.{adds_in};
ghost use Rattle.mls_model.specs.Proposals.{add_in};
ghost use Rattle.mls_world_plain.specs.CommitItems.{proposal_for, with_package};

use mls_leaf::{Bytes, Codec, KeyPackage, Proposal};
use mls_member::Member;
use mls_model::Item;
use mls_suite::Suite;
use std::alloc::{AllocError, Global};

/// Finds what one of a commit's list says, by what a member keeps.
fn proposal_for<'a, S: Suite>(member: &'a Member<S>, item: &'a Item) -> Option<&'a Proposal>
    requires { IsShortItem item.now }
    ensures said { option_copied result ≡ proposal_for member.now.kept (list_item_of item.now) }
    ensures short { IfSome result (λ p. IsShortProposal p.now) }
{
    match item {
        Item::Full(proposal) => Some(proposal),
        Item::Ref(reference) => member.kept_proposal(reference),
    }
}

/// The bytes of a KeyPackage.
fn encode_key_package(alloc: Global, offered: &KeyPackage) -> Result<Bytes, AllocError>
    requires { key_package.Fits offered.now }
    ensures { IfOk result (λ b. b ≡ key_package.spell offered.now) }
{
    match offered.encode(alloc) {
        Ok(bytes) => Ok(Bytes::from_vec(bytes)),
        // Want of memory: a KeyPackage that has a spelling is refused nothing else.
        Err(_) => Err(AllocError),
    }
}

/// Adds the KeyPackage of a proposal, where it adds one.
fn push_added(alloc: Global, adds: &mut Vec<Bytes>, proposal: &Proposal) -> Result<(), AllocError>
    requires { IsShortProposal proposal.now }
    ensures { OnOk result (adds.new.items ≡ with_package adds.old.items (add_in proposal.now)) }
{
    match proposal {
        Proposal::Add(offered) => {
            let bytes = encode_key_package(alloc, offered)?;
            adds.push(bytes)?;
            Ok(())
        }
        Proposal::Update(_) => Ok(()),
        Proposal::Remove(_) => Ok(()),
        Proposal::GroupContextExtensions(_) => Ok(()),
    }
}

/// The KeyPackages, as bytes, that a commit of a list adds: none where a reference isn't kept.
pub(crate) fn adds_of<S: Suite>(
    alloc: Global,
    member: &Member<S>,
    items: &[Item],
) -> Result<Vec<Bytes>, AllocError>
    requires { AreShortItems items.now }
    ensures { IfOk result (λ v. v.items ≡ adds_in member.now.kept (map list_item_of items.now)) }
{
    let mut adds = Vec::new(alloc);
    for item in items {
        let Some(proposal) = proposal_for(member, item) else {
            return Ok(Vec::new(alloc));
        };
        push_added(alloc, &mut adds, proposal)?;
    }
    Ok(adds)
}
