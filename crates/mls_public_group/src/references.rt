//! The references of the KeyPackages that a commit adds (RFC 9420, 5.2).

ghost use Rattle.std.specs.Prelude.{◌≡◌, ◌≤◌, ◌^◌, [], ◌∷◌, length, IfOk, OnOk};
ghost use Rattle.mls_tree_array.specs.DistinctStrings.{bytes_in};
ghost use Rattle.mls_tree_model.specs.Sets.{is_distinct, same_bytes};
ghost use Rattle.mls_model.specs.Proposals.{adds};
ghost use Rattle.mls_public_group.specs.Short.{AreBelow, IsProposalBelow};
ghost use Rattle.mls_public_group.specs.ProposalList.{added_references, with_reference};

use crate::spelling::spelling;
use crate::used_proposal::Used;
use mls_kdf::Secret;
use mls_leaf::{KeyPackage, Proposal, key_package_reference};
use mls_tree_array::are_distinct;
use std::alloc::{AllocError, Global};

/// How many KeyPackages a proposal adds: 1 or 0.
fn adds_in(used: &Used<'_>) -> usize
    ensures counted { result ≡ length (adds (used.now ∷ [])) }
    ensures few { result ≤ 1 }
{
    match used.proposal {
        Proposal::Add(_) => 1,
        _ => 0,
    }
}

/// How many KeyPackages the proposals add.
fn count_adds(used: &[Used<'_>]) -> usize
    ensures { result ≡ length (adds used.now) }
{
    let mut count = 0;
    for one in used {
        count += adds_in(one);
    }
    count
}

/// Adds the reference of the KeyPackage that a proposal adds, where it is an add.
fn push_reference(
    alloc: Global,
    used: &Used<'_>,
    references: &mut Vec<Secret>,
) -> Result<(), AllocError>
    requires { IsProposalBelow (2 ^ 28) used.now.proposal }
    ensures { OnOk result (references.new.items ≡ with_reference references.old.items used.now) }
{
    match used.proposal {
        Proposal::Add(offered) => {
            let bytes = spelling::<KeyPackage>(alloc, offered)?;
            references.push(key_package_reference(&bytes))?;
            Ok(())
        }
        _ => Ok(()),
    }
}

/// The references of the KeyPackages that are added.
fn references(alloc: Global, used: &[Used<'_>]) -> Result<Vec<Secret>, AllocError>
    requires { AreBelow (2 ^ 28) used.now }
    ensures { IfOk result (λ v. v.items ≡ added_references used.now) }
{
    let mut references = Vec::new(alloc);
    for one in used {
        push_reference(alloc, one, &mut references)?;
    }
    Ok(references)
}

/// The references as byte strings.
fn as_strings(alloc: Global, references: &[Secret]) -> Result<Vec<&[u8]>, AllocError>
    ensures { IfOk result (λ v. bytes_in v.items ≡ references.now) }
{
    let mut strings = Vec::new(alloc);
    for reference in references {
        strings.push(reference.as_slice())?;
    }
    Ok(strings)
}

/// Whether no two adds have one reference. Where fewer than two are added none is made.
pub(crate) fn has_distinct_references(alloc: Global, used: &[Used<'_>]) -> Result<bool, AllocError>
    requires { AreBelow (2 ^ 28) used.now }
    ensures { IfOk result (λ b. b ≡ is_distinct same_bytes (added_references used.now)) }
{
    let count = count_adds(used);
    if count < 2 {
        return Ok(true);
    }
    let references = references(alloc, used)?;
    let strings = as_strings(alloc, &references)?;
    Ok(are_distinct(strings))
}
