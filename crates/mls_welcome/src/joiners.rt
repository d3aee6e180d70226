//! Those whom a commit adds, with what each is sent.

ghost use Rattle.std.specs.Prelude.{IfOk};
ghost use Rattle.mls_welcome.specs.Joiners.{HavePlaces, Places};
ghost use Rattle.mls_welcome.specs.SentSecrets.{AreSentBy, IsLentTo, StaySent};

use crate::welcome_message::Joiner;
use mls_kdf::Secret;
use mls_leaf::Proposal;
use mls_public_group::{Edits, Used};
use mls_suite::OutOfMemory;
use mls_treekem::PathSecrets;
use std::alloc::Global;

/// What the member at a leaf is sent of a path: the secret of the node where its way and the committer's part.
fn secret_to<'a>(
    alloc: Global,
    edits: &Edits,
    committer: u32,
    secrets: Option<&'a PathSecrets>,
    leaf: u32,
) -> Result<Option<&'a Secret>, OutOfMemory>
    ensures { IfOk result (IsLentTo edits.now committer secrets.entry leaf) }
{
    match secrets {
        None => Ok(None),
        Some(secrets) => secrets.secret_for(alloc, edits.tree.as_tree(), committer, leaf),
    }
}

/// Adds the one whom a proposal adds, if it does, at the first of these leaves, and answers the others.
fn push_joiner<'a, 'b>(
    alloc: Global,
    used: &Used<'a>,
    leaves: &'b [u32],
    edits: &Edits,
    committer: u32,
    secrets: Option<&'a PathSecrets>,
    all: &mut Vec<Joiner<'a>>,
) -> Result<&'b [u32], OutOfMemory>
    ensures places { IfOk result (Places used.now all.old.items leaves.now all.new.items) }
    ensures sent { StaySent edits.now committer secrets.entry all.old.items all.new.items result }
{
    let Proposal::Add(key_package) = used.proposal else {
        return Ok(leaves);
    };
    let Some((leaf, rest)) = leaves.split_first() else {
        return Ok(leaves);
    };
    let path_secret = secret_to(alloc, edits, committer, secrets, *leaf)?;
    all.push(Joiner {
        key_package,
        leaf: *leaf,
        path_secret,
    })?;
    Ok(rest)
}

/// Each of those whom a commit adds, with its leaf and the path secret that it is sent.
pub fn joiners_of<'a>(
    alloc: Global,
    used: &[Used<'a>],
    edits: &Edits,
    committer: u32,
    secrets: Option<&'a PathSecrets>,
) -> Result<Vec<Joiner<'a>>, OutOfMemory>
    ensures places { IfOk result (λ v. HavePlaces used.now edits.now v.items) }
    ensures sent { IfOk result (λ v. AreSentBy edits.now committer secrets.entry v.items) }
{
    let mut all = Vec::new(alloc);
    let mut leaves = edits.added.as_slice();
    for u in used {
        leaves = push_joiner(alloc, u, leaves, edits, committer, secrets, &mut all)?;
    }
    Ok(all)
}
