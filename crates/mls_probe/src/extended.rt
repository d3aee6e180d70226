//! The trio, where the second proposed extensions for the group, and then the first committed them and added "d".

ghost use Rattle.std.specs.Prelude.{IfOk};
ghost use Rattle.mls_member.specs.Answers.{AreShortItems};

use crate::call::addition;
use crate::group::{Trio, candidate, keep_proposal};
use anyhow::Result;
use mls_kdf::Secret;
use mls_leaf::{Bytes, Extension, GroupExtensions};
use mls_member::{Candidate, Item, Made};
use mls_suite::Glass;
use std::alloc::Global;

/// An extension of a type with these data.
fn extension(alloc: Global, kind: u16, data: &[u8]) -> Result<Extension> {
    let content = Bytes::from_slice(alloc, data)?;
    Ok(Extension { kind, content })
}

/// Two extensions.
pub(crate) fn extensions(alloc: Global) -> Result<GroupExtensions> {
    let mut entries = Vec::new(alloc);
    entries.push(extension(alloc, 0xf001, b"hi")?)?;
    entries.push(extension(alloc, 0xffff, &[])?)?;
    Ok(GroupExtensions::new(entries)?)
}

/// A trio whose second member proposed extensions, which the others keep too.
#[derive(Drop)]
pub(crate) struct Extended {
    pub group: Trio,
    pub reference: Secret,
}

impl Extended {
    /// The second proposes, and the others get the message.
    pub(crate) fn new(alloc: Global) -> Result<Extended> {
        let mut group = Trio::new(alloc)?;
        let message = group.second.propose_extensions(extensions(alloc)?)?;
        let reference = keep_proposal(&mut group.first, &message)?;
        keep_proposal(&mut group.third, &message)?;
        Ok(Extended { group, reference })
    }
}

/// The list of a commit that names a proposal and adds a candidate.
pub(crate) fn items_naming_and_adding(
    alloc: Global,
    reference: &Secret,
    added: &Candidate<Glass>,
) -> Result<Vec<Item>>
    ensures { IfOk result (λ items. AreShortItems items.items) }
{
    let named = Item::Ref(Vec::from_slice(alloc, reference)?);
    let items = [named, addition(added)?];
    Ok(Vec::from_array(alloc, items)?)
}

/// Such a trio whose first member committed the extensions, and added a candidate.
#[derive(Drop)]
pub(crate) struct ExtendedCommit {
    pub group: Trio,
    pub added: Box<Candidate<Glass>>,
    pub made: Made,
    pub reference: Secret,
}

impl ExtendedCommit {
    /// The first commits the extensions by their reference.
    pub(crate) fn new(alloc: Global) -> Result<ExtendedCommit> {
        let Extended {
            mut group,
            reference,
        } = Extended::new(alloc)?;
        let added = candidate(alloc, b'd', 8)?;
        let items = items_naming_and_adding(alloc, &reference, &added)?;
        let made = group.first.commit(&items, true, &[7; 32])?;
        Ok(ExtendedCommit {
            group,
            added,
            made,
            reference,
        })
    }
}
