//! What the list of a commit names, by what a member keeps.

ghost use Rattle.std.specs.Prelude.{◌≡◌, map, IfOk, OnOk};
ghost use Rattle.std.specs.Option.{option_copied};
ghost use Rattle.mls_model.specs.Make.{list_item_of};
ghost use Rattle.mls_model.specs.Journal.{names_in};
ghost use Rattle.mls_world_plain.specs.CommitItems.{name_of, with_name, AreNamesOf, IsNameOf, TellsReference};

use mls_leaf::{Bytes, Items};
use mls_member::Member;
use mls_model::Item;
use mls_suite::Suite;
use mls_types::ProposalOrRef;
use mls_view::{Part, ProposalOrRefView};
use std::alloc::{AllocError, Global};

/// The message of the kept proposal that one of a list names.
fn name_of<'a, S: Suite>(member: &'a Member<S>, item: &Item) -> Option<&'a [u8]>
    ensures { option_copied result ≡ name_of member.now.kept (list_item_of item.now) }
{
    match item {
        Item::Full(_) => None,
        Item::Ref(reference) => member.kept_message(reference),
    }
}

/// Whether one of a commit's list is a reference: its first byte is its type, and a reference's is 2 (RFC 9420, 12.4).
fn is_reference(listed: &Part<'_, ProposalOrRef>) -> bool
    ensures { TellsReference listed.now result }
{
    match listed.bytes() {
        [kind, ..] => *kind == 2,
        _ => false,
    }
}

/// The message of the kept proposal that one of a commit's list names.
fn name_listed<'a, S: Suite>(
    member: &'a Member<S>,
    listed: &Part<'_, ProposalOrRef>,
) -> Option<&'a [u8]>
    ensures { IsNameOf member.now.kept listed.now (option_copied result) }
{
    // A whole proposal names nothing, and isn't read past again.
    if !is_reference(listed) {
        return None;
    }
    match ProposalOrRefView::of(listed) {
        ProposalOrRefView::Proposal(_) => None,
        ProposalOrRefView::Reference(reference) => member.kept_message(reference),
    }
}

/// Adds a message, where there is one.
fn push_some(
    alloc: Global,
    names: &mut Vec<Bytes>,
    message: Option<&[u8]>,
) -> Result<(), AllocError>
    ensures { OnOk result (names.new.items ≡ with_name names.old (option_copied message.entry)) }
{
    match message {
        Some(bytes) => {
            let copy = Vec::from_slice(alloc, bytes)?;
            names.push(Bytes::from_vec(copy))?;
            Ok(())
        }
        None => Ok(()),
    }
}

/// The messages of the kept proposals that a list names, in its order.
pub(crate) fn names_in<S: Suite>(
    alloc: Global,
    member: &Member<S>,
    list: &[Item],
) -> Result<Vec<Bytes>, AllocError>
    ensures { IfOk result (λ v. v.items ≡ names_in member.now.kept (map list_item_of list.now)) }
{
    let mut names = Vec::new(alloc);
    for item in list {
        let message = name_of(member, item);
        push_some(alloc, &mut names, message)?;
    }
    Ok(names)
}

/// The messages of the kept proposals that a commit's list names, in its order. The list is only read past.
pub(crate) fn names_listed<S: Suite>(
    alloc: Global,
    member: &Member<S>,
    list: &Part<'_, Items<ProposalOrRef>>,
) -> Result<Vec<Bytes>, AllocError>
    ensures { IfOk result (λ v. AreNamesOf member.now.kept list.now v.items) }
{
    let mut names = Vec::new(alloc);
    let mut walk = list.walk();
    while let Some(listed) = walk.next() {
        let message = name_listed(member, &listed);
        push_some(alloc, &mut names, message)?;
    }
    Ok(names)
}
